// What holds of all expressions.

ghost use Rattle.expr_types.specs.inner.Alike.{HasKindByNames};

/// Of a table of kinds an expression's type depends only on what the table says of the names that the expression mentions.
#[tactic(auto, using(crate::proofs::AlikeLemmas::judged_by_kinds))]
pub fn kind_by_names()
    ensures { HasKindByNames }
{}
