// Laws of the two refusals, as the contracts of functions that do nothing.

ghost use Rattle.call_limits.specs.inner.Laws.{OneMacroCycle, OneTooDeep};

/// At most one place is that of the first cycle of macros.
#[tactic(auto, using(crate::proofs::LawLemmas::one_macro_cycle))]
pub fn one_macro_cycle()
    ensures { OneMacroCycle }
{}

/// At most one place is the first where calls nest too deep.
#[tactic(auto, using(crate::proofs::LawLemmas::one_too_deep))]
pub fn one_too_deep()
    ensures { OneTooDeep }
{}
