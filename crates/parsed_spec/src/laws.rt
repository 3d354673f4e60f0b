// The law as the contract of a function that does nothing.

ghost use Rattle.parsed_spec.specs.inner.Laws.{SpelledHaveOperators};

/// Each chain in the bodies of items that tokens spell has operators of its level.
#[tactic(auto, using(crate::proofs::Chains::spelled_have_operators))]
pub fn spelled_have_operators()
    ensures { SpelledHaveOperators }
{}
