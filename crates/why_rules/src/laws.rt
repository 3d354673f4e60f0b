// The law of derivations, as the contract of a function that does nothing.

ghost use Rattle.why_rules.specs.Derivation.{DerivationsAreForced};

/// Each fact of a derivation holds in every solution that has no fault up to the time of the fact.
pub fn derivations_are_forced()
    ensures { DerivationsAreForced }
{}
