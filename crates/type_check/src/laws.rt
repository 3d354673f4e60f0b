// Laws of the check.

ghost use Rattle.type_check.specs.inner.Laws.{AcceptedHasNoFault, OneFault, OneKinds};

/// Where there is no cycle the declared names are one thing.
#[tactic(auto, using(crate::proofs::LawLemmas::one_kinds))]
pub fn one_kinds()
    ensures { OneKinds }
{}

/// A specification has at most one first fault.
#[tactic(auto, using(crate::proofs::LawLemmas::one_fault))]
pub fn one_fault()
    ensures { OneFault }
{}

/// A specification that is accepted has no fault.
#[tactic(auto, using(crate::proofs::LawLemmas::accepted_has_no_fault))]
pub fn accepted_has_no_fault()
    ensures { AcceptedHasNoFault }
{}
