// Laws of value functions.

ghost use Rattle.function_bodies.specs.inner.Laws.{DepthIsEnough, BodiesArePlaced};

/// Calls nest no deeper than there are items: no greater depth makes another tree.
#[tactic(auto, using(crate::proofs::LawLemmas::depth_is_enough))]
pub fn depth_is_enough()
    ensures { DepthIsEnough }
{}

/// A call is the called function's body with the operands in the place of its arguments.
#[tactic(auto, using(crate::proofs::LawLemmas::bodies_are_placed))]
pub fn bodies_are_placed()
    ensures { BodiesArePlaced }
{}
