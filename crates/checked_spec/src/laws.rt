// What holds of the bodies of a checked specification, as the contracts of functions that do nothing.

ghost use Rattle.checked_spec.specs.Laws.{StreamsAreTyped, MacrosAreTyped, OutputsAreTyped, NamedOutputsAreTyped, FunctionBodiesAreTyped};
ghost use Rattle.checked_spec.specs.Laws.{LiftIsNoFunction};

/// The body of a definition without parameters is a stream of the type of the definition.
#[tactic(auto, using(crate::proofs::BodyLaws::streams_are_typed))]
pub fn streams_are_typed()
    ensures { StreamsAreTyped }
{}

/// The result of a macro and the definitions of its block are streams, of the types of the macro and of these definitions.
#[tactic(auto, using(crate::proofs::BodyLaws::macros_are_typed))]
pub fn macros_are_typed()
    ensures { MacrosAreTyped }
{}

/// What an output mentions is a stream.
#[tactic(auto, using(crate::proofs::BodyLaws::outputs_are_typed))]
pub fn outputs_are_typed()
    ensures { OutputsAreTyped }
{}

/// The expression of a named output is a stream.
#[tactic(auto, using(crate::proofs::BodyLaws::named_outputs_are_typed))]
pub fn named_outputs_are_typed()
    ensures { NamedOutputsAreTyped }
{}

/// The body of a value function is an expression of the type that a call of it gives.
#[tactic(auto, using(crate::proofs::BodyLaws::function_bodies_are_typed))]
pub fn function_bodies_are_typed()
    ensures { FunctionBodiesAreTyped }
{}

/// No value function is called `lift`.
#[tactic(auto, using(crate::proofs::OwnNames::lift_is_no_function))]
pub fn lift_is_no_function()
    ensures { LiftIsNoFunction }
{}
