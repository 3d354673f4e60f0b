// A law of value functions.

ghost use Rattle.lift_func.specs.Typing.{TypedBodiesFit};

/// A well typed body at arguments of its kinds has a value of its own kind, or a fault.
pub fn typed_bodies_fit()
    ensures { TypedBodiesFit }
{}
