// Laws of value functions, as the contracts of functions that do nothing.

ghost use Rattle.checked_spec.specs.inner.FunctionLaws.{FunctionsAreTyped};

/// Each value function of a checked specification has at most eight parameters, gives a scalar or an option of one, and has a body of
/// the type of its result.
pub fn functions_are_typed()
    ensures { FunctionsAreTyped }
{}
