// The names that the language has itself.

ghost use Rattle.std.specs.Prelude.{◌≡◌};
ghost use Rattle.std.specs.List.{list_any};
ghost use Rattle.std.specs.Str.{bytes_eq};
ghost use Rattle.name_check.specs.Builtin.{is_called, is_unit, is_lift, is_built_in, prefixes};

use vocabulary::dotted::family_named;
use vocabulary::plain::{Plain, plain_named};

/// A built-in name that is called with arguments.
pub fn is_called(name: &str) -> bool
    ensures { result ≡ is_called name.now }
{
    plain_named(name).is_some()
}

/// The name of the one value of type Unit.
#[tactic(auto, unfolding(crate::specs::Builtin::is_unit))]
pub fn is_unit(name: &str) -> bool
    ensures { result ≡ is_unit name.now }
{
    name == "unit"
}

/// The built-in name whose last argument names a function.
#[tactic(auto, unfolding(crate::specs::Builtin::is_lift))]
pub fn is_lift(name: &str) -> bool
    ensures { result ≡ is_lift name.now }
{
    name == Plain::Lift.name()
}

/// A built-in name that stands before a bracket or a dot alone.
fn is_prefix(name: &str) -> bool
    ensures { result ≡ list_any (bytes_eq name.now) prefixes }
{
    name == "nil" || name == "None" || family_named(name).is_some()
}

/// A name that the language has itself.
#[tactic(auto, unfolding(crate::specs::Builtin::is_built_in, crate::specs::Builtin::is_called, crate::specs::Builtin::is_unit))]
pub fn is_built_in(name: &str) -> bool
    ensures { result ≡ is_built_in name.now }
{
    is_unit(name) || is_called(name) || is_prefix(name)
}
