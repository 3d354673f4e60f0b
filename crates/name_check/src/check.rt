// The check of the names of a specification.

ghost use Rattle.name_check.specs.inner.Answer.{IsAnswer};

use crate::names::Names;
use crate::twice::declare_items;
use crate::unknown::find_in_items;
use std::alloc::Global;
use syntax_tree::tree::Tree;
use tsl_value::memory::NoMemory;
use tsl_value::place::Place;

/// Why the names of a specification are refused.
#[derive(Clone, Copy, PartialEq, Eq, Debug)]
pub enum NameFault {
    /// The name at the place is declared a second time in its scope, or the language has it itself.
    DefinedTwice { place: Place },
    /// The name at the place is not declared there, or is a function that is not called. Or `lift` has no value function
    /// there.
    UnknownName { place: Place },
    /// Out of memory.
    Memory,
}

impl From<NoMemory> for NameFault {
    ghost use Rattle.std.specs.Prelude.{◌≡◌};
    ghost use Rattle.name_check.specs.declared.check.NameFault.TheVariants as fault;

    ghost from_gives = { λ _ e. e ≡ fault.Memory };

    fn from(_error: NoMemory) -> NameFault {
        NameFault::Memory
    }
}

/// The names that are seen at the top of a specification, or the first name that is declared twice, or else the first that is
/// not declared where it stands.
pub fn check_names(alloc: Global, tree: &Tree) -> Result<Names, NameFault>
    ensures { IsAnswer tree.now result }
{
    let names = declare_items(alloc, tree.items())?;
    match find_in_items(alloc, tree.items(), &names)? {
        Some(place) => Err(NameFault::UnknownName { place }),
        None => Ok(names),
    }
}
