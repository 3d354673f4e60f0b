// Why bytes are no state of a program.

ghost use Rattle.std.specs.Prelude.{◌≡◌};

use std::alloc::AllocFailed;
use tsl_value::memory::NoMemory;

/// Why bytes are read as no state.
#[derive(Clone, Copy, PartialEq, Eq, Debug)]
pub enum StateFault {
    /// They begin as the state of another program: with the mark, and with a text that is not this code's.
    OtherProgram,
    /// They do not, and spell no state that fits this code.
    WrongForm,
    /// Out of memory. This alone says nothing of the bytes.
    Memory,
}

impl From<NoMemory> for StateFault {
    ghost use Rattle.state_snapshot.specs.declared.fault.StateFault.TheVariants.{Memory};

    ghost from_gives = { λ _ fault. fault ≡ Memory };

    fn from(_none: NoMemory) -> StateFault {
        StateFault::Memory
    }
}

impl<T: Drop> From<AllocFailed<T>> for StateFault {
    ghost use Rattle.state_snapshot.specs.declared.fault.StateFault.TheVariants.{Memory};

    ghost from_gives = { λ _ fault. fault ≡ Memory };

    fn from(_none: AllocFailed<T>) -> StateFault {
        StateFault::Memory
    }
}
