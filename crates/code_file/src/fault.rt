// Why code is not written, or bytes are no code.

ghost use Rattle.std.specs.Prelude.{◌≡◌};

use std::alloc::AllocFailed;
use tsl_value::ids::EqId;
use tsl_value::memory::NoMemory;

/// Why code is not written, or bytes are read as no code: the first cause in this order.
#[derive(Clone, Copy, PartialEq, Eq, Debug)]
pub enum CodeFault {
    /// More than 2^30 bytes.
    TooLong,
    /// The bytes spell no code.
    WrongForm,
    /// An equation breaks arity or types, or runs and has an argument that does not. It is the least.
    WrongTypes { equation: EqId },
    /// A cycle of arguments has no first argument of a last or of a delay.
    Cycle,
    /// The updates cannot all happen in place together, or the order of the steps does not let them.
    NotFine,
    /// Out of memory. This alone says nothing of the code or of the bytes.
    Memory,
}

impl From<NoMemory> for CodeFault {
    ghost use Rattle.code_file.specs.declared.fault.CodeFault.TheVariants.{Memory};

    ghost from_gives = { λ _ fault. fault ≡ Memory };

    fn from(_none: NoMemory) -> CodeFault {
        CodeFault::Memory
    }
}

impl<T: Drop> From<AllocFailed<T>> for CodeFault {
    ghost use Rattle.code_file.specs.declared.fault.CodeFault.TheVariants.{Memory};

    ghost from_gives = { λ _ fault. fault ≡ Memory };

    fn from(_error: AllocFailed<T>) -> CodeFault {
        CodeFault::Memory
    }
}
