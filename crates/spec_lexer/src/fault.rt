// Why a source has no tokens.

ghost use Rattle.std.specs.Prelude.{◌≡◌};
ghost use Rattle.spec_lexer.specs.declared.fault.LexFault.TheVariants.{Memory};

use std::alloc::{AllocError, AllocFailed};
use tsl_value::memory::NoMemory;
use tsl_value::place::Place;

/// Why a source has no tokens, and where.
#[derive(Clone, Copy, PartialEq, Eq, Debug)]
pub enum LexFault {
    /// The source has over 1,048,576 bytes. The place is the first of the source.
    SpecTooLong { place: Place },
    /// The source is no UTF-8. The place is that of the first byte that begins no whole character.
    BadUtf8 { place: Place },
    /// A character that begins no token, blank or comment.
    BadCharacter { place: Place },
    /// A text without an end on its line, at its first quote.
    OpenText { place: Place },
    /// A backslash in a text that no escape's character follows.
    BadEscape { place: Place },
    /// A number above 9,223,372,036,854,775,807.
    LiteralTooWide { place: Place },
    /// A text of over 65,536 bytes once its escapes are read, at its first quote.
    TextTooLong { place: Place },
    /// A name of over 255 bytes.
    NameTooLong { place: Place },
    /// Out of memory.
    Memory,
}

impl From<AllocError> for LexFault {
    ghost from_gives = { λ _ e. e ≡ Memory };

    fn from(_error: AllocError) -> LexFault {
        LexFault::Memory
    }
}

impl<T: Drop> From<AllocFailed<T>> for LexFault {
    ghost from_gives = { λ _ e. e ≡ Memory };

    fn from(_error: AllocFailed<T>) -> LexFault {
        LexFault::Memory
    }
}

impl From<NoMemory> for LexFault {
    ghost from_gives = { λ _ e. e ≡ Memory };

    fn from(_error: NoMemory) -> LexFault {
        LexFault::Memory
    }
}
