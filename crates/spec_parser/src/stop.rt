// Why reading stops.

ghost use Rattle.std.specs.Prelude.{◌≡◌};
ghost use Rattle.spec_parser.specs.declared.stop.Stop.TheVariants.{Memory};

use spec_lexer::token::Token;
use std::alloc::{AllocError, AllocFailed};
use tsl_value::memory::NoMemory;

/// Why reading stops, and the tokens that are left.
#[derive(Drop)]
pub(crate) enum Stop<'a> {
    /// The first of these does not fit, or there is none.
    Unexpected(&'a [Token]),
    /// The token before these opens a level too deep.
    TooDeep(&'a [Token]),
    Memory,
}

impl From<AllocError> for Stop<'_> {
    ghost from_gives = { λ _ e. e ≡ Memory };

    fn from(_error: AllocError) -> Self {
        Stop::Memory
    }
}

impl<T: Drop> From<AllocFailed<T>> for Stop<'_> {
    ghost from_gives = { λ _ e. e ≡ Memory };

    fn from(_error: AllocFailed<T>) -> Self {
        Stop::Memory
    }
}

impl From<NoMemory> for Stop<'_> {
    ghost from_gives = { λ _ e. e ≡ Memory };

    fn from(_error: NoMemory) -> Self {
        Stop::Memory
    }
}
