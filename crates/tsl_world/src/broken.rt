// What cuts a run short.

use crate::outside::Failed;
use std::alloc::AllocError;
use tsl_value::memory::NoMemory;

/// What cut a run short.
#[derive(Clone, Copy, PartialEq, Eq, Debug)]
pub enum Broken {
    /// A call of the outside failed.
    Outside,
    /// Out of memory.
    Memory,
}

impl From<Failed> for Broken {
    ghost use Rattle.std.specs.Prelude.{◌≡◌};
    ghost use Rattle.tsl_world.specs.declared.broken.Broken.TheVariants.{Outside};

    ghost from_gives = { λ _ broken. broken ≡ Outside };

    fn from(_failed: Failed) -> Broken {
        Broken::Outside
    }
}

impl From<NoMemory> for Broken {
    ghost use Rattle.std.specs.Prelude.{◌≡◌};
    ghost use Rattle.tsl_world.specs.declared.broken.Broken.TheVariants.{Memory};

    ghost from_gives = { λ _ broken. broken ≡ Memory };

    fn from(_none: NoMemory) -> Broken {
        Broken::Memory
    }
}

impl From<AllocError> for Broken {
    ghost use Rattle.std.specs.Prelude.{◌≡◌};
    ghost use Rattle.tsl_world.specs.declared.broken.Broken.TheVariants.{Memory};

    ghost from_gives = { λ _ broken. broken ≡ Memory };

    fn from(_none: AllocError) -> Broken {
        Broken::Memory
    }
}
