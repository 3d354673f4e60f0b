// Why a walk over expressions ends early.

ghost use Rattle.std.specs.Prelude.{◌≡◌, IfOk};
ghost use Rattle.expr_types.specs.declared.stop.Stop.TheVariants as stop;

use crate::wrong::Wrong;
use tsl_value::memory::NoMemory;

/// Why a walk over expressions ends early.
#[derive(Clone, Copy, PartialEq, Eq, Debug)]
pub enum Stop {
    /// The first that does not fit.
    Wrong(Wrong),
    /// Out of memory.
    Memory,
}

impl Stop {
    /// What does not fit, unless out of memory.
    pub(crate) fn wrong(self) -> Result<Wrong, NoMemory>
        ensures { IfOk result (λ wrong. self ≡ stop.Wrong wrong) }
    {
        match self {
            Stop::Wrong(wrong) => Ok(wrong),
            Stop::Memory => Err(NoMemory),
        }
    }
}

impl From<NoMemory> for Stop {
    ghost use Rattle.std.specs.Prelude.{◌≡◌};
    ghost use Rattle.expr_types.specs.declared.stop.Stop.TheVariants as stop;

    ghost from_gives = { λ _ e. e ≡ stop.Memory };

    fn from(_error: NoMemory) -> Stop {
        Stop::Memory
    }
}
