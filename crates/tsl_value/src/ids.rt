// The numbers of equations and of cells.

ghost use Rattle.std.specs.Prelude.{◌≡◌};

use std::marker::Model;

/// The number of an equation.
#[derive(Clone, Copy, PartialEq, Eq, PartialOrd, Ord, Debug, Default)]
pub struct EqId {
    number: u32,
}

impl Model for EqId {
    ghost use Rattle.std.specs.Prelude.{ℕ};

    ghost Value = { ℕ };

    ghost view = { λ e. e.number };

    ghost inverse = { λ n. record { number = n } };
}

impl EqId {
    /// The equation of this number.
    pub fn new(number: u32) -> EqId
        ensures { result ≡ number }
    {
        EqId { number }
    }

    /// Its number.
    pub fn get(self) -> u32
        ensures { result ≡ self }
    {
        self.number
    }
}

/// Names a cell of a store.
#[derive(Clone, Copy, PartialEq, Eq, PartialOrd, Ord, Debug)]
pub struct Handle {
    number: u64,
}

impl Model for Handle {
    ghost use Rattle.std.specs.Prelude.{ℕ};

    ghost Value = { ℕ };

    ghost view = { λ h. h.number };

    ghost inverse = { λ n. record { number = n } };
}

impl Handle {
    /// The name of this number.
    pub fn new(number: u64) -> Handle
        ensures { result ≡ number }
    {
        Handle { number }
    }

    /// Its number.
    pub fn get(self) -> u64
        ensures { result ≡ self }
    {
        self.number
    }
}
