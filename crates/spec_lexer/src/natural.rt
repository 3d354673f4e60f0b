// Numbers as literals have them.

ghost use Rattle.std.specs.Prelude.{◌≡◌, ◌<◌, ◌^◌, pos, neg_ℤ};

use std::marker::Model;

/// A number from 0 to 2^63 - 1, the greatest Int.
#[derive(Clone, Copy, PartialEq, Eq, Debug)]
pub struct Natural {
    value: u64,
}

impl Model for Natural {
    ghost use Rattle.std.specs.Prelude.{ℕ, ◌^◌, ◌<◌};

    ghost Value = { ℕ };

    ghost view = { λ n. n.value };

    ghost invariant = { λ n. n.value < 2 ^ 63 };

    ghost inverse = { λ n. record { value = n } };
}

impl Natural {
    /// This number.
    pub fn new(value: u64) -> Natural
        requires { value < 2 ^ 63 }
        ensures { result ≡ value }
    {
        Natural { value }
    }

    /// Its value.
    pub fn get(self) -> u64
        ensures { result ≡ self }
    {
        self.value
    }

    /// It as an Int.
    pub fn to_int(self) -> i64
        ensures { result ≡ pos self }
    {
        self.value as i64
    }

    /// The Int with a minus before it.
    pub fn to_negative(self) -> i64
        ensures { result ≡ neg_ℤ (pos self) }
    {
        -(self.value as i64)
    }
}
