// Numbers in place of those of equations.

ghost use Rattle.std.specs.Prelude.{◌≡◌, ◌<◌, ◌∷◌, [], ◌++◌, length, slice_get, slice_set, is_ok, if◌then◌else◌};
ghost use Rattle.std.specs.Option.{option_copied};
ghost use Rattle.flat_core.specs.Renumbered.{new_number};

use std::alloc::Global;
use std::marker::Model;
use tsl_value::ids::EqId;
use tsl_value::memory::NoMemory;

/// A number for each equation, the first for equation 0. Contracts see a list of numbers.
#[derive(Drop)]
pub struct Replacements {
    ids: Vec<EqId>,
}

impl Model for Replacements {
    ghost use Rattle.std.specs.Prelude.{List, ℕ};

    ghost Value = { List ℕ };

    ghost view = { λ r. r.ids.items };
}

impl Replacements {
    /// No number.
    pub fn new(alloc: Global) -> Replacements
        ensures { result ≡ [] }
    {
        Replacements {
            ids: Vec::new(alloc),
        }
    }

    /// Appends the number of the next equation.
    pub fn push(&mut self, id: EqId) -> Result<(), NoMemory>
        ensures { self.new ≡ (if is_ok result then self.old ++ id ∷ [] else self.old) }
    {
        self.ids.push(id)?;
        Ok(())
    }

    /// Gives an equation another number.
    pub fn set(&mut self, equation: EqId, id: EqId)
        requires { equation < length self.old }
        ensures { self.new ≡ slice_set self.old equation id }
    {
        self.ids[equation.get() as usize] = id;
    }

    /// The number of equations that have one.
    pub fn len(&self) -> usize
        ensures { result ≡ length self.now }
    {
        self.ids.len()
    }

    /// The number of the equation at a place counted from 0, if it has one.
    pub fn get(&self, place: usize) -> Option<&EqId>
        ensures { option_copied result ≡ slice_get self.now place }
    {
        self.ids.get(place)
    }

    /// The number that an equation has, or else its own.
    pub fn new_number(&self, id: EqId) -> EqId
        ensures { result ≡ new_number self.now id }
    {
        self.get(id.get() as usize).copied().unwrap_or(id)
    }
}
