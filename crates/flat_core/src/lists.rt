// Lists of equations, which contracts see as lists of numbers.

ghost use Rattle.std.specs.Prelude.{◌≡◌, ℕ, ◌∷◌, [], ◌++◌, ◌==◌, ◌||◌, length, map, slice_get, is_ok, if◌then◌else◌, IfOk, OnOk, OnErr};
ghost use Rattle.std.specs.Prelude.{IsTrue};
ghost use Rattle.std.specs.Option.{option_copied};
ghost use Rattle.std.specs.List.Sorted.{IsStrictlyIncreasing};
ghost use Rattle.flat_core.specs.Members.{is_in, IsPlace};
ghost use Rattle.flat_core.specs.Renumbered.{new_number};

use crate::replacements::Replacements;
use smallvec::SmallVec;
use std::alloc::Global;
use std::marker::Model;
use tsl_value::ids::EqId;
use tsl_value::memory::NoMemory;

/// The arguments of an equation, in order. Up to four lie in line.
#[derive(Drop)]
pub struct Args {
    ids: SmallVec<EqId, 4>,
}

impl Model for Args {
    ghost use Rattle.std.specs.Prelude.{List, ℕ};

    ghost Value = { List ℕ };

    ghost view = { λ a. a.ids.items };
}

impl Args {
    /// No argument.
    pub fn new(alloc: Global) -> Args
        ensures { result ≡ [] }
    {
        Args {
            ids: SmallVec::new(alloc),
        }
    }

    /// Appends an argument.
    pub fn push(&mut self, id: EqId) -> Result<(), NoMemory>
        ensures { self.new ≡ (if is_ok result then self.old ++ id ∷ [] else self.old) }
    {
        self.ids.push(id)?;
        Ok(())
    }

    /// The number of arguments.
    pub fn len(&self) -> usize
        ensures { result ≡ length self.now }
    {
        self.ids.len()
    }

    /// The argument at a place counted from 0, if there is one.
    pub fn get(&self, place: usize) -> Option<&EqId>
        ensures { option_copied result ≡ slice_get self.now place }
    {
        self.ids.as_slice().get(place)
    }

    /// All arguments in order.
    pub fn ids(&self) -> &[EqId]
        ensures { result.now ≡ self.now }
    {
        self.ids.as_slice()
    }

    /// Puts the number that each argument has in its place.
    pub(crate) fn replace(&mut self, replaced: &Replacements)
        ensures { self.new ≡ map (new_number replaced.now) self.old }
    {
        replace_all(self.ids.as_mut_slice(), replaced);
    }

    /// Equal arguments.
    pub fn copy(&self) -> Result<Args, NoMemory>
        ensures { IfOk result (λ a. a ≡ self.now) }
    {
        let ids = SmallVec::from_slice(*self.ids.allocator(), self.ids.as_slice())?;
        Ok(Args { ids })
    }
}

fn replace_all(ids: &mut [EqId], replaced: &Replacements)
    ensures { ids.new ≡ map (new_number replaced.now) ids.old }
{
    for id in ids.iter_mut() {
        *id = replaced.new_number(*id);
    }
}

/// A set of equations, in ascending order.
#[derive(Drop)]
pub struct EqSet {
    ids: Vec<EqId>,
}

impl Model for EqSet {
    ghost use Rattle.std.specs.Prelude.{List, ℕ};
    ghost use Rattle.std.specs.List.Sorted.{IsStrictlyIncreasing};

    ghost Value = { List ℕ };

    ghost view = { λ s. s.ids.items };

    ghost invariant = { λ s. IsStrictlyIncreasing s.ids.items };
}

impl EqSet {
    /// No equation.
    pub fn new(alloc: Global) -> EqSet
        ensures { result ≡ [] }
    {
        EqSet {
            ids: Vec::new(alloc),
        }
    }

    /// The place of an equation, or else the one at which it would be put.
    fn find(&self, id: EqId) -> Result<usize, usize>
        ensures { IsPlace self.now id result }
    {
        self.ids.binary_search(&id)
    }

    /// Puts an equation at its place. One that is there already changes nothing.
    pub fn push(&mut self, id: EqId) -> Result<(), NoMemory>
        ensures ascending { IsStrictlyIncreasing self.new }
        ensures members { OnOk result ((j : ℕ) → is_in self.new j ≡ (id == j) || is_in self.old j) }
        ensures there { IsTrue (is_in self.old id) → self.new ≡ self.old }
        ensures err { OnErr result (self.new ≡ self.old) }
    {
        match self.find(id) {
            Ok(_) => Ok(()),
            Err(place) => {
                self.ids.insert(place, id)?;
                Ok(())
            }
        }
    }

    /// The number of equations.
    ///
    /// Its second clause gives callers what every set has.
    pub fn len(&self) -> usize
        ensures count { result ≡ length self.now }
        ensures ascending { IsStrictlyIncreasing self.now }
    {
        self.ids.len()
    }

    /// Asserts that the set is in ascending order, as each is. Nothing is done. A caller whose proof needs this of a set says so here.
    pub fn assert_ascending(&self)
        ensures { IsStrictlyIncreasing self.now }
    {
        // The invariant is known where a field is used.
        let _ = &self.ids;
    }

    /// The equation at a place counted from 0, if there is one.
    pub fn get(&self, place: usize) -> Option<&EqId>
        ensures { option_copied result ≡ slice_get self.now place }
    {
        self.ids.get(place)
    }

    /// Whether an equation is there.
    pub fn contains(&self, id: EqId) -> bool
        ensures { result ≡ is_in self.now id }
    {
        self.find(id).is_ok()
    }
}
