// How much the calls of a world in memory read or write at most.
ghost use Rattle.std.specs.Prelude.{◌≡◌, ◌<◌, [], ◌∷◌, ◌++◌, length, OnOk, OnErr, IfOk, slice_get, option_map};
ghost use Rattle.tsl_world.specs.inner.Sizes.{AreSizes, size_at};

use std::alloc::Global;
use std::marker::Model;
use tsl_value::memory::NoMemory;

/// How many bytes calls read or write at most, in turn.
#[derive(Drop)]
pub struct Sizes {
    items: Vec<usize>,
}

impl Model for Sizes {
    ghost use Rattle.std.specs.Prelude.{ℕ, List};

    ghost Value = { List ℕ };

    ghost view = { λ s. s.items.items };
}

impl Sizes {
    /// No sizes.
    pub fn new(alloc: Global) -> Self
        ensures { result ≡ [] }
    {
        Sizes {
            items: Vec::new(alloc),
        }
    }

    /// Appends a size.
    pub fn push(&mut self, item: usize) -> Result<(), NoMemory>
        ensures ok { OnOk result (self.new ≡ self.old ++ item ∷ []) }
        ensures err { OnErr result (self.new ≡ self.old) }
    {
        self.items.push(item)?;
        Ok(())
    }

    /// How many sizes there are.
    pub fn len(&self) -> usize
        ensures { result ≡ length self.now }
    {
        self.items.len()
    }

    /// Lends the size at a place, counted from 0.
    pub fn get(&self, place: usize) -> Option<&usize>
        ensures { option_map (λ size. size.now) result ≡ slice_get self.now place }
    {
        self.items.get(place)
    }

    // One size.
    pub(crate) fn one(alloc: Global, size: usize) -> Result<Self, NoMemory>
        ensures { IfOk result (λ sizes. sizes ≡ size ∷ []) }
    {
        let mut sizes = Sizes::new(alloc);
        sizes.push(size)?;
        Ok(sizes)
    }

    // The size for the call of this number.
    #[tactic(auto, using(crate::proofs::SizeLemmas::size_some))]
    pub(crate) fn at(&self, call: u64) -> usize
        requires { AreSizes self.now }
        ensures size { result ≡ size_at self.now call }
        ensures some { 0 < result }
    {
        let place = call % self.items.len() as u64;
        self.items[place as usize]
    }
}
