// Pairs of numbers by their firsts.

ghost use Rattle.std.specs.Prelude.{◌≡◌, ◌<◌, ℕ, List, length, slice_index_or, IfOk};
ghost use Rattle.translation_order.specs.Order.{AreOfSteps};
ghost use Rattle.alias_paths.specs.inner.Search.{AreChained, AreChainsOf, IsAfterLast, first_at};

use std::alloc::Global;
use std::marker::Model;
use translation_order::steps::Edges;
use tsl_value::memory::NoMemory;

/// For each number the place after the last of its pairs, and for each pair the place after the last one before it with the same first.
/// Where there is none, this is 0.
#[derive(Drop)]
pub struct Chains {
    last: Vec<usize>,
    before: Vec<usize>,
}

/// Pairs with their chains. Contracts see the list of pairs.
#[derive(Drop)]
pub struct Links {
    pairs: Edges,
    chains: Chains,
}

impl Model for Links {
    ghost use Rattle.std.specs.Prelude.{List, ℕ};

    ghost Value = { List (ℕ × ℕ) };

    ghost view = { λ l. l.pairs };

    ghost use Rattle.alias_paths.specs.inner.Search.{AreLinked};

    ghost invariant = { λ l. AreLinked l.pairs l.chains };
}

fn no_chains(alloc: Global, count: usize) -> Result<Chains, NoMemory>
    ensures { IfOk result (λ c. (pairs : List (ℕ × ℕ)) → AreChained count pairs 0 c.last.items c.before.items) }
{
    Ok(Chains {
        last: vec![in alloc; 0; count]?,
        before: Vec::new(alloc),
    })
}

/// The chains of pairs.
fn chained(alloc: Global, count: usize, pairs: &[(u32, u32)]) -> Result<Chains, NoMemory>
    requires { AreOfSteps count pairs.now }
    ensures { IfOk result (AreChainsOf count pairs.now) }
{
    let mut chains = no_chains(alloc, count)?;
    for place in 0..pairs.len() {
        let first = pairs[place].0 as usize;
        chains.before.push(chains.last[first])?;
        chains.last[first] = place + 1;
    }
    Ok(chains)
}

impl Links {
    /// Pairs of numbers below a count.
    pub fn of(alloc: Global, count: usize, pairs: Edges) -> Result<Links, NoMemory>
        requires { AreOfSteps count pairs }
        ensures { IfOk result (λ l. l ≡ pairs) }
    {
        let chains = chained(alloc, count, pairs.as_slice())?;
        Ok(Links { pairs, chains })
    }

    /// All pairs.
    pub fn pairs(&self) -> &[(u32, u32)]
        ensures { result.now ≡ self.now }
    {
        self.pairs.as_slice()
    }

    /// The place after the last pair with this first, or 0.
    pub fn after_last(&self, first: u32) -> usize
        ensures { IsAfterLast self.now first (length self.now) result }
    {
        match self.chains.last.get(first as usize) {
            Some(after) => *after,
            None => 0,
        }
    }

    /// The place after the last pair before this one with the same first, or 0.
    pub fn after_earlier(&self, place: usize) -> usize
        requires { place < length self.now }
        ensures { IsAfterLast self.now (first_at self.now place) place result }
    {
        self.chains.before[place]
    }

    /// The second of the pair at a place.
    pub fn second(&self, place: usize) -> u32
        requires { place < length self.now }
        ensures { result ≡ (slice_index_or self.now place (0, 0)).1 }
    {
        self.pairs.as_slice()[place].1
    }
}
