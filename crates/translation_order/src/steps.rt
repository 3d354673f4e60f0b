// Lists of steps and of pairs of steps. A step is a number, such as that of an equation or of a node of a graph.

ghost use Rattle.std.specs.Prelude.{◌≡◌, ◌<◌, ◌∷◌, [], ◌++◌, ℕ, List, length, slice_get, is_ok, if◌then◌else◌, IfOk, MatchOption};
ghost use Rattle.std.specs.List.{Contains};
ghost use Rattle.std.specs.Option.{option_copied};
ghost use Rattle.translation_order.specs.inner.Joined.{AreJoined};

use std::alloc::Global;
use std::marker::Model;
use tsl_value::memory::NoMemory;

/// A list of steps, which contracts see as a list of numbers.
#[derive(Drop)]
pub struct Steps {
    numbers: Vec<u32>,
}

impl Model for Steps {
    ghost use Rattle.std.specs.Prelude.{List, ℕ};

    ghost Value = { List ℕ };

    ghost view = { λ s. s.numbers.items };
}

impl Steps {
    /// No step.
    pub fn new(alloc: Global) -> Steps
        ensures { result ≡ [] }
    {
        Steps {
            numbers: Vec::new(alloc),
        }
    }

    /// Appends a step.
    pub fn push(&mut self, step: u32) -> Result<(), NoMemory>
        ensures { self.new ≡ (if is_ok result then self.old ++ step ∷ [] else self.old) }
    {
        self.numbers.push(step)?;
        Ok(())
    }

    /// The number of steps.
    pub fn len(&self) -> usize
        ensures { result ≡ length self.now }
    {
        self.numbers.len()
    }

    /// The step at a place counted from 0, if there is one.
    pub fn get(&self, place: usize) -> Option<&u32>
        ensures { option_copied result ≡ slice_get self.now place }
    {
        self.numbers.get(place)
    }

    /// All steps in order.
    pub fn as_slice(&self) -> &[u32]
        ensures { result.now ≡ self.now }
    {
        self.numbers.as_slice()
    }

    /// All numbers below one.
    pub(crate) fn below(alloc: Global, count: u32) -> Result<Steps, NoMemory>
        ensures within { IfOk result (λ v. (x : ℕ) → Contains v x → x < count) }
        ensures all { IfOk result (λ v. (x : ℕ) → x < count → Contains v x) }
    {
        let mut numbers = Vec::new(alloc);
        for node in 0..count {
            numbers.push(node)?;
        }
        Ok(Steps { numbers })
    }

    /// The same steps once more.
    pub(crate) fn copied(&self, alloc: Global) -> Result<Steps, NoMemory>
        ensures { IfOk result (λ v. v ≡ self.now) }
    {
        Ok(Steps {
            numbers: Vec::from_slice(alloc, self.numbers.as_slice())?,
        })
    }

    /// Takes the last step off.
    pub(crate) fn pop(&mut self) -> Option<u32>
        ensures { MatchOption result ((self.old ≡ []) × (self.new ≡ [])) (λ x. self.old ≡ self.new ++ x ∷ []) }
    {
        self.numbers.pop()
    }

    /// The last step.
    pub(crate) fn last(&self) -> Option<u32>
        ensures { MatchOption result (self.now ≡ []) (λ x. (front : List ℕ) × (self.now ≡ front ++ x ∷ [])) }
    {
        self.numbers.as_slice().last().copied()
    }

    /// The steps of both lists. The shorter list is appended to the longer one, so however lists are joined, no step
    /// is moved more often than the logarithm of their number.
    pub(crate) fn joined(self, other: Steps) -> Result<Steps, NoMemory>
        ensures { IfOk result (AreJoined self other) }
    {
        if self.numbers.len() < other.numbers.len() {
            other.with(&self)
        } else {
            self.with(&other)
        }
    }

    /// With the steps of another list after.
    fn with(self, other: &Steps) -> Result<Steps, NoMemory>
        ensures { IfOk result (λ v. v ≡ self ++ other.now) }
    {
        let mut numbers = self.numbers;
        numbers.extend_from_slice(other.numbers.as_slice())?;
        Ok(Steps { numbers })
    }
}

/// A list of pairs of steps, such as of one step and another that has to stand after it. Contracts see a list of pairs.
#[derive(Drop)]
pub struct Edges {
    pairs: Vec<(u32, u32)>,
}

impl Model for Edges {
    ghost use Rattle.std.specs.Prelude.{List, ℕ};

    ghost Value = { List (ℕ × ℕ) };

    ghost view = { λ e. e.pairs.items };
}

impl Edges {
    /// No pair.
    pub fn new(alloc: Global) -> Edges
        ensures { result ≡ [] }
    {
        Edges {
            pairs: Vec::new(alloc),
        }
    }

    /// Appends a pair.
    pub fn push(&mut self, pair: (u32, u32)) -> Result<(), NoMemory>
        ensures { self.new ≡ (if is_ok result then self.old ++ pair ∷ [] else self.old) }
    {
        self.pairs.push(pair)?;
        Ok(())
    }

    /// The number of pairs.
    pub fn len(&self) -> usize
        ensures { result ≡ length self.now }
    {
        self.pairs.len()
    }

    /// The pair at a place counted from 0, if there is one.
    pub fn get(&self, place: usize) -> Option<&(u32, u32)>
        ensures { option_copied result ≡ slice_get self.now place }
    {
        self.pairs.get(place)
    }

    /// All pairs in order.
    pub fn as_slice(&self) -> &[(u32, u32)]
        ensures { result.now ≡ self.now }
    {
        self.pairs.as_slice()
    }
}
