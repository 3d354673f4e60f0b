// The pending delays in a tree that has the one that is due first at its root.

ghost use Rattle.std.specs.Prelude.{◌≡◌, ◌+◌, ◌<◌, IfOk, IfNone, IfSome, IsTrue, MatchOption};
ghost use Rattle.std.specs.FinMap as map;
ghost use Rattle.delay_timers.specs.inner.Pending.{AreBelowCapacity, NoneIsDueAt, IsLeastDueAt};
ghost use Rattle.delay_timers.specs.inner.Tournament.{IsFirstDue};

use crate::tree::{Due, change_leaf, first_leaf_at};
use std::alloc::Global;
use std::cmp::Ordering;
use std::marker::Model;
use tsl_value::memory::NoMemory;
use tsl_value::time::Time;

/// Pending delays, each with the time at which it is due. A change of one walks up to the root.
#[derive(Drop)]
pub struct Tournament {
    delays: usize,
    nodes: Vec<Option<Due>>,
}

impl Model for Tournament {
    ghost use Rattle.std.specs.Prelude.{drop};
    ghost use Rattle.delay_timers.specs.inner.Pending.{Pending, pending_code};

    ghost Value = { Pending };

    ghost coded = { pending_code };

    ghost use Rattle.delay_timers.specs.inner.Tournament.{IsTree, times_of};

    ghost view = { λ t. record { capacity = t.delays; times = times_of (drop t.delays t.nodes.items) } };

    ghost invariant = { λ t. IsTree t.nodes.items t.delays };
}

impl Tournament {
    /// Room for so many delays, of which none is pending. No other call takes memory.
    pub fn with_capacity(alloc: Global, delays: u32) -> Result<Tournament, NoMemory>
        ensures { IfOk result (λ t. t ≡ record { capacity = delays; times = map.empty }) }
    {
        let delays = delays as usize;
        let nodes = vec![in alloc; None; 2 * delays]?;
        Ok(Tournament { delays, nodes })
    }

    /// Lets a delay be due at this time and at no other.
    pub fn set(&mut self, delay: u32, at: Time)
        requires { delay < self.old.capacity }
        ensures { self.new ≡ record self.old { times = map.insert self.old.times delay at } }
    {
        let due = Due { time: at, delay };
        change_leaf(
            self.nodes.as_mut_slice(),
            self.delays,
            delay as usize,
            Some(due),
        );
    }

    /// Lets a delay not be pending. It is fast where it is not.
    pub fn cancel(&mut self, delay: u32)
        requires { delay < self.old.capacity }
        ensures { self.new ≡ record self.old { times = map.remove self.old.times delay } }
    {
        if self.at(delay).is_some() {
            change_leaf(self.nodes.as_mut_slice(), self.delays, delay as usize, None);
        }
    }

    /// When a delay is due. `None` exactly where it is not pending.
    pub fn at(&self, delay: u32) -> Option<Time>
        requires { delay < self.now.capacity }
        ensures { result ≡ map.get self.now.times delay }
    {
        match self.nodes[self.delays + delay as usize] {
            Some(due) => Some(due.time),
            None => None,
        }
    }

    /// Takes out the least delay that is due at just this time. `None` exactly where there is none. It is fast where no
    /// earlier time is pending.
    pub fn take_due(&mut self, at: Time) -> Option<u32>
        ensures due { MatchOption result (NoneIsDueAt self.old.times at) (IsLeastDueAt self.old.times at) }
        ensures taken { IfSome result (λ delay. self.new ≡ record self.old { times = map.remove self.old.times delay }) }
        ensures none { IfNone result (self.new ≡ self.old) }
        ensures bounded { IfSome result (λ delay. delay < self.old.capacity) }
    {
        let delay = self.first_at(at)?;
        self.cancel(delay);
        Some(delay)
    }

    /// The delay that is due first of all.
    pub fn first(&self) -> Option<Due>
        ensures first { MatchOption result (self.now.times ≡ map.empty) (IsFirstDue self.now.times) }
        ensures bounded { AreBelowCapacity self.now }
    {
        if self.delays == 0 {
            None
        } else {
            self.nodes[1]
        }
    }

    /// No delay is pending.
    pub fn is_empty(&self) -> bool
        ensures empty { IsTrue result → self.now.times ≡ map.empty }
        ensures bounded { AreBelowCapacity self.now }
    {
        self.first().is_none()
    }

    /// The least delay that is due at just this time.
    fn first_at(&self, at: Time) -> Option<u32>
        ensures due { MatchOption result (NoneIsDueAt self.now.times at) (IsLeastDueAt self.now.times at) }
        ensures bounded { IfSome result (λ delay. delay < self.now.capacity) }
    {
        let first = self.first()?;
        match first.time.cmp(&at) {
            Ordering::Equal => Some(first.delay),
            Ordering::Greater => None,
            Ordering::Less => first_leaf_at(self.nodes.as_slice(), self.delays, at),
        }
    }
}
