// The pending delays, which contracts see as a map from delays to times.

ghost use Rattle.std.specs.Prelude.{◌≡◌, ◌+◌, ◌<◌, IfOk, IfNone, IfSome, IsTrue, MatchOption};
ghost use Rattle.std.specs.FinMap as map;
ghost use Rattle.delay_timers.specs.inner.Pending.{AreBelowCapacity, IsLeastTime, NoneIsDueAt, IsLeastDueAt};

use crate::apart::{arrange, other_than, take_other};
use crate::tournament::Tournament;
use crate::tree::Due;
use std::alloc::Global;
use std::cmp::Ordering;
use std::marker::Model;
use tsl_value::memory::NoMemory;
use tsl_value::time::Time;

/// The delays that are pending, each with the time at which it is due. Delays are numbers below a capacity.
///
/// The one that is due first stands apart from the tournament where it is known. So where one delay alone is pending, no call touches the
/// tournament.
#[derive(Drop)]
pub struct Timers {
    // The delay that is due first, where it is known. The tournament does not have it.
    first: Option<Due>,
    // Where this is set, the tournament has none.
    is_clear: bool,
    others: Tournament,
}

impl Model for Timers {
    ghost use Rattle.delay_timers.specs.inner.Pending.{Pending, pending_code};

    ghost Value = { Pending };

    ghost coded = { pending_code };

    ghost use Rattle.delay_timers.specs.inner.Apart.{IsApart, with_others};

    ghost view = { λ t. with_others t.first t.others };

    ghost invariant = { λ t. IsApart t.first t.is_clear t.others };
}

impl Timers {
    /// Room for so many delays, of which none is pending. No other call takes memory.
    pub fn with_capacity(alloc: Global, delays: u32) -> Result<Timers, NoMemory>
        ensures { IfOk result (λ t. t ≡ record { capacity = delays; times = map.empty }) }
    {
        Ok(Timers {
            first: None,
            is_clear: true,
            others: Tournament::with_capacity(alloc, delays)?,
        })
    }

    /// Lets a delay be due at this time and at no other.
    pub fn set(&mut self, delay: u32, at: Time)
        requires { delay < self.old.capacity }
        ensures { self.new ≡ record self.old { times = map.insert self.old.times delay at } }
    {
        let due = Due { time: at, delay };
        if self.is_clear && other_than(self.first, delay).is_none() {
            self.first = Some(due);
        } else {
            self.first = arrange(self.first, &mut self.others, due);
            self.is_clear = self.others.is_empty();
        }
    }

    /// Lets a delay not be pending.
    pub fn cancel(&mut self, delay: u32)
        requires { delay < self.old.capacity }
        ensures { self.new ≡ record self.old { times = map.remove self.old.times delay } }
    {
        self.first = other_than(self.first, delay);
        if !self.is_clear {
            self.others.cancel(delay);
            self.is_clear = self.others.is_empty();
        }
    }

    /// When a delay is due. `None` exactly where it is not pending.
    pub fn at(&self, delay: u32) -> Option<Time>
        requires { delay < self.now.capacity }
        ensures { result ≡ map.get self.now.times delay }
    {
        match self.first {
            Some(first) => {
                if first.delay == delay {
                    Some(first.time)
                } else {
                    self.others.at(delay)
                }
            }
            None => self.others.at(delay),
        }
    }

    /// The least time at which a delay is due. `None` exactly where none is pending.
    pub fn next(&self) -> Option<Time>
        ensures least { MatchOption result (self.now.times ≡ map.empty) (IsLeastTime self.now.times) }
        ensures bounded { AreBelowCapacity self.now }
    {
        match self.first {
            Some(first) => Some(first.time),
            None => {
                let first = self.others.first()?;
                Some(first.time)
            }
        }
    }

    /// Takes out the least delay that is due at just this time. `None` exactly where there is none. It is fast where no
    /// earlier time is pending.
    pub fn take_due(&mut self, at: Time) -> Option<u32>
        ensures due { MatchOption result (NoneIsDueAt self.old.times at) (IsLeastDueAt self.old.times at) }
        ensures taken { IfSome result (λ delay. self.new ≡ record self.old { times = map.remove self.old.times delay }) }
        ensures none { IfNone result (self.new ≡ self.old) }
        ensures bounded { IfSome result (λ delay. delay < self.old.capacity) }
    {
        match self.first {
            Some(first) => match first.time.cmp(&at) {
                Ordering::Equal => {
                    self.first = None;
                    Some(first.delay)
                }
                Ordering::Greater => None,
                Ordering::Less => take_other(&mut self.others, &mut self.is_clear, at),
            },
            None => take_other(&mut self.others, &mut self.is_clear, at),
        }
    }
}
