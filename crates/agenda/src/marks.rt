// The marked places.

ghost use Rattle.std.specs.Prelude.{◌≡◌, ◌==◌, ◌<◌, ◌||◌, ℕ, true, false, length, replicate, slice_set, All, IfNone, IfOk, IfSome, MatchOption};
ghost use Rattle.std.specs.List.{list_any};
ghost use Rattle.agenda.specs.inner.Marks.{HasNoMark, IsLeastMark, has_mark};

use crate::bits::Bits;
use std::alloc::Global;
use std::marker::Model;
use tsl_value::memory::NoMemory;

/// The places that are still to be visited. Contracts see a list that says of each place whether it is marked.
///
/// The least one stands apart from the bits where it is known. So where each step marks no more than one that comes later, no bit is set.
#[derive(Drop)]
pub struct Agenda {
    // The least marked place, where it is known. Its own bit is not set.
    next: Option<usize>,
    // Where this is set, no bit is.
    is_clear: bool,
    bits: Bits,
}

impl Model for Agenda {
    ghost use Rattle.std.specs.Prelude.{List, Bool};
    ghost use Rattle.agenda.specs.inner.Next.{IsApart, with_next};

    ghost Value = { List Bool };

    ghost view = { λ a. with_next a.next a.bits };

    ghost invariant = { λ a. IsApart a.next a.is_clear a.bits };
}

impl Agenda {
    /// So many places, of which none is marked. No other call takes memory.
    pub fn with_places(alloc: Global, places: usize) -> Result<Agenda, NoMemory>
        ensures { IfOk result (λ a. a ≡ replicate places false) }
    {
        Ok(Agenda {
            next: None,
            is_clear: true,
            bits: Bits::with_places(alloc, places)?,
        })
    }

    /// Marks a place.
    #[inline(always)]
    pub fn mark(&mut self, place: usize)
        requires { place < length self.old }
        ensures { self.new ≡ slice_set self.old place true }
    {
        match self.next {
            None => {
                if self.is_clear {
                    self.next = Some(place);
                } else {
                    self.bits.mark(place);
                }
            }
            Some(next) => {
                if place != next {
                    self.next = Some(next.min(place));
                    self.is_clear = false;
                    self.bits.mark(next.max(place));
                }
            }
        }
    }

    /// Marks each place. Its time is linear in their number.
    pub fn mark_all(&mut self)
        ensures { self.new ≡ replicate (length self.old) true }
    {
        self.next = None;
        self.is_clear = false;
        self.bits.mark_all();
    }

    /// Marks these places.
    #[inline(always)]
    pub fn mark_each(&mut self, places: &[u32])
        requires { All (λ place. place < length self.old) places.now }
        ensures size { length self.new ≡ length self.old }
        ensures marked { (place : ℕ) → has_mark self.new place ≡ (has_mark self.old place || list_any (λ x. x == place) places.now) }
    {
        for place in places {
            self.mark(*place as usize);
        }
    }

    /// Takes the least marked place, which is marked no more. `None` exactly where none is marked.
    #[inline(always)]
    pub fn take_least(&mut self) -> Option<usize>
        ensures least { MatchOption result (HasNoMark self.old) (IsLeastMark self.old) }
        ensures within { IfSome result (λ place. place < length self.old) }
        ensures taken { IfSome result (λ place. self.new ≡ slice_set self.old place false) }
        ensures none { IfNone result (self.new ≡ self.old) }
    {
        if let Some(place) = self.next {
            self.next = None;
            return Some(place);
        }
        if self.is_clear {
            return None;
        }
        let taken = self.bits.take_least();
        self.is_clear = self.bits.is_clear();
        taken
    }
}
