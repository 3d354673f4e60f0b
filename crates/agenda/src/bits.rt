// Marked places as bits.

ghost use Rattle.std.specs.Prelude.{◌≡◌, ◌<◌, true, false, length, replicate, slice_set, IfNone, IfOk, IfSome, IsTrue, MatchOption};
ghost use Rattle.agenda.specs.inner.Marks.{HasNoMark, IsLeastMark};

use crate::words::{WORD_BITS, first_filled, least_in, set_bit, take_bit};
use std::alloc::Global;
use std::marker::Model;
use tsl_value::memory::NoMemory;

/// Places that are marked. Contracts see a list that says of each place whether it is.
///
/// A place is a bit in a word of 64. A second list of words has a bit for each of these words, which is set where the word has a marked place.
/// So the least place is found by two words, after a search through the second list from where the last one was found: all searches
/// of a visit together look at each of its words about once, if nothing is marked before the place that was taken last.
#[derive(Drop)]
pub(crate) struct Bits {
    places: usize,
    words: Vec<u64>,
    summary: Vec<u64>,
    // No word of the summary before this one has a bit.
    first: usize,
}

impl Model for Bits {
    ghost use Rattle.std.specs.Prelude.{List, Bool};
    ghost use Rattle.agenda.specs.inner.Words.{AreMarks, marks_of};

    ghost Value = { List Bool };

    ghost view = { λ a. marks_of a.places a.words.items };

    ghost invariant = { λ a. AreMarks a.places a.words.items a.summary.items a.first };
}

impl Bits {
    /// So many places, of which none is marked. No other call takes memory.
    pub(crate) fn with_places(alloc: Global, places: usize) -> Result<Bits, NoMemory>
        ensures { IfOk result (λ a. a ≡ replicate places false) }
    {
        let words = places / WORD_BITS + 1;
        Ok(Bits {
            places,
            words: vec![in alloc; 0; words]?,
            summary: vec![in alloc; 0; places / WORD_BITS / WORD_BITS + 1]?,
            first: 0,
        })
    }

    /// Marks a place.
    #[inline(never)]
    pub(crate) fn mark(&mut self, place: usize)
        requires { place < length self.old }
        ensures { self.new ≡ slice_set self.old place true }
    {
        let word = place / WORD_BITS;
        set_bit(&mut self.words, place);
        set_bit(&mut self.summary, word);
        self.first = self.first.min(word / WORD_BITS);
    }

    /// Marks each place. Its time is linear in their number.
    pub(crate) fn mark_all(&mut self)
        ensures { self.new ≡ replicate (length self.old) true }
    {
        for place in 0..self.places {
            self.mark(place);
        }
    }

    /// Takes the least marked place, which is marked no more. `None` exactly where none is marked.
    #[inline(never)]
    pub(crate) fn take_least(&mut self) -> Option<usize>
        ensures least { MatchOption result (HasNoMark self.old) (IsLeastMark self.old) }
        ensures within { IfSome result (λ place. place < length self.old) }
        ensures taken { IfSome result (λ place. self.new ≡ slice_set self.old place false) }
        ensures none { IfNone result (self.new ≡ self.old) }
    {
        self.first = first_filled(&self.summary, self.first);
        if self.first == self.summary.len() {
            return None;
        }
        let word = least_in(&self.summary, self.first);
        let place = least_in(&self.words, word);
        take_bit(&mut self.words, &mut self.summary, place);
        Some(place)
    }

    /// No place is marked.
    pub(crate) fn is_clear(&self) -> bool
        ensures { IsTrue result → HasNoMark self.now }
    {
        first_filled(&self.summary, self.first) == self.summary.len()
    }
}
