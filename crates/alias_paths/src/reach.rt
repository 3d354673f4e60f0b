// What is reached along pairs of numbers.

ghost use Rattle.std.specs.Prelude.{◌≡◌, ◌<◌, [], ◌∷◌, ℕ, length, IfOk, OnOk};
ghost use Rattle.flat_core.specs.inner.Marks.{is_marked, is_waiting, Marked, Spread};
ghost use Rattle.translation_order.specs.Order.{Before, AreOfSteps};
ghost use Rattle.translation_order.specs.inner.Taking.{seconds_of};
ghost use Rattle.alias_paths.specs.inner.Search.{marks_of, AreListed, AreReached};

use crate::links::Links;
use crate::numbers::Numbers;
use std::alloc::Global;
use tsl_value::memory::NoMemory;

/// A mark for each number that was found, a list of these numbers, and those of them whose pairs are still to be followed.
#[derive(Drop)]
pub struct Search {
    pub marked: Vec<bool>,
    pub listed: Vec<u32>,
    pub waiting: Vec<u32>,
}

impl Search {
    /// A search that begins at these numbers.
    pub fn from(alloc: Global, begins: &Numbers) -> Result<Search, NoMemory>
        ensures same { IfOk result (λ s. s.marked.items ≡ begins.now) }
        ensures listed { IfOk result AreListed }
        ensures all_wait { IfOk result (λ s. (i : ℕ) → is_marked (marks_of s) i ≡ is_waiting (marks_of s) i) }
    {
        Ok(Search {
            marked: Vec::from_slice(alloc, begins.marks())?,
            listed: Vec::from_slice(alloc, begins.listed())?,
            waiting: Vec::from_slice(alloc, begins.listed())?,
        })
    }

    /// Marks a number. If it was not marked before, it waits.
    pub fn mark(&mut self, number: u32) -> Result<(), NoMemory>
        requires { number < length self.old.marked.items }
        ensures marked { OnOk result (Marked (number ∷ []) (marks_of self.old) (marks_of self.new)) }
        ensures listed { OnOk result (AreListed self.old → AreListed self.new) }
    {
        let index = number as usize;
        if !self.marked[index] {
            self.listed.push(number)?;
            self.waiting.push(number)?;
            self.marked[index] = true;
        }
        Ok(())
    }

    /// Marks the second of each pair with this first.
    fn mark_seconds(&mut self, links: &Links, number: u32) -> Result<(), NoMemory>
        requires { AreOfSteps (length self.old.marked.items) links.now }
        ensures marked { OnOk result (Marked (seconds_of links.now number) (marks_of self.old) (marks_of self.new)) }
        ensures listed { OnOk result (AreListed self.old → AreListed self.new) }
    {
        let mut next = links.after_last(number);
        while next > 0 {
            let place = next - 1;
            self.mark(links.second(place))?;
            next = links.after_earlier(place);
        }
        Ok(())
    }

    /// Follows pairs from all that is marked, again until nothing waits.
    fn spread(&mut self, links: &Links) -> Result<(), NoMemory>
        requires of_steps { AreOfSteps (length self.old.marked.items) links.now }
        requires all_wait { (i : ℕ) → is_marked (marks_of self.old) i ≡ is_waiting (marks_of self.old) i }
        ensures spread { OnOk result (Spread (Before links.now) (marks_of self.old) (marks_of self.new)) }
        ensures listed { OnOk result (AreListed self.old → AreListed self.new) }
    {
        while let Some(number) = self.waiting.pop() {
            self.mark_seconds(links, number)?;
        }
        Ok(())
    }
}

/// What is reached along pairs from what is marked, none or more of them.
pub fn reached(alloc: Global, links: &Links, begins: &Numbers) -> Result<Numbers, NoMemory>
    requires { AreOfSteps (length begins.now) links.now }
    ensures one_each { IfOk result (λ r. length r ≡ length begins.now) }
    ensures exact { IfOk result (AreReached (Before links.now) begins.now) }
{
    let mut search = Search::from(alloc, begins)?;
    search.spread(links)?;
    Ok(Numbers::of(search.marked, search.listed))
}
