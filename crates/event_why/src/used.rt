// Facts that no later one names.

ghost use Rattle.std.specs.Prelude.{◌≡◌, ◌↔◌, ◌<◌, ℕ, suc, false, length, slice_index_or, IfOk, IsTrue, MatchOption};
ghost use Rattle.event_why.specs.Check.{AreUsed, IsFirstUnused};
ghost use Rattle.event_why.specs.inner.Used.{AreMarked, NamesEarlier, is_named};

use crate::fact::WhyStep;
use std::alloc::Global;
use tsl_value::memory::NoMemory;

/// Marks the steps with these numbers.
pub(crate) fn mark_named(by: &[u64], marks: &mut [bool])
    ensures { AreMarked by.now marks.old marks.new }
{
    for n in by {
        let place = *n as usize;
        if place < marks.len() {
            marks[place] = true;
        }
    }
}

/// Which steps are named.
fn named(alloc: Global, steps: &[WhyStep]) -> Result<Vec<bool>, NoMemory>
    ensures count { IfOk result (λ v. length v.items ≡ length steps.now) }
    ensures each { IfOk result (λ v. (k : ℕ) → k < length steps.now → slice_index_or v.items k false ≡ is_named steps.now k) }
{
    let mut marks = vec![in alloc; false; steps.len()]?;
    for step in steps {
        mark_named(&step.by, &mut marks);
    }
    Ok(marks)
}

/// The step of a number is not the last, and none is marked that names it.
fn is_left(marks: &[bool], k: usize) -> bool
    requires { k < length marks.now }
    ensures { IsTrue result ↔ (suc k < length marks.now) × (slice_index_or marks.now k false ≡ false) }
{
    k + 1 < marks.len() && !marks[k]
}

/// The first step but the last that no later one names.
pub(crate) fn first_unused(alloc: Global, steps: &[WhyStep]) -> Result<Option<u64>, NoMemory>
    requires { NamesEarlier steps.now }
    ensures { IfOk result (λ r. MatchOption r (AreUsed steps.now) (λ k. IsFirstUnused steps.now k)) }
{
    let marks = named(alloc, steps)?;
    for k in 0..steps.len() {
        if is_left(&marks, k) {
            return Ok(Some(k as u64));
        }
    }
    Ok(None)
}
