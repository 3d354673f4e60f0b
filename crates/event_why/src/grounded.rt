// The facts of a draft from which it follows what happens at an equation at an instant.

ghost use Rattle.std.specs.Prelude.{◌≡◌, ℕ, ◌∷◌, [], false, IfOk, IsFalse, IsTrue, MatchOption, map, not, slice_get};
ghost use Rattle.std.specs.List.{Contains};
ghost use Rattle.event_why.specs.inner.Drafted.{IsByFirst, happens_at, happens_now, number_at, table_at, there};
ghost use Rattle.event_why.specs.inner.Tale.{GroundsEvent, GroundsSilence};

use crate::draft::{Draft, Known, numbers_of};
use flat_core::equation::{Equation, Op};
use std::alloc::Global;
use tsl_value::ids::EqId;
use tsl_value::memory::NoMemory;
use tsl_value::time::Time;

/// The number that is known for the argument at a place.
fn number_of(known: &Known, e: &Equation, place: usize) -> Option<u64>
    ensures { result ≡ table_at known.now.numbers.items (slice_get e.now.args place) }
{
    match e.args.get(place) {
        Some(id) => known.get(*id),
        None => None,
    }
}

/// The argument at a place has an event at this instant.
fn has_event_at(draft: &Draft, e: &Equation, place: usize) -> bool
    ensures { result ≡ happens_at draft.now (slice_get e.now.args place) }
{
    match e.args.get(place) {
        Some(id) => draft.has_event(*id),
        None => false,
    }
}

/// What happens at all arguments at this instant, one fact for each.
fn by_all(alloc: Global, draft: &Draft, e: &Equation) -> Result<Vec<u64>, NoMemory>
    ensures { IfOk result (λ by. by.items ≡ there (map (number_at draft.now.here.numbers.items) e.now.args)) }
{
    let mut by = Vec::new(alloc);
    for id in e.args.ids() {
        if let Some(n) = draft.here.get(*id) {
            by.push(n)?;
        }
    }
    Ok(by)
}

/// The first argument that has an event, or that has none.
fn first_of(draft: &Draft, e: &Equation, has_event: bool) -> Option<EqId>
    ensures { MatchOption result
        ((a : ℕ) → Contains e.now.args a → happens_now draft.now a ≡ not has_event)
        (λ a. Contains e.now.args a × (happens_now draft.now a ≡ has_event)) }
{
    for id in e.args.ids() {
        if draft.has_event(*id) == has_event {
            return Some(*id);
        }
    }
    None
}

/// What happens at it at this instant.
fn by_first(
    alloc: Global,
    draft: &Draft,
    e: &Equation,
    has_event: bool,
) -> Result<Vec<u64>, NoMemory>
    ensures { IfOk result (λ by. IsByFirst draft.now e.now.args has_event by.items) }
{
    match first_of(draft, e, has_event) {
        Some(a) => numbers_of(alloc, &[draft.here.get(a)]),
        None => Ok(Vec::new(alloc)),
    }
}

/// What happens at a merge's first argument, and at both where that has no event.
fn by_merge(alloc: Global, draft: &Draft, e: &Equation) -> Result<Vec<u64>, NoMemory>
    ensures { IfOk result (λ by. (i : ℕ) → e.now.op ≡ Op.Merge → GroundsEvent draft.now e.now i by.items) }
{
    if has_event_at(draft, e, 0) {
        numbers_of(alloc, &[number_of(&draft.here, e, 0)])
    } else {
        by_all(alloc, draft, e)
    }
}

/// The latest event of a last's first argument, and that it has had none since.
fn by_last(alloc: Global, draft: &Draft, e: &Equation) -> Result<Vec<u64>, NoMemory>
    ensures { IfOk result (λ by. (i : ℕ) → e.now.op ≡ Op.Last → GroundsEvent draft.now e.now i by.items) }
{
    let asked = number_of(&draft.here, e, 1);
    let latest = number_of(&draft.latest, e, 0);
    let quiet = number_of(&draft.quiet, e, 0);
    numbers_of(alloc, &[asked, latest, quiet])
}

/// When a delay is due.
fn by_due(alloc: Global, draft: &Draft, i: EqId) -> Result<Vec<u64>, NoMemory>
    ensures { IfOk result (λ by. by.items ≡ there (number_at draft.now.pending.numbers.items i ∷ [])) }
{
    numbers_of(alloc, &[draft.pending.get(i)])
}

/// From which facts it follows that an equation has its event.
pub(crate) fn event_by(
    alloc: Global,
    draft: &Draft,
    e: &Equation,
    i: EqId,
) -> Result<Vec<u64>, NoMemory>
    ensures { IfOk result (λ by. GroundsEvent draft.now e.now i by.items) }
{
    match &e.op {
        Op::Input | Op::Nil | Op::Unit | Op::Empty => Ok(Vec::new(alloc)),
        Op::Time | Op::Any => by_first(alloc, draft, e, true),
        Op::Merge => by_merge(alloc, draft, e),
        Op::Last => by_last(alloc, draft, e),
        Op::Delay => by_due(alloc, draft, i),
        _ => by_all(alloc, draft, e),
    }
}

/// A last has no event at time 0, where it is not asked, and where its first argument had none before.
fn by_no_last(alloc: Global, draft: &Draft, e: &Equation, t: Time) -> Result<Vec<u64>, NoMemory>
    ensures { IfOk result (λ by. (i : ℕ) → e.now.op ≡ Op.Last → GroundsSilence draft.now e.now i t by.items) }
{
    if t.get() == 0 {
        return Ok(Vec::new(alloc));
    }
    if has_event_at(draft, e, 1) {
        numbers_of(alloc, &[number_of(&draft.quiet, e, 0)])
    } else {
        numbers_of(alloc, &[number_of(&draft.here, e, 1)])
    }
}

/// A filter has no event where an argument has none, or the condition is false.
fn by_filter(alloc: Global, draft: &Draft, e: &Equation) -> Result<Vec<u64>, NoMemory>
    ensures { IfOk result (λ by. (i t : ℕ) → e.now.op ≡ Op.Filter → GroundsSilence draft.now e.now i t by.items) }
{
    match first_of(draft, e, false) {
        Some(a) => numbers_of(alloc, &[draft.here.get(a)]),
        None => numbers_of(alloc, &[number_of(&draft.here, e, 1)]),
    }
}

/// One argument without an event is enough, or what happens at all of them.
fn by_lift(alloc: Global, draft: &Draft, e: &Equation, strict: bool) -> Result<Vec<u64>, NoMemory>
    ensures strict { IfOk result (λ by. IsTrue strict → IsByFirst draft.now e.now.args false by.items) }
    ensures all { IfOk result (λ by. IsFalse strict → by.items ≡ there (map (number_at draft.now.here.numbers.items) e.now.args)) }
{
    if strict {
        by_first(alloc, draft, e, false)
    } else {
        by_all(alloc, draft, e)
    }
}

/// From which facts it follows that an equation has no event.
pub(crate) fn silent_by(
    alloc: Global,
    draft: &Draft,
    e: &Equation,
    i: EqId,
    t: Time,
) -> Result<Vec<u64>, NoMemory>
    ensures { IfOk result (λ by. GroundsSilence draft.now e.now i t by.items) }
{
    match &e.op {
        Op::Input | Op::Nil | Op::Unit | Op::Empty => Ok(Vec::new(alloc)),
        Op::Last => by_no_last(alloc, draft, e, t),
        Op::Delay => by_due(alloc, draft, i),
        Op::Filter => by_filter(alloc, draft, e),
        Op::Any | Op::Merge => by_all(alloc, draft, e),
        Op::Lift { body: _, strict } => by_lift(alloc, draft, e, *strict),
        _ => by_first(alloc, draft, e, false),
    }
}
