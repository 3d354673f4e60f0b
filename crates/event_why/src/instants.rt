// The facts of a draft, instant by instant.

ghost use Rattle.std.specs.Prelude.{◌≡◌, ◌<◌, ◌≤◌, ℕ, suc, Bool, false, Some, IfOk, IsTrue};
ghost use Rattle.std.specs.Option.{option_copied};
ghost use Rattle.std.specs.List.{AllByRecursion};
ghost use Rattle.flat_core.specs.declared.equation.Equation.{Equation as ViewedEquation};
ghost use Rattle.flat_core.specs.Case.{Streams, used_of};
ghost use Rattle.flat_core.specs.Events.{Inputs};
ghost use Rattle.flat_core.specs.Stream.{event};
ghost use Rattle.flat_core.specs.System.{equation, runs};
ghost use Rattle.flat_core.specs.inner.Dependency.{with_one};
ghost use Rattle.why_rules.specs.Facts as rules;
ghost use Rattle.event_why.specs.inner.Drafted.{fact_at};
ghost use Rattle.event_why.specs.inner.Row.{IsRow};
ghost use Rattle.event_why.specs.inner.Tale.{AreKept, CanTell, IsAt, IsCalm, IsRun, IsStory, IsUpTo, KeepsOne};
ghost use Rattle.event_why.specs.inner.Tale.{SaysStill, Tale, Tells};
ghost use Rattle.event_why.specs.inner.Tale.{always, here_of, is_kept, kept_arg, passed, tale_of};

use crate::draft::{Draft, numbers_of};
use crate::fact::Fact;
use crate::grounded::{event_by, silent_by};
use crate::row::event_in;
use crate::waits::put_all_over;
use flat_core::equation::{Equation, Op};
use flat_core::flat::Flat;
use plain_solver::events::Outcome;
use plain_solver::value::{Value, copied};
use std::alloc::Global;
use translation_order::steps::Steps;
use tsl_value::ids::EqId;
use tsl_value::memory::NoMemory;
use tsl_value::time::Time;

/// What is told of: a system, and an order to run it in.
#[derive(Drop)]
pub(crate) struct Story<'a> {
    pub(crate) flat: &'a Flat,
    pub(crate) order: &'a Steps,
    /// The equations whose latest event may be asked for.
    pub(crate) kept: &'a [bool],
}

/// The first argument of a last.
fn kept_by(e: &Equation) -> Option<&EqId>
    ensures { option_copied result ≡ kept_arg e.now.op e.now.args }
{
    match &e.op {
        Op::Last => e.args.get(0),
        _ => None,
    }
}

/// Marks the first argument of an equation, if it is a last that runs.
fn keep(flat: &Flat, i: EqId, kept: &mut [bool])
    ensures { KeepsOne flat.now i kept.old kept.new }
{
    if !flat.runs(i) || i.get() >= flat.count() {
        return;
    }
    if let Some(v) = kept_by(flat.equation(i)) {
        let place = v.get() as usize;
        if place < kept.len() {
            kept[place] = true;
        }
    }
}

/// Marks the first argument of each last that runs.
pub(crate) fn kept_by_lasts(alloc: Global, flat: &Flat) -> Result<Vec<bool>, NoMemory>
    ensures { IfOk result (λ v. AreKept flat.now v.items) }
{
    let mut kept = vec![in alloc; false; flat.count() as usize]?;
    for n in 0..flat.count() {
        keep(flat, EqId::new(n), &mut kept);
    }
    Ok(kept)
}

/// What happens at an equation at an instant.
fn put_one(
    alloc: Global,
    draft: &mut Draft,
    e: &Equation,
    i: EqId,
    t: Time,
    value: Option<Value>,
) -> Result<u64, NoMemory>
    ensures { IfOk result (λ n. (T : Tale)
        → CanTell T t i e.now draft.old
        → value ≡ event (T.streams i t)
        → Tells T draft.old draft.new n (here_of T.streams t i)) }
{
    match value {
        Some(value) => {
            let by = event_by(alloc, draft, e, i)?;
            let event = Fact::Event {
                equation: i,
                time: t,
                value,
            };
            draft.put(event, by)
        }
        None => {
            let by = silent_by(alloc, draft, e, i, t)?;
            let silent = Fact::Silent {
                equation: i,
                from: t,
                to: t,
            };
            draft.put(silent, by)
        }
    }
}

/// What happens at an equation at an instant, if it runs.
fn put_running(
    alloc: Global,
    draft: &mut Draft,
    story: &Story,
    row: &[Option<Outcome>],
    i: EqId,
    t: Time,
) -> Result<(), NoMemory>
    ensures { IfOk result (λ _. (p : Inputs) (z : Streams) (bound : ℕ) (done : ℕ → Bool) (e : ViewedEquation)
        → IsStory (tale_of story.now p z bound)
        → t < bound
        → IsRow (tale_of story.now p z bound) t row.now
        → equation story.now.flat.now i ≡ Some e
        → AllByRecursion (λ a. IsTrue (done a)) (used_of e.op e.args)
        → IsAt (tale_of story.now p z bound) (always t) (always t) t done draft.old
        → IsAt (tale_of story.now p z bound) (always t) (always t) t (with_one i done) draft.new) }
{
    if !story.flat.runs(i) || i.get() >= story.flat.count() {
        return Ok(());
    }
    let value = copied(event_in(row, i))?;
    let number = put_one(alloc, draft, story.flat.equation(i), i, t, value)?;
    draft.here.set(i, Some(number));
    Ok(())
}

/// What happens at an instant, in the order.
pub(crate) fn put_instant(
    alloc: Global,
    draft: &mut Draft,
    story: &Story,
    row: &[Option<Outcome>],
    t: Time,
) -> Result<(), NoMemory>
    ensures { IfOk result (λ _. (p : Inputs) (z : Streams) (bound : ℕ)
        → IsStory (tale_of story.now p z bound)
        → t < bound
        → IsRow (tale_of story.now p z bound) t row.now
        → IsUpTo (tale_of story.now p z bound) t draft.old
        → IsRun (tale_of story.now p z bound) t draft.new) }
{
    for number in story.order.as_slice() {
        put_running(alloc, draft, story, row, EqId::new(*number), t)?;
    }
    Ok(())
}

/// The latest event of an equation may be asked for.
fn is_kept(story: &Story, i: EqId) -> bool
    ensures { result ≡ is_kept story.now.kept.now i }
{
    let place = i.get() as usize;
    place < story.kept.len() && story.kept[place]
}

/// An instant is over: an equation's event is its latest one, or it has been silent for longer.
fn settle_one(alloc: Global, draft: &mut Draft, i: EqId) -> Result<(), NoMemory>
    ensures { IfOk result (λ _. (T : Tale) (t : ℕ)
        → IsStory T
        → t < T.bound
        → IsTrue (is_kept T.kept i)
        → IsAt T (passed i (suc t) t) (always t) t (runs T.system) draft.old
        → IsAt T (passed (suc i) (suc t) t) (always t) t (runs T.system) draft.new) }
{
    let now = draft.here.get(i);
    if draft.has_event(i) {
        draft.latest.set(i, now);
        draft.quiet.set(i, None);
        return Ok(());
    }
    match now {
        Some(n) => {
            let quiet = draft.joined(alloc, i, n)?;
            draft.quiet.set(i, Some(quiet));
            Ok(())
        }
        None => Ok(()),
    }
}

/// An instant is over, for an equation if its latest event may be asked for.
fn settle_kept(alloc: Global, draft: &mut Draft, story: &Story, i: EqId) -> Result<(), NoMemory>
    ensures { IfOk result (λ _. (p : Inputs) (z : Streams) (bound t : ℕ)
        → IsStory (tale_of story.now p z bound)
        → t < bound
        → IsAt (tale_of story.now p z bound) (passed i (suc t) t) (always t) t (runs story.now.flat.now) draft.old
        → IsAt (tale_of story.now p z bound) (passed (suc i) (suc t) t) (always t) t (runs story.now.flat.now) draft.new) }
{
    if !is_kept(story, i) {
        return Ok(());
    }
    settle_one(alloc, draft, i)
}

/// An instant is over, for all equations whose latest event may be asked for.
pub(crate) fn settle(alloc: Global, draft: &mut Draft, story: &Story) -> Result<(), NoMemory>
    ensures { IfOk result (λ _. (p : Inputs) (z : Streams) (bound t : ℕ)
        → IsStory (tale_of story.now p z bound)
        → t < bound
        → IsRun (tale_of story.now p z bound) t draft.old
        → IsAt (tale_of story.now p z bound) (always (suc t)) (always t) t (runs story.now.flat.now) draft.new) }
{
    for n in 0..story.flat.count() {
        settle_kept(alloc, draft, story, EqId::new(n))?;
    }
    Ok(())
}

/// An equation has no event in a gap.
fn put_quiet_over(
    alloc: Global,
    draft: &mut Draft,
    i: EqId,
    gap: u64,
    from: Time,
    to: Time,
) -> Result<(), NoMemory>
    ensures still { IfOk result (λ _. SaysStill draft.old draft.new) }
    ensures over { IfOk result (λ _. (T : Tale) (due : ℕ → ℕ)
        → IsStory T
        → IsTrue (is_kept T.kept i)
        → from ≤ to
        → to < T.bound
        → IsCalm T from (suc to)
        → fact_at draft.old.steps.items (Some gap) ≡ Some (rules.Gap from to)
        → IsAt T (passed i (suc to) from) due 0 (λ i. false) draft.old
        → IsAt T (passed (suc i) (suc to) from) due 0 (λ i. false) draft.new) }
{
    let by = numbers_of(alloc, &[Some(gap)])?;
    let silent = Fact::Silent {
        equation: i,
        from,
        to,
    };
    let silent = draft.put(silent, by)?;
    let quiet = draft.joined(alloc, i, silent)?;
    draft.quiet.set(i, Some(quiet));
    Ok(())
}

/// An equation has no event in a gap, if its latest event may be asked for.
fn put_kept_quiet(
    alloc: Global,
    draft: &mut Draft,
    story: &Story,
    i: EqId,
    gap: u64,
    from: Time,
    to: Time,
) -> Result<(), NoMemory>
    ensures still { IfOk result (λ _. SaysStill draft.old draft.new) }
    ensures over { IfOk result (λ _. (p : Inputs) (z : Streams) (bound : ℕ) (due : ℕ → ℕ)
        → IsStory (tale_of story.now p z bound)
        → from ≤ to
        → to < bound
        → IsCalm (tale_of story.now p z bound) from (suc to)
        → fact_at draft.old.steps.items (Some gap) ≡ Some (rules.Gap from to)
        → IsAt (tale_of story.now p z bound) (passed i (suc to) from) due 0 (λ i. false) draft.old
        → IsAt (tale_of story.now p z bound) (passed (suc i) (suc to) from) due 0 (λ i. false) draft.new) }
{
    if !is_kept(story, i) {
        return Ok(());
    }
    put_quiet_over(alloc, draft, i, gap, from, to)
}

/// No equation whose latest event may be asked for has an event in a gap.
fn put_all_quiet(
    alloc: Global,
    draft: &mut Draft,
    story: &Story,
    gap: u64,
    from: Time,
    to: Time,
) -> Result<(), NoMemory>
    ensures { IfOk result (λ _. (p : Inputs) (z : Streams) (bound : ℕ) (due : ℕ → ℕ)
        → IsStory (tale_of story.now p z bound)
        → from ≤ to
        → to < bound
        → IsCalm (tale_of story.now p z bound) from (suc to)
        → fact_at draft.old.steps.items (Some gap) ≡ Some (rules.Gap from to)
        → IsAt (tale_of story.now p z bound) (always from) due 0 (λ i. false) draft.old
        → IsAt (tale_of story.now p z bound) (always (suc to)) due 0 (λ i. false) draft.new) }
{
    for n in 0..story.flat.count() {
        put_kept_quiet(alloc, draft, story, EqId::new(n), gap, from, to)?;
    }
    Ok(())
}

/// Nothing happens from one time to another.
pub(crate) fn put_gap(
    alloc: Global,
    draft: &mut Draft,
    story: &Story,
    from: Time,
    to: Time,
) -> Result<(), NoMemory>
    ensures { IfOk result (λ _. (p : Inputs) (z : Streams) (bound : ℕ)
        → IsStory (tale_of story.now p z bound)
        → 0 < from
        → from ≤ to
        → to < bound
        → IsCalm (tale_of story.now p z bound) from (suc to)
        → IsUpTo (tale_of story.now p z bound) from draft.old
        → IsUpTo (tale_of story.now p z bound) (suc to) draft.new) }
{
    let by = numbers_of(alloc, &draft.pending.numbers)?;
    let gap = draft.put(Fact::Gap { from, to }, by)?;
    put_all_over(alloc, draft, story.flat, gap, to)?;
    put_all_quiet(alloc, draft, story, gap, from, to)
}
