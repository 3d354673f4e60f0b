// When the delays of a draft are due.

ghost use Rattle.std.specs.Prelude.{◌≡◌, ◌⊎◌, ◌<◌, ℕ, false, suc, Some, IfOk, IsFalse, IsTrue, Option};
ghost use Rattle.flat_core.specs.Stream.{has_event};
ghost use Rattle.tsl_value.specs.View.{View};
ghost use Rattle.flat_core.specs.System.{runs};
ghost use Rattle.why_rules.specs.Facts as rules;
ghost use Rattle.event_why.specs.inner.Drafted.{IsPut, fact_at, fact_of};
ghost use Rattle.event_why.specs.inner.Tale.{CanWait, IsAt, IsCalm, IsStory, SaysStill, Tale, Tells};
ghost use Rattle.event_why.specs.inner.Tale.{always, delay_args_of, due_after, fact_here, later_by, passed};
ghost use Rattle.event_why.specs.inner.Told.{amount_of};

use crate::draft::{Draft, numbers_of};
use crate::fact::Fact;
use crate::told::amount_in;
use flat_core::equation::{Equation, Op};
use flat_core::flat::Flat;
use std::alloc::Global;
use tsl_value::ids::EqId;
use tsl_value::memory::NoMemory;
use tsl_value::time::Time;

/// The amount and the reset of a delay that an equation is.
fn delay_args(e: &Equation) -> Option<(EqId, EqId)>
    ensures { result ≡ delay_args_of e.now.op e.now.args }
{
    match &e.op {
        Op::Delay => {
            let amount = e.args.get(0)?;
            let reset = e.args.get(1)?;
            Some((*amount, *reset))
        }
        _ => None,
    }
}

/// When a delay that is set at a time is due, by the amount at that time.
fn due_from(draft: &Draft, amount: EqId, t: Time) -> Option<Time>
    ensures { (x : Option View)
        → fact_of draft.now.steps.items draft.now.here.numbers.items amount ≡ Some (fact_here amount t x)
        → result ≡ later_by t (amount_of x) }
{
    let fact = draft.fact(draft.here.get(amount))?;
    let n = amount_in(fact, amount, t)?;
    t.plus(n)
}

/// A delay is set by an event of its reset or of its own: it is due the amount later.
fn put_set(
    alloc: Global,
    draft: &mut Draft,
    amount: EqId,
    setter: EqId,
    i: EqId,
    t: Time,
) -> Result<u64, NoMemory>
    ensures { IfOk result (λ n. (T : Tale) (reset : ℕ)
        → CanWait T t i amount reset draft.old
        → (setter ≡ reset) ⊎ (setter ≡ i)
        → IsTrue (has_event (T.streams setter t))
        → Tells T draft.old draft.new n (due_after T t i amount reset)) }
{
    let due = due_from(draft, amount, t);
    let by = numbers_of(alloc, &[draft.here.get(amount), draft.here.get(setter)])?;
    put_due(draft, i, t, due, by)
}

/// A delay is not set, so it is due as it was.
fn put_kept(
    alloc: Global,
    draft: &mut Draft,
    reset: EqId,
    i: EqId,
    t: Time,
) -> Result<u64, NoMemory>
    ensures { IfOk result (λ n. (T : Tale) (amount : ℕ)
        → CanWait T t i amount reset draft.old
        → IsFalse (has_event (T.streams reset t))
        → IsFalse (has_event (T.streams i t))
        → Tells T draft.old draft.new n (due_after T t i amount reset)) }
{
    let due = draft.due(i);
    let pending = draft.pending.get(i);
    let by = numbers_of(alloc, &[draft.here.get(reset), draft.here.get(i), pending])?;
    put_due(draft, i, t, due, by)
}

/// The fact that says when a delay is due after an instant.
fn put_pending(
    alloc: Global,
    draft: &mut Draft,
    amount: EqId,
    reset: EqId,
    i: EqId,
    t: Time,
) -> Result<u64, NoMemory>
    ensures { IfOk result (λ n. (T : Tale)
        → CanWait T t i amount reset draft.old
        → Tells T draft.old draft.new n (due_after T t i amount reset)) }
{
    if draft.has_event(reset) {
        return put_set(alloc, draft, amount, reset, i, t);
    }
    if draft.has_event(i) {
        return put_set(alloc, draft, amount, i, i, t);
    }
    put_kept(alloc, draft, reset, i, t)
}

fn put_due(
    draft: &mut Draft,
    i: EqId,
    time: Time,
    due: Option<Time>,
    by: Vec<u64>,
) -> Result<u64, NoMemory>
    ensures { IfOk result (λ n. IsPut draft.old draft.new (record { fact = Fact.Pending i time due; by = by }) n) }
{
    let pending = Fact::Pending {
        equation: i,
        time,
        due,
    };
    draft.put(pending, by)
}

/// When an equation is due after an instant, if it is a delay that runs.
fn put_pending_of(
    alloc: Global,
    draft: &mut Draft,
    flat: &Flat,
    i: EqId,
    t: Time,
) -> Result<(), NoMemory>
    ensures { IfOk result (λ _. (T : Tale) (past : ℕ → ℕ)
        → flat.now ≡ T.system
        → IsStory T
        → t < T.bound
        → IsAt T past (passed i (suc t) t) t (runs T.system) draft.old
        → IsAt T past (passed (suc i) (suc t) t) t (runs T.system) draft.new) }
{
    if !flat.runs(i) || i.get() >= flat.count() {
        return Ok(());
    }
    match delay_args(flat.equation(i)) {
        Some(args) => {
            let number = put_pending(alloc, draft, args.0, args.1, i, t)?;
            draft.pending.set(i, Some(number));
            Ok(())
        }
        None => Ok(()),
    }
}

/// When the delays that run are due after an instant.
pub(crate) fn put_all_pending(
    alloc: Global,
    draft: &mut Draft,
    flat: &Flat,
    t: Time,
) -> Result<(), NoMemory>
    ensures { IfOk result (λ _. (T : Tale) (past : ℕ → ℕ)
        → flat.now ≡ T.system
        → IsStory T
        → t < T.bound
        → IsAt T past (always t) t (runs T.system) draft.old
        → IsAt T past (always (suc t)) t (runs T.system) draft.new) }
{
    for n in 0..flat.count() {
        put_pending_of(alloc, draft, flat, EqId::new(n), t)?;
    }
    Ok(())
}

/// When an equation is due after a gap, if it is a delay: as before it.
fn put_pending_over(
    alloc: Global,
    draft: &mut Draft,
    i: EqId,
    gap: u64,
    to: Time,
) -> Result<(), NoMemory>
    ensures still { IfOk result (λ _. SaysStill draft.old draft.new) }
    ensures over { IfOk result (λ _. (T : Tale) (past : ℕ → ℕ) (before : ℕ)
        → IsStory T
        → before < to
        → to < T.bound
        → IsCalm T (suc before) (suc to)
        → fact_at draft.old.steps.items (Some gap) ≡ Some (rules.Gap (suc before) to)
        → IsAt T past (passed i (suc to) (suc before)) 0 (λ i. false) draft.old
        → IsAt T past (passed (suc i) (suc to) (suc before)) 0 (λ i. false) draft.new) }
{
    let before = draft.pending.get(i);
    if before.is_none() {
        return Ok(());
    }
    let due = draft.due(i);
    let by = numbers_of(alloc, &[Some(gap), before])?;
    let number = put_due(draft, i, to, due, by)?;
    draft.pending.set(i, Some(number));
    Ok(())
}

/// When the delays are due after a gap.
pub(crate) fn put_all_over(
    alloc: Global,
    draft: &mut Draft,
    flat: &Flat,
    gap: u64,
    to: Time,
) -> Result<(), NoMemory>
    ensures still { IfOk result (λ _. SaysStill draft.old draft.new) }
    ensures over { IfOk result (λ _. (T : Tale) (past : ℕ → ℕ) (before : ℕ)
        → flat.now ≡ T.system
        → IsStory T
        → before < to
        → to < T.bound
        → IsCalm T (suc before) (suc to)
        → fact_at draft.old.steps.items (Some gap) ≡ Some (rules.Gap (suc before) to)
        → IsAt T past (always (suc before)) 0 (λ i. false) draft.old
        → IsAt T past (always (suc to)) 0 (λ i. false) draft.new) }
{
    for n in 0..flat.count() {
        put_pending_over(alloc, draft, EqId::new(n), gap, to)?;
    }
    Ok(())
}
