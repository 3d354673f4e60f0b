// From which facts it follows when a delay is due.

ghost use Rattle.std.specs.Prelude.{◌≡◌, ◌↔◌, ℕ, IsTrue, None, map};
ghost use Rattle.flat_core.specs.Events.{Inputs};
ghost use Rattle.why_rules.specs.Rules.{Keeps};
ghost use Rattle.event_why.specs.Said.{said};
ghost use Rattle.event_why.specs.inner.Waits.{IsCancelled, IsKeptOn, IsNeverSet, IsNotSet, IsOver, IsOverGap, IsSetTo, MaySet};

use crate::fact::Fact;
use crate::named::{three, two};
use crate::told::{amount_in, is_due_so, is_event_of, is_silent_at};
use flat_core::equation::Equation;
use tsl_value::ids::EqId;
use tsl_value::time::Time;

/// A delay, and its arguments: the amount, and what may set the delay anew.
#[derive(Drop)]
pub(crate) struct Delay {
    pub(crate) itself: EqId,
    pub(crate) amount: EqId,
    pub(crate) reset: EqId,
}

/// The fact is an event of the second argument or of the delay itself.
fn may_set(delay: &Delay, t: Time, fact: &Fact) -> bool
    ensures { IsTrue result ↔ MaySet delay.now t (said fact.now) }
{
    is_event_of(fact, delay.reset, t) || is_event_of(fact, delay.itself, t)
}

/// The delay is set: it is due the amount later, or at no time where that is above 2^63 - 1.
fn is_set_to(delay: &Delay, t: Time, due: &Option<Time>, named: &[Fact]) -> bool
    ensures { IsTrue result ↔ IsSetTo delay.now t due.now (map said named.now) }
{
    let Some((amount, reset)) = two(named) else {
        return false;
    };
    match amount_in(amount, delay.amount, t) {
        Some(n) => *due == t.plus(n) && may_set(delay, t, reset),
        None => false,
    }
}

/// A delay is due at no time.
fn is_none(due: &Option<Time>) -> bool
    ensures { IsTrue result ↔ due.now ≡ None }
{
    due.is_none()
}

/// The delay is set anew without an amount, so it is due at no time.
fn is_cancelled(delay: &Delay, t: Time, due: &Option<Time>, named: &[Fact]) -> bool
    ensures { IsTrue result ↔ IsCancelled delay.now t due.now (map said named.now) }
{
    match two(named) {
        Some((amount, reset)) => {
            is_none(due) && is_silent_at(amount, delay.amount, t) && may_set(delay, t, reset)
        }
        None => false,
    }
}

/// The facts say that neither the second argument nor the delay itself has an event at a time.
fn is_not_set(delay: &Delay, t: Time, reset: &Fact, itself: &Fact) -> bool
    ensures { IsTrue result ↔ IsNotSet delay.now t (said reset.now) (said itself.now) }
{
    is_silent_at(reset, delay.reset, t) && is_silent_at(itself, delay.itself, t)
}

/// The delay is not set at time 0, so it is due at no time.
fn is_never_set(delay: &Delay, t: Time, due: &Option<Time>, named: &[Fact]) -> bool
    ensures { IsTrue result ↔ IsNeverSet delay.now t due.now (map said named.now) }
{
    match two(named) {
        Some((reset, itself)) => {
            t.get() == 0 && due.is_none() && is_not_set(delay, t, reset, itself)
        }
        None => false,
    }
}

/// The delay is not set at this time, so it is due as it was.
fn is_kept_on(delay: &Delay, t: Time, due: &Option<Time>, named: &[Fact]) -> bool
    ensures { IsTrue result ↔ IsKeptOn delay.now t due.now (map said named.now) }
{
    let Some((reset, itself, pending)) = three(named) else {
        return false;
    };
    t.get() > 0
        && is_not_set(delay, t, reset, itself)
        && is_due_so(pending, delay.itself, t.get() - 1, due)
}

/// A gap from one time to another ends at this time, and the fact says that the delay was due then before it.
fn is_over(delay: &Delay, t: Time, due: &Option<Time>, from: Time, to: Time, pending: &Fact) -> bool
    ensures { IsTrue result ↔ IsOver delay.now t due.now from to (said pending.now) }
{
    to == t && from.get() > 0 && from <= t && is_due_so(pending, delay.itself, from.get() - 1, due)
}

/// Nothing happens up to this time, so the delay is due as it was.
fn is_over_gap(delay: &Delay, t: Time, due: &Option<Time>, named: &[Fact]) -> bool
    ensures { IsTrue result ↔ IsOverGap delay.now t due.now (map said named.now) }
{
    let Some((gap, pending)) = two(named) else {
        return false;
    };
    match gap {
        Fact::Gap { from, to } => is_over(delay, t, due, *from, *to, pending),
        _ => false,
    }
}

/// Whether these facts, in this order, are those from which it follows that a delay is due then, or at no time.
pub(crate) fn keeps(delay: &Delay, t: Time, due: &Option<Time>, named: &[Fact]) -> bool
    ensures { (p : Inputs) (e : Equation) → IsTrue result ↔ Keeps p delay.now.itself e delay.now.amount delay.now.reset t due.now (map said named.now) }
{
    // That a time is below 2^63 is known where it is read.
    let _ = t.get();
    if is_set_to(delay, t, due, named) {
        return true;
    }
    if is_cancelled(delay, t, due, named) {
        return true;
    }
    if is_never_set(delay, t, due, named) {
        return true;
    }
    if is_kept_on(delay, t, due, named) {
        return true;
    }
    is_over_gap(delay, t, due, named)
}
