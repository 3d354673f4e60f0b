// What one fact tells.

ghost use Rattle.std.specs.Prelude.{◌≡◌, ◌↔◌, ◌<◌, is_some, IfOk, IsTrue, map, vec_items};
ghost use Rattle.std.specs.Option.{option_copied, option_map};
ghost use Rattle.why_rules.specs.Facts as rules;
ghost use Rattle.event_why.specs.Said.{said};
ghost use Rattle.event_why.specs.inner.Told.{amount_of, due_in, event_in, is_silent_in, told_all, told_in};

use crate::fact::Fact;
use plain_solver::value::{Held, Value, copied};
use std::alloc::Global;
use tsl_value::ids::EqId;
use tsl_value::memory::NoMemory;
use tsl_value::scalar::Scalar;
use tsl_value::time::Time;

/// The event that an equation has at a time, if the fact says which.
pub(crate) fn event_in(fact: &Fact, i: EqId, t: Time) -> Option<&Value>
    ensures { option_copied result ≡ event_in i t (said fact.now) }
{
    match fact {
        Fact::Event {
            equation,
            time,
            value,
        } => {
            if *equation == i && *time == t {
                Some(value)
            } else {
                None
            }
        }
        _ => None,
    }
}

/// The fact says that an equation has an event at a time.
pub(crate) fn is_event_of(fact: &Fact, i: EqId, t: Time) -> bool
    ensures { result ≡ is_some (event_in i t (said fact.now)) }
{
    event_in(fact, i, t).is_some()
}

/// The fact says that an equation has no event at a time.
pub(crate) fn is_silent_at(fact: &Fact, i: EqId, t: Time) -> bool
    ensures { result ≡ is_silent_in i t (said fact.now) }
{
    match fact {
        Fact::Silent { equation, from, to } => *equation == i && *from <= t && t <= *to,
        _ => false,
    }
}

/// The fact says just this: that an equation has no event from one time to another.
pub(crate) fn is_silence(fact: &Fact, i: EqId, first: u64, last: u64) -> bool
    ensures { IsTrue result ↔ said fact.now ≡ rules.Silent i first last }
{
    match fact {
        Fact::Silent { equation, from, to } => {
            *equation == i && from.get() == first && to.get() == last
        }
        _ => false,
    }
}

/// When a delay is due by what happened up to a time, if the fact says it.
pub(crate) fn due_in(fact: &Fact, i: EqId, t: u64) -> Option<Option<Time>>
    ensures { result ≡ due_in i t (said fact.now) }
{
    match fact {
        Fact::Pending {
            equation,
            time,
            due,
        } => {
            if *equation == i && time.get() == t {
                Some(*due)
            } else {
                None
            }
        }
        _ => None,
    }
}

pub(crate) fn is_before(a: Time, b: Time) -> bool
    ensures { IsTrue result ↔ a < b }
{
    a.get() < b.get()
}

pub(crate) fn is_same_time(a: Time, b: Time) -> bool
    ensures { IsTrue result ↔ a ≡ b }
{
    a == b
}

/// The fact says just this: when a delay is due by what happened up to a time.
pub(crate) fn is_due_so(fact: &Fact, i: EqId, t: u64, due: &Option<Time>) -> bool
    ensures { IsTrue result ↔ said fact.now ≡ rules.Pending i t due.now }
{
    match fact {
        Fact::Pending {
            equation,
            time,
            due: own,
        } => *equation == i && time.get() == t && *own == *due,
        _ => false,
    }
}

/// The number that an equation has as its event at a time, if the fact says that it has one above 0.
pub(crate) fn amount_in(fact: &Fact, i: EqId, t: Time) -> Option<u64>
    ensures { result ≡ amount_of (event_in i t (said fact.now)) }
{
    match event_in(fact, i, t) {
        Some(value) => match value.held() {
            Held::Scalar(Scalar::Int(n)) => { if *n > 0 { Some(*n as u64) } else { None } }
            _ => None,
        },
        None => None,
    }
}

/// What the fact tells of an equation at a time: its event, or that it has none. `None` where it tells neither.
fn told_in(fact: &Fact, i: EqId, t: Time) -> Option<Option<&Value>>
    ensures { option_map option_copied result ≡ told_in i t (said fact.now) }
{
    match fact {
        Fact::Event {
            equation,
            time,
            value,
        } => {
            if *equation == i && *time == t {
                Some(Some(value))
            } else {
                None
            }
        }
        Fact::Silent { equation, from, to } => {
            if *equation == i && *from <= t && t <= *to {
                Some(None)
            } else {
                None
            }
        }
        _ => None,
    }
}

/// What the facts tell of some equations at a time, where there is one fact for each of them, in order. `None` where it isn't so.
pub(crate) fn told(
    alloc: Global,
    ids: &[EqId],
    t: Time,
    named: &[Fact],
) -> Result<Option<Vec<Option<Value>>>, NoMemory>
    ensures { IfOk result (λ r. option_map vec_items r ≡ told_all t ids.now (map said named.now)) }
{
    if named.len() != ids.len() {
        return Ok(None);
    }
    let mut values = Vec::new(alloc);
    for (id, fact) in ids.iter().zip(named) {
        match told_in(fact, *id, t) {
            Some(value) => values.push(copied(value)?)?,
            None => return Ok(None),
        }
    }
    Ok(Some(values))
}
