// From which facts an event follows.

ghost use Rattle.std.specs.Prelude.{◌≡◌, ◌↔◌, ◌<◌, ℕ, [], IfOk, IsTrue, MatchOption, Some, map};
ghost use Rattle.tsl_value.specs.View.{Plain};
ghost use Rattle.flat_core.specs.Events.{Inputs};
ghost use Rattle.flat_core.specs.Line.{IsSorted, inputs_of};
ghost use Rattle.flat_core.specs.inner.Arity.{HasArity};
ghost use Rattle.plain_solver.specs.inner.Typed.{TakesValues};
ghost use Rattle.why_rules.specs.Facts as rules;
ghost use Rattle.why_rules.specs.Rules.{Makes, SilentBetween, computes, is_constant, seen_by};
ghost use Rattle.event_why.specs.Said.{said};
ghost use Rattle.event_why.specs.inner.Agrees.{TakesTold};
ghost use Rattle.event_why.specs.inner.Silence.{IsEventOfOne, NoEarlier};

use crate::agrees::{agrees, gives};
use crate::fact::Fact;
use crate::named::{one, two};
use crate::told::{event_in, is_due_so, is_event_of, is_silence, is_silent_at};
use flat_core::equation::{Equation, Op};
use flat_core::line::TraceLine;
use plain_solver::line::input_at;
use plain_solver::value::Value;
use std::alloc::Global;
use tsl_value::ids::EqId;
use tsl_value::memory::NoMemory;
use tsl_value::scalar::Scalar;
use tsl_value::time::Time;

/// An input's event is that of the lines.
fn is_given(i: EqId, lines: &[TraceLine], t: Time, value: &Value, named: &[Fact]) -> bool
    requires { IsSorted lines.now }
    ensures { (e : Equation) → e.op ≡ Op.Input → IsTrue result ↔ Makes (inputs_of lines.now) i e t value.now (map said named.now) }
{
    match input_at(lines, i, t) {
        Some(scalar) => named.is_empty() && value.is_scalar(scalar),
        None => false,
    }
}

/// `unit` and an empty aggregate have one event, at time 0.
fn is_first(
    alloc: Global,
    e: &Equation,
    t: Time,
    value: &Value,
    named: &[Fact],
) -> Result<bool, NoMemory>
    requires constant { IsTrue (is_constant e.now.op) }
    requires shape { HasArity e.now.op e.now.args }
    requires takes { TakesValues e.now [] }
    ensures { IfOk result (λ b. (p : Inputs) (i : ℕ) → IsTrue b ↔ Makes p i e.now t value.now (map said named.now)) }
{
    if !named.is_empty() {
        return Ok(false);
    }
    if t.get() != 0 {
        return Ok(false);
    }
    gives(alloc, e, &[], t, Some(value))
}

/// The fact is an event of one of these equations at a time.
fn is_event_of_one(fact: &Fact, ids: &[EqId], t: Time) -> bool
    ensures { IsTrue result ↔ IsEventOfOne ids.now t (said fact.now) }
{
    match fact {
        Fact::Event {
            equation,
            time,
            value: _,
        } => *time == t && ids.contains(equation),
        _ => false,
    }
}

/// An event of one argument is enough for a time and for the unit of several.
fn is_seen(e: &Equation, t: Time, value: &Value, made: &Scalar, named: &[Fact]) -> bool
    requires { seen_by e.now.op t ≡ Some (Plain made.now) }
    ensures { (p : Inputs) (i : ℕ) → IsTrue result ↔ Makes p i e.now t value.now (map said named.now) }
{
    match one(named) {
        Some(fact) => value.is_scalar(made) && is_event_of_one(fact, e.args.ids(), t),
        None => false,
    }
}

/// Other operations that see their arguments at one time make the event of what is told of all of them.
fn is_computed(
    alloc: Global,
    e: &Equation,
    t: Time,
    value: &Value,
    named: &[Fact],
) -> Result<bool, NoMemory>
    requires computes { IsTrue (computes e.now.op) }
    requires shape { HasArity e.now.op e.now.args }
    requires takes { TakesTold e.now t (map said named.now) }
    ensures { IfOk result (λ b. (p : Inputs) (i : ℕ) → IsTrue b ↔ Makes p i e.now t value.now (map said named.now)) }
{
    agrees(alloc, e, t, Some(value), named)
}

/// The fact says that an equation has this event at a time.
pub(crate) fn is_this_event(fact: &Fact, i: EqId, t: Time, value: &Value) -> bool
    ensures { IsTrue result ↔ said fact.now ≡ rules.Happens i t value.now }
{
    match event_in(fact, i, t) {
        Some(held) => held.is_same(value),
        None => false,
    }
}

/// A merge has the first argument's event, or the second's where the first has none.
fn is_merged(e: &Equation, t: Time, value: &Value, named: &[Fact]) -> bool
    requires merge { e.now.op ≡ Op.Merge }
    requires shape { HasArity e.now.op e.now.args }
    ensures { (p : Inputs) (i : ℕ) → IsTrue result ↔ Makes p i e.now t value.now (map said named.now) }
{
    let (a, b) = (e.args.ids()[0], e.args.ids()[1]);
    if let Some(fact) = one(named) {
        return is_this_event(fact, a, t, value);
    }
    match two(named) {
        Some((none, event)) => is_silent_at(none, a, t) && is_this_event(event, b, t, value),
        None => false,
    }
}

/// The facts say that an equation has no event from one time to the one before another, where there are such times.
fn is_silent_between(i: EqId, from: u64, to: u64, named: &[Fact]) -> bool
    ensures { IsTrue result ↔ SilentBetween i from to (map said named.now) }
{
    if named.is_empty() {
        return to <= from;
    }
    match one(named) {
        Some(fact) => from < to && is_silence(fact, i, from, to - 1),
        None => false,
    }
}

/// The fact is an event of an equation before a time, of this value: at which time?
fn earlier_in(fact: &Fact, i: EqId, t: Time, value: &Value) -> Option<Time>
    ensures { MatchOption result (NoEarlier i t value.now (said fact.now)) (λ u. (u < t) × (said fact.now ≡ rules.Happens i u value.now)) }
{
    match fact {
        Fact::Event {
            equation,
            time,
            value: held,
        } => {
            if *equation == i && *time < t && held.is_same(value) {
                Some(*time)
            } else {
                None
            }
        }
        _ => None,
    }
}

/// A last has the first argument's latest event before the time, where the second one has an event.
fn is_last(e: &Equation, t: Time, value: &Value, named: &[Fact]) -> bool
    requires last { e.now.op ≡ Op.Last }
    requires shape { HasArity e.now.op e.now.args }
    ensures { (p : Inputs) (i : ℕ) → IsTrue result ↔ Makes p i e.now t value.now (map said named.now) }
{
    let (a, r) = (e.args.ids()[0], e.args.ids()[1]);
    let Some((asked, rest)) = named.split_first() else {
        return false;
    };
    let Some((earlier, between)) = rest.split_first() else {
        return false;
    };
    match earlier_in(earlier, a, t, value) {
        Some(u) => {
            is_event_of(asked, r, t) && is_silent_between(a, u.get() + 1, t.get(), between)
        }
        None => false,
    }
}

/// A delay has its event where it is due.
fn is_expired(i: EqId, t: Time, value: &Value, named: &[Fact]) -> bool
    ensures { (p : Inputs) (e : Equation) → e.op ≡ Op.Delay → IsTrue result ↔ Makes p i e t value.now (map said named.now) }
{
    if t.get() == 0 || !value.is_scalar(&Scalar::Unit) {
        return false;
    }
    match one(named) {
        Some(fact) => is_due_so(fact, i, t.get() - 1, &Some(t)),
        None => false,
    }
}

/// Whether these facts, in this order, are those from which a rule makes an equation's event.
pub(crate) fn makes(
    alloc: Global,
    e: &Equation,
    i: EqId,
    lines: &[TraceLine],
    t: Time,
    value: &Value,
    named: &[Fact],
) -> Result<bool, NoMemory>
    requires shape { HasArity e.now.op e.now.args }
    requires takes { TakesTold e.now t (map said named.now) }
    requires constant { IsTrue (is_constant e.now.op) → TakesValues e.now [] }
    requires sorted { IsSorted lines.now }
    ensures { IfOk result (λ b. IsTrue b ↔ Makes (inputs_of lines.now) i e.now t value.now (map said named.now)) }
{
    match &e.op {
        Op::Input => Ok(is_given(i, lines, t, value, named)),
        Op::Nil => Ok(false),
        Op::Unit | Op::Empty => is_first(alloc, e, t, value, named),
        Op::Time => Ok(is_seen(e, t, value, &Scalar::Int(t.get() as i64), named)),
        Op::Any => Ok(is_seen(e, t, value, &Scalar::Unit, named)),
        Op::Merge => Ok(is_merged(e, t, value, named)),
        Op::Last => Ok(is_last(e, t, value, named)),
        Op::Delay => Ok(is_expired(i, t, value, named)),
        Op::Lift { .. } | Op::Filter | Op::Pick => is_computed(alloc, e, t, value, named),
        Op::SetAdd | Op::SetRemove | Op::MapAdd | Op::MapRemove => {
            is_computed(alloc, e, t, value, named)
        }
        Op::QueueAdd | Op::QueueTake => is_computed(alloc, e, t, value, named),
    }
}
