// From which facts it follows that an equation has no event.

ghost use Rattle.std.specs.Prelude.{◌≡◌, ◌↔◌, ℕ, IfOk, IsTrue, Some, map};
ghost use Rattle.flat_core.specs.Events.{Inputs};
ghost use Rattle.flat_core.specs.Line.{IsSorted, inputs_of};
ghost use Rattle.flat_core.specs.inner.Arity.{HasArity};
ghost use Rattle.why_rules.specs.Rules.{Lacks, is_constant, joins};
ghost use Rattle.event_why.specs.Said.{said};
ghost use Rattle.event_why.specs.inner.Agrees.{TakesTold};
ghost use Rattle.event_why.specs.inner.Silence.{IsInGap, IsJoined, IsMissing, IsNotTrue, IsSilenceOfOne, IsSilentBefore, misses_only};

use crate::agrees::agrees;
use crate::fact::Fact;
use crate::named::{one, two};
use crate::told::{due_in, event_in, is_silence, is_silent_at};
use flat_core::equation::{Equation, Op};
use flat_core::line::TraceLine;
use plain_solver::line::input_at;
use std::alloc::Global;
use tsl_value::ids::EqId;
use tsl_value::memory::NoMemory;
use tsl_value::scalar::Scalar;
use tsl_value::time::Time;

/// The fact says that one of these equations has no event at a time.
fn is_silence_of_one(fact: &Fact, ids: &[EqId], t: Time) -> bool
    ensures { IsTrue result ↔ IsSilenceOfOne ids.now t (said fact.now) }
{
    match fact {
        Fact::Silent { equation, from, to } => { *from <= t && t <= *to && ids.contains(equation) }
        _ => false,
    }
}

/// There is one fact, and it says so.
fn is_missing(ids: &[EqId], t: Time, named: &[Fact]) -> bool
    ensures { IsTrue result ↔ IsMissing ids.now t (map said named.now) }
{
    match one(named) {
        Some(fact) => is_silence_of_one(fact, ids, t),
        None => false,
    }
}

/// There is one fact, and it says that a condition is false at a time.
fn is_not_true(condition: EqId, t: Time, named: &[Fact]) -> bool
    ensures { IsTrue result ↔ IsNotTrue condition t (map said named.now) }
{
    match one(named) {
        Some(fact) => match event_in(fact, condition, t) {
            Some(value) => value.is_scalar(&Scalar::Bool(false)),
            None => false,
        },
        None => false,
    }
}

/// A filter has no event where an argument has none, or the condition is false.
fn is_filtered(e: &Equation, t: Time, named: &[Fact]) -> bool
    requires filter { e.now.op ≡ Op.Filter }
    requires shape { HasArity e.now.op e.now.args }
    ensures { (p : Inputs) (i : ℕ) → IsTrue result ↔ Lacks p i e.now t (map said named.now) }
{
    let ids = e.args.ids();
    is_missing(ids, t, named) || is_not_true(ids[1], t, named)
}

/// An input has no event where the lines have none.
fn is_not_given(i: EqId, lines: &[TraceLine], t: Time, named: &[Fact]) -> bool
    requires { IsSorted lines.now }
    ensures { (e : Equation) → e.op ≡ Op.Input → IsTrue result ↔ Lacks (inputs_of lines.now) i e t (map said named.now) }
{
    match input_at(lines, i, t) {
        Some(_) => false,
        None => named.is_empty(),
    }
}

/// `unit` and an empty aggregate have no event after time 0.
fn is_past(t: Time, named: &[Fact]) -> bool
    ensures { (p : Inputs) (i : ℕ) (e : Equation) → IsTrue (is_constant e.op) → IsTrue result ↔ Lacks p i e t (map said named.now) }
{
    named.is_empty() && t.get() > 0
}

/// The fact says that an equation has no event at any time before another, where there is one.
fn is_silent_before(fact: &Fact, i: EqId, t: Time) -> bool
    ensures { IsTrue result ↔ IsSilentBefore i t (said fact.now) }
{
    t.get() > 0 && is_silence(fact, i, 0, t.get() - 1)
}

/// A last has no event at time 0, where it is not asked, and where its first argument had none before.
fn is_without_last(e: &Equation, t: Time, named: &[Fact]) -> bool
    requires last { e.now.op ≡ Op.Last }
    requires shape { HasArity e.now.op e.now.args }
    ensures { (p : Inputs) (i : ℕ) → IsTrue result ↔ Lacks p i e.now t (map said named.now) }
{
    if named.is_empty() {
        return t.get() == 0;
    }
    let (a, r) = (e.args.ids()[0], e.args.ids()[1]);
    match one(named) {
        Some(fact) => is_silent_at(fact, r, t) || is_silent_before(fact, a, t),
        None => false,
    }
}

/// A delay is due at this time.
fn is_due_at(due: Option<Time>, t: Time) -> bool
    ensures { IsTrue result ↔ due ≡ Some t }
{
    due == Some(t)
}

/// A delay has no event at time 0, and where it is not due.
fn is_not_due(i: EqId, t: Time, named: &[Fact]) -> bool
    ensures { (p : Inputs) (e : Equation) → e.op ≡ Op.Delay → IsTrue result ↔ Lacks p i e t (map said named.now) }
{
    if named.is_empty() {
        return t.get() == 0;
    }
    if t.get() == 0 {
        return false;
    }
    match one(named) {
        Some(fact) => match due_in(fact, i, t.get() - 1) {
            Some(due) => !is_due_at(due, t),
            None => false,
        },
        None => false,
    }
}

/// One argument without an event is enough, and nothing else is.
fn is_missed(e: &Equation, t: Time, named: &[Fact]) -> bool
    requires { IsTrue (misses_only e.now.op) }
    ensures { (p : Inputs) (i : ℕ) → IsTrue result ↔ Lacks p i e.now t (map said named.now) }
{
    is_missing(e.args.ids(), t, named)
}

/// What is told of all arguments makes no event.
fn is_without(alloc: Global, e: &Equation, t: Time, named: &[Fact]) -> Result<bool, NoMemory>
    requires joins { IsTrue (joins e.now.op) }
    requires shape { HasArity e.now.op e.now.args }
    requires takes { TakesTold e.now t (map said named.now) }
    ensures { IfOk result (λ b. (p : Inputs) (i : ℕ) → IsTrue b ↔ Lacks p i e.now t (map said named.now)) }
{
    agrees(alloc, e, t, None, named)
}

/// Whether these facts, in this order, are those from which it follows by the equation's operation that it has no event at a time.
pub(crate) fn lacks(
    alloc: Global,
    e: &Equation,
    i: EqId,
    lines: &[TraceLine],
    t: Time,
    named: &[Fact],
) -> Result<bool, NoMemory>
    requires shape { HasArity e.now.op e.now.args }
    requires takes { TakesTold e.now t (map said named.now) }
    requires sorted { IsSorted lines.now }
    ensures { IfOk result (λ b. IsTrue b ↔ Lacks (inputs_of lines.now) i e.now t (map said named.now)) }
{
    match &e.op {
        Op::Input => Ok(is_not_given(i, lines, t, named)),
        Op::Nil => Ok(named.is_empty()),
        Op::Unit | Op::Empty => Ok(is_past(t, named)),
        Op::Filter => Ok(is_filtered(e, t, named)),
        Op::Last => Ok(is_without_last(e, t, named)),
        Op::Delay => Ok(is_not_due(i, t, named)),
        Op::Any | Op::Merge => is_without(alloc, e, t, named),
        Op::Lift { body: _, strict } => {
            if *strict {
                Ok(is_missed(e, t, named))
            } else {
                is_without(alloc, e, t, named)
            }
        }
        Op::Time | Op::Pick => Ok(is_missed(e, t, named)),
        Op::SetAdd | Op::SetRemove | Op::MapAdd | Op::MapRemove => Ok(is_missed(e, t, named)),
        Op::QueueAdd | Op::QueueTake => Ok(is_missed(e, t, named)),
    }
}

/// There is one fact, a gap that has the times from one to another.
pub(crate) fn is_in_gap(from: Time, to: Time, named: &[Fact]) -> bool
    ensures { IsTrue result ↔ IsInGap from to (map said named.now) }
{
    match one(named) {
        Some(
            Fact::Gap {
                from: low,
                to: high,
            },
        ) => *low <= from && from <= to && to <= *high,
        _ => false,
    }
}

/// The facts say that an equation has no event from one time to one between, and from the next to another.
pub(crate) fn is_joined(i: EqId, from: Time, to: Time, named: &[Fact]) -> bool
    ensures { IsTrue result ↔ IsJoined i from to (map said named.now) }
{
    let Some((first, second)) = two(named) else {
        return false;
    };
    let Fact::Silent {
        equation: _,
        from: _,
        to: middle,
    } = first
    else {
        return false;
    };
    from <= *middle
        && *middle < to
        && is_silence(first, i, from.get(), middle.get())
        && is_silence(second, i, middle.get() + 1, to.get())
}
