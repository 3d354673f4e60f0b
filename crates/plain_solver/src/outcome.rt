// What happens at an equation at a time.

ghost use Rattle.std.specs.Prelude.{◌≡◌, ◌<◌, Some, None, pos, suc, if◌then◌else◌, length, map, slice_index, slice_index_or, [], is_some, IfOk};
ghost use Rattle.std.specs.Prelude.{IsTrue, Ok, All};
ghost use Rattle.std.specs.List.{list_any, list_all};
ghost use Rattle.std.specs.Option.{option_map, option_copied};
ghost use Rattle.tsl_value.specs.View.{Plain};
ghost use Rattle.flat_core.specs.Stream.{event, is_fault, latest};
ghost use Rattle.flat_core.specs.Case.{case_of, delayed, is_blocked, lasting, own, root_fault};
ghost use Rattle.lift_func.specs.Update.{beside, update_answer};
ghost use Rattle.flat_core.specs.Updates.{update_in};
ghost use Rattle.flat_core.specs.Events.{filtered, merged, refused, unit, updating};
ghost use Rattle.flat_core.specs.Line.{IsSorted, inputs_of};
ghost use Rattle.flat_core.specs.inner.Kept.{IsKept};
ghost use Rattle.plain_solver.specs.inner.Lent.{IsEvaluableAt};
ghost use Rattle.plain_solver.specs.inner.PassedOn.{chosen_of};
ghost use Rattle.flat_core.specs.inner.OpGroups.{counts, lift_answer};
ghost use Rattle.plain_solver.specs.inner.Moments.{seen};
ghost use Rattle.flat_core.specs.inner.Arity.{HasArity};
ghost use Rattle.plain_solver.specs.inner.Streams.{streams_of};
ghost use Rattle.plain_solver.specs.inner.Typed.{TakesTyped};
ghost use Rattle.plain_solver.specs.inner.ValueView.{IsAnswer};

use crate::delay::{is_now, pending_before};
use crate::events::{Events, Outcome};
use crate::lender::evaluated;
use crate::line::input_at;
use crate::update::{
    element_added, element_taken, empty_at, entry_added, entry_removed, key_added, key_removed,
    picked,
};
use crate::value::{Held, Value, copied};
use body_eval::eval::EvalFault;
use flat_core::equation::{Equation, Op};
use flat_core::line::TraceLine;
use flat_core::lists::Args;
use lift_func::body::Body;
use lift_func::fault::FaultKind;
use std::alloc::Global;
use tsl_value::ids::EqId;
use tsl_value::memory::NoMemory;
use tsl_value::operation::Update;
use tsl_value::scalar::Scalar;
use tsl_value::time::Time;

/// An argument that is there.
pub fn argument(args: &Args, k: usize) -> EqId
    requires { k < length args.now }
    ensures { result ≡ slice_index args.now k }
{
    args.ids()[k]
}

/// The stream of an equation.
pub fn stream_at(streams: &[Events], i: EqId) -> &Events
    requires { i < length streams.now }
    ensures { result.now ≡ slice_index_or streams.now i [] }
{
    &streams[i.get() as usize]
}

/// The event of an argument at a time.
fn value_of<'a>(streams: &'a [Events], args: &Args, k: usize, t: Time) -> Option<&'a Value>
    requires there { k < length args.now }
    requires known { slice_index args.now k < length streams.now }
    ensures { option_copied result ≡ event (streams_of streams.now (slice_index args.now k) t) }
{
    streams[argument(args, k).get() as usize].value_at(t)
}

/// The latest event of an argument before a time.
fn latest_of<'a>(streams: &'a [Events], args: &Args, k: usize, t: Time) -> Option<&'a Value>
    requires there { k < length args.now }
    requires known { slice_index args.now k < length streams.now }
    ensures { option_copied result ≡ latest (streams_of streams.now (slice_index args.now k)) t }
{
    streams[argument(args, k).get() as usize].latest_before(t)
}

/// The events of some equations at a time.
fn values_at(
    alloc: Global,
    ids: &[EqId],
    streams: &[Events],
    t: Time,
) -> Result<Vec<Option<Value>>, NoMemory>
    requires { All (λ a. a < length streams.now) ids.now }
    ensures { IfOk result (λ v. v.items ≡ map (λ a. event (streams_of streams.now a t)) ids.now) }
{
    let mut values = Vec::new(alloc);
    for id in ids {
        values.push(copied(streams[id.get() as usize].value_at(t))?)?;
    }
    Ok(values)
}

/// One of some equations has a fault at a time.
fn some_fault(ids: &[EqId], streams: &[Events], t: Time) -> bool
    requires { All (λ a. a < length streams.now) ids.now }
    ensures { result ≡ list_any (λ a. is_fault (streams_of streams.now a t)) ids.now }
{
    for id in ids {
        if streams[id.get() as usize].is_fault_at(t) {
            return true;
        }
    }
    false
}

/// All values are there.
fn are_all_there(values: &[Option<Value>]) -> bool
    ensures { result ≡ list_all is_some values.now }
{
    for v in values {
        if v.is_none() {
            return false;
        }
    }
    true
}

/// Some value is there.
pub(crate) fn is_one_there(values: &[Option<Value>]) -> bool
    ensures { result ≡ list_any is_some values.now }
{
    for v in values {
        if v.is_some() {
            return true;
        }
    }
    false
}

/// The value of a lifted body: where all its arguments are there, or of a body of options where one of them is.
pub(crate) fn lift_value(
    alloc: Global,
    body: &Body,
    strict: bool,
    values: &[Option<Value>],
) -> Result<Option<Value>, EvalFault>
    requires { IsTrue (counts strict values.now) → IsEvaluableAt body.now values.now }
    ensures { IsAnswer result (lift_answer body.now strict values.now) }
{
    if !do_count(strict, values) {
        return Ok(None);
    }
    match evaluated(alloc, body, values)? {
        Some(scalar) => Ok(Some(Value::of_scalar(scalar))),
        None => Ok(None),
    }
}

/// The value of a scalar.
fn given(scalar: Option<&Scalar>) -> Result<Option<Value>, NoMemory>
    ensures { IfOk result (λ v. v ≡ option_map Plain (option_copied scalar.entry)) }
{
    match scalar {
        Some(scalar) => Ok(Some(Value::of_scalar(scalar.copy()?))),
        None => Ok(None),
    }
}

/// The unit event where something holds.
pub(crate) fn unit_if(holds: bool) -> Option<Value>
    ensures { result ≡ (if holds then Some unit else None) }
{
    if holds {
        Some(Value::of_scalar(Scalar::Unit))
    } else {
        None
    }
}

/// A time where a value is there.
pub(crate) fn time_of(value: Option<&Value>, t: Time) -> Option<Value>
    ensures { result ≡ option_map (λ _. Plain (Scalar.Int (pos t))) (option_copied value.entry) }
{
    match value {
        Some(_) => Some(Value::of_scalar(Scalar::Int(t.get() as i64))),
        None => None,
    }
}

/// The first of two values, or else the second.
pub(crate) fn merged<'a>(a: Option<&'a Value>, b: Option<&'a Value>) -> Option<&'a Value>
    ensures { option_copied result ≡ merged (option_copied a.entry) (option_copied b.entry) }
{
    match a {
        Some(_) => a,
        None => b,
    }
}

/// The values of a lift count: all of them are there, or one of them is.
fn do_count(strict: bool, values: &[Option<Value>]) -> bool
    ensures { result ≡ counts strict values.now }
{
    if strict {
        are_all_there(values)
    } else {
        is_one_there(values)
    }
}

/// A value where a condition is true.
pub(crate) fn passed<'a>(value: Option<&'a Value>, condition: Option<&Value>) -> Option<&'a Value>
    ensures { option_copied result ≡ filtered (option_copied value.entry) (option_copied condition.entry) }
{
    match condition {
        Some(condition) => match condition.held() {
            Held::Scalar(Scalar::Bool(holds)) => { if *holds { value } else { None } }
            _ => None,
        },
        None => None,
    }
}

/// The unit event of a delay that expires.
fn expired(e: &Equation, i: EqId, streams: &[Events], t: Time) -> Option<Value>
    requires shape { HasArity e.now.op e.now.args }
    requires delay { e.now.op ≡ Op.Delay }
    requires known { All (λ a. a < length streams.now) e.now.args }
    requires there { i < length streams.now }
    requires kept { IsKept (streams_of streams.now) i e.now.op e.now.args t }
    ensures { result ≡ delayed (streams_of streams.now) i e.now.args t }
{
    let amount = stream_at(streams, argument(&e.args, 0));
    let reset = stream_at(streams, argument(&e.args, 1));
    let delay = stream_at(streams, i);
    let due = pending_before(amount, reset, delay, t);
    if is_now(due, t) {
        Some(Value::of_scalar(Scalar::Unit))
    } else {
        None
    }
}

/// The event of an argument before a time, where the other argument has one at that time.
fn lasting<'a>(e: &Equation, streams: &'a [Events], t: Time) -> Option<&'a Value>
    requires shape { HasArity Op.Last e.now.args }
    requires known { All (λ a. a < length streams.now) e.now.args }
    ensures { option_copied result ≡ lasting (streams_of streams.now) e.now.args t }
{
    match value_of(streams, &e.args, 1, t) {
        Some(_) => latest_of(streams, &e.args, 0, t),
        None => None,
    }
}

/// The event of an argument that an operation passes on.
fn chosen<'a>(e: &Equation, streams: &'a [Events], t: Time) -> Option<&'a Value>
    requires shape { HasArity e.now.op e.now.args }
    requires known { All (λ a. a < length streams.now) e.now.args }
    ensures { option_copied result ≡ chosen_of e.now.op (map (λ a. event (streams_of streams.now a t)) e.now.args) }
{
    let args = &e.args;
    match &e.op {
        Op::Merge => merged(value_of(streams, args, 0, t), value_of(streams, args, 1, t)),
        Op::Filter => passed(value_of(streams, args, 0, t), value_of(streams, args, 1, t)),
        Op::Pick => picked(
            value_of(streams, args, 0, t),
            value_of(streams, args, 1, t),
            value_of(streams, args, 2, t),
        ),
        _ => None,
    }
}

/// What an update makes of the events of its arguments, or its fault.
fn update_value(
    alloc: Global,
    update: Update,
    args: &Args,
    streams: &[Events],
    t: Time,
) -> Result<Option<Value>, EvalFault>
    requires many { length args.now ≡ suc (beside update) }
    requires known { All (λ a. a < length streams.now) args.now }
    ensures { IsAnswer result (update_answer update (map (λ a. event (streams_of streams.now a t)) args.now)) }
{
    let aggregate = value_of(streams, args, 0, t);
    match update {
        Update::SetAdd => Ok(key_added(alloc, aggregate, value_of(streams, args, 1, t))?),
        Update::SetRemove => Ok(key_removed(alloc, aggregate, value_of(streams, args, 1, t))?),
        Update::MapAdd => Ok(entry_added(
            alloc,
            aggregate,
            value_of(streams, args, 1, t),
            value_of(streams, args, 2, t),
        )?),
        Update::MapRemove => Ok(entry_removed(alloc, aggregate, value_of(streams, args, 1, t))?),
        Update::QueueAdd => Ok(element_added(alloc, aggregate, value_of(streams, args, 1, t))?),
        Update::QueueTake => element_taken(alloc, aggregate),
    }
}

/// The event of an equation that is an update, or its fault.
fn updated(
    alloc: Global,
    e: &Equation,
    streams: &[Events],
    t: Time,
) -> Result<Option<Value>, EvalFault>
    requires shape { HasArity e.now.op e.now.args }
    requires known { All (λ a. a < length streams.now) e.now.args }
    ensures { IsAnswer result (updating (update_in e.now.op) (map (λ a. event (streams_of streams.now a t)) e.now.args)) }
{
    match e.op.update() {
        Some(update) => update_value(alloc, update, &e.args, streams, t),
        None => Ok(None),
    }
}

/// The event of an equation at a time by its own case, from the streams up to it.
pub fn own_of(
    alloc: Global,
    e: &Equation,
    i: EqId,
    streams: &[Events],
    lines: &[TraceLine],
    t: Time,
) -> Result<Option<Value>, EvalFault>
    requires shape { HasArity e.now.op e.now.args }
    requires known { All (λ a. a < length streams.now) e.now.args }
    requires there { i < length streams.now }
    requires kept { IsKept (streams_of streams.now) i e.now.op e.now.args t }
    requires typed { TakesTyped (streams_of streams.now) e.now t }
    requires sorted { IsSorted lines.now }
    ensures { IsAnswer result (own (inputs_of lines.now) (streams_of streams.now) i e.now t) }
{
    let args = &e.args;
    match &e.op {
        Op::Input => Ok(given(input_at(lines, i, t))?),
        Op::Nil => Ok(None),
        Op::Unit => Ok(unit_if(t.get() == 0)),
        Op::Lift { body, strict } => {
            let values = values_at(alloc, args.ids(), streams, t)?;
            lift_value(alloc, body, *strict, &values)
        }
        Op::Any => {
            let values = values_at(alloc, args.ids(), streams, t)?;
            Ok(unit_if(is_one_there(&values)))
        }
        Op::Time => Ok(time_of(value_of(streams, args, 0, t), t)),
        Op::Last => Ok(copied(lasting(e, streams, t))?),
        Op::Delay => Ok(expired(e, i, streams, t)),
        Op::Empty => Ok(empty_at(alloc, e.of, t)?),
        Op::Merge | Op::Filter | Op::Pick => Ok(copied(chosen(e, streams, t))?),
        Op::SetAdd | Op::SetRemove | Op::MapAdd | Op::MapRemove => updated(alloc, e, streams, t),
        Op::QueueAdd | Op::QueueTake => updated(alloc, e, streams, t),
    }
}

/// An argument that is used at the same time has a fault.
fn is_blocked_at(e: &Equation, streams: &[Events], t: Time) -> bool
    requires shape { HasArity e.now.op e.now.args }
    requires known { All (λ a. a < length streams.now) e.now.args }
    ensures { result ≡ is_blocked (streams_of streams.now) e.now t }
{
    match &e.op {
        Op::Last => streams[argument(&e.args, 1).get() as usize].is_fault_at(t),
        Op::Delay => false,
        _ => some_fault(e.args.ids(), streams, t),
    }
}

/// What happens at an equation at a time.
pub fn outcome_of(
    alloc: Global,
    e: &Equation,
    i: EqId,
    streams: &[Events],
    lines: &[TraceLine],
    t: Time,
) -> Result<Option<Outcome>, NoMemory>
    requires shape { HasArity e.now.op e.now.args }
    requires known { All (λ a. a < length streams.now) e.now.args }
    requires there { i < length streams.now }
    requires kept { IsKept (streams_of streams.now) i e.now.op e.now.args t }
    requires typed { TakesTyped (streams_of streams.now) e.now t }
    requires sorted { IsSorted lines.now }
    ensures { IfOk result (λ o. case_of (inputs_of lines.now) (streams_of streams.now) i e.now t ≡ option_map seen o) }
{
    if is_blocked_at(e, streams, t) {
        return Ok(Some(Outcome::Fault));
    }
    match own_of(alloc, e, i, streams, lines, t) {
        Ok(Some(v)) => Ok(Some(Outcome::Event(v))),
        Ok(None) => Ok(None),
        Err(EvalFault::Fault(_)) => Ok(Some(Outcome::Fault)),
        Err(EvalFault::Memory) => Err(NoMemory),
    }
}

/// Why the amount of a delay is refused.
fn refusal(amount: Option<&Value>) -> Option<FaultKind>
    ensures { result ≡ refused (option_copied amount.entry) }
{
    match amount {
        Some(amount) => match amount.held() {
            Held::Scalar(Scalar::Int(n)) => {
                if *n <= 0 {
                    Some(FaultKind::DelayNotPositive)
                } else {
                    None
                }
            }
            _ => None,
        },
        None => None,
    }
}

/// The root fault of an equation at a time.
pub fn root_of(
    alloc: Global,
    e: &Equation,
    i: EqId,
    streams: &[Events],
    lines: &[TraceLine],
    t: Time,
) -> Result<Option<FaultKind>, NoMemory>
    requires shape { HasArity e.now.op e.now.args }
    requires known { All (λ a. a < length streams.now) e.now.args }
    requires there { i < length streams.now }
    requires kept { IsKept (streams_of streams.now) i e.now.op e.now.args t }
    requires typed { TakesTyped (streams_of streams.now) e.now t }
    requires sorted { IsSorted lines.now }
    ensures { IfOk result (λ k. root_fault (inputs_of lines.now) (streams_of streams.now) i e.now t ≡ k) }
{
    if let Op::Delay = &e.op {
        return Ok(refusal(value_of(streams, &e.args, 0, t)));
    }
    if is_blocked_at(e, streams, t) {
        return Ok(None);
    }
    match own_of(alloc, e, i, streams, lines, t) {
        Ok(_) => Ok(None),
        Err(EvalFault::Fault(kind)) => Ok(Some(kind)),
        Err(EvalFault::Memory) => Err(NoMemory),
    }
}
