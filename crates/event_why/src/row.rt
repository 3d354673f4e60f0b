// What happens at one instant, equation by equation, from what a draft tells of earlier times.

ghost use Rattle.std.specs.Prelude.{◌≡◌, ◌<◌, ◌^◌, ℕ, Bool, List, Option, None, Some, IfOk, IsTrue, if◌then◌else◌};
ghost use Rattle.std.specs.Prelude.{length, replicate, slice_index, slice_index_or, slice_set};
ghost use Rattle.std.specs.List.{AllByRecursion, list_any};
ghost use Rattle.std.specs.Option.{option_copied, option_map};
ghost use Rattle.tsl_value.specs.View.{Plain};
ghost use Rattle.lift_func.specs.Apply.{Answer};
ghost use Rattle.flat_core.specs.declared.equation.Equation.{Equation as ViewedEquation};
ghost use Rattle.flat_core.specs.Case.{delayed, is_blocked, lasting, own, root_fault, used_of};
ghost use Rattle.flat_core.specs.Events.{at_once, fault_of, refused};
ghost use Rattle.flat_core.specs.Line.{IsSorted, Line};
ghost use Rattle.flat_core.specs.Pending.{option_is};
ghost use Rattle.flat_core.specs.Stream.{event, is_fault};
ghost use Rattle.flat_core.specs.System.{equation, runs};
ghost use Rattle.flat_core.specs.inner.Arity.{HasArity};
ghost use Rattle.flat_core.specs.inner.Dependency.{IsRunOrder};
ghost use Rattle.plain_solver.specs.declared.events.Outcome.{Outcome as ViewedOutcome};
ghost use Rattle.plain_solver.specs.inner.Instant.{IsFirstRoot};
ghost use Rattle.plain_solver.specs.inner.Moments.{seen};
ghost use Rattle.plain_solver.specs.inner.Typed.{TakesValues};
ghost use Rattle.plain_solver.specs.inner.ValueView.{IsAnswer};
ghost use Rattle.event_why.specs.Said.{said};
ghost use Rattle.event_why.specs.declared.draft.Draft.{Draft as ViewedDraft};
ghost use Rattle.event_why.specs.inner.Drafted.{due_of, fact_of};
ghost use Rattle.event_why.specs.inner.Here.{CanHappen, HasHappened, IsOutcomeAt, IsPartOfRow, events_in, latest_told, value_of};
ghost use Rattle.event_why.specs.inner.Row.{CanRun, IsRow, row_at};
ghost use Rattle.event_why.specs.inner.Tale.{Tale};

use crate::draft::Draft;
use crate::fact::Fact;
use body_eval::eval::EvalFault;
use flat_core::equation::{Equation, Op};
use flat_core::flat::Flat;
use flat_core::line::TraceLine;
use flat_core::lists::Args;
use lift_func::fault::FaultKind;
use plain_solver::at_once::at_once;
use plain_solver::events::Outcome;
use plain_solver::line::input_at;
use plain_solver::value::{Held, Value, copied};
use std::alloc::Global;
use translation_order::steps::Steps;
use tsl_value::ids::EqId;
use tsl_value::memory::NoMemory;
use tsl_value::scalar::Scalar;
use tsl_value::time::Time;

/// What happens at an equation.
fn outcome_in(row: &[Option<Outcome>], i: EqId) -> Option<&Outcome>
    ensures { option_copied result ≡ slice_index_or row.now i None }
{
    match row.get(i.get() as usize) {
        Some(outcome) => outcome.as_ref(),
        None => None,
    }
}

/// The event of an equation.
pub(crate) fn event_in(row: &[Option<Outcome>], i: EqId) -> Option<&Value>
    ensures { option_copied result ≡ event (row_at row.now i) }
{
    match outcome_in(row, i) {
        Some(Outcome::Event(value)) => Some(value),
        _ => None,
    }
}

/// An equation has a fault.
fn is_fault_in(row: &[Option<Outcome>], i: EqId) -> bool
    ensures { result ≡ is_fault (row_at row.now i) }
{
    match outcome_in(row, i) {
        Some(Outcome::Fault) => true,
        _ => false,
    }
}

/// One of some equations has a fault.
fn some_fault_in(row: &[Option<Outcome>], ids: &[EqId]) -> bool
    ensures { result ≡ list_any (λ a. is_fault (row_at row.now a)) ids.now }
{
    for id in ids {
        if is_fault_in(row, *id) {
            return true;
        }
    }
    false
}

/// The events of some equations.
fn values_in(
    alloc: Global,
    row: &[Option<Outcome>],
    ids: &[EqId],
) -> Result<Vec<Option<Value>>, NoMemory>
    ensures { IfOk result (λ v. v.items ≡ events_in row.now ids.now) }
{
    let mut values = Vec::new(alloc);
    for id in ids {
        values.push(copied(event_in(row, *id))?)?;
    }
    Ok(values)
}

/// An argument that is there.
fn argument(args: &Args, k: usize) -> EqId
    requires { k < length args.now }
    ensures { result ≡ slice_index args.now k }
{
    args.ids()[k]
}

/// An argument that is used at the same time has a fault.
fn is_blocked_in(row: &[Option<Outcome>], e: &Equation) -> bool
    requires { HasArity e.now.op e.now.args }
    ensures { result ≡ list_any (λ a. is_fault (row_at row.now a)) (used_of e.now.op e.now.args) }
{
    match &e.op {
        Op::Last => is_fault_in(row, argument(&e.args, 1)),
        Op::Delay => false,
        _ => some_fault_in(row, e.args.ids()),
    }
}

/// The value of an event, if the fact tells of one.
fn value_of(fact: &Fact) -> Option<&Value>
    ensures { option_copied result ≡ value_of (Some (said fact.now)) }
{
    match fact {
        Fact::Event {
            equation: _,
            time: _,
            value,
        } => Some(value),
        _ => None,
    }
}

/// The latest event of an equation at an earlier instant.
fn latest_in(draft: &Draft, i: EqId) -> Option<&Value>
    ensures { option_copied result ≡ latest_told draft.now i }
{
    match draft.fact(draft.latest.get(i)) {
        Some(fact) => value_of(fact),
        None => None,
    }
}

/// The latest event of a last's first argument, where the second one has an event.
fn lasting_in<'a>(draft: &'a Draft, row: &[Option<Outcome>], e: &Equation) -> Option<&'a Value>
    requires { HasArity Op.Last e.now.args }
    ensures { (T : Tale) (lines : List Line) (t i : ℕ)
        → CanHappen T lines t i e.now draft.now row.now
        → e.now.op ≡ Op.Last
        → option_copied result ≡ lasting T.streams e.now.args t }
{
    match event_in(row, argument(&e.args, 1)) {
        Some(_) => latest_in(draft, argument(&e.args, 0)),
        None => None,
    }
}

/// A delay is due at an instant, by what happened before it.
fn is_due_now(draft: &Draft, i: EqId, t: Time) -> bool
    ensures due { result ≡ option_is t (due_of (fact_of draft.now.steps.items draft.now.pending.numbers.items i)) }
    ensures small { t < 2 ^ 63 }
{
    let now = t.get();
    match draft.due(i) {
        Some(due) => due.get() == now,
        None => false,
    }
}

/// The event of a delay that expires.
fn expired_in(draft: &Draft, i: EqId, t: Time) -> Option<Value>
    ensures { (T : Tale) (lines : List Line) (e : ViewedEquation) (row : List (Option ViewedOutcome))
        → CanHappen T lines t i e draft.now row
        → e.op ≡ Op.Delay
        → result ≡ delayed T.streams i e.args t }
{
    if is_due_now(draft, i, t) {
        Some(Value::of_scalar(Scalar::Unit))
    } else {
        None
    }
}

/// The value of a scalar.
fn given(scalar: Option<&Scalar>) -> Result<Option<Value>, NoMemory>
    ensures { IfOk result (λ v. v ≡ option_map Plain (option_copied scalar.entry)) }
{
    match scalar {
        Some(scalar) => Ok(Some(Value::of_scalar(scalar.copy()?))),
        None => Ok(None),
    }
}

/// What an operation makes of its arguments' events at an instant.
fn made_in(
    alloc: Global,
    row: &[Option<Outcome>],
    e: &Equation,
    t: Time,
) -> Result<Option<Value>, EvalFault>
    requires shape { HasArity e.now.op e.now.args }
    requires takes { TakesValues e.now (events_in row.now e.now.args) }
    ensures { IsAnswer result (at_once e.now.op e.now.of (events_in row.now e.now.args) t) }
{
    let values = values_in(alloc, row, e.args.ids())?;
    at_once(alloc, e, &values, t)
}

/// The event of an equation at an instant by its own case.
fn own_in(
    alloc: Global,
    draft: &Draft,
    row: &[Option<Outcome>],
    lines: &[TraceLine],
    e: &Equation,
    i: EqId,
    t: Time,
) -> Result<Option<Value>, EvalFault>
    requires shape { HasArity e.now.op e.now.args }
    requires takes { TakesValues e.now (events_in row.now e.now.args) }
    requires sorted { IsSorted lines.now }
    ensures { (T : Tale)
        → CanHappen T lines.now t i e.now draft.now row.now
        → IsAnswer result (own T.inputs T.streams i e.now t) }
{
    match &e.op {
        Op::Input => Ok(given(input_at(lines, i, t))?),
        Op::Last => Ok(copied(lasting_in(draft, row, e))?),
        Op::Delay => Ok(expired_in(draft, i, t)),
        _ => made_in(alloc, row, e, t),
    }
}

/// What happens at an equation at an instant, after all that it uses then.
fn outcome_of(
    alloc: Global,
    draft: &Draft,
    row: &[Option<Outcome>],
    lines: &[TraceLine],
    e: &Equation,
    i: EqId,
    t: Time,
) -> Result<Option<Outcome>, NoMemory>
    requires shape { HasArity e.now.op e.now.args }
    requires takes { TakesValues e.now (events_in row.now e.now.args) }
    requires sorted { IsSorted lines.now }
    ensures { IfOk result (λ o. (T : Tale)
        → CanHappen T lines.now t i e.now draft.now row.now
        → option_map seen o ≡ T.streams i t) }
{
    if is_blocked_in(row, e) {
        return Ok(Some(Outcome::Fault));
    }
    match own_in(alloc, draft, row, lines, e, i, t) {
        Ok(Some(value)) => Ok(Some(Outcome::Event(value))),
        Ok(None) => Ok(None),
        Err(EvalFault::Fault(_)) => Ok(Some(Outcome::Fault)),
        Err(EvalFault::Memory) => Err(NoMemory),
    }
}

/// What happens at an equation at an instant, after all that it uses then. Nothing does where it does not run.
fn running_outcome(
    alloc: Global,
    flat: &Flat,
    draft: &Draft,
    row: &[Option<Outcome>],
    lines: &[TraceLine],
    i: EqId,
    t: Time,
) -> Result<Option<Outcome>, NoMemory>
    requires takes { (e : ViewedEquation)
        → IsTrue (runs flat.now i)
        → equation flat.now i ≡ Some e
        → TakesValues e (events_in row.now e.args) }
    requires sorted { IsSorted lines.now }
    ensures { IfOk result (λ o. (T : Tale) (done : ℕ → Bool) (e : ViewedEquation)
        → CanRun T flat.now lines.now t draft.now
        → IsPartOfRow T t done row.now
        → equation T.system i ≡ Some e
        → AllByRecursion (λ a. IsTrue (done a)) (used_of e.op e.args)
        → IsOutcomeAt T t i o) }
{
    if !flat.runs(i) || i.get() >= flat.count() {
        return Ok(None);
    }
    outcome_of(alloc, draft, row, lines, flat.equation(i), i, t)
}

/// A row of so many equations at which nothing happens.
fn empty_row(alloc: Global, count: u32) -> Result<Vec<Option<Outcome>>, NoMemory>
    ensures { IfOk result (λ row. row.items ≡ replicate count None) }
{
    let mut row = Vec::new(alloc);
    for _n in 0..count {
        row.push(None)?;
    }
    Ok(row)
}

/// This happens at an equation, if it is there.
fn set(row: &mut Vec<Option<Outcome>>, i: EqId, outcome: Option<Outcome>)
    ensures { row.new.items ≡ slice_set row.old.items i outcome }
{
    let place = i.get() as usize;
    if place < row.len() {
        row[place] = outcome;
    }
}

/// What happens at an instant at each equation, from what a draft tells of earlier times.
pub(crate) fn run_row(
    alloc: Global,
    flat: &Flat,
    order: &Steps,
    draft: &Draft,
    lines: &[TraceLine],
    t: Time,
) -> Result<Vec<Option<Outcome>>, NoMemory>
    requires ordered { IsRunOrder flat.now order.now }
    requires sorted { IsSorted lines.now }
    requires told { (T : Tale) × CanRun T flat.now lines.now t draft.now }
    ensures { IfOk result (λ row. (T : Tale) → CanRun T flat.now lines.now t draft.now → IsRow T t row.items) }
{
    let mut row = empty_row(alloc, flat.count())?;
    for number in order.as_slice() {
        let i = EqId::new(*number);
        let outcome = running_outcome(alloc, flat, draft, &row, lines, i, t)?;
        set(&mut row, i, outcome);
    }
    Ok(row)
}

/// Why the amount of a delay is refused.
fn refusal(amount: Option<&Value>) -> Option<FaultKind>
    ensures { result ≡ refused (option_copied amount.entry) }
{
    match amount {
        Some(amount) => match amount.held() {
            Held::Scalar(Scalar::Int(n)) => {
                if *n <= 0 {
                    Some(FaultKind::DelayNotPositive)
                } else {
                    None
                }
            }
            _ => None,
        },
        None => None,
    }
}

/// The fault of an answer.
fn fault_in(answer: &Result<Option<Value>, EvalFault>) -> Result<Option<FaultKind>, NoMemory>
    ensures { IfOk result (λ kind. (a : Answer) → IsAnswer answer.now a → kind ≡ fault_of a) }
{
    match answer {
        Ok(_) => Ok(None),
        Err(EvalFault::Fault(kind)) => Ok(Some(*kind)),
        Err(EvalFault::Memory) => Err(NoMemory),
    }
}

/// Why an equation has a fault at an instant, where it has one and no argument that it uses then has.
fn own_fault(
    alloc: Global,
    row: &[Option<Outcome>],
    e: &Equation,
    i: EqId,
    t: Time,
) -> Result<Option<FaultKind>, NoMemory>
    requires shape { HasArity e.now.op e.now.args }
    requires takes { TakesValues e.now (events_in row.now e.now.args) }
    ensures { IfOk result (λ kind. (T : Tale)
        → HasHappened T t i e.now row.now
        → (if is_blocked T.streams e.now t then None else fault_of (own T.inputs T.streams i e.now t)) ≡ kind) }
{
    if !is_fault_in(row, i) || is_blocked_in(row, e) {
        return Ok(None);
    }
    let answer = made_in(alloc, row, e, t);
    fault_in(&answer)
}

/// The root fault of an equation at an instant.
fn root_of(
    alloc: Global,
    row: &[Option<Outcome>],
    e: &Equation,
    i: EqId,
    t: Time,
) -> Result<Option<FaultKind>, NoMemory>
    requires shape { HasArity e.now.op e.now.args }
    requires takes { TakesValues e.now (events_in row.now e.now.args) }
    ensures { IfOk result (λ kind. (T : Tale)
        → HasHappened T t i e.now row.now
        → root_fault T.inputs T.streams i e.now t ≡ kind) }
{
    match &e.op {
        Op::Delay => Ok(refusal(event_in(row, argument(&e.args, 0)))),
        _ => own_fault(alloc, row, e, i, t),
    }
}

/// The first equation with a root fault at an instant, and why.
pub(crate) fn root_in(
    alloc: Global,
    flat: &Flat,
    row: &[Option<Outcome>],
    t: Time,
) -> Result<Option<(EqId, FaultKind)>, NoMemory>
    requires row { (T : Tale) × (lines : List Line) × (draft : ViewedDraft) × CanRun T flat.now lines t draft × IsRow T t row.now }
    ensures { IfOk result (λ r. (T : Tale) (lines : List Line) (draft : ViewedDraft)
        → CanRun T flat.now lines t draft
        → IsRow T t row.now
        → IsFirstRoot T.system T.inputs T.streams t r) }
{
    for n in 0..flat.count() {
        let i = EqId::new(n);
        if flat.runs(i) {
            if let Some(kind) = root_of(alloc, row, flat.equation(i), i, t)? {
                return Ok(Some((i, kind)));
            }
        }
    }
    Ok(None)
}
