// What an operation makes of the registers of its arguments.

ghost use Rattle.std.specs.Prelude.{◌≡◌, ◌<◌, ℕ, Bool, All, IfErr, IfOk, IfSome, IsOk, OnErr, OnOk, IsTrue, None, Ok, Some, false, pos, length};
ghost use Rattle.std.specs.Prelude.{if◌then◌else◌, is_some, map};
ghost use Rattle.std.specs.Prelude.{List, slice_index, slice_set};
ghost use Rattle.std.specs.List.{list_all, list_any};
ghost use Rattle.std.specs.Option.{option_map};
ghost use Rattle.tsl_value.specs.View.{Plain};
ghost use Rattle.lift_func.specs.Apply.{apply};
ghost use Rattle.lift_func.specs.Update.{update_answer};
ghost use Rattle.cell_reader.specs.inner.Cells.{Cells};
ghost use Rattle.body_eval.specs.inner.Registers.{HoldsLive, arguments, held};
ghost use Rattle.body_eval.specs.inner.Evaluable.{IsEvaluable, IsHeldValue};
ghost use Rattle.flat_core.specs.Events.{at_zero, unit};
ghost use Rattle.tsl_value.specs.Aggregate.{empty_of, is_aggregate};
ghost use Rattle.flat_core.specs.Members.{is_in};
ghost use Rattle.flat_core.specs.inner.Arity.{HasArity};
ghost use Rattle.flat_core.specs.Updates.{is_update, update_in};
ghost use Rattle.monitor_run.specs.inner.Here.{HasAnswer, HasEffect, HasMadeOne, HasPut, IsBare, IsBareValue, IsNamed, TakesTyped};
ghost use Rattle.monitor_run.specs.inner.Here.{effect_here, hands_on};
ghost use Rattle.flat_core.specs.inner.OpGroups.{counts, lift_answer};
ghost use Rattle.monitor_run.specs.inner.Here.{is_given_op};
ghost use Rattle.monitor_run.specs.inner.Here.{source_of};
ghost use Rattle.monitor_run.specs.inner.Registers.{register_at, value_at};

use crate::machine::{empty, put};
use crate::update::{UpdateRun, updated};
use aggregate_store::store::Store;
use body_eval::eval::{EvalFault, eval};
use body_eval::quick::{number, truth};
use body_eval::register::Register;
use cell_reader::reader::Reader;
use flat_core::equation::{Equation, Op};
use flat_core::lists::{Args, EqSet};
use lift_func::body::{Body, Node};
use std::alloc::Global;
use tsl_value::ids::EqId;
use tsl_value::operation::{Binary, Update};
use tsl_value::scalar::{Scalar, ScalarType, ValueType};
use tsl_value::time::Time;

/// The register of an argument.
pub(crate) fn argument<'a>(registers: &'a [Register], args: &Args, k: usize) -> &'a Register
    requires there { k < length args.now }
    requires known { All (λ a. a < length registers.now) args.now }
    ensures { result.now ≡ register_at registers.now (slice_index args.now k) }
{
    &registers[args.ids()[k].get() as usize]
}

/// The register of an equation.
pub(crate) fn register(registers: &[Register], id: EqId) -> &Register
    requires { id < length registers.now }
    ensures { result.now ≡ register_at registers.now id }
{
    &registers[id.get() as usize]
}

/// All arguments have events.
fn are_all_there(ids: &[EqId], registers: &[Register]) -> bool
    requires { All (λ a. a < length registers.now) ids.now }
    ensures { (cells : Cells) → result ≡ list_all is_some (map (value_at cells registers.now) ids.now) }
{
    for id in ids {
        if registers[id.get() as usize].is_empty() {
            return false;
        }
    }
    true
}

/// Some argument has one.
fn is_one_there(ids: &[EqId], registers: &[Register]) -> bool
    requires { All (λ a. a < length registers.now) ids.now }
    ensures { (cells : Cells) → result ≡ list_any is_some (map (value_at cells registers.now) ids.now) }
{
    for id in ids {
        if !registers[id.get() as usize].is_empty() {
            return true;
        }
    }
    false
}

/// The arguments of a lift count: all of them have events, or one of them has.
fn do_count(strict: bool, ids: &[EqId], registers: &[Register]) -> bool
    requires { All (λ a. a < length registers.now) ids.now }
    ensures { (cells : Cells) → result ≡ counts strict (map (value_at cells registers.now) ids.now) }
{
    if strict {
        are_all_there(ids, registers)
    } else {
        is_one_there(ids, registers)
    }
}

/// The argument that a body is.
fn named(body: &Body, args: &Args) -> Option<EqId>
    ensures { IfSome result (IsNamed body.now args.now) }
{
    match body.node() {
        Node::Argument(k) => args.get(*k as usize).copied(),
        _ => None,
    }
}

/// Whether a key is there, of a body that only asks this of two arguments. It is the body of most lifts over sets, and the evaluation of
/// a body would copy both registers. `None` says nothing.
fn asked(body: &Body, args: &Args, registers: &[Register], store: &Store) -> Option<bool>
    requires known { All (λ a. a < length registers.now) args.now }
    requires typed { IsEvaluable store.now.cells registers.now args.now body.now }
    ensures { IfSome result (λ b. apply body.now (map (value_at store.now.cells registers.now) args.now)
        ≡ Ok (Some (Plain (Scalar.Bool b)))) }
{
    let Node::Two(Binary::Contains, aggregate, key) = body.node() else {
        return None;
    };
    let aggregate = named(aggregate, args)?;
    let key = named(key, args)?;
    match (register(registers, aggregate), register(registers, key)) {
        (Register::Aggregate(cell), Register::Scalar(key)) => Some(store.contains(*cell, key)),
        _ => None,
    }
}

/// The value of a body, where it is a number or a truth at hand. The type says which of them it may be. `None` says nothing.
#[inline(always)]
fn at_hand(
    of: ValueType,
    body: &Body,
    args: &Args,
    registers: &[Register],
    store: &Store,
) -> Option<Scalar>
    requires { IsEvaluable store.now.cells registers.now args.now body.now }
    ensures { IfSome result (λ s. apply body.now (map (value_at store.now.cells registers.now) args.now) ≡ Ok (Some (Plain s))) }
{
    let ids = args.ids();
    match of {
        ValueType::Scalar(ScalarType::Int) => Some(Scalar::Int(number(
            body, registers, ids, store,
        )?)),
        ValueType::Scalar(ScalarType::Bool) => Some(Scalar::Bool(truth(
            body, registers, ids, store,
        )?)),
        _ => None,
    }
}

/// The value that a body has, as a register.
fn evaluated(
    alloc: Global,
    body: &Body,
    args: &Args,
    registers: &[Register],
    store: &Store,
) -> Result<Register, EvalFault>
    requires { IsEvaluable store.now.cells registers.now args.now body.now }
    ensures value { IsHeldValue store.now.cells result (apply body.now (map (value_at store.now.cells registers.now) args.now)) }
    ensures bare { IfOk result (λ r. IsBare r) }
{
    match eval(alloc, body, registers, args.ids(), store)? {
        Some(scalar) => Ok(Register::Scalar(scalar)),
        None => Ok(Register::Empty),
    }
}

/// Puts the value of a lifted body into a place: where all its arguments are there, or of a body of options where one of them is.
fn put_lifted(
    alloc: Global,
    of: ValueType,
    body: &Body,
    strict: bool,
    args: &Args,
    place: usize,
    registers: &mut [Register],
    store: &Store,
) -> Result<(), EvalFault>
    requires known { All (λ a. a < length registers.old) args.now }
    requires typed { IsTrue (counts strict (map (value_at store.now.cells registers.old) args.now))
        → IsEvaluable store.now.cells registers.old args.now body.now }
    requires place { place < length registers.old }
    ensures put { HasPut place registers.old registers.new result (λ r. IsBareValue store.now.cells r
        (lift_answer body.now strict (map (value_at store.now.cells registers.old) args.now))) }
    ensures same { OnErr result (registers.new ≡ registers.old) }
{
    if !do_count(strict, args.ids(), registers) {
        empty(place, registers);
        return Ok(());
    }
    if let Some(is_there) = asked(body, args, registers, store) {
        put(Register::Scalar(Scalar::Bool(is_there)), place, registers);
        return Ok(());
    }
    if let Some(value) = at_hand(of, body, args, registers, store) {
        put(Register::Scalar(value), place, registers);
        return Ok(());
    }
    let value = evaluated(alloc, body, args, registers, store)?;
    put(value, place, registers);
    Ok(())
}

/// The unit event where something holds.
fn unit_if(holds: bool) -> Register
    ensures value { (cells : Cells) → held cells result ≡ (if holds then Some unit else None) }
    ensures bare { IsBare result }
{
    if holds {
        Register::Scalar(Scalar::Unit)
    } else {
        Register::Empty
    }
}

/// A time where a register has an event.
fn time_of(register: &Register, time: Time) -> Register
    ensures value { (cells : Cells) → held cells result ≡ option_map (λ _. Plain (Scalar.Int (pos time))) (held cells register.now) }
    ensures bare { IsBare result }
{
    if register.is_empty() {
        Register::Empty
    } else {
        Register::Scalar(Scalar::Int(time.get() as i64))
    }
}

/// Puts a register into a place, as one of the cases of an equation.
fn put_value(register: Register, place: usize, registers: &mut [Register]) -> Result<(), EvalFault>
    requires { place < length registers.old }
    ensures put { registers.new ≡ slice_set registers.old place register }
    ensures ok { IsOk result }
{
    put(register, place, registers);
    Ok(())
}

/// Puts the empty aggregate of a type into a place at time 0.
fn put_empty(
    of: ValueType,
    time: Time,
    place: usize,
    registers: &mut [Register],
    store: &mut Store,
) -> Result<(), EvalFault>
    requires aggregate { IsTrue (is_aggregate of) }
    requires place { place < length registers.old }
    ensures made { OnOk result ((r : Register) × (registers.new ≡ slice_set registers.old place r)
        × HasMadeOne store.old store.new r (at_zero time (empty_of of))) }
    ensures memory { IfErr result (λ fault. fault ≡ EvalFault.Memory) }
    ensures same { OnErr result (registers.new ≡ registers.old) }
    ensures err { OnErr result (store.new ≡ store.old) }
{
    if time.get() == 0 {
        let handle = store.empty(of)?;
        put(Register::Aggregate(handle), place, registers);
    } else {
        empty(place, registers);
    }
    Ok(())
}

/// Puts what an update has into a place. A fault changes nothing.
fn put_updated(
    update: Update,
    e: &Equation,
    run: UpdateRun,
    place: usize,
    registers: &mut [Register],
    store: &mut Store,
) -> Result<(), EvalFault>
    requires is { update_in e.now.op ≡ Some update }
    requires shape { HasArity e.now.op e.now.args }
    requires known { All (λ a. a < length registers.old) e.now.args }
    requires typed { TakesTyped store.old.cells registers.old e.now }
    requires number { run.id < length store.old.ledger }
    requires place { place < length registers.old }
    ensures updated { HasPut place registers.old registers.new result (λ r.
        HasAnswer run.in_place run.id (source_of registers.old e.now.args) store.old store.new r
        (update_answer update (map (value_at store.old.cells registers.old) e.now.args))) }
    ensures same { OnErr result (registers.new ≡ registers.old) }
    ensures err { OnErr result (store.new ≡ store.old) }
{
    match updated(update, &e.args, run, registers, store)? {
        Some(handle) => put(Register::Aggregate(handle), place, registers),
        None => empty(place, registers),
    }
    Ok(())
}

/// Puts what an equation that is no update has by its own case into a place.
fn put_plain(
    alloc: Global,
    e: &Equation,
    time: Time,
    place: usize,
    registers: &mut [Register],
    store: &mut Store,
) -> Result<(), EvalFault>
    requires shape { HasArity e.now.op e.now.args }
    requires known { All (λ a. a < length registers.old) e.now.args }
    requires other { is_given_op e.now.op ≡ false }
    requires own { hands_on e.now.op ≡ false }
    requires plain { is_update e.now.op ≡ false }
    requires typed { TakesTyped store.old.cells registers.old e.now }
    requires place { place < length registers.old }
    ensures effect { (in_place : Bool) → (i : ℕ) → (last : List Register) → HasPut place registers.old registers.new result (λ r.
        HasEffect in_place i e.now.op (source_of registers.old e.now.args) store.old store.new r
        (effect_here registers.old last store.old i time e.now)) }
    ensures same { OnErr result (registers.new ≡ registers.old) }
    ensures err { OnErr result (store.new ≡ store.old) }
{
    let args = &e.args;
    match &e.op {
        Op::Input | Op::Delay => unreachable!(),
        Op::Last | Op::Merge | Op::Filter | Op::Pick => unreachable!(),
        Op::SetAdd | Op::SetRemove | Op::MapAdd | Op::MapRemove => unreachable!(),
        Op::QueueAdd | Op::QueueTake => unreachable!(),
        Op::Nil => put_value(Register::Empty, place, registers),
        Op::Unit => put_value(unit_if(time.get() == 0), place, registers),
        Op::Lift { body, strict } => put_lifted(
            alloc, e.of, body, *strict, args, place, registers, store,
        ),
        Op::Any => put_value(
            unit_if(is_one_there(args.ids(), registers)),
            place,
            registers,
        ),
        Op::Time => put_value(
            time_of(argument(registers, args, 0), time),
            place,
            registers,
        ),
        Op::Empty => put_empty(e.of, time, place, registers, store),
    }
}

/// Puts what an equation has by its own case into its register, an update in place if it is among these. Inputs and delays have their
/// events in their registers already, and what is handed on is none of these cases.
pub(crate) fn put_own(
    alloc: Global,
    e: &Equation,
    id: EqId,
    in_place: &EqSet,
    time: Time,
    registers: &mut [Register],
    store: &mut Store,
) -> Result<(), EvalFault>
    requires shape { HasArity e.now.op e.now.args }
    requires known { All (λ a. a < length registers.old) e.now.args }
    requires other { is_given_op e.now.op ≡ false }
    requires own { hands_on e.now.op ≡ false }
    requires typed { TakesTyped store.old.cells registers.old e.now }
    requires ledger { id < length store.old.ledger }
    requires place { id < length registers.old }
    ensures effect { (last : List Register) → HasPut id registers.old registers.new result (λ r.
        HasEffect (is_in in_place.now id) id e.now.op (source_of registers.old e.now.args) store.old store.new r
        (effect_here registers.old last store.old id time e.now)) }
    ensures same { OnErr result (registers.new ≡ registers.old) }
    ensures err { OnErr result (store.new ≡ store.old) }
{
    let place = id.get() as usize;
    match e.op.update() {
        Some(update) => {
            let run = UpdateRun {
                id,
                in_place: in_place.contains(id),
            };
            put_updated(update, e, run, place, registers, store)
        }
        None => put_plain(alloc, e, time, place, registers, store),
    }
}
