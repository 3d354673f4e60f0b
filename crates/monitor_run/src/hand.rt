// Events that operations hand on. The register of an aggregate names the same cell.

ghost use Rattle.std.specs.Prelude.{◌≡◌, ◌<◌, ℕ, List, All, IfSome, OnOk, None, true, if◌then◌else◌, is_some, length, slice_set};
ghost use Rattle.std.specs.Option.{option_and_then, option_or};
ghost use Rattle.register_machine.specs.Machine.{where_either, where_true};
ghost use Rattle.flat_core.specs.declared.equation.Op.{Op};
ghost use Rattle.monitor_run.specs.inner.Here.{HasHanded, handed_of, hands_on, truth_of};
ghost use Rattle.monitor_run.specs.inner.Actions.{IsActionOf};
ghost use Rattle.monitor_run.specs.inner.Registers.{register_at};
ghost use Rattle.monitor_run.specs.inner.Shown.{held_at, held_by};

use crate::action::Action;
use crate::case::register;
use crate::machine::put;
use body_eval::register::Register;
use tsl_value::ids::EqId;
use tsl_value::memory::NoMemory;
use tsl_value::scalar::Scalar;

/// Puts a copy of a register into a place.
#[inline(always)]
fn put_copy(source: &Register, place: usize, registers: &mut [Register]) -> Result<(), NoMemory>
    requires { place < length registers.old }
    ensures { OnOk result (registers.new ≡ slice_set registers.old place source.now) }
{
    match source {
        Register::Empty => put(Register::Empty, place, registers),
        Register::Aggregate(cell) => put(Register::Aggregate(*cell), place, registers),
        Register::Scalar(value) => put(Register::Scalar(value.copy()?), place, registers),
    }
    Ok(())
}

/// Puts a copy of one register into the place of another.
#[inline(always)]
fn copy_within(from: usize, to: usize, registers: &mut [Register]) -> Result<(), NoMemory>
    requires from { from < length registers.old }
    requires to { to < length registers.old }
    ensures { OnOk result (registers.new ≡ slice_set registers.old to (register_at registers.old from)) }
{
    match &registers[from] {
        Register::Empty => put(Register::Empty, to, registers),
        Register::Aggregate(cell) => {
            let cell = *cell;
            put(Register::Aggregate(cell), to, registers);
        }
        Register::Scalar(value) => {
            let value = value.copy()?;
            put(Register::Scalar(value), to, registers);
        }
    }
    Ok(())
}

/// What a condition says, if it has an event.
#[inline(always)]
fn truth(condition: &Register) -> Option<bool>
    ensures { result ≡ truth_of (held_by condition.now) }
{
    match condition {
        Register::Scalar(Scalar::Bool(holds)) => Some(*holds),
        _ => None,
    }
}

/// The first of two, or else the second.
#[inline(always)]
fn merged(a: EqId, b: EqId, registers: &[Register]) -> Option<EqId>
    requires first { a < length registers.now }
    requires second { b < length registers.now }
    ensures handed { option_and_then (held_at registers.now) result ≡ option_or (held_at registers.now a) (held_at registers.now b) }
    ensures known { IfSome result (λ x. x < length registers.now) }
{
    if register(registers, a).is_empty() {
        Some(b)
    } else {
        Some(a)
    }
}

/// One where a condition is true.
#[inline(always)]
fn passed(value: EqId, condition: EqId, registers: &[Register]) -> Option<EqId>
    requires value { value < length registers.now }
    requires condition { condition < length registers.now }
    ensures handed { option_and_then (held_at registers.now) result
        ≡ where_true (held_at registers.now condition) (held_at registers.now value) }
    ensures known { IfSome result (λ x. x < length registers.now) }
{
    match truth(register(registers, condition)) {
        Some(true) => Some(value),
        _ => None,
    }
}

/// The first of two where a condition is true and the second where it is false, if all three have events.
#[inline(always)]
fn picked(condition: EqId, a: EqId, b: EqId, registers: &[Register]) -> Option<EqId>
    requires condition { condition < length registers.now }
    requires first { a < length registers.now }
    requires second { b < length registers.now }
    ensures handed { option_and_then (held_at registers.now) result
        ≡ where_either (held_at registers.now condition) (held_at registers.now a) (held_at registers.now b) }
    ensures known { IfSome result (λ x. x < length registers.now) }
{
    if register(registers, a).is_empty() || register(registers, b).is_empty() {
        return None;
    }
    match truth(register(registers, condition)) {
        Some(is_first) => { if is_first { Some(a) } else { Some(b) } }
        None => None,
    }
}

/// Hands on the last event of an equation, where another one has an event.
#[inline(always)]
fn hand_last(
    value: EqId,
    trigger: EqId,
    place: usize,
    registers: &mut [Register],
    last: &[Register],
) -> Result<(), NoMemory>
    requires value { value < length last.now }
    requires trigger { trigger < length registers.old }
    requires place { place < length registers.old }
    ensures { OnOk result (HasHanded place
        (if is_some (held_at registers.old trigger) then held_at last.now value else None)
        registers.old registers.new) }
{
    if register(registers, trigger).is_empty() {
        put(Register::Empty, place, registers);
        return Ok(());
    }
    put_copy(register(last, value), place, registers)
}

/// Hands on the event of an argument, or nothing.
#[inline(always)]
fn hand_chosen(from: Option<EqId>, place: usize, registers: &mut [Register]) -> Result<(), NoMemory>
    requires known { IfSome from (λ a. a < length registers.old) }
    requires place { place < length registers.old }
    ensures { OnOk result (HasHanded place (option_and_then (held_at registers.old) from) registers.old registers.new) }
{
    match from {
        Some(from) => copy_within(from.get() as usize, place, registers),
        None => {
            put(Register::Empty, place, registers);
            Ok(())
        }
    }
}

/// Hands on an event by an action that does. Others do nothing.
#[inline(always)]
pub(crate) fn hand_by(
    action: Action,
    place: usize,
    registers: &mut [Register],
    last: &[Register],
) -> Result<(), NoMemory>
    requires known { (o : Op) (args : List ℕ) → IsActionOf action o args → All (λ a. a < length registers.old) args }
    requires one_each { length last.now ≡ length registers.old }
    requires place { place < length registers.old }
    ensures { OnOk result ((o : Op) (args : List ℕ)
        → IsActionOf action o args
        → hands_on o ≡ true
        → HasHanded place (handed_of registers.old last.now o args) registers.old registers.new) }
{
    match action {
        Action::Merge(a, b) => hand_chosen(merged(a, b, registers), place, registers),
        Action::Filter(a, c) => hand_chosen(passed(a, c, registers), place, registers),
        Action::Pick(c, a, b) => hand_chosen(picked(c, a, b, registers), place, registers),
        Action::Last(v, r) => hand_last(v, r, place, registers, last),
        Action::Given | Action::Own | Action::Print => Ok(()),
    }
}
