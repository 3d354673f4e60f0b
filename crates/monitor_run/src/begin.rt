// The registers with which an instant begins: the events of inputs and of delays.

ghost use Rattle.std.specs.Prelude.{◌≡◌, ◌==◌, ◌<◌, ◌≤◌, ◌++◌, ◌∷◌, ℕ, [], if◌then◌else◌, length, slice_set, IsFalse, OnOk};
ghost use Rattle.std.specs.FinMap as map;
ghost use Rattle.flat_core.specs.Line.{inputs_of};
ghost use Rattle.monitor_run.specs.inner.Given.{AreAt, AreThere, IsThere};
ghost use Rattle.monitor_run.specs.inner.Instant.{expired_at, left_at, moved_in, with_event};
ghost use Rattle.monitor_run.specs.inner.Registers.{register_at};
ghost use Rattle.monitor_run.specs.inner.Visits.{AreFilled, AreMarked, AreWithin};

use crate::machine::put;
use agenda::marks::Agenda;
use body_eval::register::Register;
use delay_timers::timers::Timers;
use flat_core::line::TraceLine;
use step_uses::rows::Rows;
use tsl_value::ids::EqId;
use tsl_value::memory::NoMemory;
use tsl_value::scalar::Scalar;
use tsl_value::time::Time;

/// Puts an event into the register of an equation, which is listed as filled where not all steps run.
#[inline(always)]
fn fill(
    event: Scalar,
    id: EqId,
    all: bool,
    registers: &mut [Register],
    filled: &mut Vec<EqId>,
) -> Result<(), NoMemory>
    requires { id < length registers.old }
    ensures put { registers.new ≡ slice_set registers.old id (Register.Scalar event) }
    ensures listed { OnOk result (IsFalse all → filled.new.items ≡ filled.old.items ++ id ∷ []) }
{
    put(Register::Scalar(event), id.get() as usize, registers);
    if !all {
        filled.push(id)?;
    }
    Ok(())
}

/// Takes out the delays that are due, and gives them their events.
pub(crate) fn expire(
    time: Time,
    all: bool,
    timers: &mut Timers,
    registers: &mut [Register],
    filled: &mut Vec<EqId>,
) -> Result<(), NoMemory>
    requires { timers.old.capacity ≤ length registers.old }
    ensures registers { OnOk result ((i : ℕ)
        → register_at registers.new i ≡ expired_at time (map.get timers.old.times i) (register_at registers.old i)) }
    ensures timers { OnOk result ((i : ℕ) → map.get timers.new.times i ≡ left_at time (map.get timers.old.times i)) }
    ensures capacity { timers.new.capacity ≡ timers.old.capacity }
    ensures filled { OnOk result (IsFalse all → AreFilled filled.old.items registers.old → AreFilled filled.new.items registers.new) }
{
    while let Some(delay) = timers.take_due(time) {
        fill(Scalar::Unit, EqId::new(delay), all, registers, filled)?;
    }
    Ok(())
}

/// Gives the inputs the events of a time, if they are of this one.
pub(crate) fn give(
    time: Time,
    all: bool,
    given: &mut Vec<TraceLine>,
    registers: &mut [Register],
    filled: &mut Vec<EqId>,
) -> Result<(), NoMemory>
    requires one { (at : ℕ) × AreAt at given.old.items }
    requires there { AreThere (length registers.old) given.old.items }
    ensures registers { OnOk result ((i : ℕ)
        → register_at registers.new i ≡ with_event (inputs_of given.old.items i time) (register_at registers.old i)) }
    ensures given { OnOk result ((at : ℕ) → AreAt at given.old.items → given.new.items ≡ (if at == time then [] else given.old.items)) }
    ensures filled { OnOk result (IsFalse all → AreFilled filled.old.items registers.old → AreFilled filled.new.items registers.new) }
{
    match given.first() {
        Some(line) => {
            if line.time.get() == time.get() {
                give_all(all, given, registers, filled)?;
            }
        }
        None => {}
    }
    Ok(())
}

/// Moves the events into the registers of their inputs.
fn give_all(
    all: bool,
    given: &mut Vec<TraceLine>,
    registers: &mut [Register],
    filled: &mut Vec<EqId>,
) -> Result<(), NoMemory>
    requires { AreThere (length registers.old) given.old.items }
    ensures registers { OnOk result ((time : ℕ) → AreAt time given.old.items → (i : ℕ)
        → register_at registers.new i ≡ with_event (inputs_of given.old.items i time) (register_at registers.old i)) }
    ensures given { OnOk result (given.new.items ≡ []) }
    ensures filled { OnOk result (IsFalse all → AreFilled filled.old.items registers.old → AreFilled filled.new.items registers.new) }
{
    while let Some(line) = given.pop() {
        give_one(line, all, registers, filled)?;
    }
    Ok(())
}

/// Moves an event into the register of its input.
fn give_one(
    line: TraceLine,
    all: bool,
    registers: &mut [Register],
    filled: &mut Vec<EqId>,
) -> Result<(), NoMemory>
    requires { IsThere (length registers.old) line }
    ensures moved { registers.new ≡ moved_in line.event registers.old }
    ensures filled { OnOk result (IsFalse all → AreFilled filled.old.items registers.old → AreFilled filled.new.items registers.new) }
{
    match line.event {
        Some((input, value)) => fill(value, input, all, registers, filled),
        None => Ok(()),
    }
}

/// Marks the steps that use a filled register.
pub(crate) fn mark_users(filled: &[EqId], uses: &Rows, agenda: &mut Agenda)
    requires { AreWithin uses.now (length agenda.old) }
    ensures size { length agenda.new ≡ length agenda.old }
    ensures marked { AreMarked uses.now filled.now agenda.new }
{
    for id in filled {
        agenda.mark_each(uses.of(*id));
    }
}
