// What the operations that see their arguments at one time make of them.

ghost use Rattle.std.specs.Prelude.{◌≡◌, suc, length};
ghost use Rattle.std.specs.Option.{option_copied};
ghost use Rattle.flat_core.specs.Events.{at_once, updating};
ghost use Rattle.flat_core.specs.Updates.{update_in};
ghost use Rattle.lift_func.specs.Update.{beside, update_answer};
ghost use Rattle.plain_solver.specs.inner.PassedOn.{chosen_of};
ghost use Rattle.plain_solver.specs.inner.Typed.{HasPlaces, TakesValues};
ghost use Rattle.plain_solver.specs.inner.ValueView.{IsAnswer};

use crate::outcome::{is_one_there, lift_value, merged, passed, time_of, unit_if};
use crate::update::{
    element_added, element_taken, empty_at, entry_added, entry_removed, key_added, key_removed,
    picked,
};
use crate::value::{Value, copied};
use body_eval::eval::EvalFault;
use flat_core::equation::{Equation, Op};
use std::alloc::Global;
use tsl_value::memory::NoMemory;
use tsl_value::operation::Update;
use tsl_value::time::Time;

/// The event of an argument that an operation passes on.
fn chosen<'a>(op: &Op, values: &'a [Option<Value>]) -> Option<&'a Value>
    requires { HasPlaces op.now values.now }
    ensures { option_copied result ≡ chosen_of op.now values.now }
{
    match op {
        Op::Merge => merged(values[0].as_ref(), values[1].as_ref()),
        Op::Filter => passed(values[0].as_ref(), values[1].as_ref()),
        Op::Pick => picked(values[0].as_ref(), values[1].as_ref(), values[2].as_ref()),
        _ => None,
    }
}

/// What an update makes of the events of its arguments, or its fault.
fn update_value(
    alloc: Global,
    update: Update,
    values: &[Option<Value>],
) -> Result<Option<Value>, EvalFault>
    requires { length values.now ≡ suc (beside update) }
    ensures { IsAnswer result (update_answer update values.now) }
{
    let aggregate = values[0].as_ref();
    match update {
        Update::SetAdd => Ok(key_added(alloc, aggregate, values[1].as_ref())?),
        Update::SetRemove => Ok(key_removed(alloc, aggregate, values[1].as_ref())?),
        Update::MapAdd => Ok(entry_added(
            alloc,
            aggregate,
            values[1].as_ref(),
            values[2].as_ref(),
        )?),
        Update::MapRemove => Ok(entry_removed(alloc, aggregate, values[1].as_ref())?),
        Update::QueueAdd => Ok(element_added(alloc, aggregate, values[1].as_ref())?),
        Update::QueueTake => element_taken(alloc, aggregate),
    }
}

/// What an operation makes of its arguments' events if it is an update, or its fault, and else nothing.
fn updated(alloc: Global, op: &Op, values: &[Option<Value>]) -> Result<Option<Value>, EvalFault>
    requires { HasPlaces op.now values.now }
    ensures { IsAnswer result (updating (update_in op.now) values.now) }
{
    match op.update() {
        Some(update) => update_value(alloc, update, values),
        None => Ok(None),
    }
}

/// What an operation makes of the events of its arguments at a time, where it sees them at one time. The others make nothing of them.
pub fn at_once(
    alloc: Global,
    e: &Equation,
    values: &[Option<Value>],
    t: Time,
) -> Result<Option<Value>, EvalFault>
    requires places { HasPlaces e.now.op values.now }
    requires typed { TakesValues e.now values.now }
    ensures { IsAnswer result (at_once e.now.op e.now.of values.now t) }
{
    match &e.op {
        Op::Unit => Ok(unit_if(t.get() == 0)),
        Op::Empty => Ok(empty_at(alloc, e.of, t)?),
        Op::Lift { body, strict } => lift_value(alloc, body, *strict, values),
        Op::Any => Ok(unit_if(is_one_there(values))),
        Op::Time => Ok(time_of(values[0].as_ref(), t)),
        Op::Merge | Op::Filter | Op::Pick => Ok(copied(chosen(&e.op, values))?),
        Op::SetAdd | Op::SetRemove | Op::MapAdd | Op::MapRemove => updated(alloc, &e.op, values),
        Op::QueueAdd | Op::QueueTake => updated(alloc, &e.op, values),
        Op::Input | Op::Nil | Op::Last | Op::Delay => Ok(None),
    }
}
