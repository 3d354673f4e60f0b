// What facts of the arguments at one time make of an equation.

ghost use Rattle.std.specs.Prelude.{◌≡◌, ◌↔◌, IfOk, IsTrue, Ok, map};
ghost use Rattle.std.specs.Option.{option_copied};
ghost use Rattle.flat_core.specs.Events.{at_once};
ghost use Rattle.flat_core.specs.inner.Arity.{HasArity};
ghost use Rattle.plain_solver.specs.inner.Typed.{HasPlaces, TakesValues};
ghost use Rattle.event_why.specs.Said.{said};
ghost use Rattle.event_why.specs.inner.Agrees.{Agrees, TakesTold};

use crate::fact::Fact;
use crate::told::told;
use body_eval::eval::EvalFault;
use flat_core::equation::Equation;
use plain_solver::at_once::at_once;
use plain_solver::value::Value;
use std::alloc::Global;
use tsl_value::memory::NoMemory;
use tsl_value::time::Time;

/// Whether the value is the one that is wanted, or both are absent.
fn is_wanted(value: &Option<Value>, wanted: Option<&Value>) -> bool
    ensures { IsTrue result ↔ value.now ≡ option_copied wanted.entry }
{
    match (value, wanted) {
        (Some(value), Some(wanted)) => value.is_same(wanted),
        (None, None) => true,
        _ => false,
    }
}

/// Whether an operation makes this of values: an event, or none.
pub(crate) fn gives(
    alloc: Global,
    e: &Equation,
    values: &[Option<Value>],
    t: Time,
    wanted: Option<&Value>,
) -> Result<bool, NoMemory>
    requires places { HasPlaces e.now.op values.now }
    requires typed { TakesValues e.now values.now }
    ensures { IfOk result (λ b. IsTrue b ↔ at_once e.now.op e.now.of values.now t ≡ Ok (option_copied wanted.entry)) }
{
    match at_once(alloc, e, values, t) {
        Ok(value) => Ok(is_wanted(&value, wanted)),
        Err(EvalFault::Fault(_)) => Ok(false),
        Err(EvalFault::Memory) => Err(NoMemory),
    }
}

/// Whether there is a fact for each argument, in order, and what they tell makes this of the equation: an event, or none.
pub(crate) fn agrees(
    alloc: Global,
    e: &Equation,
    t: Time,
    wanted: Option<&Value>,
    named: &[Fact],
) -> Result<bool, NoMemory>
    requires shape { HasArity e.now.op e.now.args }
    requires takes { TakesTold e.now t (map said named.now) }
    ensures { IfOk result (λ b. IsTrue b ↔ Agrees e.now t (option_copied wanted.entry) (map said named.now)) }
{
    match told(alloc, e.args.ids(), t, named)? {
        Some(values) => gives(alloc, e, &values, t, wanted),
        None => Ok(false),
    }
}
