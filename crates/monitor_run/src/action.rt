// What the steps of an order do, with what an instant needs of their equations at hand.

ghost use Rattle.std.specs.Prelude.{◌≡◌, ◌<◌, length, IfOk};
ghost use Rattle.flat_core.specs.Complete.{IsFlat};
ghost use Rattle.flat_core.specs.inner.Arity.{HasArity};
ghost use Rattle.monitor_run.specs.inner.Actions.{AreActions, IsActionAt, IsActionOf};

use flat_core::equation::{Equation, Op};
use flat_core::flat::Flat;
use std::alloc::Global;
use tsl_value::ids::EqId;
use tsl_value::memory::NoMemory;

/// What a step does. An equation that hands on an event of an argument, or a last one, has its arguments here.
#[derive(Clone, Copy, PartialEq, Eq, Debug)]
pub(crate) enum Action {
    /// An input or a delay, which has its event from the beginning of an instant.
    Given,
    Merge(EqId, EqId),
    Filter(EqId, EqId),
    Pick(EqId, EqId, EqId),
    Last(EqId, EqId),
    /// Another equation, which makes a value of its own.
    Own,
    /// No equation: an output is printed.
    Print,
}

/// The action of an equation.
fn action_of(e: &Equation) -> Action
    requires { HasArity e.now.op e.now.args }
    ensures { IsActionOf result e.now.op e.now.args }
{
    let args = e.args.ids();
    match &e.op {
        Op::Input | Op::Delay => Action::Given,
        Op::Merge => Action::Merge(args[0], args[1]),
        Op::Filter => Action::Filter(args[0], args[1]),
        Op::Pick => Action::Pick(args[0], args[1], args[2]),
        Op::Last => Action::Last(args[0], args[1]),
        _ => Action::Own,
    }
}

/// The action of a step.
fn action_at(flat: &Flat, step: u32) -> Action
    requires { IsFlat flat.now }
    ensures { step < length flat.now.equations → IsActionAt flat.now step result }
{
    if step < flat.count() {
        action_of(flat.equation(EqId::new(step)))
    } else {
        Action::Print
    }
}

/// The actions of an order's steps.
pub(crate) fn actions_of(alloc: Global, flat: &Flat, order: &[u32]) -> Result<Vec<Action>, NoMemory>
    requires { IsFlat flat.now }
    ensures { IfOk result (λ v. AreActions flat.now order.now v.items) }
{
    let mut actions = Vec::new(alloc);
    for step in order {
        actions.push(action_at(flat, *step))?;
    }
    Ok(actions)
}
