// Whether equations have arity and types, and run on arguments that run.

ghost use Rattle.std.specs.Prelude.{◌≡◌, ◌↔◌, ◌≤◌, ◌<◌, ℕ, None, Some, length, slice_get, IfOk, IsTrue, MatchOption};
ghost use Rattle.std.specs.List.{AllByRecursion};
ghost use Rattle.translation_order.specs.Least.{IsLeast};
ghost use Rattle.flat_core.specs.Members.{is_in};
ghost use Rattle.flat_core.specs.System.{System, IsProper};
ghost use Rattle.flat_core.specs.TypedSystem.{IsTypedEquation, IsTypedSystem};
ghost use Rattle.flat_core.specs.declared.limits.TheConstants.{MOST_EQUATIONS};
ghost use Rattle.equation_types.specs.Breaking.{BreaksTypes};
ghost use Rattle.equation_types.specs.inner.Arguments.{is_typed_among};
ghost use Rattle.equation_types.specs.inner.Answer.{FitsAt, IsFirstOrNone};

use crate::arguments::{all_run, types_at};
use crate::operation::is_typed_op;
use flat_core::equation::Equation;
use flat_core::lists::EqSet;
use std::alloc::Global;
use tsl_value::ids::EqId;
use tsl_value::memory::NoMemory;

fn is_typed_among(
    alloc: Global,
    equations: &[Equation],
    equation: &Equation,
) -> Result<bool, NoMemory>
    ensures { IfOk result (λ r. r ≡ is_typed_among equations.now equation.now) }
{
    match types_at(alloc, equations, equation.args.ids())? {
        Some(types) => Ok(is_typed_op(&equation.op, &types, equation.of)),
        None => Ok(false),
    }
}

/// Whether an equation has arity and types among these, which are to be a system.
pub fn is_typed(
    alloc: Global,
    equations: &[Equation],
    equation: &Equation,
) -> Result<bool, NoMemory>
    ensures { IfOk result (λ r. IsTrue r ↔ IsTypedEquation equations.now equation.now) }
{
    is_typed_among(alloc, equations, equation)
}

/// Whether all arguments of an equation run.
pub fn arguments_run(running: &EqSet, equation: &Equation) -> bool
    ensures { IsTrue result ↔ AllByRecursion (λ a. IsTrue (is_in running.now a)) equation.now.args }
{
    all_run(running, equation.args.ids())
}

/// Whether an equation runs on arguments that run, if it runs.
fn may_run(running: &EqSet, id: EqId, equation: &Equation) -> bool
    ensures { IsTrue result
        ↔ (IsTrue (is_in running.now id) → AllByRecursion (λ a. IsTrue (is_in running.now a)) equation.now.args) }
{
    !running.contains(id) || arguments_run(running, equation)
}

fn equation_at(equations: &[Equation], id: EqId) -> &Equation
    requires { id < length equations.now }
    ensures { slice_get equations.now id ≡ Some result.now }
{
    &equations[id.get() as usize]
}

fn fits(alloc: Global, equations: &[Equation], running: &EqSet, id: EqId) -> Result<bool, NoMemory>
    requires { id < length equations.now }
    ensures { IfOk result (λ r. IsTrue r ↔ FitsAt equations.now running.now id) }
{
    let equation = equation_at(equations, id);
    if is_typed(alloc, equations, equation)? {
        Ok(may_run(running, id, equation))
    } else {
        Ok(false)
    }
}

fn first_that_breaks(
    alloc: Global,
    equations: &[Equation],
    running: &EqSet,
) -> Result<Option<EqId>, NoMemory>
    requires { length equations.now ≤ MOST_EQUATIONS }
    ensures { IfOk result (IsFirstOrNone equations.now running.now) }
{
    for number in 0..equations.len() as u32 {
        let id = EqId::new(number);
        if !fits(alloc, equations, running, id)? {
            return Ok(Some(id));
        }
    }
    Ok(None)
}

/// The least equation that has no arity and types among these, or runs while an argument of it does not. Equations that do not run
/// count as well. `None` comes exactly where each has them: a system of them is then typed, and proper if only numbers of them run.
pub fn first_ill_typed(
    alloc: Global,
    equations: &[Equation],
    running: &EqSet,
) -> Result<Option<EqId>, NoMemory>
    requires { length equations.now ≤ MOST_EQUATIONS }
    ensures least { IfOk result (λ r. MatchOption r
        ((i : ℕ) → BreaksTypes equations.now running.now i → ⊥)
        (IsLeast (BreaksTypes equations.now running.now))) }
    ensures typed { IfOk result (λ r. r ≡ None → (s : System) → s.equations ≡ equations.now → IsTypedSystem s) }
    ensures proper { IfOk result (λ r. r ≡ None
        → (s : System)
        → s.equations ≡ equations.now
        → s.running ≡ running.now
        → ((i : ℕ) → IsTrue (is_in running.now i) → i < length equations.now)
        → IsProper s) }
{
    first_that_breaks(alloc, equations, running)
}
