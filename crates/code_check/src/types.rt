// Whether the equations have arity and types, and run on arguments that run.

ghost use Rattle.std.specs.Prelude.{◌≡◌, ◌≤◌, ◌<◌, ℕ, length, IfErr, IsTrue, OnOk};
ghost use Rattle.flat_core.specs.Members.{is_in};
ghost use Rattle.flat_core.specs.System.{System, IsProper};
ghost use Rattle.flat_core.specs.TypedSystem.{IsTypedSystem};
ghost use Rattle.flat_core.specs.declared.limits.TheConstants.{MOST_EQUATIONS};
ghost use Rattle.code_check.specs.inner.Typing.{IsTypeFault, NoneBreaks};

use code_file::fault::CodeFault;
use equation_types::equation::first_ill_typed;
use flat_core::equation::Equation;
use flat_core::lists::EqSet;
use std::alloc::Global;

/// Refuses equations of which one breaks arity or types, or runs while an argument of it does not.
pub(crate) fn check_types(
    alloc: Global,
    equations: &[Equation],
    running: &EqSet,
) -> Result<(), CodeFault>
    requires { length equations.now ≤ MOST_EQUATIONS }
    ensures none_breaks { OnOk result (NoneBreaks equations.now running.now) }
    ensures typed { OnOk result ((s : System) → s.equations ≡ equations.now → IsTypedSystem s) }
    ensures proper { OnOk result ((s : System)
        → s.equations ≡ equations.now
        → s.running ≡ running.now
        → ((i : ℕ) → IsTrue (is_in running.now i) → i < length equations.now)
        → IsProper s) }
    ensures fault { IfErr result (IsTypeFault equations.now running.now) }
{
    match first_ill_typed(alloc, equations, running)? {
        Some(equation) => Err(CodeFault::WrongTypes { equation }),
        None => Ok(()),
    }
}
