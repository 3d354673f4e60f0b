// The types of arguments.

ghost use Rattle.std.specs.Prelude.{◌≡◌, IfOk};
ghost use Rattle.std.specs.Option.{option_map};
ghost use Rattle.std.specs.List.{list_all};
ghost use Rattle.flat_core.specs.Members.{is_in};
ghost use Rattle.equation_types.specs.inner.Arguments.{type_at, types_at};

use flat_core::equation::Equation;
use flat_core::lists::EqSet;
use std::alloc::Global;
use tsl_value::ids::EqId;
use tsl_value::memory::NoMemory;
use tsl_value::scalar::ValueType;

/// The type of an equation, if it is there.
fn type_at(equations: &[Equation], id: EqId) -> Option<ValueType>
    ensures { result ≡ type_at equations.now id }
{
    let equation = equations.get(id.get() as usize)?;
    Some(equation.of)
}

/// The types of equations, if they are all there.
pub(crate) fn types_at(
    alloc: Global,
    equations: &[Equation],
    args: &[EqId],
) -> Result<Option<Vec<ValueType>>, NoMemory>
    ensures { IfOk result (λ r. option_map (λ types. types.items) r ≡ types_at equations.now args.now) }
{
    let mut types = Vec::new(alloc);
    for id in args {
        match type_at(equations, *id) {
            Some(of) => types.push(of)?,
            None => return Ok(None),
        }
    }
    Ok(Some(types))
}

/// Whether all of these run.
pub(crate) fn all_run(running: &EqSet, args: &[EqId]) -> bool
    ensures { result ≡ list_all (is_in running.now) args.now }
{
    args.iter().all(|id| running.contains(*id))
}
