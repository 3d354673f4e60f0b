// The system of parts that make one.

ghost use Rattle.std.specs.Prelude.{◌≡◌, ◌≤◌, ◌^◌, [], length, IfOk};
ghost use Rattle.flat_core.specs.Complete.{IsFlat};
ghost use Rattle.flat_core.specs.declared.limits.TheConstants.{MOST_EQUATIONS};
ghost use Rattle.code_check.specs.inner.Unchanged.{own_numbers, system_in};

use flat_core::builder::FlatBuilder;
use flat_core::equation::{Equation, Output};
use flat_core::flat::Flat;
use flat_core::lists::EqSet;
use flat_core::replacements::Replacements;
use std::alloc::Global;
use tsl_value::ids::EqId;
use tsl_value::memory::NoMemory;

/// A builder with these equations.
fn with_equations(alloc: Global, equations: Vec<Equation>) -> Result<FlatBuilder, NoMemory>
    requires { length equations.items ≤ MOST_EQUATIONS }
    ensures { IfOk result (λ b. b ≡ system_in equations.items [] []) }
{
    let mut builder = FlatBuilder::new(alloc);
    for equation in equations {
        builder.add(equation)?;
    }
    Ok(builder)
}

/// The builder with these outputs as well.
fn with_outputs(builder: FlatBuilder, outputs: Vec<Output>) -> Result<FlatBuilder, NoMemory>
    requires few { length outputs.items ≤ 2 ^ 31 }
    requires none { builder.outputs ≡ [] }
    ensures { IfOk result (λ b. b ≡ system_in builder.equations outputs.items []) }
{
    let mut builder = builder;
    for output in outputs {
        builder.add_output(output)?;
    }
    Ok(builder)
}

/// Its own number for each of so many equations.
fn own_numbers(alloc: Global, count: u32) -> Result<Replacements, NoMemory>
    ensures { IfOk result (λ r. r ≡ own_numbers count) }
{
    let mut numbers = Replacements::new(alloc);
    for number in 0..count {
        numbers.push(EqId::new(number))?;
    }
    Ok(numbers)
}

/// The system in which other equations run.
fn with_running(alloc: Global, flat: Flat, running: EqSet) -> Result<Flat, NoMemory>
    requires { IsFlat (system_in flat.equations flat.outputs running) }
    ensures { IfOk result (λ f. f ≡ system_in flat.equations flat.outputs running) }
{
    let numbers = own_numbers(alloc, flat.count())?;
    Ok(flat.simplified(numbers, running))
}

/// The system of these equations and outputs in which these equations run.
pub(crate) fn system_of(
    alloc: Global,
    equations: Vec<Equation>,
    outputs: Vec<Output>,
    running: EqSet,
) -> Result<Flat, NoMemory>
    requires { IsFlat (system_in equations.items outputs.items running) }
    ensures { IfOk result (λ f. f ≡ system_in equations.items outputs.items running) }
{
    let started = with_equations(alloc, equations)?;
    let builder = with_outputs(started, outputs)?;
    let flat = builder.finish()?;
    with_running(alloc, flat, running)
}
