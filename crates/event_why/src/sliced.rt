// The system of one output.

ghost use Rattle.std.specs.Prelude.{◌≡◌, ◌<◌, [], length, IfOk};
ghost use Rattle.flat_core.specs.inner.Dependency.{IsRunOrder};
ghost use Rattle.flat_core.specs.WellFormed.{IsWellFormed};
ghost use Rattle.event_why.specs.inner.Sliced.{IsSliced};

use flat_core::builder::FlatBuilder;
use flat_core::equation::Output;
use flat_core::flat::Flat;
use recursion_check::check::{CycleFault, run_order};
use std::alloc::Global;
use translation_order::steps::Steps;
use tsl_value::ids::EqId;
use tsl_value::memory::NoMemory;

/// The same equations, without an output.
fn same_equations(alloc: Global, flat: &Flat) -> Result<FlatBuilder, NoMemory>
    ensures equations { IfOk result (λ b. b.equations ≡ flat.now.equations) }
    ensures outputs { IfOk result (λ b. b.outputs ≡ []) }
{
    flat.assert_whole();
    let mut builder = FlatBuilder::new(alloc);
    for n in 0..flat.count() {
        builder.add(flat.equation(EqId::new(n)).copy()?)?;
    }
    Ok(builder)
}

/// The same equations, of which those run that the output of a number can depend on. It is the only output.
pub(crate) fn sliced(alloc: Global, flat: &Flat, number: u32) -> Result<Flat, NoMemory>
    requires { number < length flat.now.outputs }
    ensures { IfOk result (λ f. IsSliced flat.now number f) }
{
    flat.assert_whole();
    let mut builder = same_equations(alloc, flat)?;
    let output = &flat.outputs()[number as usize];
    builder.add_output(Output {
        name: output.name.copy()?,
        equation: output.equation,
    })?;
    Ok(builder.finish()?)
}

/// An order to run a well-formed system in.
pub(crate) fn order_of(alloc: Global, flat: &Flat) -> Result<Steps, NoMemory>
    requires { IsWellFormed flat.now }
    ensures { IfOk result (IsRunOrder flat.now) }
{
    match run_order(alloc, flat) {
        Ok(order) => Ok(order),
        Err(CycleFault::Memory) => Err(NoMemory),
        Err(CycleFault::Cycle { equations: _ }) => unreachable!(),
    }
}
