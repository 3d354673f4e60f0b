// The pairs of steps of which the first has to stand before the second.

ghost use Rattle.std.specs.Prelude.{◌≡◌, ◌<◌, ◌≤◌, ◌+◌, ◌^◌, ◌++◌, length, IfOk, OnOk};
ghost use Rattle.register_code.specs.inner.Pairs.{all_pairs, pairs_at, pairs_to, print_pairs};

use flat_core::equation::Output;
use flat_core::flat::Flat;
use std::alloc::Global;
use translation_order::steps::Edges;
use tsl_value::ids::EqId;
use tsl_value::memory::NoMemory;

/// Appends a pair of each of these arguments and the equation that has them.
fn push_arguments(edges: &mut Edges, arguments: &[EqId], equation: u32) -> Result<(), NoMemory>
    ensures { OnOk result (edges.new ≡ edges.old ++ pairs_to equation arguments.now) }
{
    for argument in arguments {
        edges.push((argument.get(), equation))?;
    }
    Ok(())
}

/// Appends the pairs of an equation, if it runs.
fn push_equation(edges: &mut Edges, flat: &Flat, id: EqId) -> Result<(), NoMemory>
    requires { id < length flat.now.equations }
    ensures { OnOk result (edges.new ≡ edges.old ++ pairs_at flat.now id) }
{
    if flat.runs(id) {
        push_arguments(edges, flat.equation(id).unguarded(), id.get())
    } else {
        Ok(())
    }
}

/// Appends a pair of each printed equation and its print, of which the first has this step.
fn push_prints(edges: &mut Edges, outputs: &[Output], first: u32) -> Result<(), NoMemory>
    requires { first + length outputs.now < 2 ^ 32 }
    ensures { OnOk result (edges.new ≡ edges.old ++ print_pairs first outputs.now) }
{
    let mut step = first;
    for output in outputs {
        edges.push((output.equation.get(), step))?;
        step += 1;
    }
    Ok(())
}

/// All pairs: the arguments of the running equations, but not the first of a last or of a delay, before these equations, and the
/// printed equations before their prints.
pub(crate) fn pairs(alloc: Global, flat: &Flat) -> Result<Edges, NoMemory>
    ensures { IfOk result (λ e. e ≡ all_pairs flat.now) }
{
    let mut edges = Edges::new(alloc);
    for number in 0..flat.count() {
        push_equation(&mut edges, flat, EqId::new(number))?;
    }
    push_prints(&mut edges, flat.outputs(), flat.count())?;
    Ok(edges)
}
