// The arguments that an equation uses at the same time.

ghost use Rattle.std.specs.Prelude.{◌≡◌, ◌++◌, length, IfOk, OnOk};
ghost use Rattle.recursion_check.specs.Feeds.{edges_to, edges_of};

use flat_core::flat::Flat;
use std::alloc::Global;
use translation_order::steps::Edges;
use tsl_value::ids::EqId;
use tsl_value::memory::NoMemory;

/// Appends a pair of each of these arguments and the equation that has them.
fn push_edges(edges: &mut Edges, arguments: &[EqId], equation: u32) -> Result<(), NoMemory>
    ensures { OnOk result (edges.new ≡ edges.old ++ edges_to equation arguments.now) }
{
    for argument in arguments {
        edges.push((argument.get(), equation))?;
    }
    Ok(())
}

/// For each equation the pairs of the arguments that it uses at the same time and itself, whether it runs or not.
pub(crate) fn edges(alloc: Global, flat: &Flat) -> Result<Edges, NoMemory>
    ensures { IfOk result (λ e. e ≡ edges_of flat.now (length flat.now.equations)) }
{
    let mut edges = Edges::new(alloc);
    for number in 0..flat.count() {
        let equation = flat.equation(EqId::new(number));
        push_edges(&mut edges, equation.unguarded(), number)?;
    }
    Ok(edges)
}
