// Questions about the formulas of many inputs.

ghost use Rattle.std.specs.Prelude.{◌≡◌, length, IfOk};

use flat_core::flat::Flat;
use recursion_check::check::run_order;
use sample_systems::systems::merged;
use std::alloc::Global;
use std::test::Fail;
use trigger_diagram::diagrams::Diagrams;
use tsl_value::ids::EqId;
use tsl_value::memory::NoMemory;

/// The diagrams of a system.
fn diagrams(alloc: Global, flat: &Flat) -> Result<Diagrams, Fail>
    ensures { IfOk result (λ d. length d.rules ≡ length flat.now.equations) }
{
    match run_order(alloc, flat) {
        Ok(order) => Ok(Diagrams::new(alloc, flat, &order)?),
        Err(_) => Err(Fail::from("a cycle")),
    }
}

/// Whether the set grows with each event of the inputs but at the start, and before it is there.
fn imply_one_way(alloc: Global, diagrams: &mut Diagrams) -> Result<bool, NoMemory>
    requires { length diagrams.old.rules ≡ 43 }
{
    let trigger = diagrams.of_formula(EqId::new(34))?;
    let set = diagrams.of_formula(EqId::new(42))?;
    Ok(diagrams.implies(alloc, set, trigger)? && !diagrams.implies(alloc, trigger, set)?)
}

/// The formulas have 20 atoms and more, which are too many for a table.
#[test]
fn formulas_of_many_merged_inputs(rt: HostRuntime) -> Result<(), Fail> {
    let flat = merged(rt.alloc())?;
    let mut diagrams = diagrams(rt.alloc(), &flat)?;
    assert!(rt; imply_one_way(rt.alloc(), &mut diagrams)?);
    Ok(())
}
