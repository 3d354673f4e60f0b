// The circuit of all formulas.

ghost use Rattle.std.specs.Prelude.{◌≡◌, ◌*◌, length, IfOk};
ghost use Rattle.trigger_starts.specs.inner.Kept.{IsOrder};
ghost use Rattle.trigger_starts.specs.inner.Rules.{AreClosed};
ghost use Rattle.trigger_circuits.specs.inner.Circuits.{IsBegun, IsCircuitOf};

use crate::gate::add;
use gate_circuits::circuit::{Circuit, Gate};
use std::alloc::Global;
use trigger_starts::rules::Rule;
use tsl_value::ids::EqId;
use tsl_value::memory::NoMemory;

/// The trigger formulas of all equations at 0, or after it: a circuit, whose leaves are the atoms but the start, and the gate of each
/// equation.
#[derive(Drop)]
pub struct Formulas {
    pub circuit: Circuit,
    pub gates: Vec<usize>,
}

/// Two leaves for each of so many equations.
fn leaves(alloc: Global, count: usize) -> Result<Circuit, NoMemory>
    ensures begun { IfOk result (λ c. IsBegun count c) }
    ensures many { IfOk result (λ c. length c ≡ 2 * count) }
{
    let mut circuit = Circuit::new(alloc);
    for _index in 0..count {
        circuit.push(Gate::Leaf)?;
        circuit.push(Gate::Leaf)?;
    }
    Ok(circuit)
}

impl Formulas {
    /// Those of some rules, where some equations start. The order has each equation after its arguments.
    pub fn of(
        alloc: Global,
        rules: &[Rule],
        starts: &[bool],
        order: &[u32],
        at_zero: bool,
    ) -> Result<Formulas, NoMemory>
        requires one_each { length starts.now ≡ length rules.now }
        requires closed { AreClosed rules.now }
        requires ordered { IsOrder rules.now order.now }
        ensures { IfOk result (λ f. IsCircuitOf at_zero rules.now starts.now f.circuit f.gates.items) }
    {
        let mut circuit = leaves(alloc, rules.len())?;
        let mut gates = vec![in alloc; 0; rules.len()]?;
        for step in order {
            let index = *step as usize;
            let own = EqId::new(*step);
            let rule = &rules[index];
            gates[index] = add(alloc, &mut circuit, &gates, starts, rule, own, at_zero)?;
        }
        Ok(Formulas { circuit, gates })
    }
}
