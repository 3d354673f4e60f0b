// What is known of the gates of a circuit.

ghost use Rattle.std.specs.Prelude.{◌≡◌, ℕ, ◌<◌, List, Bool, IfOk, IfSome, IsTrue, IsFalse};
ghost use Rattle.std.specs.List.{list_all, list_any};
ghost use Rattle.gate_circuits.specs.Circuit.{Implies, IsOn, IsOrdered};
ghost use Rattle.gate_circuits.specs.inner.Marks.{has};
ghost use Rattle.gate_circuits.specs.inner.Knowledge.{value, AreAllOn, AreImplied, AreRowsImplied, Follow, IsModel, IsNever};

use crate::circuit::{Circuit, Gate};
use crate::marks::Marks;
use std::alloc::Global;
use std::marker::Model;
use tsl_value::memory::NoMemory;

/// A circuit, and for each gate some gates that are on wherever it is. Contracts see the circuit alone.
#[derive(Drop)]
pub struct Knowledge {
    circuit: Circuit,
    // The gates that are ever on.
    possible: Marks,
    rows: Vec<Marks>,
    // The gates that closing looks at.
    relevant: Vec<usize>,
}

impl Model for Knowledge {
    ghost use Rattle.std.specs.Prelude.{List};
    ghost use Rattle.gate_circuits.specs.declared.circuit.Gate.{Gate};
    ghost use Rattle.gate_circuits.specs.inner.Knowledge.{IsKnowledge};

    ghost Value = { List Gate };

    ghost view = { λ k. k.circuit };

    ghost invariant = { λ k. IsKnowledge k.circuit k.possible k.rows.items };
}

/// Whether all of some gates are in a set.
fn all_in(set: &Marks, inputs: &[usize]) -> bool
    ensures { result ≡ list_all (has set.now) inputs.now }
{
    for input in inputs {
        if !set.has(*input) {
            return false;
        }
    }
    true
}

/// Whether any of them is.
fn any_in(set: &Marks, inputs: &[usize]) -> bool
    ensures { result ≡ list_any (has set.now) inputs.now }
{
    for input in inputs {
        if set.has(*input) {
            return true;
        }
    }
    false
}

impl Gate {
    /// Whether it is on, by the gates that are. Of a leaf it is said.
    fn value(&self, leaf: bool, on: &Marks) -> bool
        ensures { result ≡ value self.now leaf (has on.now) }
    {
        match self {
            Gate::Leaf => leaf,
            Gate::All { inputs } => all_in(on, inputs.numbers()),
            Gate::Any { inputs } => any_in(on, inputs.numbers()),
        }
    }
}

/// The gates that are on where just these leaves are.
pub fn model(alloc: Global, circuit: &Circuit, leaves: &Marks) -> Result<Marks, NoMemory>
    ensures { IfOk result (λ m. IsModel circuit.now (has leaves.now) m) }
{
    let gates = circuit.gates();
    let mut on = Marks::with_room(alloc, gates.len())?;
    for number in 0..gates.len() {
        let value = gates[number].value(leaves.has(number), &on);
        on.add_if(number, value);
    }
    Ok(on)
}

/// All gates.
fn all_gates(alloc: Global, count: usize) -> Result<Marks, NoMemory>
    ensures { IfOk result (λ all. (x : ℕ) → x < count → IsTrue (has all x)) }
{
    let mut all = Marks::with_room(alloc, count)?;
    for number in 0..count {
        all.add(number);
    }
    Ok(all)
}

/// Nothing known of so many gates.
fn no_rows(alloc: Global, count: usize) -> Result<Vec<Marks>, NoMemory>
    ensures { IfOk result (λ rows. (gates : List Gate) → AreRowsImplied gates rows.items) }
{
    let mut rows = Vec::new(alloc);
    'rows: for _gate in 0..count {
        rows.push(Marks::without_room(alloc))?;
    }
    Ok(rows)
}

impl Knowledge {
    /// Nothing but the circuit.
    pub fn new(alloc: Global, circuit: Circuit, relevant: Vec<usize>) -> Result<Knowledge, NoMemory>
        ensures { IfOk result (λ k. k ≡ circuit) }
    {
        let count = circuit.len();
        let all = all_gates(alloc, count)?;
        let possible = model(alloc, &circuit, &all)?;
        let rows = no_rows(alloc, count)?;
        Ok(Knowledge {
            circuit,
            possible,
            rows,
            relevant,
        })
    }

    /// The gates.
    pub fn gates(&self) -> &[Gate]
        ensures value { result.now ≡ self.now }
        ensures ordered { IsOrdered self.now }
    {
        self.circuit.gates()
    }

    /// The circuit.
    pub fn circuit(&self) -> &Circuit
        ensures { result.now ≡ self.now }
    {
        &self.circuit
    }

    /// Whether a gate is ever on.
    pub fn is_possible(&self, gate: usize) -> bool
        ensures { IsFalse result → IsNever self.now gate }
    {
        self.possible.has(gate)
    }

    /// The gates that are ever on.
    pub fn possible(&self) -> &Marks {
        &self.possible
    }

    /// What is known to be on wherever a gate is.
    pub fn row(&self, gate: usize) -> Option<&Marks>
        ensures { IfSome result (λ row. AreImplied self.now gate row.now) }
    {
        self.rows.get(gate)
    }

    /// Puts what is on wherever a gate is in the place of what was known.
    pub fn put_row(&mut self, gate: usize, row: Marks)
        requires { AreImplied self.old gate row }
        ensures { self.new ≡ self.old }
    {
        if gate < self.rows.len() {
            self.rows[gate] = row;
        }
    }

    /// Keeps what is known to be on wherever a gate is.
    pub fn keep_row(&self, known: &mut Marks, gate: usize)
        ensures { (b : ℕ) → IsTrue (has known.new b) → IsTrue (has known.old b) × Implies self.now gate b }
    {
        if !self.is_possible(gate) {
            return;
        }
        match self.rows.get(gate) {
            Some(row) => known.keep_either(row, row),
            None => known.clear(),
        }
    }

    /// Adds a gate and what is known to be on wherever it is.
    pub fn learn(&self, known: &mut Marks, gate: usize)
        ensures { (leaves : ℕ → Bool) → AreAllOn self.now leaves known.old → IsOn self.now leaves gate →
            AreAllOn self.now leaves known.new }
    {
        known.add(gate);
        match self.rows.get(gate) {
            Some(row) => known.add_all(row),
            None => {}
        }
    }

    /// Adds those of some gates, in their order, that are on where all in the set are.
    pub fn close_over(&self, known: &mut Marks, gates: &[usize])
        ensures { Follow self.now known.old known.new }
    {
        for gate in gates {
            let follows = self.follows(known, *gate);
            known.add_if(*gate, follows);
        }
    }

    /// Adds gates that are on where all in the set are.
    pub fn close(&self, known: &mut Marks)
        ensures { Follow self.now known.old known.new }
    {
        self.close_over(known, &self.relevant);
    }

    /// Whether a gate that is not in the set is on where all in it are, as far as its inputs show.
    fn follows(&self, known: &Marks, gate: usize) -> bool
        ensures { IsTrue result → (leaves : ℕ → Bool) → AreAllOn self.now leaves known.now → IsOn self.now leaves gate }
    {
        if known.has(gate) {
            return false;
        }
        match self.circuit.gates().get(gate) {
            Some(it) => it.value(false, known),
            None => false,
        }
    }
}
