// Circuits of gates.

ghost use Rattle.std.specs.Prelude.{◌≡◌, ◌++◌, ◌∷◌, [], length, is_ok, if◌then◌else◌, IfOk};
ghost use Rattle.gate_circuits.specs.Circuit.{AreInputsBelow, IsOrdered};

use std::alloc::Global;
use std::marker::Model;
use tsl_value::memory::NoMemory;

/// The inputs of a gate, as the numbers of gates.
#[derive(Drop)]
pub struct Inputs {
    numbers: Vec<usize>,
}

impl Model for Inputs {
    ghost use Rattle.std.specs.Prelude.{List, ℕ};

    ghost Value = { List ℕ };

    ghost view = { λ i. i.numbers.items };
}

impl Inputs {
    /// No input.
    pub fn new(alloc: Global) -> Inputs
        ensures { result ≡ [] }
    {
        Inputs {
            numbers: Vec::new(alloc),
        }
    }

    /// Appends an input.
    pub fn push(&mut self, number: usize) -> Result<(), NoMemory>
        ensures { self.new ≡ (if is_ok result then self.old ++ number ∷ [] else self.old) }
    {
        self.numbers.push(number)?;
        Ok(())
    }

    /// All inputs in order.
    pub fn numbers(&self) -> &[usize]
        ensures { result.now ≡ self.now }
    {
        self.numbers.as_slice()
    }
}

/// A gate: a leaf may be on or off, `All` is on where all of its inputs are, and `Any` where any of them is.
#[derive(Drop)]
pub enum Gate {
    Leaf,
    All { inputs: Inputs },
    Any { inputs: Inputs },
}

/// Gates in an order in which the inputs of each come before it. A gate's number is its place, counted from 0. Contracts see their list.
#[derive(Drop)]
pub struct Circuit {
    gates: Vec<Gate>,
}

impl Model for Circuit {
    ghost use Rattle.std.specs.Prelude.{List};
    ghost use Rattle.gate_circuits.specs.Circuit.{IsOrdered};
    ghost use Rattle.gate_circuits.specs.declared.circuit.Gate.{Gate};

    ghost Value = { List Gate };

    ghost view = { λ c. c.gates.items };

    ghost invariant = { λ c. IsOrdered c.gates.items };
}

impl Circuit {
    /// No gate.
    pub fn new(alloc: Global) -> Circuit
        ensures { result ≡ [] }
    {
        Circuit {
            gates: Vec::new(alloc),
        }
    }

    /// Appends a gate, whose inputs are there. Its number is answered.
    pub fn push(&mut self, gate: Gate) -> Result<usize, NoMemory>
        requires { AreInputsBelow (length self.old) gate }
        ensures pushed { self.new ≡ (if is_ok result then self.old ++ gate ∷ [] else self.old) }
        ensures number { IfOk result (λ n. n ≡ length self.old) }
    {
        let number = self.gates.len();
        self.gates.push(gate)?;
        Ok(number)
    }

    /// How many gates there are.
    pub fn len(&self) -> usize
        ensures { result ≡ length self.now }
    {
        self.gates.len()
    }

    /// All gates in order.
    pub fn gates(&self) -> &[Gate]
        ensures value { result.now ≡ self.now }
        ensures ordered { IsOrdered self.now }
    {
        self.gates.as_slice()
    }
}
