// Models that are guessed: assignments that have a gate, and as little else as is easily seen.

ghost use Rattle.std.specs.Prelude.{IfOk, OnOk};
ghost use Rattle.gate_circuits.specs.inner.Knowledge.{AreModels};

use crate::circuit::Gate;
use crate::knowledge::{Knowledge, model};
use crate::marks::Marks;
use std::alloc::Global;
use tsl_value::memory::NoMemory;

/// Numbers that look random, each from the one before.
fn next_random(seed: u64) -> u64 {
    let seed = seed ^ (seed << 13);
    let seed = seed ^ (seed >> 7);
    seed ^ (seed << 17)
}

impl Knowledge {
    /// Whether a gate is a product of at most two, each wanted or a leaf.
    fn is_cheap(&self, wanted: &Marks, gate: usize) -> bool {
        let inputs = match self.gates().get(gate) {
            Some(Gate::All { inputs }) => inputs.numbers(),
            _ => return false,
        };
        if inputs.len() > 2 {
            return false;
        }
        for input in inputs {
            let is_leaf = match self.gates().get(*input) {
                Some(Gate::Leaf) => true,
                _ => false,
            };
            if !is_leaf && !wanted.has(*input) {
                return false;
            }
        }
        true
    }

    /// One of the inputs of a sum: a wanted one, or one that is cheap, or any one that is ever on.
    fn guess_input(&self, wanted: &Marks, inputs: &[usize], seed: u64) -> Option<usize> {
        if let Some(input) = wanted.first_of(inputs) {
            return Some(input);
        }
        for input in inputs {
            if self.is_cheap(wanted, *input) {
                return Some(*input);
            }
        }
        self.random_input(inputs, seed)
    }

    /// One of the inputs that are ever on.
    fn random_input(&self, inputs: &[usize], seed: u64) -> Option<usize> {
        if inputs.is_empty() {
            return None;
        }
        let start = (seed % inputs.len() as u64) as usize;
        for input in &inputs[start..] {
            if self.is_possible(*input) {
                return Some(*input);
            }
        }
        self.possible().first_of(inputs)
    }

    /// Leaves that are guessed for a gate, from above down.
    fn guess(&self, alloc: Global, gate: usize) -> Result<Marks, NoMemory> {
        let gates = self.gates();
        let mut wanted = Marks::with_room(alloc, gates.len())?;
        wanted.add(gate);
        let mut seed = gate as u64 ^ 88172645463325252;
        for number in (0..gates.len()).rev() {
            if wanted.has(number) {
                match &gates[number] {
                    Gate::Leaf => {}
                    Gate::All { inputs } => wanted.add_each(inputs.numbers()),
                    Gate::Any { inputs } => {
                        seed = next_random(seed);
                        if let Some(input) = self.guess_input(&wanted, inputs.numbers(), seed) {
                            wanted.add(input);
                        }
                    }
                }
            }
        }
        Ok(wanted)
    }

    /// Whether a model is guessed for a gate: for leaves and products that are asked about and ever on.
    fn is_guessed(&self, number: usize, asked: &Marks) -> bool {
        if asked.has_no_room() || !self.is_possible(number) {
            return false;
        }
        match self.gates().get(number) {
            Some(Gate::Leaf) => true,
            Some(Gate::All { inputs }) => inputs.numbers().len() != 1,
            _ => false,
        }
    }

    /// Appends a model for a gate, if one is guessed for it.
    fn add_guess(
        &self,
        alloc: Global,
        models: &mut Vec<Marks>,
        number: usize,
        asked: &Marks,
    ) -> Result<(), NoMemory>
        requires { AreModels self.now models.old.items }
        ensures { OnOk result (AreModels self.now models.new.items) }
    {
        if !self.is_guessed(number, asked) {
            return Ok(());
        }
        let leaves = self.guess(alloc, number)?;
        let on = model(alloc, self.circuit(), &leaves)?;
        models.push(on)?;
        Ok(())
    }

    /// A model for each gate that is asked about.
    pub fn guess_all(&self, alloc: Global, asked: &[Marks]) -> Result<Vec<Marks>, NoMemory>
        ensures { IfOk result (λ models. AreModels self.now models.items) }
    {
        let mut models = Vec::new(alloc);
        for number in 0..asked.len() {
            self.add_guess(alloc, &mut models, number, &asked[number])?;
        }
        Ok(models)
    }
}
