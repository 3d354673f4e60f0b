// Which gates imply which.

ghost use Rattle.std.specs.Prelude.{◌≡◌, ◌<◌, ◌↔◌, length, IfOk, IfSome, IsTrue};
ghost use Rattle.gate_circuits.specs.Circuit.{Implies};

use crate::asked::Asked;
use crate::circuit::Circuit;
use crate::effort::Effort;
use crate::knowledge::Knowledge;
use crate::marks::Marks;
use std::alloc::Global;
use std::marker::Model;
use tsl_value::memory::NoMemory;

/// A question: whether the first gate implies the second.
#[derive(Clone, Copy, PartialEq, Eq, Debug)]
pub struct Pair {
    pub first: usize,
    pub second: usize,
}

/// A circuit, and what is known of which gates imply which. Contracts see the circuit alone.
#[derive(Drop)]
pub struct Implied {
    knowledge: Knowledge,
    // For each gate some that are off somewhere where it is on.
    refuted: Vec<Marks>,
}

impl Model for Implied {
    ghost use Rattle.std.specs.Prelude.{List};
    ghost use Rattle.gate_circuits.specs.declared.circuit.Gate.{Gate};

    ghost Value = { List Gate };

    ghost view = { λ i. i.knowledge };

    ghost use Rattle.gate_circuits.specs.inner.Knowledge.{AreRowsRefuted};

    ghost invariant = { λ i. AreRowsRefuted i.knowledge i.refuted.items };
}

impl Implied {
    /// Prepares the answers for some pairs, and for each of `firsts` with each of `seconds`. Numbers of no gate are passed over. Searches
    /// that take too long give up. What is asked beforehand decides nothing but what is found, and how long `implies` takes.
    pub fn of(
        alloc: Global,
        circuit: Circuit,
        pairs: &[Pair],
        firsts: &[usize],
        seconds: &[usize],
    ) -> Result<Implied, NoMemory>
        ensures { IfOk result (λ i. i ≡ circuit) }
    {
        let asked = Asked::of(alloc, circuit.gates(), pairs, firsts, seconds)?;
        let mut knowledge = Knowledge::new(alloc, circuit, asked.relevant)?;
        let mut models = knowledge.guess_all(alloc, &asked.sets)?;
        let mut refuted = Vec::new(alloc);
        let mut effort = Effort::limited();
        'firsts: for gate in 0..asked.sets.len() {
            let set = &asked.sets[gate];
            let row = knowledge.row_of(alloc, gate, set, &refuted, &mut models, &mut effort)?;
            knowledge.put_row(gate, row.known);
            refuted.push(row.refuted)?;
        }
        Ok(Implied { knowledge, refuted })
    }

    /// Whether the second gate is on wherever the first is, if it was found beforehand. `None` says nothing: when it is answered isn't
    /// promised.
    pub fn found(&self, pair: Pair) -> Option<bool>
        ensures { IfSome result (λ r. IsTrue r ↔ Implies self.now pair.first pair.second) }
    {
        if !self.knowledge.is_possible(pair.first) || self.is_known(pair) {
            return Some(true);
        }
        if self.is_refuted(pair) {
            return Some(false);
        }
        None
    }

    /// Whether the second gate is on wherever the first is. Where it was not found beforehand, it is searched however long that takes.
    pub fn implies(&self, alloc: Global, pair: Pair) -> Result<bool, NoMemory>
        requires first { pair.first < length self.now }
        requires second { pair.second < length self.now }
        ensures { IfOk result (λ r. IsTrue r ↔ Implies self.now pair.first pair.second) }
    {
        if let Some(found) = self.found(pair) {
            return Ok(found);
        }
        let mut left = Marks::with_room(alloc, self.knowledge.gates().len())?;
        left.add(pair.second);
        let mut models = Vec::new(alloc);
        let mut effort = Effort::Unlimited;
        self.knowledge
            .decide(alloc, pair.first, &mut left, &mut models, &mut effort)?;
        Ok(left.has(pair.second))
    }

    /// Whether the second gate of a pair is known to be on wherever the first is.
    fn is_known(&self, pair: Pair) -> bool
        ensures { IsTrue result → Implies self.now pair.first pair.second }
    {
        match self.knowledge.row(pair.first) {
            Some(row) => row.has(pair.second),
            None => false,
        }
    }

    /// Whether the second gate of a pair is known to be off somewhere where the first is on.
    fn is_refuted(&self, pair: Pair) -> bool
        ensures { IsTrue result → Implies self.now pair.first pair.second → ⊥ }
    {
        match self.refuted.get(pair.first) {
            Some(row) => row.has(pair.second),
            None => false,
        }
    }
}
