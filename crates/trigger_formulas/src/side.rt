// The trigger formulas at 0, or after it.

ghost use Rattle.std.specs.Prelude.{◌≡◌, ◌<◌, ◌↔◌, ◌&&◌, length, IfOk, IfSome, IsTrue};
ghost use Rattle.gate_circuits.specs.Circuit.{Implies};
ghost use Rattle.trigger_starts.specs.inner.Kept.{IsOrder};
ghost use Rattle.trigger_starts.specs.inner.Rules.{AreClosed, is_marked};
ghost use Rattle.trigger_circuits.specs.inner.Circuits.{AreThere, gate_at};
ghost use Rattle.trigger_formulas.specs.inner.Kept.{IsSideOf};

use crate::asked::{Asked, Question};
use gate_circuits::implied::{Implied, Pair};
use std::alloc::Global;
use trigger_circuits::formulas::Formulas;
use trigger_starts::rules::Rule;
use trigger_starts::starts::{Given, firing};
use tsl_value::ids::EqId;
use tsl_value::memory::NoMemory;

/// What is kept of all formulas at 0, or after it.
#[derive(Drop)]
pub(crate) struct Side {
    /// Whether a formula is true where all else is.
    met: Vec<bool>,
    implied: Implied,
    /// The gate of a formula.
    gates: Vec<usize>,
}

/// The gates of some equations.
fn gates_of(alloc: Global, gates: &[usize], equations: &[EqId]) -> Result<Vec<usize>, NoMemory> {
    let mut found = Vec::new(alloc);
    for equation in equations {
        if let Some(gate) = gates.get(equation.get() as usize) {
            found.push(*gate)?;
        }
    }
    Ok(found)
}

/// The gates of a question.
fn pair_of(gates: &[usize], question: Question) -> Option<Pair> {
    let first = *gates.get(question.a.get() as usize)?;
    let second = *gates.get(question.b.get() as usize)?;
    Some(Pair { first, second })
}

/// The gates of some questions.
fn pairs_of(alloc: Global, gates: &[usize], questions: &[Question]) -> Result<Vec<Pair>, NoMemory> {
    let mut pairs = Vec::new(alloc);
    for question in questions {
        if let Some(pair) = pair_of(gates, *question) {
            pairs.push(pair)?;
        }
    }
    Ok(pairs)
}

impl Side {
    /// That of some rules, where some equations start, with the answers to what will be asked.
    pub fn of(
        alloc: Global,
        rules: &[Rule],
        starts: &[bool],
        order: &[u32],
        asked: &Asked,
        at_zero: bool,
    ) -> Result<Side, NoMemory>
        requires one_each { length starts.now ≡ length rules.now }
        requires closed { AreClosed rules.now }
        requires ordered { IsOrder rules.now order.now }
        ensures { IfOk result (λ s. IsSideOf at_zero rules.now starts.now s) }
    {
        let given = Given {
            start: at_zero,
            others: true,
        };
        let met = firing(alloc, rules, starts, order, given)?;
        let formulas = Formulas::of(alloc, rules, starts, order, at_zero)?;
        let Formulas { circuit, gates } = formulas;
        let pairs = pairs_of(alloc, &gates, &asked.questions)?;
        let firsts = gates_of(alloc, &gates, &asked.firsts)?;
        let seconds = gates_of(alloc, &gates, &asked.seconds)?;
        let implied = Implied::of(alloc, circuit, &pairs, &firsts, &seconds)?;
        Ok(Side {
            met,
            implied,
            gates,
        })
    }

    /// Whether both formulas are true where all else is.
    pub fn are_met(&self, a: EqId, b: EqId) -> bool
        requires first { a < length self.now.met.items }
        requires second { b < length self.now.met.items }
        ensures { result ≡ (is_marked self.now.met.items a && is_marked self.now.met.items b) }
    {
        self.met[a.get() as usize] && self.met[b.get() as usize]
    }

    /// Whether the second gate is on wherever the first is, if it was found beforehand.
    pub fn found(&self, a: EqId, b: EqId) -> Option<bool>
        requires first { a < length self.now.gates.items }
        requires second { b < length self.now.gates.items }
        ensures { IfSome result (λ r. IsTrue r ↔ Implies self.now.implied (gate_at self.now.gates.items a) (gate_at self.now.gates.items b)) }
    {
        let pair = Pair {
            first: self.gates[a.get() as usize],
            second: self.gates[b.get() as usize],
        };
        self.implied.found(pair)
    }

    /// Whether the second gate is on wherever the first is, however long that takes.
    pub fn implies(&self, alloc: Global, a: EqId, b: EqId) -> Result<bool, NoMemory>
        requires there { AreThere self.now.gates.items self.now.implied }
        requires first { a < length self.now.gates.items }
        requires second { b < length self.now.gates.items }
        ensures { IfOk result (λ r. IsTrue r ↔ Implies self.now.implied (gate_at self.now.gates.items a) (gate_at self.now.gates.items b)) }
    {
        let pair = Pair {
            first: self.gates[a.get() as usize],
            second: self.gates[b.get() as usize],
        };
        self.implied.implies(alloc, pair)
    }
}
