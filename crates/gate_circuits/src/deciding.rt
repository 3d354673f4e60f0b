// What a gate implies of what is asked.

ghost use Rattle.std.specs.List.{Contains};
ghost use Rattle.std.specs.Prelude.{◌≡◌, ℕ, ◌<◌, ◌⊎◌, Bool, List, Some, length, slice_get, IfOk, IsTrue, IsFalse, OnOk};
ghost use Rattle.gate_circuits.specs.declared.circuit.Gate.{Gate};
ghost use Rattle.gate_circuits.specs.Circuit.{IsOn};
ghost use Rattle.gate_circuits.specs.inner.Marks.{has};
ghost use Rattle.gate_circuits.specs.inner.Knowledge.{AreAllOn, AreImplied, AreModels, AreRowsRefuted, Follow, IsRefuted};
ghost use Rattle.gate_circuits.specs.inner.Search.{IsDecided, IsRow, IsTurnOf};

use crate::circuit::Gate;
use crate::effort::Effort;
use crate::knowledge::Knowledge;
use crate::marks::Marks;
use crate::search::Turn;
use std::alloc::Global;
use tsl_value::memory::NoMemory;

/// How often known sums are looked at again.
const ROUNDS: usize = 1000;

/// What is known of a gate: gates that are on wherever it is, and gates that are off somewhere where it is on.
#[derive(Drop)]
pub struct Row {
    pub known: Marks,
    pub refuted: Marks,
}

/// What a gate is decided to imply, and whether all that was left over is decided.
#[derive(Drop)]
pub struct Decision {
    pub known: Marks,
    pub is_whole: bool,
}

/// Nothing known.
fn no_row(alloc: Global) -> Row
    ensures { (gates : List Gate) (gate : ℕ) → IsRow gates gate result }
{
    Row {
        known: Marks::without_room(alloc),
        refuted: Marks::without_room(alloc),
    }
}

/// Adds what is refuted of a gate.
fn add_refuted(off: &mut Marks, refuted: &[Marks], gate: usize)
    ensures { (gates : List Gate) → AreRowsRefuted gates refuted.now →
        (b : ℕ) → IsTrue (has off.new b) → IsTrue (has off.old b) ⊎ IsRefuted gates gate b }
{
    match refuted.get(gate) {
        Some(row) => off.add_all(row),
        None => {}
    }
}

/// Takes away from what is left over what a model shows that has the gate.
fn keep_by_models(gate: usize, known: &Marks, left: &mut Marks, models: &[Marks])
    ensures kept { (b : ℕ) → IsTrue (has left.new b) → IsTrue (has left.old b) }
    ensures refuted { (gates : List Gate) → AreModels gates models.now →
        (b : ℕ) → IsTrue (has left.old b) → IsFalse (has left.new b) → IsRefuted gates gate b }
{
    'models: for on in models {
        if on.has(gate) {
            left.keep_either(on, known);
            if left.is_within(known) {
                return;
            }
        }
    }
}

impl Knowledge {
    /// The gates by which what is left over may become known.
    fn cone(&self, alloc: Global, known: &Marks, left: &Marks) -> Result<Vec<usize>, NoMemory> {
        let gates = self.gates();
        let mut marked = left.copy(alloc)?;
        let mut cone = Vec::new(alloc);
        for number in (0..gates.len()).rev() {
            if marked.has(number) && !known.has(number) {
                match &gates[number] {
                    Gate::Leaf => {}
                    Gate::All { inputs } => {
                        marked.add_each(inputs.numbers());
                        cone.push(number)?;
                    }
                    Gate::Any { inputs } => {
                        marked.add_each(inputs.numbers());
                        cone.push(number)?;
                    }
                }
            }
        }
        cone.reverse();
        Ok(cone)
    }

    /// Looks at known sums until no more is known, or it gives up.
    fn saturate(
        &self,
        alloc: Global,
        cone: &[usize],
        known: &mut Marks,
        left: &Marks,
        effort: &mut Effort,
    ) -> Result<(), NoMemory>
        ensures follow { OnOk result (Follow self.now known.old known.new) }
        ensures unlimited { effort.old ≡ Effort.Unlimited → effort.new ≡ Effort.Unlimited }
    {
        'rounds: for _round in 0..ROUNDS {
            if !effort.spend(self.gates().len()) {
                return Ok(());
            }
            let before = known.copy(alloc)?;
            self.saturate_once(alloc, cone, known, left, effort)?;
            if left.is_within(known) || known.is_within(&before) {
                return Ok(());
            }
        }
        Ok(())
    }

    /// Wants just a gate.
    fn turn(&self, alloc: Global, gate: usize, known: &Marks) -> Result<Turn, NoMemory>
        requires there { gate < length self.now }
        requires known { AreImplied self.now gate known.now }
        ensures { IfOk result (λ turn. IsTurnOf self.now gate turn) }
    {
        let mut wanted = Marks::with_room(alloc, self.gates().len())?;
        wanted.add(gate);
        Ok(Turn {
            place: gate + 1,
            wanted,
            known: known.copy(alloc)?,
        })
    }

    /// Adds gates that are on, and what is known to be on wherever they are.
    fn learn_each(&self, known: &mut Marks, gates: &[usize])
        ensures { (leaves : ℕ → Bool) → AreAllOn self.now leaves known.old →
            ((i : ℕ) → Contains gates.now i → IsOn self.now leaves i) → AreAllOn self.now leaves known.new }
    {
        'gates: for gate in gates {
            self.learn(known, *gate);
        }
    }

    /// Adds the inputs of a product that is on, and what is known to be on wherever they are.
    fn learn_inputs(&self, known: &mut Marks, gate: usize)
        ensures { (leaves : ℕ → Bool) → AreAllOn self.now leaves known.old → IsOn self.now leaves gate →
            AreAllOn self.now leaves known.new }
    {
        match self.gates().get(gate) {
            Some(Gate::All { inputs }) => self.learn_each(known, inputs.numbers()),
            _ => {}
        }
    }

    /// What is on wherever a gate is, as far as its inputs show.
    fn start(&self, alloc: Global, gate: usize) -> Result<Marks, NoMemory>
        ensures { IfOk result (λ known. AreImplied self.now gate known) }
    {
        let mut known = Marks::with_room(alloc, self.gates().len())?;
        self.learn(&mut known, gate);
        self.learn_inputs(&mut known, gate);
        self.close(&mut known);
        Ok(known)
    }

    /// Takes away from what is left over what a gate does not imply. If it does not give up, the gate implies the rest.
    pub fn decide(
        &self,
        alloc: Global,
        gate: usize,
        left: &mut Marks,
        models: &mut Vec<Marks>,
        effort: &mut Effort,
    ) -> Result<Decision, NoMemory>
        requires there { gate < length self.now }
        requires models { AreModels self.now models.old.items }
        ensures models { OnOk result (AreModels self.now models.new.items) }
        ensures known { IfOk result (λ d. AreImplied self.now gate d.known) }
        ensures decided { IfOk result (λ d. IsDecided self.now gate left.old left.new d.is_whole) }
        ensures whole { effort.old ≡ Effort.Unlimited → IfOk result (λ d. IsTrue d.is_whole) }
    {
        let mut known = self.start(alloc, gate)?;
        keep_by_models(gate, &known, left, models);
        if left.is_within(&known) {
            return Ok(Decision {
                known,
                is_whole: true,
            });
        }
        let cone = self.cone(alloc, &known, left)?;
        self.saturate(alloc, &cone, &mut known, left, effort)?;
        let turn = self.turn(alloc, gate, &known)?;
        let is_whole = self.search(alloc, &cone, turn, left, models, effort)?;
        if is_whole {
            known.add_all(left);
            self.close(&mut known);
        }
        Ok(Decision { known, is_whole })
    }

    /// The row of a gate that is not a sum. What a search that gives up leaves over is neither known nor refuted.
    fn product_row(
        &self,
        alloc: Global,
        gate: usize,
        asked: &Marks,
        models: &mut Vec<Marks>,
        effort: &mut Effort,
    ) -> Result<Row, NoMemory>
        requires there { gate < length self.now }
        requires models { AreModels self.now models.old.items }
        ensures models { OnOk result (AreModels self.now models.new.items) }
        ensures row { IfOk result (λ row. IsRow self.now gate row) }
    {
        let mut left = asked.copy(alloc)?;
        effort.begin();
        let decision = self.decide(alloc, gate, &mut left, models, effort)?;
        let mut refuted = asked.copy(alloc)?;
        refuted.remove_all(&left);
        Ok(Row {
            known: decision.known,
            refuted,
        })
    }

    /// The row of a sum: what all of its inputs imply. What one of them doesn't is refuted.
    fn sum_row(
        &self,
        alloc: Global,
        gate: usize,
        inputs: &[usize],
        refuted: &[Marks],
    ) -> Result<Row, NoMemory>
        requires sum { slice_get self.now gate ≡ Some (Gate.Any inputs.now) }
        requires refuted { AreRowsRefuted self.now refuted.now }
        ensures { IfOk result (λ row. IsRow self.now gate row) }
    {
        let mut known = self.possible().copy(alloc)?;
        let mut off = Marks::with_room(alloc, self.gates().len())?;
        'inputs: for input in inputs {
            self.keep_row(&mut known, *input);
            add_refuted(&mut off, refuted, *input);
        }
        known.add(gate);
        Ok(Row {
            known,
            refuted: off,
        })
    }

    /// The row of a gate, by those of its inputs.
    pub fn row_of(
        &self,
        alloc: Global,
        gate: usize,
        asked: &Marks,
        refuted: &[Marks],
        models: &mut Vec<Marks>,
        effort: &mut Effort,
    ) -> Result<Row, NoMemory>
        requires refuted { AreRowsRefuted self.now refuted.now }
        requires models { AreModels self.now models.old.items }
        ensures models { OnOk result (AreModels self.now models.new.items) }
        ensures row { IfOk result (λ row. IsRow self.now gate row) }
    {
        if asked.has_no_room() {
            return Ok(no_row(alloc));
        }
        match self.gates().get(gate) {
            Some(Gate::Any { inputs }) => self.sum_row(alloc, gate, inputs.numbers(), refuted),
            Some(_) => self.product_row(alloc, gate, asked, models, effort),
            None => Ok(no_row(alloc)),
        }
    }
}
