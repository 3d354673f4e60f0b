// What a sum is a sum of.

ghost use Rattle.std.specs.Prelude.{◌≡◌, ℕ, Bool, Some, slice_get, IfNone, IfOk, IfSome, IsTrue, OnOk};
ghost use Rattle.gate_circuits.specs.inner.Marks.{has, IsLastBefore};
ghost use Rattle.gate_circuits.specs.Circuit.{IsOrdered};
ghost use Rattle.gate_circuits.specs.inner.Knowledge.{AreAllOn, Follow};
ghost use Rattle.gate_circuits.specs.inner.Search.{AreDivided, AreSummands, IsAnyOn, IsSum};

use crate::circuit::Gate;
use crate::effort::Effort;
use crate::knowledge::Knowledge;
use crate::marks::Marks;
use std::alloc::Global;
use tsl_value::memory::NoMemory;

/// The most summands of a sum that are looked at one by one without a search.
const MOST_SUMMANDS: usize = 8;

impl Knowledge {
    /// The inputs of a gate, if it is a sum.
    fn inputs_of_sum(&self, gate: usize) -> Option<&[usize]>
        ensures some { IfSome result (λ inputs. slice_get self.now gate ≡ Some (Gate.Any inputs.now)) }
        ensures none { IfNone result (IsSum self.now gate → ⊥) }
        ensures ordered { IsOrdered self.now }
    {
        match self.gates().get(gate) {
            None => None,
            Some(Gate::Leaf) => None,
            Some(Gate::All { inputs: _ }) => None,
            Some(Gate::Any { inputs }) => Some(inputs.numbers()),
        }
    }

    /// Marks the inputs of a marked gate, if it is a sum, and else takes it for a summand.
    fn divide(
        &self,
        marked: &mut Marks,
        summands: &mut Vec<usize>,
        gate: usize,
    ) -> Result<(), NoMemory>
        ensures { OnOk result ((sum end : ℕ) → AreDivided self.now sum end marked.old summands.old.items →
            IsLastBefore marked.old end gate → AreDivided self.now sum gate marked.new summands.new.items) }
    {
        match self.inputs_of_sum(gate) {
            Some(inputs) => {
                marked.add_each(inputs);
                Ok(())
            }
            None => {
                summands.push(gate)?;
                Ok(())
            }
        }
    }

    /// The summands of a gate, with those of sums in their place. They are found from above down.
    pub fn summands(&self, alloc: Global, sum: usize) -> Result<Vec<usize>, NoMemory>
        ensures { IfOk result (λ list. AreSummands self.now sum list.items) }
    {
        let gates = self.gates();
        let mut marked = Marks::with_room(alloc, gates.len())?;
        let mut summands = Vec::new(alloc);
        let mut end = gates.len();
        marked.add(sum);
        'down: while let Some(gate) = marked.last_before(end) {
            end = gate;
            self.divide(&mut marked, &mut summands, gate)?;
        }
        Ok(summands)
    }

    /// The summands of a sum that is known, if they are few and none of them is known.
    fn few_summands(
        &self,
        alloc: Global,
        known: &Marks,
        sum: usize,
    ) -> Result<Option<Vec<usize>>, NoMemory>
        ensures { IfOk result (λ r. IfSome r (λ list. IsTrue (has known.now sum) × AreSummands self.now sum list.items)) }
    {
        if !known.has(sum) || !self.is_open(known, sum) {
            return Ok(None);
        }
        let summands = self.summands(alloc, sum)?;
        if summands.len() > MOST_SUMMANDS || known.has_any(&summands) {
            return Ok(None);
        }
        Ok(Some(summands))
    }

    /// Whether a gate is a sum of several of which none is known.
    fn is_open(&self, known: &Marks, sum: usize) -> bool {
        match self.gates().get(sum) {
            Some(Gate::Any { inputs }) => inputs.numbers().len() > 1
                && !known.has_any(inputs.numbers()),
            _ => false,
        }
    }

    /// Whichever summand is on: what each of them implies, by the gates of a cone. Whether it did not give up.
    fn add_common(
        &self,
        alloc: Global,
        cone: &[usize],
        known: &mut Marks,
        summands: &[usize],
        effort: &mut Effort,
    ) -> Result<bool, NoMemory>
        ensures common { OnOk result ((leaves : ℕ → Bool) → AreAllOn self.now leaves known.old →
            IsAnyOn self.now leaves summands.now → AreAllOn self.now leaves known.new) }
        ensures unlimited { effort.old ≡ Effort.Unlimited → effort.new ≡ Effort.Unlimited }
    {
        let mut common = self.possible().copy(alloc)?;
        'sides: for summand in summands {
            if self.is_possible(*summand) {
                if !effort.spend(self.closing(cone)) {
                    return Ok(false);
                }
                let mut side = known.copy(alloc)?;
                self.learn(&mut side, *summand);
                self.close_over(&mut side, cone);
                common.keep_either(&side, &side);
            }
        }
        known.add_all(&common);
        Ok(true)
    }

    /// Looks at each known sum of few, until all that is left over is known, or it gives up.
    pub fn saturate_once(
        &self,
        alloc: Global,
        cone: &[usize],
        known: &mut Marks,
        left: &Marks,
        effort: &mut Effort,
    ) -> Result<(), NoMemory>
        ensures follow { OnOk result (Follow self.now known.old known.new) }
        ensures unlimited { effort.old ≡ Effort.Unlimited → effort.new ≡ Effort.Unlimited }
    {
        'sums: for sum in 0..self.gates().len() {
            if let Some(summands) = self.few_summands(alloc, known, sum)? {
                let is_done = self.add_common(alloc, cone, known, &summands, effort)?;
                if !is_done {
                    return Ok(());
                }
                if left.is_within(known) {
                    return Ok(());
                }
            }
        }
        Ok(())
    }
}
