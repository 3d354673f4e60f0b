// Which equations are reached through arguments.

ghost use Rattle.std.specs.Prelude.{◌≡◌, ◌↔◌, ◌<◌, ◌≤◌, [], ◌∷◌, ℕ, length, map, replicate, false, All, IfOk, OnOk, IsTrue};
ghost use Rattle.std.specs.List.Sorted.{IsStrictlyIncreasing};
ghost use Rattle.flat_core.specs.Members.{is_in};
ghost use Rattle.flat_core.specs.Needed.{HasArgument, IsReached, IsReachedFrom};
ghost use Rattle.flat_core.specs.inner.Marks.{is_marked, is_waiting, AreBelow, ArgumentsThere, Marked, Spread};
ghost use Rattle.flat_core.specs.Renumbered.{new_number, with_new_args};
ghost use Rattle.flat_core.specs.declared.limits.TheConstants.{MOST_EQUATIONS};

use crate::equation::{Equation, Output};
use crate::lists::EqSet;
use crate::replacements::Replacements;
use std::alloc::Global;
use tsl_value::ids::EqId;
use tsl_value::memory::NoMemory;

/// A mark for each equation that was found, and those of them whose arguments are still to be marked.
#[derive(Drop)]
pub struct Marks {
    marked: Vec<bool>,
    waiting: Vec<EqId>,
}

impl Marks {
    /// No mark, for so many equations.
    fn new(alloc: Global, count: usize) -> Result<Marks, NoMemory>
        ensures marked { IfOk result (λ m. m.marked.items ≡ replicate count false) }
        ensures waiting { IfOk result (λ m. m.waiting.items ≡ []) }
    {
        let marked = vec![in alloc; false; count]?;
        Ok(Marks {
            marked,
            waiting: Vec::new(alloc),
        })
    }

    fn mark(&mut self, id: EqId) -> Result<(), NoMemory>
        requires { id < length self.old.marked.items }
        ensures { OnOk result (Marked (id ∷ []) self.old self.new) }
    {
        let index = id.get() as usize;
        if !self.marked[index] {
            self.waiting.push(id)?;
            self.marked[index] = true;
        }
        Ok(())
    }

    /// Marks the numbers that these have.
    fn mark_all(&mut self, ids: &[EqId], replaced: &Replacements) -> Result<(), NoMemory>
        requires { AreBelow (length self.old.marked.items) (map (new_number replaced.now) ids.now) }
        ensures { OnOk result (Marked (map (new_number replaced.now) ids.now) self.old self.new) }
    {
        for id in ids {
            self.mark(replaced.new_number(*id))?;
        }
        Ok(())
    }

    fn mark_outputs(&mut self, outputs: &[Output]) -> Result<(), NoMemory>
        requires { All (λ o. o.equation < length self.old.marked.items) outputs.now }
        ensures { OnOk result (Marked (map (λ o. o.equation) outputs.now) self.old self.new) }
    {
        for output in outputs {
            self.mark(output.equation)?;
        }
        Ok(())
    }

    /// Marks the numbers that the arguments of all that is marked have, again until no argument is left.
    fn spread(&mut self, equations: &[Equation], replaced: &Replacements) -> Result<(), NoMemory>
        requires one_each { length self.old.marked.items ≡ length equations.now }
        requires there { ArgumentsThere (map (with_new_args replaced.now) equations.now) }
        requires all_wait { (i : ℕ) → is_marked self.old i ≡ is_waiting self.old i }
        ensures { OnOk result (Spread (HasArgument (map (with_new_args replaced.now) equations.now)) self.old self.new) }
    {
        while let Some(id) = self.waiting.pop() {
            self.mark_all(equations[id.get() as usize].args.ids(), replaced)?;
        }
        Ok(())
    }

    /// The marked equations.
    fn set(&self, alloc: Global) -> Result<EqSet, NoMemory>
        requires { length self.now.marked.items ≤ MOST_EQUATIONS }
        ensures ascending { IfOk result (λ s. IsStrictlyIncreasing s) }
        ensures members { IfOk result (λ s. (i : ℕ) → is_in s i ≡ is_marked self.now i) }
    {
        let mut set = EqSet::new(alloc);
        for index in 0..self.marked.len() {
            if self.marked[index] {
                set.push(EqId::new(index as u32))?;
            }
        }
        Ok(set)
    }
}

/// The equations that the outputs need, through any argument.
pub(crate) fn needed(
    alloc: Global,
    equations: &[Equation],
    outputs: &[Output],
) -> Result<EqSet, NoMemory>
    requires few { length equations.now ≤ MOST_EQUATIONS }
    requires there { ArgumentsThere equations.now }
    requires outputs_there { All (λ o. o.equation < length equations.now) outputs.now }
    ensures ascending { IfOk result (λ s. IsStrictlyIncreasing s) }
    ensures members { IfOk result (λ s. (i : ℕ) → IsTrue (is_in s i) ↔ IsReached equations.now outputs.now i) }
{
    let mut marks = Marks::new(alloc, equations.len())?;
    marks.mark_outputs(outputs)?;
    let unchanged = Replacements::new(alloc);
    marks.spread(equations, &unchanged)?;
    marks.set(alloc)
}

/// The equations to which arguments lead from these, with other numbers in place of arguments.
pub(crate) fn reached(
    alloc: Global,
    equations: &[Equation],
    replaced: &Replacements,
    starts: &[EqId],
) -> Result<EqSet, NoMemory>
    requires few { length equations.now ≤ MOST_EQUATIONS }
    requires there { ArgumentsThere (map (with_new_args replaced.now) equations.now) }
    requires starts_there { AreBelow (length equations.now) starts.now }
    ensures ascending { IfOk result (λ s. IsStrictlyIncreasing s) }
    ensures members { IfOk result (λ s. (i : ℕ)
        → IsTrue (is_in s i) ↔ IsReachedFrom (map (with_new_args replaced.now) equations.now) starts.now i) }
{
    let mut marks = Marks::new(alloc, equations.len())?;
    let unchanged = Replacements::new(alloc);
    marks.mark_all(starts, &unchanged)?;
    marks.spread(equations, replaced)?;
    marks.set(alloc)
}
