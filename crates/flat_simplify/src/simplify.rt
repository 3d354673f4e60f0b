// Simplification.

ghost use Rattle.std.specs.Prelude.{◌≡◌, ℕ, ◌<◌, ◌∷◌, [], ◌↔◌, ◌⊎◌, length, map, IfOk, OnOk, MatchOption, All};
ghost use Rattle.std.specs.List.{Contains};
ghost use Rattle.flat_core.specs.inner.Dependency.{IsRunOrder};
ghost use Rattle.flat_core.specs.Renumbered.{new_number};
ghost use Rattle.flat_core.specs.WellFormed.{IsWellFormed};
ghost use Rattle.trigger_formulas.specs.inner.Kept.{AreTriggersOf};
ghost use Rattle.flat_simplify.specs.CanFault.{can_fault_op, CanFault};
ghost use Rattle.flat_simplify.specs.Replaced.{IsReplaced, IsReplacedBy, StandsFor, IsReplacement};
ghost use Rattle.flat_simplify.specs.Simplified.{IsStart, IsSimplified};

use flat_core::equation::{Equation, Op, Output};
use flat_core::flat::Flat;
use flat_core::replacements::Replacements;
use lift_func::update::update_can_fault;
use std::alloc::Global;
use translation_order::steps::Steps;
use trigger_formulas::triggers::Triggers;
use tsl_value::ids::EqId;
use tsl_value::memory::NoMemory;

/// The items of a list of two.
fn pair(ids: &[EqId]) -> Option<(EqId, EqId)>
    ensures { MatchOption result ((a b : ℕ) → ids.now ≡ a ∷ b ∷ [] → ⊥) (λ p. ids.now ≡ p.0 ∷ p.1 ∷ []) }
{
    if ids.len() == 2 {
        Some((ids[0], ids[1]))
    } else {
        None
    }
}

/// What an equation merges.
fn merged(equation: &Equation) -> Option<(EqId, EqId)>
    ensures { MatchOption result ((a b : ℕ) → equation.now.op ≡ Op.Merge → equation.now.args ≡ a ∷ b ∷ [] → ⊥)
        (λ p. (equation.now.op ≡ Op.Merge) × (equation.now.args ≡ p.0 ∷ p.1 ∷ [])) }
{
    match &equation.op {
        Op::Merge => pair(equation.args.ids()),
        _ => None,
    }
}

/// The argument to which an equation gives way.
fn replaced_by(
    alloc: Global,
    flat: &Flat,
    triggers: &Triggers,
    id: EqId,
) -> Result<Option<EqId>, NoMemory>
    requires there { id < length flat.now.equations }
    requires triggers { AreTriggersOf triggers.now flat.now }
    ensures { IfOk result (IsReplacedBy flat.now id) }
{
    if !flat.runs(id) {
        return Ok(None);
    }
    let Some((first, second)) = merged(flat.equation(id)) else {
        return Ok(None);
    };
    flat.assert_whole();
    if triggers.implies(alloc, second, first)? {
        Ok(Some(first))
    } else {
        Ok(None)
    }
}

/// What stands for an equation, where it is known what stands for the argument to which it gives way.
fn stand_in(
    alloc: Global,
    flat: &Flat,
    triggers: &Triggers,
    replaced: &Replacements,
    id: EqId,
) -> Result<EqId, NoMemory>
    requires there { id < length flat.now.equations }
    requires triggers { AreTriggersOf triggers.now flat.now }
    requires known { (a : ℕ) → IsReplaced flat.now id a → StandsFor flat.now a (new_number replaced.now a) }
    ensures { IfOk result (StandsFor flat.now id) }
{
    match replaced_by(alloc, flat, triggers, id)? {
        Some(first) => Ok(replaced.new_number(first)),
        None => Ok(id),
    }
}

/// As many numbers as there are equations.
fn numbers(alloc: Global, count: u32) -> Result<Replacements, NoMemory>
    ensures { IfOk result (λ r. length r ≡ count) }
{
    let mut replaced = Replacements::new(alloc);
    for number in 0..count {
        replaced.push(EqId::new(number))?;
    }
    Ok(replaced)
}

/// What stands for each equation.
fn replacements(
    alloc: Global,
    flat: &Flat,
    order: &Steps,
    triggers: &Triggers,
) -> Result<Replacements, NoMemory>
    requires ordered { IsRunOrder flat.now order.now }
    requires triggers { AreTriggersOf triggers.now flat.now }
    ensures { IfOk result (IsReplacement flat.now) }
{
    let mut replaced = numbers(alloc, flat.count())?;
    for step in order.as_slice() {
        let id = EqId::new(*step);
        let stands = stand_in(alloc, flat, triggers, &replaced, id)?;
        replaced.set(id, stands);
    }
    Ok(replaced)
}

fn can_fault(op: &Op) -> bool
    ensures { result ≡ can_fault_op op.now }
{
    match op {
        Op::Delay => true,
        Op::Lift { body, .. } => body.can_fault(),
        _ => match op.update() {
            Some(update) => update_can_fault(update),
            None => false,
        },
    }
}

/// What is printed.
fn printed(
    alloc: Global,
    outputs: &[Output],
    replaced: &Replacements,
) -> Result<Vec<EqId>, NoMemory>
    ensures { IfOk result (λ ids. ids.items ≡ map (λ o. new_number replaced.now o.equation) outputs.now) }
{
    let mut ids = Vec::new(alloc);
    for output in outputs {
        ids.push(replaced.new_number(output.equation))?;
    }
    Ok(ids)
}

/// Adds all that runs and can fault.
fn add_faulting(flat: &Flat, ids: &mut Vec<EqId>) -> Result<(), NoMemory>
    ensures { OnOk result ((i : ℕ) → Contains ids.new.items i ↔ (Contains ids.old.items i ⊎ CanFault flat.now i)) }
{
    for number in 0..flat.count() {
        let id = EqId::new(number);
        if flat.runs(id) && can_fault(&flat.equation(id).op) {
            ids.push(id)?;
        }
    }
    Ok(())
}

/// What remains, but for the arguments that it leads to.
fn starts(alloc: Global, flat: &Flat, replaced: &Replacements) -> Result<Vec<EqId>, NoMemory>
    ensures { IfOk result (λ ids. (i : ℕ) → Contains ids.items i ↔ IsStart flat.now replaced.now i) }
{
    let mut ids = printed(alloc, flat.outputs(), replaced)?;
    add_faulting(flat, &mut ids)?;
    Ok(ids)
}

/// Replaces each running merge whose second argument implies its first by the first, again until no replaced equation is used. What the
/// outputs need then runs, and what ran before and can fault, with its arguments. Numbers and names stay. What stands for each equation
/// is found along an order to run the system in. After `NoMemory` the system is gone.
pub fn simplify(
    alloc: Global,
    flat: Flat,
    order: &Steps,
    triggers: &Triggers,
) -> Result<Flat, NoMemory>
    requires well_formed { IsWellFormed flat }
    requires ordered { IsRunOrder flat order.now }
    requires triggers { AreTriggersOf triggers.now flat }
    ensures simplified { IfOk result (IsSimplified flat) }
    ensures well_formed { IfOk result IsWellFormed }
{
    flat.assert_whole();
    let replaced = replacements(alloc, &flat, order, triggers)?;
    let starts = starts(alloc, &flat, &replaced)?;
    let running = flat.reached(alloc, &replaced, &starts)?;
    Ok(flat.simplified(replaced, running))
}
