// Which steps have to stand before others.

ghost use Rattle.std.specs.Prelude.{◌≡◌, ◌↔◌, ◌<◌, length, IfOk, OnOk, IsTrue};
ghost use Rattle.translation_order.specs.Order.{AreOfSteps};
ghost use Rattle.alias_rules.specs.Uses.{AreUpdates};
ghost use Rattle.alias_rules.specs.Conflict.{StandsBefore};
ghost use Rattle.alias_rules.specs.Steps.{step_count};
ghost use Rattle.alias_paths.specs.inner.Kept.{AreUses};
ghost use Rattle.alias_paths.specs.inner.Pairs.{Adds, ArePairs};
ghost use Rattle.alias_nears.specs.inner.Constraints.{PassesMarked, IsPassedBefore, HasMarkedPairs, IsPasserOf, StandsBeforeUpdate};
ghost use Rattle.alias_nears.specs.inner.Nears.{AreNear, AreNears};

use crate::answers::Answers;
use crate::around::passes_over;
use alias_nears::kept::update_at;
use alias_nears::near::{Near, Nears};
use alias_nears::steps::{
    push_marked, push_needed, push_printers, push_prints, push_readers, push_writers,
};
use alias_paths::pairs::push_if;
use alias_paths::uses::Uses;
use flat_core::flat::Flat;
use flat_core::lists::EqSet;
use std::alloc::Global;
use translation_order::steps::Edges;
use tsl_value::ids::EqId;
use tsl_value::memory::NoMemory;

/// Whether this equation passes a marked variable on where the update has an event.
fn passes_marked(
    alloc: Global,
    flat: &Flat,
    answers: &Answers,
    marks: &[bool],
    edge: (u32, u32),
    update: EqId,
) -> Result<bool, NoMemory>
    requires answers { answers.now ≡ flat.now }
    requires update { update < length flat.now.equations }
    requires variable { edge.0 < length marks.now }
    requires there { edge.1 < length flat.now.equations }
    ensures { IfOk result (λ r. IsTrue r ↔ PassesMarked flat.now marks.now update edge.0 edge.1) }
{
    let (variable, passer) = edge;
    if !marks[variable as usize] {
        return Ok(false);
    }
    let over = passes_over(
        alloc,
        flat,
        answers,
        update,
        EqId::new(passer),
        EqId::new(variable),
    )?;
    Ok(!over)
}

/// Appends a pair of an equation that passes a marked one on where the update has an event, and the update. One that is marked itself
/// has its pair already.
fn push_passer(
    pairs: &mut Edges,
    alloc: Global,
    flat: &Flat,
    answers: &Answers,
    marks: &[bool],
    edge: (u32, u32),
    update: EqId,
) -> Result<(), NoMemory>
    requires answers { answers.now ≡ flat.now }
    requires update { update < length flat.now.equations }
    requires one_each { length marks.now ≡ length flat.now.equations }
    requires variable { edge.0 < length marks.now }
    requires there { edge.1 < length flat.now.equations }
    requires marked { HasMarkedPairs marks.now update pairs.old }
    ensures { OnOk result (Adds pairs.old (IsPasserOf flat.now marks.now update edge.0 edge.1) pairs.new) }
{
    let (_, passer) = edge;
    if marks[passer as usize] {
        return Ok(());
    }
    let wanted = passes_marked(alloc, flat, answers, marks, edge, update)?;
    push_if(pairs, (passer, update.get()), wanted)?;
    Ok(())
}

/// Appends a pair of each equation that passes a marked one on where the update has an event, and the update, after the marked ones
/// have theirs.
fn push_passers(
    pairs: &mut Edges,
    alloc: Global,
    flat: &Flat,
    answers: &Answers,
    passed: &[(u32, u32)],
    marks: &[bool],
    update: EqId,
) -> Result<(), NoMemory>
    requires answers { answers.now ≡ flat.now }
    requires update { update < length flat.now.equations }
    requires one_each { length marks.now ≡ length flat.now.equations }
    requires there { AreOfSteps (length flat.now.equations) passed.now }
    requires marked { HasMarkedPairs marks.now update pairs.old }
    ensures { OnOk result (Adds pairs.old (IsPassedBefore flat.now passed.now marks.now update) pairs.new) }
{
    for (variable, passer) in passed {
        let edge = (*variable, *passer);
        push_passer(pairs, alloc, flat, answers, marks, edge, update)?;
    }
    Ok(())
}

/// Appends the pairs that an update of the set asks for.
fn push_update(
    pairs: &mut Edges,
    alloc: Global,
    flat: &Flat,
    answers: &Answers,
    uses: &Uses,
    set: &EqSet,
    near: &Near,
    update: EqId,
) -> Result<(), NoMemory>
    requires answers { answers.now ≡ flat.now }
    requires uses { AreUses flat.now uses.now }
    requires near { AreNear flat.now set.now update near.now }
    requires update { update < length flat.now.equations }
    ensures { OnOk result (Adds pairs.old (StandsBeforeUpdate flat.now set.now update) pairs.new) }
{
    flat.assert_whole();
    let number = update.get();
    let marks = near.bypassed.marks();
    let passed = uses.passed.as_slice();
    push_marked(pairs, marks, number)?;
    push_readers(pairs, uses.read.as_slice(), marks, number)?;
    push_writers(pairs, uses.written.as_slice(), marks, number)?;
    push_passers(pairs, alloc, flat, answers, passed, marks, update)?;
    push_printers(pairs, flat, marks, number)?;
    Ok(())
}

/// The pairs of steps of which the first has to stand before the second where the updates of the set happen in place.
pub fn constraints(
    alloc: Global,
    flat: &Flat,
    answers: &Answers,
    uses: &Uses,
    set: &EqSet,
    nears: &Nears,
) -> Result<Edges, NoMemory>
    requires answers { answers.now ≡ flat.now }
    requires uses { AreUses flat.now uses.now }
    requires nears { AreNears flat.now set.now nears.now }
    requires updates { AreUpdates flat.now set.now }
    ensures exact { IfOk result (λ e. ArePairs (StandsBefore flat.now set.now) e) }
    ensures of_steps { IfOk result (λ e. AreOfSteps (step_count flat.now) e) }
{
    flat.assert_whole();
    let mut pairs = Edges::new(alloc);
    push_needed(&mut pairs, flat)?;
    push_prints(&mut pairs, flat)?;
    for place in 0..set.len() {
        let update = update_at(set, place);
        let near = &nears.updates[place];
        push_update(&mut pairs, alloc, flat, answers, uses, set, near, update)?;
    }
    Ok(pairs)
}
