// Updates whose change of content would be seen at later times.

ghost use Rattle.std.specs.Prelude.{◌≡◌, ◌↔◌, ◌<◌, length, IfOk, IsTrue};
ghost use Rattle.alias_rules.specs.Uses.{AreUpdates};
ghost use Rattle.alias_rules.specs.Conflict.{IsNotOverwritten};
ghost use Rattle.alias_paths.specs.inner.Marking.{AreJust};
ghost use Rattle.alias_nears.specs.inner.Answer.{IsLeastOrNone, IsFirstOrNone, IsFirstConflict};
ghost use Rattle.alias_nears.specs.inner.Contents.{IsMarkedUnimplied};
ghost use Rattle.alias_nears.specs.inner.Nears.{AreNear, AreNears};

use crate::answers::Answers;
use alias_nears::kept::{first_kept, least, update_at};
use alias_nears::near::{Near, Nears};
use alias_nears::reason::Reason;
use alias_paths::numbers::Numbers;
use flat_core::flat::Flat;
use flat_core::lists::EqSet;
use std::alloc::Global;
use tsl_value::ids::EqId;
use tsl_value::memory::NoMemory;

/// Whether an equation is marked, and need not have an event wherever the update has one.
fn is_unimplied(
    alloc: Global,
    flat: &Flat,
    answers: &Answers,
    update: EqId,
    marked: &Numbers,
    number: u32,
) -> Result<bool, NoMemory>
    requires answers { answers.now ≡ flat.now }
    requires update { update < length flat.now.equations }
    requires there { number < length flat.now.equations }
    requires one_each { length marked.now ≡ length flat.now.equations }
    ensures { IfOk result (λ r. IsTrue r ↔ IsMarkedUnimplied flat.now update marked.now number) }
{
    if !marked.has(number) {
        return Ok(false);
    }
    let implied = answers.implies(alloc, update, EqId::new(number))?;
    Ok(!implied)
}

/// Those of the marked equations that need not have an event wherever the update has one.
fn unimplied(
    alloc: Global,
    flat: &Flat,
    answers: &Answers,
    update: EqId,
    marked: &Numbers,
) -> Result<Numbers, NoMemory>
    requires answers { answers.now ≡ flat.now }
    requires update { update < length flat.now.equations }
    requires one_each { length marked.now ≡ length flat.now.equations }
    ensures { IfOk result (AreJust (length flat.now.equations) (IsMarkedUnimplied flat.now update marked.now)) }
{
    let mut unimplied = Numbers::none(alloc, marked.count())?;
    let listed = marked.listed();
    for number in listed {
        let wanted = is_unimplied(alloc, flat, answers, update, marked, *number)?;
        unimplied.mark_if(*number, wanted)?;
    }
    Ok(unimplied)
}

/// The variables in which the update is not overwritten.
fn not_overwritten(
    alloc: Global,
    flat: &Flat,
    answers: &Answers,
    set: &EqSet,
    near: &Near,
    update: EqId,
) -> Result<Numbers, NoMemory>
    requires answers { answers.now ≡ flat.now }
    requires near { AreNear flat.now set.now update near.now }
    requires update { update < length flat.now.equations }
    ensures { IfOk result (AreJust (length flat.now.equations) (IsNotOverwritten flat.now set.now update)) }
{
    unimplied(alloc, flat, answers, update, &near.sharers.all)
}

/// The least variable in which the update is not overwritten.
fn not_overwritten_in(
    alloc: Global,
    flat: &Flat,
    answers: &Answers,
    set: &EqSet,
    near: &Near,
    update: EqId,
) -> Result<Option<EqId>, NoMemory>
    requires answers { answers.now ≡ flat.now }
    requires near { AreNear flat.now set.now update near.now }
    requires update { update < length flat.now.equations }
    ensures { IfOk result (IsLeastOrNone (IsNotOverwritten flat.now set.now update)) }
{
    flat.assert_whole();
    let old = not_overwritten(alloc, flat, answers, set, near, update)?;
    Ok(least(&old))
}

/// The least update that is not overwritten, with the least variable in which it is not.
fn first_not_overwritten(
    alloc: Global,
    flat: &Flat,
    answers: &Answers,
    set: &EqSet,
    nears: &Nears,
) -> Result<Option<(EqId, EqId)>, NoMemory>
    requires answers { answers.now ≡ flat.now }
    requires nears { AreNears flat.now set.now nears.now }
    requires updates { AreUpdates flat.now set.now }
    ensures { IfOk result (IsFirstOrNone set.now (IsNotOverwritten flat.now set.now)) }
{
    for place in 0..set.len() {
        let update = update_at(set, place);
        let near = &nears.updates[place];
        match not_overwritten_in(alloc, flat, answers, set, near, update)? {
            Some(last) => return Ok(Some((update, last))),
            None => {}
        }
    }
    Ok(None)
}

/// The first update that is kept, or else the first that is not overwritten.
pub fn first_conflict(
    alloc: Global,
    flat: &Flat,
    answers: &Answers,
    set: &EqSet,
    nears: &Nears,
) -> Result<Option<Reason>, NoMemory>
    requires answers { answers.now ≡ flat.now }
    requires nears { AreNears flat.now set.now nears.now }
    requires updates { AreUpdates flat.now set.now }
    ensures { IfOk result (λ r. IsFirstConflict flat.now set.now r) }
{
    match first_kept(alloc, flat, set, nears)? {
        Some(first) => Ok(Some(Reason::Kept {
            update: first.0,
            by: first.1,
        })),
        None => match first_not_overwritten(alloc, flat, answers, set, nears)? {
            Some(first) => Ok(Some(Reason::NotOverwritten {
                update: first.0,
                last: first.1,
            })),
            None => Ok(None),
        },
    }
}
