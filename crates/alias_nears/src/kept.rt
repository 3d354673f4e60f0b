// Updates whose content a stored variable keeps, by what is near them.

ghost use Rattle.std.specs.Prelude.{◌≡◌, ◌↔◌, ◌<◌, ◌^◌, length, slice_index, IfOk, IsTrue};
ghost use Rattle.flat_core.specs.inner.Marks.{has_mark};
ghost use Rattle.alias_rules.specs.Uses.{IsStored, AreUpdates};
ghost use Rattle.alias_rules.specs.Conflict.{IsKept};
ghost use Rattle.alias_paths.specs.inner.Marking.{AreJust};
ghost use Rattle.alias_nears.specs.inner.Answer.{IsLeastOrNone, IsFirstOrNone};
ghost use Rattle.alias_nears.specs.inner.Contents.{AreMarkedInBoth};
ghost use Rattle.alias_nears.specs.inner.Nears.{AreNear, AreNears};

use crate::near::{Near, Nears};
use alias_paths::numbers::Numbers;
use flat_core::flat::Flat;
use flat_core::lists::EqSet;
use std::alloc::Global;
use tsl_value::ids::EqId;
use tsl_value::memory::NoMemory;

fn are_marked(first: &Numbers, second: &Numbers, number: u32) -> bool
    requires first { number < length first.now }
    requires second { number < length second.now }
    ensures { IsTrue result ↔ AreMarkedInBoth first.now second.now number }
{
    first.has(number) && second.has(number)
}

/// What is marked in both.
pub fn both(alloc: Global, first: &Numbers, second: &Numbers) -> Result<Numbers, NoMemory>
    requires { length second.now ≡ length first.now }
    ensures { IfOk result (AreJust (length first.now) (AreMarkedInBoth first.now second.now)) }
{
    let mut both = Numbers::none(alloc, first.count())?;
    let listed = first.listed();
    for number in listed {
        both.mark_if(*number, are_marked(first, second, *number))?;
    }
    Ok(both)
}

/// The variables that keep the update. Stored variables are fewer than those that bypass the update, so these are gone through.
fn kept(
    alloc: Global,
    flat: &Flat,
    set: &EqSet,
    stored: &Numbers,
    near: &Near,
    update: EqId,
) -> Result<Numbers, NoMemory>
    requires stored { AreJust (length flat.now.equations) (IsStored flat.now) stored.now }
    requires near { AreNear flat.now set.now update near.now }
    ensures { IfOk result (AreJust (length flat.now.equations) (IsKept flat.now set.now update)) }
{
    both(alloc, stored, &near.bypassed)
}

/// The least marked equation.
pub fn least(marked: &Numbers) -> Option<EqId>
    requires { length marked.now < 2 ^ 32 }
    ensures { IsLeastOrNone (λ x. IsTrue (has_mark marked.now x)) result }
{
    if marked.listed().is_empty() {
        return None;
    }
    let marks = marked.marks();
    for index in 0..marks.len() {
        if marks[index] {
            return Some(EqId::new(index as u32));
        }
    }
    None
}

/// The update at a place of the set.
pub fn update_at(set: &EqSet, place: usize) -> EqId
    requires { place < length set.now }
    ensures { result ≡ slice_index set.now place }
{
    match set.get(place) {
        Some(update) => *update,
        None => unreachable!(),
    }
}

/// The least variable that keeps the update.
pub fn kept_by(
    alloc: Global,
    flat: &Flat,
    set: &EqSet,
    stored: &Numbers,
    near: &Near,
    update: EqId,
) -> Result<Option<EqId>, NoMemory>
    requires stored { AreJust (length flat.now.equations) (IsStored flat.now) stored.now }
    requires near { AreNear flat.now set.now update near.now }
    ensures { IfOk result (IsLeastOrNone (IsKept flat.now set.now update)) }
{
    flat.assert_whole();
    let kept = kept(alloc, flat, set, stored, near, update)?;
    Ok(least(&kept))
}

/// The least update that is kept, with the least variable that keeps it.
pub fn first_kept(
    alloc: Global,
    flat: &Flat,
    set: &EqSet,
    nears: &Nears,
) -> Result<Option<(EqId, EqId)>, NoMemory>
    requires nears { AreNears flat.now set.now nears.now }
    requires updates { AreUpdates flat.now set.now }
    ensures { IfOk result (IsFirstOrNone set.now (IsKept flat.now set.now)) }
{
    for place in 0..set.len() {
        let update = update_at(set, place);
        let near = &nears.updates[place];
        match kept_by(alloc, flat, set, &nears.stored, near, update)? {
            Some(by) => return Ok(Some((update, by))),
            None => {}
        }
    }
    Ok(None)
}
