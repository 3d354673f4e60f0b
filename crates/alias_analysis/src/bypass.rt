// Which variables may have, beside an update in place, the content that it changes.

ghost use Rattle.std.specs.Prelude.{◌≡◌, ◌↔◌, ◌<◌, length, IfOk, IsTrue};
ghost use Rattle.std.specs.List.{All};
ghost use Rattle.alias_paths.specs.inner.Kept.{AreUses, ArePaths};
ghost use Rattle.alias_paths.specs.inner.Marking.{AreJust};
ghost use Rattle.alias_nears.specs.inner.Contents.{IsMarkedBeside};
ghost use Rattle.alias_nears.specs.inner.Nears.{AreNear, AreShared};

use crate::answers::Answers;
use crate::around::reached_around;
use alias_nears::begins::begins_of;
use alias_nears::near::Near;
use alias_paths::numbers::Numbers;
use alias_paths::paths::Paths;
use alias_paths::uses::Uses;
use flat_core::flat::Flat;
use flat_core::lists::EqSet;
use std::alloc::Global;
use tsl_value::ids::EqId;
use tsl_value::memory::NoMemory;

/// Whether an equation is marked, and is a variable that may have an event together with the update.
pub(crate) fn is_beside(
    alloc: Global,
    flat: &Flat,
    answers: &Answers,
    update: EqId,
    marked: &Numbers,
    number: u32,
) -> Result<bool, NoMemory>
    requires answers { answers.now ≡ flat.now }
    requires update { update < length flat.now.equations }
    requires there { number < length flat.now.equations }
    requires one_each { length marked.now ≡ length flat.now.equations }
    ensures { IfOk result (λ r. IsTrue r ↔ IsMarkedBeside flat.now update marked.now number) }
{
    let id = EqId::new(number);
    if !marked.has(number) {
        return Ok(false);
    }
    let beside = answers.is_beside(alloc, update, id)?;
    Ok(beside)
}

/// Those of the marked equations that are beside the update.
pub fn beside(
    alloc: Global,
    flat: &Flat,
    answers: &Answers,
    update: EqId,
    marked: &Numbers,
) -> Result<Numbers, NoMemory>
    requires answers { answers.now ≡ flat.now }
    requires update { update < length flat.now.equations }
    requires one_each { length marked.now ≡ length flat.now.equations }
    ensures { IfOk result (AreJust (length flat.now.equations) (IsMarkedBeside flat.now update marked.now)) }
{
    let mut beside = Numbers::none(alloc, marked.count())?;
    let listed = marked.listed();
    for number in listed {
        let wanted = is_beside(alloc, flat, answers, update, marked, *number)?;
        beside.mark_if(*number, wanted)?;
    }
    Ok(beside)
}

/// What is near an update, after it was found for some updates of the set.
pub fn near_update(
    alloc: Global,
    flat: &Flat,
    answers: &Answers,
    uses: &Uses,
    set: &EqSet,
    paths: &Paths,
    update: EqId,
    before: &[Near],
) -> Result<Near, NoMemory>
    requires answers { answers.now ≡ flat.now }
    requires uses { AreUses flat.now uses.now }
    requires paths { ArePaths flat.now set.now paths.now }
    requires update { update < length flat.now.equations }
    requires before { All (AreShared flat.now set.now) before.now }
    ensures { IfOk result (AreNear flat.now set.now update) }
{
    let begun = begins_of(alloc, flat, uses, set, paths, update, before)?;
    let around = reached_around(alloc, flat, answers, &paths.carriers, &begun.begins, update)?;
    let bypassed = beside(alloc, flat, answers, update, &around)?;
    Ok(Near {
        sharers: begun.sharers,
        around,
        bypassed,
    })
}
