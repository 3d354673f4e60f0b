// What is near an update of a set, by what was near it in a smaller one.

ghost use Rattle.std.specs.Prelude.{◌≡◌, ◌↔◌, ◌<◌, ℕ, length, IfOk, IsTrue};
ghost use Rattle.std.specs.List.{All};
ghost use Rattle.flat_core.specs.inner.Marks.{has_mark};
ghost use Rattle.flat_core.specs.WellFormed.{IsWellFormed};
ghost use Rattle.alias_paths.specs.inner.Kept.{AreUses, ArePaths};
ghost use Rattle.alias_paths.specs.inner.Marking.{AreJust};
ghost use Rattle.alias_nears.specs.inner.Beginning.{NoneIsNil};
ghost use Rattle.alias_nears.specs.inner.Contents.{IsMarkedBeside, IsNewBeside};
ghost use Rattle.alias_nears.specs.inner.Nears.{AreNear, AreShared, IsEarlier};

use crate::answers::Answers;
use crate::bypass::is_beside;
use crate::onward::reached_on;
use alias_nears::begins::{begins_of, copy};
use alias_nears::near::Near;
use alias_paths::numbers::{Numbers, mark_seconds};
use alias_paths::paths::Paths;
use alias_paths::uses::Uses;
use flat_core::flat::Flat;
use flat_core::lists::EqSet;
use std::alloc::Global;
use translation_order::steps::Edges;
use tsl_value::ids::EqId;
use tsl_value::memory::NoMemory;

/// Whether an equation was not found before, and is beside the update.
fn is_new_beside(
    alloc: Global,
    flat: &Flat,
    answers: &Answers,
    update: EqId,
    found: &Numbers,
    marked: &Numbers,
    number: u32,
) -> Result<bool, NoMemory>
    requires answers { answers.now ≡ flat.now }
    requires update { update < length flat.now.equations }
    requires there { number < length flat.now.equations }
    requires found { length found.now ≡ length flat.now.equations }
    requires one_each { length marked.now ≡ length flat.now.equations }
    ensures { IfOk result (λ r. IsTrue r ↔ IsNewBeside flat.now update found.now marked.now number) }
{
    if found.has(number) {
        return Ok(false);
    }
    let beside = is_beside(alloc, flat, answers, update, marked, number)?;
    Ok(beside)
}

/// Those of the marked equations that are beside the update, by those that were found before.
fn beside_on(
    alloc: Global,
    flat: &Flat,
    answers: &Answers,
    update: EqId,
    marked: &Numbers,
    found: &Numbers,
    known: &Numbers,
) -> Result<Numbers, NoMemory>
    requires answers { answers.now ≡ flat.now }
    requires update { update < length flat.now.equations }
    requires one_each { length marked.now ≡ length flat.now.equations }
    requires found { length found.now ≡ length flat.now.equations }
    requires more { (x : ℕ) → IsTrue (has_mark found.now x) → IsTrue (has_mark marked.now x) }
    requires known { AreJust (length flat.now.equations) (IsMarkedBeside flat.now update found.now) known.now }
    ensures { IfOk result (AreJust (length flat.now.equations) (IsMarkedBeside flat.now update marked.now)) }
{
    let mut beside = copy(alloc, known)?;
    let listed = marked.listed();
    for number in listed {
        let wanted = is_new_beside(alloc, flat, answers, update, found, marked, *number)?;
        beside.mark_if(*number, wanted)?;
    }
    Ok(beside)
}

/// What is near an update, by what was near it in a smaller set, after it was found for some updates of the set.
///
/// No aggregate variable is nil. So all that was near it still is, and what follows on that is near it already, but for the updates
/// that are added.
pub fn near_on(
    alloc: Global,
    flat: &Flat,
    answers: &Answers,
    uses: &Uses,
    set: &EqSet,
    paths: &Paths,
    added: &Edges,
    update: EqId,
    before: &[Near],
    earlier: &Near,
) -> Result<Near, NoMemory>
    requires answers { answers.now ≡ flat.now }
    requires well_formed { IsWellFormed flat.now }
    requires none_is_nil { NoneIsNil flat.now }
    requires uses { AreUses flat.now uses.now }
    requires paths { ArePaths flat.now set.now paths.now }
    requires update { update < length flat.now.equations }
    requires before { All (AreShared flat.now set.now) before.now }
    requires earlier { IsEarlier flat.now set.now added.now update earlier.now }
    ensures { IfOk result (AreNear flat.now set.now update) }
{
    flat.assert_whole();
    let begun = begins_of(alloc, flat, uses, set, paths, update, before)?;
    let mut begins = begun.begins;
    mark_seconds(&mut begins, added.as_slice(), &earlier.around)?;
    let carriers = &paths.carriers;
    let found = &earlier.around;
    let around = reached_on(alloc, flat, answers, carriers, found, &begins, update)?;
    let known = &earlier.bypassed;
    let bypassed = beside_on(alloc, flat, answers, update, &around, found, known)?;
    Ok(Near {
        sharers: begun.sharers,
        around,
        bypassed,
    })
}
