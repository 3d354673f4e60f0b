// What is near the updates of a set.

ghost use Rattle.std.specs.Prelude.{◌≡◌, ◌<◌, ℕ, length, slice_index, IfOk, IsTrue};
ghost use Rattle.std.specs.List.{All};
ghost use Rattle.flat_core.specs.Members.{is_in};
ghost use Rattle.flat_core.specs.WellFormed.{IsWellFormed};
ghost use Rattle.alias_rules.specs.Uses.{AreUpdates};
ghost use Rattle.alias_paths.specs.inner.Kept.{AreUses, ArePaths};
ghost use Rattle.alias_paths.specs.inner.Pairs.{ArePairs};
ghost use Rattle.alias_nears.specs.inner.Beginning.{NoneIsNil};
ghost use Rattle.alias_nears.specs.inner.Nears.{AreNear, AreNearEach, AreNears, AreShared, IsAdded};

use crate::answers::Answers;
use crate::bypass::near_update;
use crate::wider::near_on;
use alias_nears::kept::update_at;
use alias_nears::near::{Near, Nears};
use alias_nears::writes::added;
use alias_paths::paths::Paths;
use alias_paths::uses::Uses;
use flat_core::flat::Flat;
use flat_core::lists::EqSet;
use std::alloc::Global;
use translation_order::steps::Edges;
use tsl_value::ids::EqId;
use tsl_value::memory::NoMemory;

fn near_each(
    alloc: Global,
    flat: &Flat,
    answers: &Answers,
    uses: &Uses,
    set: &EqSet,
    paths: &Paths,
) -> Result<Vec<Near>, NoMemory>
    requires answers { answers.now ≡ flat.now }
    requires uses { AreUses flat.now uses.now }
    requires paths { ArePaths flat.now set.now paths.now }
    requires updates { AreUpdates flat.now set.now }
    ensures { IfOk result (λ nears. AreNearEach flat.now set.now nears.items) }
{
    let mut nears = Vec::new(alloc);
    for place in 0..set.len() {
        let update = update_at(set, place);
        let next = near_update(
            alloc,
            flat,
            answers,
            uses,
            set,
            paths,
            update,
            nears.as_slice(),
        )?;
        nears.push(next)?;
    }
    Ok(nears)
}

/// Whether an update stands at a place of a set.
fn is_at(set: &EqSet, place: usize, update: EqId) -> bool
    ensures there { IsTrue result → place < length set.now }
    ensures is { IsTrue result → update ≡ slice_index set.now place }
{
    place < set.len() && update_at(set, place) == update
}

/// What is near the update at a place of the set, by what is near it in a smaller one, if it stands at that place there too.
fn near_next(
    alloc: Global,
    flat: &Flat,
    answers: &Answers,
    uses: &Uses,
    set: &EqSet,
    paths: &Paths,
    smaller: &EqSet,
    earlier: &[Near],
    added: &Edges,
    place: usize,
    before: &[Near],
) -> Result<Near, NoMemory>
    requires answers { answers.now ≡ flat.now }
    requires well_formed { IsWellFormed flat.now }
    requires none_is_nil { NoneIsNil flat.now }
    requires uses { AreUses flat.now uses.now }
    requires paths { ArePaths flat.now set.now paths.now }
    requires updates { AreUpdates flat.now set.now }
    requires wider { (x : ℕ) → IsTrue (is_in smaller.now x) → IsTrue (is_in set.now x) }
    requires earlier { AreNearEach flat.now smaller.now earlier.now }
    requires added { ArePairs (IsAdded flat.now set.now smaller.now) added.now }
    requires there { place < length set.now }
    requires before { All (AreShared flat.now set.now) before.now }
    ensures { IfOk result (AreNear flat.now set.now (slice_index set.now place)) }
{
    let update = update_at(set, place);
    if is_at(smaller, place, update) {
        let near = &earlier[place];
        near_on(
            alloc, flat, answers, uses, set, paths, added, update, before, near,
        )
    } else {
        near_update(alloc, flat, answers, uses, set, paths, update, before)
    }
}

fn near_each_on(
    alloc: Global,
    flat: &Flat,
    answers: &Answers,
    uses: &Uses,
    set: &EqSet,
    paths: &Paths,
    smaller: &EqSet,
    earlier: &[Near],
    added: &Edges,
) -> Result<Vec<Near>, NoMemory>
    requires answers { answers.now ≡ flat.now }
    requires well_formed { IsWellFormed flat.now }
    requires none_is_nil { NoneIsNil flat.now }
    requires uses { AreUses flat.now uses.now }
    requires paths { ArePaths flat.now set.now paths.now }
    requires updates { AreUpdates flat.now set.now }
    requires wider { (x : ℕ) → IsTrue (is_in smaller.now x) → IsTrue (is_in set.now x) }
    requires earlier { AreNearEach flat.now smaller.now earlier.now }
    requires added { ArePairs (IsAdded flat.now set.now smaller.now) added.now }
    ensures { IfOk result (λ nears. AreNearEach flat.now set.now nears.items) }
{
    let mut nears = Vec::new(alloc);
    for place in 0..set.len() {
        let next = near_next(
            alloc,
            flat,
            answers,
            uses,
            set,
            paths,
            smaller,
            earlier,
            added,
            place,
            nears.as_slice(),
        )?;
        nears.push(next)?;
    }
    Ok(nears)
}

/// What is near the updates of a set.
pub fn near_all(
    alloc: Global,
    flat: &Flat,
    answers: &Answers,
    uses: &Uses,
    set: &EqSet,
) -> Result<Nears, NoMemory>
    requires answers { answers.now ≡ flat.now }
    requires uses { AreUses flat.now uses.now }
    requires updates { AreUpdates flat.now set.now }
    ensures { IfOk result (AreNears flat.now set.now) }
{
    let paths = Paths::of(alloc, flat, uses, set)?;
    let updates = near_each(alloc, flat, answers, uses, set, &paths)?;
    Ok(Nears {
        stored: paths.stored,
        updates,
    })
}

/// What is near the updates of a set, by what is near those of a smaller one.
pub fn near_more(
    alloc: Global,
    flat: &Flat,
    answers: &Answers,
    uses: &Uses,
    set: &EqSet,
    smaller: &EqSet,
    earlier: &Nears,
) -> Result<Nears, NoMemory>
    requires answers { answers.now ≡ flat.now }
    requires well_formed { IsWellFormed flat.now }
    requires none_is_nil { NoneIsNil flat.now }
    requires uses { AreUses flat.now uses.now }
    requires updates { AreUpdates flat.now set.now }
    requires wider { (x : ℕ) → IsTrue (is_in smaller.now x) → IsTrue (is_in set.now x) }
    requires earlier { AreNears flat.now smaller.now earlier.now }
    ensures { IfOk result (AreNears flat.now set.now) }
{
    let paths = Paths::of(alloc, flat, uses, set)?;
    let added = added(alloc, flat, uses, set, smaller)?;
    let known = earlier.updates.as_slice();
    let updates = near_each_on(
        alloc, flat, answers, uses, set, &paths, smaller, known, &added,
    )?;
    Ok(Nears {
        stored: paths.stored,
        updates,
    })
}
