// Where content begins that may be that of an update's source.

ghost use Rattle.std.specs.Prelude.{◌≡◌, ◌<◌, length, IfOk, OnOk, IsTrue};
ghost use Rattle.std.specs.List.{All};
ghost use Rattle.alias_paths.specs.inner.Kept.{AreUses, ArePaths, AreStoredMarks};
ghost use Rattle.alias_paths.specs.inner.Flows.{SharesWithOne};
ghost use Rattle.alias_paths.specs.inner.Marking.{AreJust};
ghost use Rattle.alias_paths.specs.inner.Contents.{IsRootOfSource};
ghost use Rattle.alias_nears.specs.inner.Contents.{AreAliased};
ghost use Rattle.alias_nears.specs.inner.Nears.{AreBegun, AreShared, AreSharers};

use crate::near::{Begun, Near, Sharers};
use alias_paths::numbers::{Numbers, firsts, mark_seconds};
use alias_paths::paths::Paths;
use alias_paths::roots::source_roots;
use alias_paths::sharing::sharers;
use alias_paths::uses::Uses;
use flat_core::flat::Flat;
use flat_core::lists::EqSet;
use std::alloc::Global;
use tsl_value::ids::EqId;
use tsl_value::memory::NoMemory;

/// Whether the same numbers are marked.
fn are_same(first: &Numbers, second: &Numbers) -> bool
    ensures { IsTrue result → first.now ≡ second.now }
{
    first.marks() == second.marks()
}

/// An equal set of numbers.
pub fn copy(alloc: Global, numbers: &Numbers) -> Result<Numbers, NoMemory>
    ensures { IfOk result (λ copy. copy ≡ numbers.now) }
{
    let marks = Vec::from_slice(alloc, numbers.marks())?;
    let listed = Vec::from_slice(alloc, numbers.listed())?;
    Ok(Numbers::of(marks, listed))
}

/// The stored variables that share with one of these: those that were found for another update, if its stored variables are these too.
fn sharers_after(
    alloc: Global,
    flat: &Flat,
    set: &EqSet,
    paths: &Paths,
    stored: &Numbers,
    earlier: &Near,
) -> Result<Numbers, NoMemory>
    requires paths { ArePaths flat.now set.now paths.now }
    requires one_each { length stored.now ≡ length flat.now.equations }
    requires stored { AreStoredMarks flat.now stored.now }
    requires earlier { AreShared flat.now set.now earlier.now }
    ensures { IfOk result (AreJust (length flat.now.equations) (SharesWithOne flat.now set.now stored.now)) }
{
    if are_same(&earlier.sharers.stored, stored) {
        copy(alloc, &earlier.sharers.all)
    } else {
        sharers(alloc, flat, set, paths, stored)
    }
}

/// The stored variables that share with one of these. Updates of one content often have the same ones, so those of the last update before
/// are looked at.
fn sharers_of(
    alloc: Global,
    flat: &Flat,
    set: &EqSet,
    paths: &Paths,
    stored: &Numbers,
    before: &[Near],
) -> Result<Numbers, NoMemory>
    requires paths { ArePaths flat.now set.now paths.now }
    requires one_each { length stored.now ≡ length flat.now.equations }
    requires stored { AreStoredMarks flat.now stored.now }
    requires before { All (AreShared flat.now set.now) before.now }
    ensures { IfOk result (AreJust (length flat.now.equations) (SharesWithOne flat.now set.now stored.now)) }
{
    if before.is_empty() {
        return sharers(alloc, flat, set, paths, stored);
    }
    let earlier = &before[before.len() - 1];
    sharers_after(alloc, flat, set, paths, stored, earlier)
}

/// The stored variables that share with one whose last value is a root of the update's source.
fn last_sharers(
    alloc: Global,
    flat: &Flat,
    uses: &Uses,
    set: &EqSet,
    paths: &Paths,
    update: EqId,
    roots: &Numbers,
    before: &[Near],
) -> Result<Sharers, NoMemory>
    requires uses { AreUses flat.now uses.now }
    requires paths { ArePaths flat.now set.now paths.now }
    requires roots { AreJust (length flat.now.equations) (IsRootOfSource flat.now set.now update) roots.now }
    requires before { All (AreShared flat.now set.now) before.now }
    ensures { IfOk result (AreSharers flat.now set.now update) }
{
    let stored = firsts(alloc, uses.lasts.as_slice(), roots)?;
    let all = sharers_of(alloc, flat, set, paths, &stored, before)?;
    Ok(Sharers { stored, all })
}

/// Marks also the last values of these variables among where content begins that may be that of the update's source.
fn mark_aliases(
    flat: &Flat,
    uses: &Uses,
    roots: &mut Numbers,
    sharers: &Numbers,
) -> Result<(), NoMemory>
    requires uses { AreUses flat.now uses.now }
    requires one_each { length roots.old ≡ length flat.now.equations }
    requires sharers { length sharers.now ≡ length flat.now.equations }
    ensures { OnOk result (AreAliased flat.now roots.old sharers.now roots.new) }
{
    mark_seconds(roots, uses.lasts.as_slice(), sharers)?;
    Ok(())
}

/// Where content begins that may be that of an update's source, after it was found for some updates of the set.
pub fn begins_of(
    alloc: Global,
    flat: &Flat,
    uses: &Uses,
    set: &EqSet,
    paths: &Paths,
    update: EqId,
    before: &[Near],
) -> Result<Begun, NoMemory>
    requires uses { AreUses flat.now uses.now }
    requires paths { ArePaths flat.now set.now paths.now }
    requires update { update < length flat.now.equations }
    requires before { All (AreShared flat.now set.now) before.now }
    ensures { IfOk result (AreBegun flat.now set.now update) }
{
    flat.assert_whole();
    let mut begins = source_roots(alloc, flat, uses, set, paths, update)?;
    let sharers = last_sharers(alloc, flat, uses, set, paths, update, &begins, before)?;
    mark_aliases(flat, uses, &mut begins, &sharers.all)?;
    Ok(Begun { sharers, begins })
}
