// Which stored variables may keep one content.

ghost use Rattle.std.specs.Prelude.{◌≡◌, ◌+◌, ◌<◌, ◌≤◌, ◌^◌, ℕ, List, length, ◌↔◌, IfOk, OnOk, IsTrue};
ghost use Rattle.flat_core.specs.inner.Marks.{has_mark};
ghost use Rattle.flat_core.specs.declared.limits.TheConstants.{MOST_EQUATIONS};
ghost use Rattle.translation_order.specs.Order.{AreOfSteps};
ghost use Rattle.alias_rules.specs.Uses.{IsStored};
ghost use Rattle.alias_rules.specs.Roots.{Carries};
ghost use Rattle.alias_rules.specs.Sharing.{Shares};
ghost use Rattle.alias_paths.specs.inner.Kept.{AreUses, ArePaths, AreStoredMarks};
ghost use Rattle.alias_paths.specs.inner.Pairs.{Adds, ArePairs};
ghost use Rattle.alias_paths.specs.inner.Marking.{AreJust, AddsMarks};
ghost use Rattle.alias_paths.specs.inner.Flows.{Flows, GoesThroughStore, IsSource, IsMarkedPair, IsStoreOf, HasStoreAt, SharesWithOne};

use crate::numbers::{Numbers, one_of};
use crate::pairs::{push_all, push_if};
use crate::paths::Paths;
use crate::reach::reached;
use crate::roots::is_origin;
use crate::uses::Uses;
use flat_core::flat::Flat;
use flat_core::lists::EqSet;
use std::alloc::Global;
use translation_order::steps::Edges;
use tsl_value::ids::EqId;
use tsl_value::memory::NoMemory;

/// The stored variables.
pub fn stored(alloc: Global, flat: &Flat, uses: &Uses) -> Result<Numbers, NoMemory>
    requires { AreUses flat.now uses.now }
    ensures { IfOk result (AreJust (length flat.now.equations) (IsStored flat.now)) }
{
    let mut stored = Numbers::none(alloc, flat.count() as usize)?;
    let lasts = uses.lasts.as_slice();
    for (variable, _) in lasts {
        stored.mark_if(*variable, true)?;
    }
    Ok(stored)
}

/// Appends for each pair of a stored variable and its last value that the variable goes into its store, and the store into the last
/// value. A variable's store has the variable's number plus the count of equations.
fn push_stores(pairs: &mut Edges, lasts: &[(u32, u32)], count: u32) -> Result<(), NoMemory>
    requires lasts { AreOfSteps count lasts.now }
    requires few { count ≤ MOST_EQUATIONS }
    ensures { OnOk result (Adds pairs.old (GoesThroughStore lasts.now count) pairs.new) }
{
    for (variable, last) in lasts {
        pairs.push((*variable, count + *variable))?;
        pairs.push((count + *variable, *last))?;
    }
    Ok(())
}

/// How content goes on through variables and stores.
pub fn flows(
    alloc: Global,
    flat: &Flat,
    uses: &Uses,
    carriers: &[(u32, u32)],
) -> Result<Edges, NoMemory>
    requires { AreUses flat.now uses.now }
    ensures { IfOk result (λ f. (set : List ℕ) → ArePairs (Carries flat.now set) carriers.now → ArePairs (Flows flat.now set) f) }
{
    let mut flows = Edges::new(alloc);
    push_all(&mut flows, carriers)?;
    push_stores(&mut flows, uses.lasts.as_slice(), flat.count())?;
    Ok(flows)
}

/// The stores of these variables.
fn stores_of(alloc: Global, variables: &Numbers) -> Result<Numbers, NoMemory>
    requires { length variables.now ≤ MOST_EQUATIONS }
    ensures { IfOk result (AreJust (length variables.now + length variables.now) (IsStoreOf variables.now)) }
{
    let count = variables.count();
    let mut stores = Numbers::none(alloc, count + count)?;
    let listed = variables.listed();
    for number in listed {
        stores.mark_if(count as u32 + *number, true)?;
    }
    Ok(stores)
}

/// Marks the variable whose store this is, if it is a store.
fn mark_stored(variables: &mut Numbers, number: u32, count: u32) -> Result<(), NoMemory>
    requires number { number < count + count }
    requires one_each { length variables.old ≡ count }
    ensures { OnOk result (AddsMarks variables.old (HasStoreAt count number) variables.new) }
{
    if number < count {
        return Ok(());
    }
    variables.mark_if(number - count, true)?;
    Ok(())
}

/// The variables whose stores these are, below a count.
fn with_stores(alloc: Global, stores: &Numbers, count: u32) -> Result<Numbers, NoMemory>
    requires { length stores.now ≡ count + count }
    ensures { IfOk result (AreJust count (λ v. IsTrue (has_mark stores.now (count + v)))) }
{
    let mut variables = Numbers::none(alloc, count as usize)?;
    let listed = stores.listed();
    for number in listed {
        mark_stored(&mut variables, *number, count)?;
    }
    Ok(variables)
}

/// Whether a number is marked and is a store, or content begins there.
fn is_source(flat: &Flat, set: &EqSet, marked: &Numbers, number: u32) -> bool
    requires { number < length marked.now }
    ensures { IsTrue result ↔ IsSource flat.now set.now marked.now number }
{
    marked.has(number) && (number >= flat.count() || is_origin(flat, set, EqId::new(number)))
}

/// Those of the marked numbers at which content begins, and the stores among them.
fn sources(alloc: Global, flat: &Flat, set: &EqSet, marked: &Numbers) -> Result<Numbers, NoMemory>
    requires { length marked.now ≡ length flat.now.equations + length flat.now.equations }
    ensures { IfOk result (AreJust (length marked.now) (IsSource flat.now set.now marked.now)) }
{
    let mut sources = Numbers::none(alloc, marked.count())?;
    let listed = marked.listed();
    for number in listed {
        sources.mark_if(*number, is_source(flat, set, marked, *number))?;
    }
    Ok(sources)
}

/// The stored variables that share with one of these stored variables.
pub fn sharers(
    alloc: Global,
    flat: &Flat,
    set: &EqSet,
    paths: &Paths,
    stored: &Numbers,
) -> Result<Numbers, NoMemory>
    requires paths { ArePaths flat.now set.now paths.now }
    requires one_each { length stored.now ≡ length flat.now.equations }
    requires stored { AreStoredMarks flat.now stored.now }
    ensures { IfOk result (AreJust (length flat.now.equations) (SharesWithOne flat.now set.now stored.now)) }
{
    // A system has few equations, as their count tells.
    let count = flat.count();
    let stores = stores_of(alloc, stored)?;
    let before = reached(alloc, &paths.flows_back, &stores)?;
    let sources = sources(alloc, flat, set, &before)?;
    let after = reached(alloc, &paths.flows, &sources)?;
    with_stores(alloc, &after, count)
}

/// The stored variables that share with a variable, of those that are stored.
fn sharers_of(
    alloc: Global,
    flat: &Flat,
    set: &EqSet,
    paths: &Paths,
    number: u32,
) -> Result<Numbers, NoMemory>
    requires paths { ArePaths flat.now set.now paths.now }
    requires there { number < length flat.now.equations }
    ensures { IfOk result (AreJust (length flat.now.equations) (Shares flat.now set.now number)) }
{
    let wanted = paths.stored.has(number);
    let one = one_of(alloc, paths.stored.count(), number, wanted)?;
    sharers(alloc, flat, set, paths, &one)
}

/// Appends a pair of this number and each marked one.
fn push_marked(pairs: &mut Edges, number: u32, marks: &[bool]) -> Result<(), NoMemory>
    requires { length marks.now < 2 ^ 32 }
    ensures { OnOk result (Adds pairs.old (IsMarkedPair number marks.now) pairs.new) }
{
    for index in 0..marks.len() {
        push_if(pairs, (number, index as u32), marks[index])?;
    }
    Ok(())
}

/// All pairs of stored variables that share.
pub fn sharing(alloc: Global, flat: &Flat, set: &EqSet, paths: &Paths) -> Result<Edges, NoMemory>
    requires { ArePaths flat.now set.now paths.now }
    ensures { IfOk result (ArePairs (Shares flat.now set.now)) }
{
    let mut pairs = Edges::new(alloc);
    for number in 0..flat.count() {
        let sharers = sharers_of(alloc, flat, set, paths, number)?;
        push_marked(&mut pairs, number, sharers.marks())?;
    }
    Ok(pairs)
}
