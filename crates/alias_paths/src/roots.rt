// Where content comes from.

ghost use Rattle.std.specs.Prelude.{◌≡◌, ◌↔◌, ◌<◌, ℕ, length, IfOk, OnOk, IsTrue};
ghost use Rattle.flat_core.specs.Members.{is_in};
ghost use Rattle.alias_rules.specs.Uses.{IsWritten};
ghost use Rattle.alias_rules.specs.Roots.{begins_content, Carries, IsOrigin, IsRoot};
ghost use Rattle.alias_paths.specs.inner.Kept.{AreUses, ArePaths};
ghost use Rattle.alias_paths.specs.inner.Pairs.{Adds, ArePairs};
ghost use Rattle.alias_paths.specs.inner.Marking.{AreJust};
ghost use Rattle.alias_paths.specs.inner.Contents.{IsInside, IsReachedOrigin, IsRootOfOne, IsRootOfSource};

use crate::numbers::{Numbers, firsts, one_of};
use crate::pairs::{push_all, push_if};
use crate::paths::Paths;
use crate::reach::reached;
use crate::uses::{Uses, is_variable};
use flat_core::equation::Op;
use flat_core::flat::Flat;
use flat_core::lists::EqSet;
use std::alloc::Global;
use translation_order::steps::Edges;
use tsl_value::ids::EqId;
use tsl_value::memory::NoMemory;

fn begins_content(op: &Op, inside: bool) -> bool
    ensures { result ≡ begins_content op.now inside }
{
    match op {
        Op::Last => true,
        Op::Empty => true,
        _ => op.is_update() && !inside,
    }
}

/// Whether content begins at an equation.
pub fn is_origin(flat: &Flat, set: &EqSet, id: EqId) -> bool
    ensures { IsTrue result ↔ IsOrigin flat.now set.now id }
{
    is_variable(flat, id) && begins_content(&flat.equation(id).op, set.contains(id))
}

/// Appends the pairs whose second is in the set.
fn push_inside(pairs: &mut Edges, more: &[(u32, u32)], set: &EqSet) -> Result<(), NoMemory>
    ensures { OnOk result (Adds pairs.old (IsInside more.now set.now) pairs.new) }
{
    for (first, second) in more {
        push_if(pairs, (*first, *second), set.contains(EqId::new(*second)))?;
    }
    Ok(())
}

/// The carrier edges.
pub fn carriers(alloc: Global, flat: &Flat, uses: &Uses, set: &EqSet) -> Result<Edges, NoMemory>
    requires { AreUses flat.now uses.now }
    ensures { IfOk result (λ c. ArePairs (Carries flat.now set.now) c) }
{
    let mut carriers = Edges::new(alloc);
    push_all(&mut carriers, uses.passed.as_slice())?;
    push_inside(&mut carriers, uses.written.as_slice(), set)?;
    Ok(carriers)
}

/// Whether an equation is marked and content begins there.
fn begins_marked(flat: &Flat, set: &EqSet, marked: &Numbers, number: u32) -> bool
    requires { number < length marked.now }
    ensures { IsTrue result ↔ IsReachedOrigin flat.now set.now marked.now number }
{
    marked.has(number) && is_origin(flat, set, EqId::new(number))
}

/// Those of the marked equations at which content begins.
fn origins(alloc: Global, flat: &Flat, set: &EqSet, marked: &Numbers) -> Result<Numbers, NoMemory>
    requires { length marked.now ≡ length flat.now.equations }
    ensures { IfOk result (AreJust (length flat.now.equations) (IsReachedOrigin flat.now set.now marked.now)) }
{
    let mut origins = Numbers::none(alloc, marked.count())?;
    let listed = marked.listed();
    for number in listed {
        origins.mark_if(*number, begins_marked(flat, set, marked, *number))?;
    }
    Ok(origins)
}

/// The roots of the marked equations.
fn roots_of(
    alloc: Global,
    flat: &Flat,
    set: &EqSet,
    paths: &Paths,
    marked: &Numbers,
) -> Result<Numbers, NoMemory>
    requires one_each { length marked.now ≡ length flat.now.equations }
    requires paths { ArePaths flat.now set.now paths.now }
    ensures { IfOk result (AreJust (length flat.now.equations) (IsRootOfOne flat.now set.now marked.now)) }
{
    let before = reached(alloc, &paths.back, marked)?;
    origins(alloc, flat, set, &before)
}

/// The roots of one equation.
pub fn roots_of_one(
    alloc: Global,
    flat: &Flat,
    set: &EqSet,
    paths: &Paths,
    id: EqId,
) -> Result<Numbers, NoMemory>
    requires paths { ArePaths flat.now set.now paths.now }
    requires there { id < length flat.now.equations }
    ensures { IfOk result (AreJust (length flat.now.equations) (λ root. IsRoot flat.now set.now root id)) }
{
    let one = one_of(alloc, flat.count() as usize, id.get(), true)?;
    roots_of(alloc, flat, set, paths, &one)
}

/// The sources of an update.
fn sources(alloc: Global, flat: &Flat, uses: &Uses, update: EqId) -> Result<Numbers, NoMemory>
    requires uses { AreUses flat.now uses.now }
    requires there { update < length flat.now.equations }
    ensures { IfOk result (AreJust (length flat.now.equations) (λ x. IsWritten flat.now x update)) }
{
    let one = one_of(alloc, flat.count() as usize, update.get(), true)?;
    firsts(alloc, uses.written.as_slice(), &one)
}

/// The roots of what an update writes.
pub fn source_roots(
    alloc: Global,
    flat: &Flat,
    uses: &Uses,
    set: &EqSet,
    paths: &Paths,
    update: EqId,
) -> Result<Numbers, NoMemory>
    requires uses { AreUses flat.now uses.now }
    requires there { update < length flat.now.equations }
    requires paths { ArePaths flat.now set.now paths.now }
    ensures { IfOk result (AreJust (length flat.now.equations) (IsRootOfSource flat.now set.now update)) }
{
    let sources = sources(alloc, flat, uses, update)?;
    roots_of(alloc, flat, set, paths, &sources)
}
