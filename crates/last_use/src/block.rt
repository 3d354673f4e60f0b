// Several updates that are tried together.
//
// Each set of some updates of a fine set is fine, where no aggregate variable is nil. So updates that are fine together need not be tried
// one by one.

ghost use Rattle.std.specs.Prelude.{◌≡◌, ◌↔◌, ◌+◌, ◌<◌, ◌≤◌, length, IfOk, OnOk, IsTrue, MatchOption};
ghost use Rattle.std.specs.List.Sorted.{IsStrictlyIncreasing};
ghost use Rattle.flat_core.specs.declared.equation.Op.TheVariants as op;
ghost use Rattle.alias_rules.specs.Uses.{AreUpdates};
ghost use Rattle.alias_nears.specs.inner.Beginning.{IsNilVariable, NoneIsNil};
ghost use Rattle.flat_core.specs.WellFormed.{IsWellFormed};
ghost use Rattle.last_use.specs.inner.Choosing.{HasNears};
ghost use Rattle.last_use.specs.inner.Blocks.{IsBlock, IsFineBlock, IsWithBlock, IsUpdateWithin};

use crate::trial::{InPlace, copy, nears_of, refusal};
use alias_analysis::graph::Graph;
use flat_core::equation::Op;
use flat_core::flat::Flat;
use flat_core::lists::EqSet;
use std::alloc::Global;
use tsl_value::ids::EqId;
use tsl_value::memory::NoMemory;

/// A fine set with all updates of the equations below a number, and how many updates were wanted.
#[derive(Drop)]
pub struct Block {
    pub in_place: InPlace,
    pub end: u32,
    pub updates: u32,
}

fn is_nil(operation: &Op) -> bool
    ensures { IsTrue result ↔ (operation.now ≡ op.Nil) }
{
    match operation {
        Op::Nil => true,
        _ => false,
    }
}

/// Whether an equation runs, has an aggregate, and is nil.
fn is_nil_variable(flat: &Flat, id: EqId) -> bool
    requires { id < length flat.now.equations }
    ensures { IsTrue result ↔ IsNilVariable flat.now id }
{
    let equation = flat.equation(id);
    flat.runs(id) && equation.of.is_aggregate() && is_nil(&equation.op)
}

/// Whether no aggregate variable is nil.
pub fn none_is_nil(flat: &Flat) -> bool
    ensures { IsTrue result → NoneIsNil flat.now }
{
    for number in 0..flat.count() {
        if is_nil_variable(flat, EqId::new(number)) {
            return false;
        }
    }
    true
}

/// The number after so many updates from an equation on, or else the count of equations.
fn end_after(flat: &Flat, from: u32, updates: u32) -> u32
    requires { from < length flat.now.equations }
    ensures begun { from < result }
    ensures within { result ≤ length flat.now.equations }
{
    let mut left = updates;
    for number in from..flat.count() {
        if flat.is_running_update(EqId::new(number)) {
            if left <= 1 {
                return number + 1;
            }
            left -= 1;
        }
    }
    flat.count()
}

/// Puts an equation into a set, if it is an update that runs.
fn push_if_update(set: &mut EqSet, flat: &Flat, id: EqId) -> Result<(), NoMemory>
    requires there { id < length flat.now.equations }
    requires ascending { IsStrictlyIncreasing set.old }
    ensures { OnOk result (IsWithBlock flat.now set.old id (id + 1) set.new) }
{
    if flat.is_running_update(id) {
        set.push(id)?;
    }
    Ok(())
}

/// The set with the updates of a block of equations.
fn with_updates(
    alloc: Global,
    flat: &Flat,
    set: &EqSet,
    from: u32,
    end: u32,
) -> Result<EqSet, NoMemory>
    requires begun { from ≤ end }
    requires within { end ≤ length flat.now.equations }
    ensures { IfOk result (IsWithBlock flat.now set.now from end) }
{
    let mut more = copy(alloc, set)?;
    for number in from..end {
        push_if_update(&mut more, flat, EqId::new(number))?;
    }
    Ok(more)
}

/// The set with the updates of a block, if it is fine.
fn fine_block(
    alloc: Global,
    flat: &Flat,
    graph: &Graph,
    in_place: &InPlace,
    from: u32,
    end: u32,
    places: &mut Vec<usize>,
) -> Result<Option<InPlace>, NoMemory>
    requires graph { graph.now ≡ flat.now }
    requires well_formed { IsWellFormed flat.now }
    requires none_is_nil { NoneIsNil flat.now }
    requires updates { AreUpdates flat.now in_place.now.set }
    requires nears { HasNears flat.now in_place.now }
    requires begun { from ≤ end }
    requires within { end ≤ length flat.now.equations }
    ensures { IfOk result (λ r. MatchOption r Unit (IsFineBlock flat.now in_place.now.set from end)) }
{
    let set = with_updates(alloc, flat, &in_place.set, from, end)?;
    let nears = nears_of(alloc, flat, graph, &set, in_place, true)?;
    match refusal(alloc, flat, graph, &set, &nears, places)? {
        None => Ok(Some(InPlace { set, nears })),
        Some(_) => Ok(None),
    }
}

/// As many updates from an equation on as are fine together with the set, of this number, its half, and so on, but more than one.
pub fn fine_updates(
    alloc: Global,
    flat: &Flat,
    graph: &Graph,
    in_place: &InPlace,
    from: u32,
    most: u32,
    places: &mut Vec<usize>,
) -> Result<Option<Block>, NoMemory>
    requires graph { graph.now ≡ flat.now }
    requires well_formed { IsWellFormed flat.now }
    requires several { 1 < most → NoneIsNil flat.now }
    requires updates { AreUpdates flat.now in_place.now.set }
    requires nears { HasNears flat.now in_place.now }
    requires there { from < length flat.now.equations }
    ensures { IfOk result (λ r. MatchOption r Unit (IsBlock flat.now in_place.now.set from most)) }
{
    let mut updates = most;
    while updates > 1 {
        let end = end_after(flat, from, updates);
        if let Some(fine) = fine_block(alloc, flat, graph, in_place, from, end, places)? {
            return Ok(Some(Block {
                in_place: fine,
                end,
                updates,
            }));
        }
        updates /= 2;
    }
    Ok(None)
}
