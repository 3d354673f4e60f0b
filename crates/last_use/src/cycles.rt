// Whether the pairs of a set of updates have a cycle.

ghost use Rattle.std.specs.Prelude.{◌≡◌, ◌<◌, length, slice_index, IfOk, IsTrue, IsFalse};
ghost use Rattle.translation_order.specs.Graph.{IsAcyclic};
ghost use Rattle.translation_order.specs.Order.{Before, AreOfSteps};
ghost use Rattle.alias_rules.specs.Conflict.{StandsBefore};
ghost use Rattle.alias_rules.specs.Steps.{step_count};
ghost use Rattle.alias_rules.specs.Uses.{AreUpdates};
ghost use Rattle.alias_nears.specs.inner.Nears.{AreNears};
ghost use Rattle.last_use.specs.inner.Cycles.{IsCycleOrNone};

use alias_analysis::graph::Graph;
use alias_nears::near::Nears;
use alias_nears::reason::Reason;
use flat_core::flat::Flat;
use flat_core::lists::EqSet;
use std::alloc::Global;
use translation_order::order::{OrderFault, order};
use translation_order::steps::Edges;
use tsl_value::memory::NoMemory;

/// Whether the place of one step is not below that of another.
fn falls(places: &[usize], first: u32, second: u32) -> bool
    requires first { first < length places.now }
    requires second { second < length places.now }
    ensures { IsFalse result → slice_index places.now first < slice_index places.now second }
{
    places[first as usize] >= places[second as usize]
}

/// Whether the first of each pair has a lesser place than its second.
fn rise(pairs: &[(u32, u32)], places: &[usize]) -> bool
    requires { AreOfSteps (length places.now) pairs.now }
    ensures { IsTrue result → IsAcyclic (Before pairs.now) }
{
    for (first, second) in pairs {
        if falls(places, *first, *second) {
            return false;
        }
    }
    true
}

/// Whether there is a place for each of so many steps.
fn has_each(places: &[usize], count: u32) -> bool
    ensures { IsTrue result → count ≡ length places.now }
{
    places.len() == count as usize
}

/// Whether there is a place for each step, and the first of each pair has a lesser one than its second.
fn are_in_order(pairs: &[(u32, u32)], places: &[usize], count: u32) -> bool
    requires { AreOfSteps count pairs.now }
    ensures { IsTrue result → IsAcyclic (Before pairs.now) }
{
    if has_each(places, count) {
        rise(pairs, places)
    } else {
        false
    }
}

/// The place of each step in a list.
fn places_of(alloc: Global, listed: &[u32], count: u32) -> Result<Vec<usize>, NoMemory> {
    let mut places = vec![in alloc; 0usize; count as usize]?;
    for place in 0..listed.len() {
        let step = listed[place] as usize;
        if step < places.len() {
            places[step] = place;
        }
    }
    Ok(places)
}

/// The cycle of pairs of steps as a reason, if they have one. Else the places are those of their least order.
fn cycle_among(
    alloc: Global,
    count: u32,
    pairs: &Edges,
    places: &mut Vec<usize>,
) -> Result<Option<Reason>, NoMemory>
    requires { AreOfSteps count pairs.now }
    ensures { IfOk result (IsCycleOrNone count (Before pairs.now)) }
{
    match order(alloc, count, pairs) {
        Ok(all) => {
            *places = places_of(alloc, all.as_slice(), count)?;
            Ok(None)
        }
        Err(OrderFault::CycleOf { steps }) => Ok(Some(Reason::Cycle { steps })),
        Err(OrderFault::Memory) => Err(NoMemory),
    }
}

/// The cycle of the pairs of a set as a reason, if they have one.
///
/// The places are those of an order that was found lately. Where all pairs agree with it there is no cycle, and no order is looked for.
pub fn cycle_of(
    alloc: Global,
    flat: &Flat,
    graph: &Graph,
    set: &EqSet,
    nears: &Nears,
    places: &mut Vec<usize>,
) -> Result<Option<Reason>, NoMemory>
    requires graph { graph.now ≡ flat.now }
    requires updates { AreUpdates flat.now set.now }
    requires nears { AreNears flat.now set.now nears.now }
    ensures { IfOk result (IsCycleOrNone (step_count flat.now) (StandsBefore flat.now set.now)) }
{
    let edges = graph.constraints_of(alloc, set, nears)?;
    let count = flat.count() + flat.outputs().len() as u32;
    if are_in_order(edges.as_slice(), places.as_slice(), count) {
        return Ok(None);
    }
    cycle_among(alloc, count, &edges, places)
}
