// Whether orders and plans are right.

ghost use Rattle.std.specs.Prelude.{◌≡◌, ◌<◌, ◌↔◌, length, slice_index, IfOk, IsTrue};
ghost use Rattle.translation_order.specs.Order.{Before};
ghost use Rattle.trigger_formulas.specs.inner.Kept.{AreTriggersOf};
ghost use Rattle.flat_core.specs.Updates.{is_running_update};
ghost use Rattle.alias_rules.specs.Conflict.{StandsBefore};
ghost use Rattle.alias_rules.specs.Fine.{IsFinePlan};
ghost use Rattle.alias_rules.specs.Steps.{IsOrderBy};
ghost use Rattle.alias_rules.specs.Uses.{AreUpdates};
ghost use Rattle.alias_nears.specs.inner.Nears.{AreNears};

use crate::places::{is_whole, places_of};
use alias_analysis::graph::Graph;
use alias_nears::near::Nears;
use flat_core::flat::Flat;
use flat_core::lists::EqSet;
use register_code::plan::Plan;
use std::alloc::Global;
use translation_order::steps::{Edges, Steps};
use trigger_formulas::triggers::Triggers;
use tsl_value::ids::EqId;
use tsl_value::memory::NoMemory;

/// Whether an order has each running equation and each print once and nothing else, and the first of each pair before its second.
pub fn is_order(alloc: Global, flat: &Flat, pairs: &Edges, order: &Steps) -> Result<bool, NoMemory>
    ensures { IfOk result (λ r. IsTrue r ↔ IsOrderBy flat.now (Before pairs.now) order.now) }
{
    flat.assert_whole();
    match places_of(alloc, flat, order.as_slice())? {
        Some(places) => Ok(is_whole(flat, places.as_slice(), pairs.as_slice())),
        None => Ok(false),
    }
}

fn update_at(set: &EqSet, place: usize) -> EqId
    requires { place < length set.now }
    ensures { result ≡ slice_index set.now place }
{
    match set.get(place) {
        Some(update) => *update,
        None => unreachable!(),
    }
}

/// Whether the number is that of an update that runs.
fn is_update(flat: &Flat, id: EqId) -> bool
    ensures { result ≡ is_running_update flat.now id }
{
    if id.get() >= flat.count() {
        return false;
    }
    flat.is_running_update(id)
}

/// Whether a set has updates that run and nothing else.
fn are_updates(flat: &Flat, set: &EqSet) -> bool
    ensures { IsTrue result ↔ AreUpdates flat.now set.now }
{
    for place in 0..set.len() {
        if !is_update(flat, update_at(set, place)) {
            return false;
        }
    }
    true
}

/// Whether the order of a plan has each step once, and lets the updates of its set happen in place.
fn lets_them(
    alloc: Global,
    flat: &Flat,
    graph: &Graph,
    plan: &Plan,
    nears: &Nears,
) -> Result<bool, NoMemory>
    requires graph { graph.now ≡ flat.now }
    requires updates { AreUpdates flat.now plan.now.in_place }
    requires nears { AreNears flat.now plan.now.in_place nears.now }
    ensures { IfOk result (λ r. IsTrue r ↔ IsOrderBy flat.now (StandsBefore flat.now plan.now.in_place) plan.now.order) }
{
    let pairs = graph.constraints_of(alloc, &plan.in_place, nears)?;
    is_order(alloc, flat, &pairs, &plan.order)
}

/// Whether a plan of running updates is fine.
fn is_fine_for(alloc: Global, flat: &Flat, graph: &Graph, plan: &Plan) -> Result<bool, NoMemory>
    requires graph { graph.now ≡ flat.now }
    requires updates { AreUpdates flat.now plan.now.in_place }
    ensures { IfOk result (λ r. IsTrue r ↔ IsFinePlan flat.now plan.now.in_place plan.now.order) }
{
    let nears = graph.near_all(alloc, &plan.in_place)?;
    match graph.conflict_of(alloc, &plan.in_place, &nears)? {
        Some(_) => Ok(false),
        None => lets_them(alloc, flat, graph, plan, &nears),
    }
}

/// Whether a plan is fine: its set has running updates alone, none of which is kept or not overwritten, and its order has each step
/// once, the first of each pair that they ask for before its second.
pub fn is_fine_plan(
    alloc: Global,
    flat: &Flat,
    triggers: &Triggers,
    plan: &Plan,
) -> Result<bool, NoMemory>
    requires { AreTriggersOf triggers.now flat.now }
    ensures { IfOk result (λ r. IsTrue r ↔ IsFinePlan flat.now plan.now.in_place plan.now.order) }
{
    if !are_updates(flat, &plan.in_place) {
        return Ok(false);
    }
    let graph = Graph::of(alloc, flat, triggers)?;
    is_fine_for(alloc, flat, &graph, plan)
}
