// What is found where an update is tried.

ghost use Rattle.std.specs.Prelude.{◌≡◌, ◌<◌, ℕ, length, slice_index, IfOk, OnOk, IfErr, IsTrue};
ghost use Rattle.std.specs.List.Sorted.{IsStrictlyIncreasing};
ghost use Rattle.translation_order.specs.Graph.{IsAcyclic};
ghost use Rattle.flat_core.specs.Members.{is_in};
ghost use Rattle.translation_order.specs.inner.Answer.{OnCycle};
ghost use Rattle.translation_order.specs.Cycle.{IsCycleOfWalk};
ghost use Rattle.translation_order.specs.Order.{IsLeastOrder};
ghost use Rattle.alias_rules.specs.Conflict.{StandsBefore};
ghost use Rattle.alias_rules.specs.Fine.{with_tried};
ghost use Rattle.alias_rules.specs.Steps.{step_count};
ghost use Rattle.alias_rules.specs.Uses.{AreUpdates};
ghost use Rattle.alias_nears.specs.inner.Nears.{AreNears};
ghost use Rattle.alias_nears.specs.inner.Beginning.{NoneIsNil};
ghost use Rattle.flat_core.specs.WellFormed.{IsWellFormed};
ghost use Rattle.last_use.specs.inner.Choosing.{HasNears, IsRefusal};

use crate::cycles::cycle_of;
use alias_analysis::graph::Graph;
use alias_nears::near::Nears;
use alias_nears::reason::Reason;
use flat_core::flat::Flat;
use flat_core::lists::EqSet;
use std::alloc::Global;
use translation_order::order::{OrderFault, order};
use translation_order::steps::Steps;
use tsl_value::ids::EqId;
use tsl_value::memory::NoMemory;

/// Updates, and what is near each of them.
#[derive(Drop)]
pub struct InPlace {
    pub set: EqSet,
    pub nears: Nears,
}

/// The update at a place of a set.
fn update_at(set: &EqSet, place: usize) -> EqId
    requires { place < length set.now }
    ensures { result ≡ slice_index set.now place }
{
    match set.get(place) {
        Some(update) => *update,
        None => unreachable!(),
    }
}

/// An equal set.
pub fn copy(alloc: Global, set: &EqSet) -> Result<EqSet, NoMemory>
    ensures ascending { IfOk result IsStrictlyIncreasing }
    ensures same { IfOk result (λ copy. copy ≡ set.now) }
{
    let mut copy = EqSet::new(alloc);
    for place in 0..set.len() {
        copy.push(update_at(set, place))?;
    }
    Ok(copy)
}

/// The set in which an update is tried: those before it, and itself.
pub fn tried_set(alloc: Global, set: &EqSet, update: EqId) -> Result<EqSet, NoMemory>
    requires { (x : ℕ) → IsTrue (is_in set.now x) → x < update }
    ensures { IfOk result (λ tried. tried ≡ with_tried set.now update) }
{
    let mut tried = copy(alloc, set)?;
    tried.push(update)?;
    Ok(tried)
}

/// All numbers of steps in the least order by the pairs of a set.
pub fn ordered(
    alloc: Global,
    flat: &Flat,
    graph: &Graph,
    set: &EqSet,
    nears: &Nears,
) -> Result<Steps, OrderFault>
    requires graph { graph.now ≡ flat.now }
    requires updates { AreUpdates flat.now set.now }
    requires nears { AreNears flat.now set.now nears.now }
    ensures least { IfOk result (IsLeastOrder (step_count flat.now) (StandsBefore flat.now set.now)) }
    ensures acyclic { OnOk result (IsAcyclic (StandsBefore flat.now set.now)) }
    ensures cycle { IfErr result (OnCycle (IsCycleOfWalk (step_count flat.now) (StandsBefore flat.now set.now))) }
    ensures cyclic { IfErr result (OnCycle (λ _. IsAcyclic (StandsBefore flat.now set.now) → ⊥)) }
{
    let pairs = graph.constraints_of(alloc, set, nears)?;
    let steps = flat.count() + flat.outputs().len() as u32;
    order(alloc, steps, &pairs)
}

/// What is near the updates of a set, where no aggregate variable is nil by what is near those of a smaller one.
pub fn nears_of(
    alloc: Global,
    flat: &Flat,
    graph: &Graph,
    set: &EqSet,
    smaller: &InPlace,
    none_is_nil: bool,
) -> Result<Nears, NoMemory>
    requires graph { graph.now ≡ flat.now }
    requires well_formed { IsWellFormed flat.now }
    requires none_is_nil { IsTrue none_is_nil → NoneIsNil flat.now }
    requires updates { AreUpdates flat.now set.now }
    requires wider { (x : ℕ) → IsTrue (is_in smaller.now.set x) → IsTrue (is_in set.now x) }
    requires nears { HasNears flat.now smaller.now }
    ensures { IfOk result (AreNears flat.now set.now) }
{
    if none_is_nil {
        graph.near_more(alloc, set, &smaller.set, &smaller.nears)
    } else {
        graph.near_all(alloc, set)
    }
}

/// Why the updates of a set cannot all happen in place, if they cannot, by what is near them. The places are those of steps in an order
/// that was found lately.
pub fn refusal(
    alloc: Global,
    flat: &Flat,
    graph: &Graph,
    set: &EqSet,
    nears: &Nears,
    places: &mut Vec<usize>,
) -> Result<Option<Reason>, NoMemory>
    requires graph { graph.now ≡ flat.now }
    requires updates { AreUpdates flat.now set.now }
    requires nears { AreNears flat.now set.now nears.now }
    ensures { IfOk result (IsRefusal flat.now set.now) }
{
    match graph.conflict_of(alloc, set, nears)? {
        Some(reason) => Ok(Some(reason)),
        None => cycle_of(alloc, flat, graph, set, nears, places),
    }
}
