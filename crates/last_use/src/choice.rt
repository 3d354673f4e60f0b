// The choice of updates that happen in place.

ghost use Rattle.std.specs.Prelude.{◌≡◌, ◌+◌, ◌<◌, length, IfOk, IsTrue};
ghost use Rattle.flat_core.specs.WellFormed.{IsWellFormed};
ghost use Rattle.trigger_formulas.specs.inner.Kept.{AreTriggersOf};
ghost use Rattle.alias_rules.specs.Conflict.{StandsBefore};
ghost use Rattle.alias_rules.specs.Fine.{IsFine, IsFinePlan, IsTakenPlan};
ghost use Rattle.alias_rules.specs.Steps.{IsLeastOrderBy};
ghost use Rattle.alias_rules.specs.Uses.{IsUpdate, AreUpdates};
ghost use Rattle.alias_nears.specs.inner.Beginning.{NoneIsNil};
ghost use Rattle.last_use.specs.inner.Choosing.{HasNears, IsChosen, IsTriedFrom};
ghost use Rattle.last_use.specs.Reasons.{AreReasons};

use crate::block::{Block, fine_updates, none_is_nil};
use crate::reasons::Reasons;
use crate::trial::{InPlace, nears_of, ordered, refusal, tried_set};
use alias_analysis::graph::Graph;
use flat_core::flat::Flat;
use flat_core::lists::EqSet;
use register_code::copying::steps_among;
use register_code::plan::Plan;
use std::alloc::Global;
use translation_order::order::OrderFault;
use translation_order::steps::Steps;
use trigger_formulas::triggers::Triggers;
use tsl_value::ids::EqId;
use tsl_value::memory::NoMemory;

/// Which updates happen in place, with an order of the steps that lets them, and why each other update copies.
#[derive(Drop)]
pub struct Choice {
    pub plan: Plan,
    /// The running updates outside the plan's set, in ascending order. The reason of each speaks of the set in which it was tried.
    pub reasons: Reasons,
}

/// What is chosen of the equations with the lowest numbers.
#[derive(Drop)]
pub struct Chosen {
    in_place: InPlace,
    reasons: Reasons,
}

/// What is chosen of the equations below a number, and how many updates are tried together next.
#[derive(Drop)]
pub struct Tried {
    chosen: Chosen,
    end: u32,
    most: u32,
}

/// Before any equation is tried.
fn none_chosen(alloc: Global, flat: &Flat, graph: &Graph) -> Result<Chosen, NoMemory>
    requires { graph.now ≡ flat.now }
    ensures { IfOk result (IsChosen flat.now 0) }
{
    let none = EqSet::new(alloc);
    let nears = graph.near_all(alloc, &none)?;
    Ok(Chosen {
        in_place: InPlace { set: none, nears },
        reasons: Reasons::new(alloc),
    })
}

/// Tries an update with those that are chosen.
fn with_update(
    alloc: Global,
    flat: &Flat,
    graph: &Graph,
    chosen: Chosen,
    update: EqId,
    none_is_nil: bool,
    places: &mut Vec<usize>,
) -> Result<Chosen, NoMemory>
    requires graph { graph.now ≡ flat.now }
    requires well_formed { IsWellFormed flat.now }
    requires none_is_nil { IsTrue none_is_nil → NoneIsNil flat.now }
    requires chosen { IsChosen flat.now update chosen }
    requires update { IsUpdate flat.now update }
    ensures { IfOk result (IsChosen flat.now (update + 1)) }
{
    let Chosen {
        in_place,
        mut reasons,
    } = chosen;
    let set = tried_set(alloc, &in_place.set, update)?;
    let nears = nears_of(alloc, flat, graph, &set, &in_place, none_is_nil)?;
    match refusal(alloc, flat, graph, &set, &nears, places)? {
        None => Ok(Chosen {
            in_place: InPlace { set, nears },
            reasons,
        }),
        Some(reason) => {
            reasons.push((update, reason))?;
            Ok(Chosen { in_place, reasons })
        }
    }
}

/// Tries an equation, if it is an update that runs.
fn with_equation(
    alloc: Global,
    flat: &Flat,
    graph: &Graph,
    chosen: Chosen,
    id: EqId,
    none_is_nil: bool,
    places: &mut Vec<usize>,
) -> Result<Chosen, NoMemory>
    requires graph { graph.now ≡ flat.now }
    requires well_formed { IsWellFormed flat.now }
    requires none_is_nil { IsTrue none_is_nil → NoneIsNil flat.now }
    requires chosen { IsChosen flat.now id chosen }
    requires there { id < length flat.now.equations }
    ensures { IfOk result (IsChosen flat.now (id + 1)) }
{
    if flat.is_running_update(id) {
        with_update(alloc, flat, graph, chosen, id, none_is_nil, places)
    } else {
        Ok(chosen)
    }
}

/// How many updates are tried together after an equation: two after two updates that are fine one by one.
fn after_one(most: u32, is_update: bool, is_fine: bool) -> u32 {
    if is_fine {
        most.saturating_add(1)
    } else if is_update {
        0
    } else {
        most
    }
}

/// Tries the next equation, if it is an update that runs.
fn with_one(
    alloc: Global,
    flat: &Flat,
    graph: &Graph,
    chosen: Chosen,
    from: u32,
    most: u32,
    none_is_nil: bool,
    places: &mut Vec<usize>,
) -> Result<Tried, NoMemory>
    requires graph { graph.now ≡ flat.now }
    requires well_formed { IsWellFormed flat.now }
    requires none_is_nil { IsTrue none_is_nil → NoneIsNil flat.now }
    requires chosen { IsChosen flat.now from chosen }
    requires there { from < length flat.now.equations }
    ensures { IfOk result (IsTriedFrom flat.now from) }
{
    flat.assert_whole();
    let before = chosen.in_place.set.len();
    let id = EqId::new(from);
    let chosen = with_equation(alloc, flat, graph, chosen, id, none_is_nil, places)?;
    let is_fine = chosen.in_place.set.len() > before;
    Ok(Tried {
        chosen,
        end: from + 1,
        most: after_one(most, flat.is_running_update(id), is_fine),
    })
}

/// Tries the next updates, at most so many of them together.
fn with_next(
    alloc: Global,
    flat: &Flat,
    graph: &Graph,
    chosen: Chosen,
    from: u32,
    most: u32,
    none_is_nil: bool,
    places: &mut Vec<usize>,
) -> Result<Tried, NoMemory>
    requires graph { graph.now ≡ flat.now }
    requires well_formed { IsWellFormed flat.now }
    requires none_is_nil { IsTrue none_is_nil → NoneIsNil flat.now }
    requires chosen { IsChosen flat.now from chosen }
    requires there { from < length flat.now.equations }
    requires several { 1 < most → NoneIsNil flat.now }
    ensures { IfOk result (IsTriedFrom flat.now from) }
{
    flat.assert_whole();
    let Chosen { in_place, reasons } = chosen;
    match fine_updates(alloc, flat, graph, &in_place, from, most, places)? {
        Some(
            Block {
                in_place,
                end,
                updates,
            },
        ) => Ok(Tried {
            chosen: Chosen { in_place, reasons },
            end,
            most: updates.saturating_mul(2),
        }),
        None => {
            let most = if most > 1 { 0 } else { most };
            let chosen = Chosen { in_place, reasons };
            with_one(alloc, flat, graph, chosen, from, most, none_is_nil, places)
        }
    }
}

fn at_once(several: bool, most: u32) -> u32
    ensures { 1 < result → IsTrue several }
{
    if several { most } else { 1 }
}

/// Tries all equations. After updates that are fine together twice as many are tried, after one that is not the next two one by one.
fn try_all(alloc: Global, flat: &Flat, graph: &Graph) -> Result<Chosen, NoMemory>
    requires graph { graph.now ≡ flat.now }
    requires well_formed { IsWellFormed flat.now }
    ensures { IfOk result (IsChosen flat.now (length flat.now.equations)) }
{
    let none_is_nil = none_is_nil(flat);
    let mut places = Vec::new(alloc);
    let mut tried = Tried {
        chosen: none_chosen(alloc, flat, graph)?,
        end: 0,
        most: 0,
    };
    while tried.end < flat.count() {
        let Tried { chosen, end, most } = tried;
        let most = at_once(none_is_nil, most);
        tried = with_next(
            alloc,
            flat,
            graph,
            chosen,
            end,
            most,
            none_is_nil,
            &mut places,
        )?;
    }
    Ok(tried.chosen)
}

/// The steps in the least order that lets the updates of a fine set happen in place.
fn order_of(
    alloc: Global,
    flat: &Flat,
    graph: &Graph,
    in_place: &InPlace,
) -> Result<Steps, NoMemory>
    requires graph { graph.now ≡ flat.now }
    requires updates { AreUpdates flat.now in_place.now.set }
    requires fine { IsFine flat.now in_place.now.set }
    requires nears { HasNears flat.now in_place.now }
    ensures { IfOk result (IsLeastOrderBy flat.now (StandsBefore flat.now in_place.now.set)) }
{
    match ordered(alloc, flat, graph, &in_place.set, &in_place.nears) {
        Ok(all) => steps_among(alloc, flat, all.as_slice()),
        Err(OrderFault::CycleOf { steps: _ }) => unreachable!(),
        Err(OrderFault::Memory) => Err(NoMemory),
    }
}

/// Chooses the updates that happen in place.
///
/// Running updates are tried by number. Each happens in place where no update among it and those chosen before it is kept or not
/// overwritten, and the pairs of steps that they ask for have no cycle. The order is the one of these pairs in which at each place stands
/// the least step that may stand there.
pub fn choose(alloc: Global, flat: &Flat, triggers: &Triggers) -> Result<Choice, NoMemory>
    requires triggers { AreTriggersOf triggers.now flat.now }
    requires well_formed { IsWellFormed flat.now }
    ensures taken { IfOk result (λ c. IsTakenPlan flat.now c.plan.in_place c.plan.order) }
    ensures fine { IfOk result (λ c. IsFinePlan flat.now c.plan.in_place c.plan.order) }
    ensures reasons { IfOk result (λ c. AreReasons flat.now c.plan.in_place c.reasons) }
{
    flat.assert_whole();
    let graph = Graph::of(alloc, flat, triggers)?;
    let Chosen { in_place, reasons } = try_all(alloc, flat, &graph)?;
    let order = order_of(alloc, flat, &graph, &in_place)?;
    Ok(Choice {
        plan: Plan {
            in_place: in_place.set,
            order,
        },
        reasons,
    })
}
