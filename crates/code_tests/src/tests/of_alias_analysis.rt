// An update of a set that grows by its last value.

ghost use Rattle.std.specs.Prelude.{IfOk, IsTrue};
ghost use Rattle.flat_core.specs.Members.{is_in};
ghost use Rattle.alias_rules.specs.Uses.{AreUpdates, IsUpdate, IsVariable};
ghost use Rattle.trigger_formulas.specs.inner.Kept.{AreTriggersOf};

use crate::tests::triggers;
use alias_analysis::graph::Graph;
use alias_nears::reason::Reason;
use alias_paths::uses::is_variable;
use flat_core::flat::Flat;
use flat_core::lists::EqSet;
use sample_systems::systems::sample;
use std::alloc::Global;
use std::test::Fail;
use translation_order::steps::Edges;
use trigger_formulas::triggers::Triggers;
use tsl_value::ids::EqId;
use tsl_value::memory::NoMemory;

/// Whether an equation runs and is an update.
fn is_update(flat: &Flat, id: EqId) -> bool
    ensures { IsTrue result → IsUpdate flat.now id }
{
    id.get() < flat.count() && flat.is_running_update(id)
}

/// The set of an update that runs.
fn one_update(alloc: Global, flat: &Flat, id: EqId) -> Result<EqSet, Fail>
    ensures updates { IfOk result (AreUpdates flat.now) }
    ensures inside { IfOk result (λ s. IsTrue (is_in s id)) }
{
    if !is_update(flat, id) {
        return Err(Fail::from("no update"));
    }
    let mut set = EqSet::new(alloc);
    set.push(id)?;
    Ok(set)
}

fn has_just(set: &EqSet, ids: &[u32]) -> bool {
    set.len() == ids.len() && ids.iter().all(|id| set.contains(EqId::new(*id)))
}

fn has_pair(pairs: &Edges, first: u32, second: u32) -> bool {
    pairs
        .as_slice()
        .iter()
        .any(|pair| pair.0 == first && pair.1 == second)
}

fn is_kept(reason: &Option<Reason>, of: u32, in_variable: u32) -> bool {
    match reason {
        Some(Reason::Kept { update, by }) => update.get() == of && by.get() == in_variable,
        Some(Reason::NotOverwritten { update: _, last: _ }) => false,
        Some(Reason::Cycle { steps: _ }) => false,
        None => false,
    }
}

/// Whether content begins at its last values, and the update is kept by what has the old content beside it.
fn has_contents(
    alloc: Global,
    graph: &Graph<'_>,
    set: &EqSet,
    update: EqId,
) -> Result<bool, NoMemory>
    requires variable { IsVariable graph.now update }
    requires updates { AreUpdates graph.now set.now }
    requires inside { IsTrue (is_in set.now update) }
{
    let roots = graph.roots(alloc, set, update)?;
    let bypass = graph.bypass(alloc, set, update)?;
    let conflict = graph.conflict(alloc, set)?;
    let begins = has_just(&roots, &[3, 4]) && has_just(&bypass, &[3, 4, 5]);
    Ok(begins && is_kept(&conflict, 8, 3))
}

/// Whether the stored variables share, and a reader stands before the update, but not what reads after it.
fn has_pairs(alloc: Global, graph: &Graph<'_>, set: &EqSet) -> Result<bool, NoMemory>
    requires { AreUpdates graph.now set.now }
{
    let share = graph.share(alloc, set)?;
    let pairs = graph.constraints(alloc, set)?;
    let shared = share.len() == 4 && has_pair(&share, 2, 3);
    Ok(shared && has_pair(&pairs, 9, 8) && !has_pair(&pairs, 10, 8))
}

/// Whether all that is asked about the update of the sample is answered so.
fn are_answered(alloc: Global, flat: &Flat, triggers: &Triggers) -> Result<bool, Fail>
    requires { AreTriggersOf triggers.now flat.now }
{
    let graph = Graph::of(alloc, flat, triggers)?;
    let update = EqId::new(8);
    let set = one_update(alloc, flat, update)?;
    if !is_variable(flat, update) {
        return Err(Fail::from("no variable"));
    }
    Ok(has_contents(alloc, &graph, &set, update)? && has_pairs(alloc, &graph, &set)?)
}

#[test]
fn stored_variables_share_and_a_reader_stands_before_the_update(
    rt: HostRuntime,
) -> Result<(), Fail> {
    let flat = sample(rt.alloc())?;
    let triggers = triggers(rt.alloc(), &flat)?;
    assert!(rt; are_answered(rt.alloc(), &flat, &triggers)?);
    Ok(())
}
