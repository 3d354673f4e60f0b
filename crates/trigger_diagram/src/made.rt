// The nodes that are made of equations' formulas.

ghost use Rattle.std.specs.Prelude.{◌≡◌, ℕ, ◌<◌, [], length, OnOk};
ghost use Rattle.std.specs.List.{Contains};
ghost use Rattle.trigger_starts.specs.inner.Rules.{AreClosed, AreReady};
ghost use Rattle.decision_diagrams.specs.inner.Arena.{Grows};
ghost use Rattle.trigger_diagram.specs.inner.Made.{AreNodesOf, IsMade, UsedMade};

use crate::formula::formula;
use decision_diagrams::arena::Arena;
use std::alloc::Global;
use trigger_starts::rules::Rule;
use tsl_value::ids::EqId;
use tsl_value::memory::NoMemory;

/// Makes the node of an equation's formula, unless it is made.
fn make(
    alloc: Global,
    rules: &[Rule],
    starts: &[bool],
    step: u32,
    arena: &mut Arena,
    nodes: &mut [Option<u64>],
) -> Result<(), NoMemory>
    requires one_each { length starts.now ≡ length rules.now }
    requires many { length nodes.old ≡ length rules.now }
    requires closed { AreClosed rules.now }
    requires below { step < length rules.now }
    requires used { UsedMade rules.now nodes.old step }
    requires nodes { AreNodesOf rules.now starts.now arena.old nodes.old }
    ensures grows { Grows arena.old arena.new }
    ensures nodes { AreNodesOf rules.now starts.now arena.new nodes.new }
    ensures kept { (x : ℕ) → IsMade nodes.old x → IsMade nodes.new x }
    ensures made { OnOk result (IsMade nodes.new step) }
{
    let index = step as usize;
    if nodes[index].is_some() {
        return Ok(());
    }
    let node = formula(arena, alloc, &rules[index], EqId::new(step), starts, nodes)?;
    nodes[index] = Some(node);
    Ok(())
}

/// Makes the nodes of some equations, of which each stands after those whose formulas its own needs.
pub(crate) fn make_all(
    alloc: Global,
    rules: &[Rule],
    starts: &[bool],
    steps: &[u32],
    arena: &mut Arena,
    nodes: &mut [Option<u64>],
) -> Result<(), NoMemory>
    requires one_each { length starts.now ≡ length rules.now }
    requires many { length nodes.old ≡ length rules.now }
    requires closed { AreClosed rules.now }
    requires ready { AreReady rules.now [] steps.now }
    requires nodes { AreNodesOf rules.now starts.now arena.old nodes.old }
    ensures grows { Grows arena.old arena.new }
    ensures nodes { AreNodesOf rules.now starts.now arena.new nodes.new }
    ensures made { OnOk result ((x : ℕ) → Contains steps.now x → IsMade nodes.new x) }
{
    for step in steps {
        make(alloc, rules, starts, *step, arena, nodes)?;
    }
    Ok(())
}
