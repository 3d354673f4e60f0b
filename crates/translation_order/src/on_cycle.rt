// The least node on a cycle.

ghost use Rattle.std.specs.Prelude.{◌≡◌, ◌<◌, ◌^◌, ℕ, [], true, length, replicate, IfOk, MatchOption, IsTrue, ◌↔◌};
ghost use Rattle.translation_order.specs.Least.{IsLeast};
ghost use Rattle.translation_order.specs.OnCycle.{AreBetween, IsFirstOnCycle};
ghost use Rattle.translation_order.specs.inner.Searching.{AreSuccessors, visit_of};

use crate::search::{Visit, visit_all};
use crate::steps::Steps;
use std::alloc::Global;
use tsl_value::memory::NoMemory;

/// The least node that lies on a cycle of the edges. Nodes are the numbers below `nodes`, and each edge leads from its first
/// node to its second. A node lies on a cycle where it is reached from itself along one edge or more. `None` comes exactly
/// where there is no cycle.
///
/// The time is nearly linear in the nodes and edges, whatever the graph.
pub fn first_on_cycle(
    alloc: Global,
    nodes: u32,
    edges: &[(u32, u32)],
) -> Result<Option<u32>, NoMemory>
    requires { AreBetween nodes edges.now }
    ensures { IfOk result (IsFirstOnCycle edges.now) }
{
    let successors = successors(alloc, nodes, edges)?;
    let visits = visit_all(alloc, nodes, successors.as_slice())?;
    Ok(first_marked(visits.as_slice()))
}

/// For each node the nodes to which its edges lead.
fn successors(alloc: Global, nodes: u32, edges: &[(u32, u32)]) -> Result<Vec<Steps>, NoMemory>
    requires { AreBetween nodes edges.now }
    ensures { IfOk result (λ s. AreSuccessors nodes edges.now s.items) }
{
    let mut successors = no_successors(alloc, nodes)?;
    for (from, to) in edges {
        let of_from = &mut successors[*from as usize];
        of_from.push(*to)?;
    }
    Ok(successors)
}

/// So many empty lists.
fn no_successors(alloc: Global, count: u32) -> Result<Vec<Steps>, NoMemory>
    ensures { IfOk result (λ s. s.items ≡ replicate count []) }
{
    let mut lists = Vec::new(alloc);
    for _ in 0..count {
        lists.push(Steps::new(alloc))?;
    }
    Ok(lists)
}

/// The least node that was found to lie on a cycle.
fn first_marked(visits: &[Visit]) -> Option<u32>
    requires { length visits.now < 2 ^ 32 }
    ensures { MatchOption result ((x : ℕ) → visit_of visits.now x ≡ Visit.Done true → ⊥)
        (IsLeast (λ x. visit_of visits.now x ≡ Visit.Done true)) }
{
    for node in 0..visits.len() {
        if is_marked(visits[node]) {
            return Some(node as u32);
        }
    }
    None
}

fn is_marked(visit: Visit) -> bool
    ensures { IsTrue result ↔ (visit ≡ Visit.Done true) }
{
    match visit {
        Visit::New => false,
        Visit::OnPath { number: _ } => false,
        Visit::Done { on_cycle } => on_cycle,
    }
}
