// Which items call which value functions.

ghost use Rattle.std.specs.Prelude.{◌≡◌, IfOk, map};
ghost use Rattle.std.specs.List.{All, filter_map};
ghost use Rattle.syntax_tree.specs.inner.OneLevel.{item_of};
ghost use Rattle.definition_cycles.specs.inner.Edges.{AreEdges, IsOfSmall, call_edge};
ghost use Rattle.definition_cycles.specs.Calls.{Calls};
ghost use Rattle.definition_cycles.specs.Nodes.{HasFewNodes};

use crate::graph::{Graph, to_node};
use crate::list::push_some;
use crate::mention::Mention;
use name_check::declaration::Declaration;
use std::alloc::Global;
use syntax_tree::tree::Item;
use tsl_value::memory::NoMemory;

/// The pair of an item and a value function that is called in it.
fn call_edge(mention: &Mention) -> Option<(u32, u32)>
    requires { IsOfSmall (call_edge mention.now) }
    ensures { result ≡ call_edge mention.now }
{
    if !mention.calls {
        return None;
    }
    match mention.is {
        Declaration::Function(callee) => Some((to_node(mention.item), to_node(callee))),
        _ => None,
    }
}

/// All such pairs among the mentions.
fn call_edges(alloc: Global, mentions: &[Mention]) -> Result<Vec<(u32, u32)>, NoMemory>
    requires { All (λ m. IsOfSmall (call_edge m)) mentions.now }
    ensures { IfOk result (λ edges. edges.items ≡ filter_map call_edge mentions.now) }
{
    let mut edges = Vec::new(alloc);
    for mention in mentions {
        push_some(&mut edges, call_edge(mention))?;
    }
    Ok(edges)
}

/// The pairs of an item and a value function that is called in its definition.
pub fn calls(alloc: Global, items: &[Item]) -> Result<Vec<(u32, u32)>, NoMemory>
    requires { HasFewNodes (map item_of items.now) }
    ensures { IfOk result (λ edges. AreEdges (Calls (map item_of items.now)) edges.items) }
{
    let graph = Graph::of_items(alloc, items)?;
    call_edges(alloc, graph.found.mentions())
}
