// Which definitions without a written type mention each other.

ghost use Rattle.std.specs.Prelude.{◌≡◌, ◌+◌, ◌^◌, ◌<◌, Some, length, map, IfOk};
ghost use Rattle.std.specs.List.{filter_map};
ghost use Rattle.syntax_tree.specs.inner.OneLevel.{item_of};
ghost use Rattle.definition_cycles.specs.Nodes.{HasFewNodes, nodes};
ghost use Rattle.definition_cycles.specs.Mentions.{MentionsUntyped};
ghost use Rattle.definition_cycles.specs.inner.Walk.{head_of};
ghost use Rattle.definition_cycles.specs.inner.Edges.{AreEdges, IsKnown, is_untyped, known_node, untyped_edge};

use crate::found::{Found, Head};
use crate::graph::{Graph, to_node};
use crate::list::push_some;
use crate::mention::Mention;
use name_check::declaration::Declaration;
use std::alloc::Global;
use syntax_tree::tree::Item;
use tsl_value::memory::NoMemory;

fn is_untyped(heads: &[Head], node: usize) -> bool
    ensures { result ≡ is_untyped heads.now node }
{
    match heads.get(node) {
        Some(head) => !head.is_written,
        None => false,
    }
}

/// The node of a definition in a block of an item that has this node, if there are so many numbers.
fn local_node(first: usize, number: usize) -> Option<usize>
    ensures { IsKnown (Some (first + 1 + number)) result }
{
    match number.checked_add(1) {
        Some(after) => first.checked_add(after),
        None => None,
    }
}

/// The node that a name stands for in an item, where these are the nodes of items.
fn known_node(firsts: &[usize], item: usize, is: Declaration) -> Option<usize>
    ensures { IsKnown (known_node firsts.now item is) result }
{
    match is {
        Declaration::Input(_) | Declaration::Parameter(_) => None,
        Declaration::Stream(number)
        | Declaration::Macro(number)
        | Declaration::Function(number)
        | Declaration::Mixed(number) => firsts.get(number).copied(),
        Declaration::Local(number) => match firsts.get(item) {
            Some(first) => local_node(*first, number),
            None => None,
        },
    }
}

/// A mention of a node without a written type by another.
fn untyped_edge(firsts: &[usize], heads: &[Head], mention: &Mention) -> Option<(u32, u32)>
    requires { length heads.now < 2 ^ 32 }
    ensures { result ≡ untyped_edge firsts.now heads.now mention.now }
{
    match known_node(firsts, mention.item, mention.is) {
        Some(node) => {
            if is_untyped(heads, mention.node) && is_untyped(heads, node) {
                Some((to_node(mention.node), to_node(node)))
            } else {
                None
            }
        }
        None => None,
    }
}

/// The mentions among nodes without a written type.
fn untyped_edges(alloc: Global, graph: &Graph) -> Result<Vec<(u32, u32)>, NoMemory>
    requires { length graph.now.found.heads < 2 ^ 32 }
    ensures { IfOk result (λ edges. edges.items
        ≡ filter_map (untyped_edge graph.now.firsts.items graph.now.found.heads) graph.now.found.mentions) }
{
    let mut edges = Vec::new(alloc);
    let heads = graph.found.heads();
    for mention in graph.found.mentions() {
        push_some(&mut edges, untyped_edge(&graph.firsts, heads, mention))?;
    }
    Ok(edges)
}

/// The nodes of a specification, and the mentions among those without a written type.
#[derive(Drop)]
pub struct Untyped {
    pub found: Found,
    /// How many nodes there are.
    pub count: u32,
    pub edges: Vec<(u32, u32)>,
}

impl Untyped {
    /// Those of these items.
    pub fn of_items(alloc: Global, items: &[Item]) -> Result<Untyped, NoMemory>
        requires { HasFewNodes (map item_of items.now) }
        ensures heads { IfOk result (λ u. u.found.heads ≡ map head_of (nodes (map item_of items.now))) }
        ensures count { IfOk result (λ u. u.count ≡ length (nodes (map item_of items.now))) }
        ensures edges { IfOk result (λ u. AreEdges (MentionsUntyped (map item_of items.now)) u.edges.items) }
    {
        let graph = Graph::of_items(alloc, items)?;
        let edges = untyped_edges(alloc, &graph)?;
        let count = to_node(graph.found.heads().len());
        Ok(Untyped {
            found: graph.found,
            count,
            edges,
        })
    }
}
