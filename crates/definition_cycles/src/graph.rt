// The nodes of a specification, with the numbers of items.

ghost use Rattle.std.specs.Prelude.{◌≡◌, ◌^◌, ◌<◌, map, IfOk};
ghost use Rattle.syntax_tree.specs.inner.OneLevel.{item_of};
ghost use Rattle.definition_cycles.specs.Nodes.{nodes};
ghost use Rattle.definition_cycles.specs.inner.Walk.{with_nodes, nothing_kept, firsts_from};

use crate::found::Found;
use crate::top::Top;
use std::alloc::Global;
use syntax_tree::tree::Item;
use tsl_value::memory::NoMemory;

/// The nodes of a specification.
#[derive(Drop)]
pub struct Graph {
    /// The node of each item.
    pub firsts: Vec<usize>,
    pub found: Found,
}

impl Graph {
    /// The nodes of these items.
    pub fn of_items(alloc: Global, items: &[Item]) -> Result<Graph, NoMemory>
        ensures firsts { IfOk result (λ g. g.firsts.items ≡ firsts_from 0 (map item_of items.now)) }
        ensures found { IfOk result (λ g. g.found ≡ with_nodes nothing_kept (nodes (map item_of items.now))) }
    {
        let top = Top::of_items(alloc, items)?;
        let mut firsts = Vec::new(alloc);
        let mut found = Found::new(alloc);
        for (number, item) in items.iter().enumerate() {
            firsts.push(found.heads().len())?;
            found.add_item(alloc, &top, number, item)?;
        }
        Ok(Graph { firsts, found })
    }
}

/// The number of a node. There are so few of them that 32 bits hold it.
pub fn to_node(number: usize) -> u32
    requires { number < 2 ^ 32 }
    ensures { result ≡ number }
{
    number as u32
}
