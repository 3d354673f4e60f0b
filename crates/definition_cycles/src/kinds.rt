// Definitions without a written type: their cycles, and an order.

ghost use Rattle.std.specs.Prelude.{◌≡◌, map, IfOk, OnOk, IfErr};
ghost use Rattle.syntax_tree.specs.inner.OneLevel.{items_of};
ghost use Rattle.translation_order.specs.Cycle.{IsCycle};
ghost use Rattle.translation_order.specs.inner.Answer.{OnCycle};
ghost use Rattle.definition_cycles.specs.Cycles.{IsFirstUntypedCycle};
ghost use Rattle.definition_cycles.specs.Nodes.{HasFewNodes};
ghost use Rattle.definition_cycles.specs.inner.Order.{IsKindOrder, Precedes, NoneNeedsType, SomeNeedsType};

use crate::untyped::Untyped;
use std::alloc::Global;
use syntax_tree::tree::Tree;
use translation_order::on_cycle::first_on_cycle;
use translation_order::order::{OrderFault, order};
use translation_order::steps::{Edges, Steps};
use tsl_value::memory::NoMemory;
use tsl_value::place::Place;

/// The place of the name of the first definition without a written type that needs one, if one does: it lies on a cycle of
/// mentions among definitions without a written type.
pub fn find_untyped_cycle(alloc: Global, tree: &Tree) -> Result<Option<Place>, NoMemory>
    requires { HasFewNodes (items_of tree.now) }
    ensures { IfOk result (IsFirstUntypedCycle (items_of tree.now)) }
{
    let untyped = Untyped::of_items(alloc, tree.items())?;
    match first_on_cycle(alloc, untyped.count, &untyped.edges)? {
        Some(node) => Ok(Some(untyped.found.heads()[node as usize].place)),
        None => Ok(None),
    }
}

/// The same edges, each from its second to its first.
pub fn turned(alloc: Global, edges: &[(u32, u32)]) -> Result<Edges, NoMemory>
    ensures { IfOk result (λ t. t ≡ map (λ e. (e.1, e.0)) edges.now) }
{
    let mut turned = Edges::new(alloc);
    for (from, to) in edges {
        turned.push((*to, *from))?;
    }
    Ok(turned)
}

/// Lists all definitions, inputs and outputs among them, by their numbers in the order of the source, where each item comes before
/// the definitions in its blocks. Each is listed once, and a definition without a written type after those without one that it
/// mentions; at each place the least that may stand there. It is refused exactly where `find_untyped_cycle` finds one, with a cycle
/// each of which is mentioned by the next.
pub fn kind_order(alloc: Global, tree: &Tree) -> Result<Steps, OrderFault>
    requires { HasFewNodes (items_of tree.now) }
    ensures listed { IfOk result (IsKindOrder (items_of tree.now)) }
    ensures none { OnOk result (NoneNeedsType (items_of tree.now)) }
    ensures cycle { IfErr result (OnCycle (IsCycle (Precedes (items_of tree.now)))) }
    ensures some { IfErr result (OnCycle (λ _. SomeNeedsType (items_of tree.now))) }
{
    let untyped = Untyped::of_items(alloc, tree.items())?;
    let pairs = turned(alloc, &untyped.edges)?;
    order(alloc, untyped.count, &pairs)
}
