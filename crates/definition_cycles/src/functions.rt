// Cycles of value functions.

ghost use Rattle.std.specs.Prelude.{◌≡◌, IfOk};
ghost use Rattle.syntax_tree.specs.inner.OneLevel.{item_of, items_of};
ghost use Rattle.definition_cycles.specs.Calls.{name_place};
ghost use Rattle.definition_cycles.specs.Cycles.{IsFirstFunctionCycle};
ghost use Rattle.definition_cycles.specs.Nodes.{HasFewNodes};

use crate::calls::calls;
use crate::graph::to_node;
use std::alloc::Global;
use syntax_tree::tree::{Item, Tree};
use translation_order::on_cycle::first_on_cycle;
use tsl_value::memory::NoMemory;
use tsl_value::place::Place;

/// The place of an item's name.
fn name_place(item: &Item) -> Place
    ensures { result ≡ name_place (item_of item.now) }
{
    match item {
        Item::Input(_, place, _, _) => *place,
        Item::Defined(_, definition) => definition.parts().place,
        Item::Output(_, place, _) => *place,
        Item::OutputAs(_, _, place, _) => *place,
    }
}

/// The place of the name of the first value function that lies on a cycle of calls of value functions, if one does. A function is
/// called where a call of it stands in a definition, or its name as the last argument of a `lift`, in blocks too.
pub fn find_function_cycle(alloc: Global, tree: &Tree) -> Result<Option<Place>, NoMemory>
    requires { HasFewNodes (items_of tree.now) }
    ensures { IfOk result (IsFirstFunctionCycle (items_of tree.now)) }
{
    let items = tree.items();
    let count = to_node(items.len());
    let edges = calls(alloc, items)?;
    match first_on_cycle(alloc, count, &edges)? {
        Some(item) => Ok(Some(name_place(&items[item as usize]))),
        None => Ok(None),
    }
}
