// Cycles of macros.

ghost use Rattle.std.specs.Prelude.{map, IfOk};
ghost use Rattle.syntax_tree.specs.inner.OneLevel.{item_of};
ghost use Rattle.definition_cycles.specs.Nodes.{HasFewNodes};
ghost use Rattle.call_limits.specs.Nesting.{IsFirstMacroCycle};

use crate::calls::Calls;
use crate::deep::deep_place;
use definition_cycles::graph::to_node;
use std::alloc::Global;
use syntax_tree::tree::Item;
use translation_order::on_cycle::first_on_cycle;
use tsl_value::memory::NoMemory;
use tsl_value::place::Place;

/// The place of the name of the first macro in the order of the source that lies on a cycle of calls of macros, if one does. A macro
/// is called where a call of it stands, or its name as the last argument of a `lift`, in blocks too.
///
/// The time is nearly linear in the size of the source, whatever calls what.
pub fn find_macro_cycle(alloc: Global, items: &[Item]) -> Result<Option<Place>, NoMemory>
    requires { HasFewNodes (map item_of items.now) }
    ensures { IfOk result (IsFirstMacroCycle (map item_of items.now)) }
{
    let count = to_node(items.len());
    let calls = Calls::of_items(alloc, items)?;
    match first_on_cycle(alloc, count, &calls.macros)? {
        Some(item) => Ok(Some(deep_place(&items[item as usize]))),
        None => Ok(None),
    }
}
