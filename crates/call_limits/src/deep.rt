// Calls that nest too deep.

ghost use Rattle.std.specs.Prelude.{◌≡◌, ◌++◌, None, length, map, IfOk, OnOk};
ghost use Rattle.syntax_tree.specs.inner.OneLevel.{item_of};
ghost use Rattle.translation_order.specs.OnCycle.{Edge};
ghost use Rattle.definition_cycles.specs.Cycles.{IsFirstFunctionCycle};
ghost use Rattle.definition_cycles.specs.Nodes.{HasFewNodes};
ghost use Rattle.call_limits.specs.Nesting.{IsFirstMacroCycle, IsFirstTooDeep, deep_place};
ghost use Rattle.call_limits.specs.inner.Edges.{IsCallGraph, turned};
ghost use Rattle.call_limits.specs.inner.Depths.{AreAfter, IsFirst, NestsTooDeep};

use crate::calls::Calls;
use crate::depth::{depths, first_deep, successors};
use definition_cycles::graph::to_node;
use std::alloc::Global;
use syntax_tree::tree::Item;
use translation_order::order::{OrderFault, order};
use translation_order::steps::{Edges, Steps};
use tsl_value::memory::NoMemory;
use tsl_value::place::Place;

/// The place of the first definition or output in the order of the source in which calls nest over 64 deep, if there is one: that of
/// the definition's name, or of the word `out`. Macros and value functions are counted apart, and the value functions that are
/// called in a macro count for its caller too. There must be no cycle of either.
///
/// The time is nearly linear in the size of the source, whatever calls what.
pub fn find_too_deep(alloc: Global, items: &[Item]) -> Result<Option<Place>, NoMemory>
    requires few { HasFewNodes (map item_of items.now) }
    requires macros { IsFirstMacroCycle (map item_of items.now) None }
    requires functions { IsFirstFunctionCycle (map item_of items.now) None }
    ensures { IfOk result (IsFirstTooDeep (map item_of items.now)) }
{
    let count = to_node(items.len());
    let calls = Calls::of_items(alloc, items)?;
    match first_too_deep(alloc, count, &calls)? {
        Some(item) => Ok(Some(deep_place(&items[item]))),
        None => Ok(None),
    }
}

/// The place of a definition's or an input's name, or of the word `out`.
pub(crate) fn deep_place(item: &Item) -> Place
    ensures { result ≡ deep_place (item_of item.now) }
{
    match item {
        Item::Input(_, place, _, _) => *place,
        Item::Defined(_, definition) => definition.parts().place,
        Item::Output(place, _, _) => *place,
        Item::OutputAs(place, _, _, _) => *place,
    }
}

/// The first of so many items in which calls nest too deep.
fn first_too_deep(alloc: Global, count: u32, calls: &Calls) -> Result<Option<usize>, NoMemory>
    requires { IsCallGraph count calls.now.macros.items calls.now.functions.items }
    ensures { IfOk result (IsFirst (NestsTooDeep calls.now.macros.items calls.now.functions.items)) }
{
    let order = call_order(alloc, count, calls)?;
    let macros = successors(alloc, count, &calls.macros)?;
    let functions = successors(alloc, count, &calls.functions)?;
    let of_macros = depths(alloc, order.as_slice(), &macros, &functions)?;
    let of_functions = depths(alloc, order.as_slice(), &functions, &macros)?;
    Ok(first_deep(&of_macros, &of_functions))
}

/// All items, each after those that are called in it.
fn call_order(alloc: Global, count: u32, calls: &Calls) -> Result<Steps, NoMemory>
    requires { IsCallGraph count calls.now.macros.items calls.now.functions.items }
    ensures { IfOk result (AreAfter (Edge calls.now.macros.items) (Edge calls.now.functions.items) count) }
{
    let mut pairs = Edges::new(alloc);
    add_turned(&mut pairs, &calls.macros)?;
    add_turned(&mut pairs, &calls.functions)?;
    match order(alloc, count, &pairs) {
        Ok(steps) => Ok(steps),
        Err(OrderFault::Memory) => Err(NoMemory),
        // Value functions call no macros, so that a cycle of both would be one of either.
        Err(OrderFault::CycleOf { steps: _ }) => unreachable!(),
    }
}

/// Adds the pairs of what is called and the item that calls it.
fn add_turned(pairs: &mut Edges, calls: &[(u32, u32)]) -> Result<(), NoMemory>
    ensures { OnOk result (pairs.new ≡ pairs.old ++ turned calls.now) }
{
    for (caller, callee) in calls {
        pairs.push((*callee, *caller))?;
    }
    Ok(())
}
