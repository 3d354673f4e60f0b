// The bodies of all value functions, in an order in which called functions come first.

ghost use Rattle.std.specs.Prelude.{◌≡◌, None, map, IfOk};
ghost use Rattle.syntax_tree.specs.inner.OneLevel.{item_of};
ghost use Rattle.name_check.specs.Scope.{top};
ghost use Rattle.definition_cycles.specs.Cycles.{IsFirstFunctionCycle};
ghost use Rattle.definition_cycles.specs.Nodes.{HasFewNodes};
ghost use Rattle.function_bodies.specs.inner.Calls.{ArePlain, IsCallOrder};
ghost use Rattle.function_bodies.specs.Bodies.{AreBodies};

use crate::functions::Functions;
use definition_cycles::calls::calls;
use definition_cycles::graph::to_node;
use definition_cycles::kinds::turned;
use name_check::names::Names;
use std::alloc::Global;
use syntax_tree::tree::Item;
use translation_order::order::{OrderFault, order};
use translation_order::steps::Steps;
use tsl_value::memory::NoMemory;

/// The items by their numbers, each after the value functions that its definition calls. None of these may call itself, directly or
/// through others.
pub(crate) fn call_order(alloc: Global, items: &[Item]) -> Result<Steps, NoMemory>
    requires few { HasFewNodes (map item_of items.now) }
    requires no_cycle { IsFirstFunctionCycle (map item_of items.now) None }
    ensures { IfOk result (IsCallOrder (map item_of items.now)) }
{
    let count = to_node(items.len());
    let edges = calls(alloc, items)?;
    let pairs = turned(alloc, &edges)?;
    match order(alloc, count, &pairs) {
        Ok(steps) => Ok(steps),
        Err(OrderFault::CycleOf { steps: _ }) => unreachable!(),
        Err(OrderFault::Memory) => Err(NoMemory),
    }
}

/// The bodies of the value functions among items. Each is made once, however many call it. No value function may call itself,
/// directly or through others.
pub fn bodies(alloc: Global, items: &[Item], names: &Names) -> Result<Functions, NoMemory>
    requires few { HasFewNodes (map item_of items.now) }
    requires names { names.now ≡ top (map item_of items.now) }
    requires no_cycle { IsFirstFunctionCycle (map item_of items.now) None }
    requires plain { ArePlain (map item_of items.now) }
    ensures { IfOk result (λ f. AreBodies (map item_of items.now) f) }
{
    let order = call_order(alloc, items)?;
    Functions::of(alloc, items, names, &order)
}
