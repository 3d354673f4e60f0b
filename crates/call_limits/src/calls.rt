// Which items call which macros and value functions.

ghost use Rattle.std.specs.Prelude.{◌≡◌, ◌++◌, map, IfOk, OnOk};
ghost use Rattle.std.specs.Option.{option_to_list};
ghost use Rattle.std.specs.List.{All, filter_map};
ghost use Rattle.syntax_tree.specs.inner.OneLevel.{item_of};
ghost use Rattle.name_check.specs.Scope.{seen, top};
ghost use Rattle.definition_cycles.specs.inner.Edges.{AreEdges};
ghost use Rattle.definition_cycles.specs.Nodes.{HasFewNodes};
ghost use Rattle.call_limits.specs.Nesting.{CallsFunction, CallsMacro};
ghost use Rattle.call_limits.specs.inner.Edges.{IsSmallCall, function_call, macro_call, mentions_in_output, mentions_in_outputs};

use definition_cycles::graph::{Graph, to_node};
use definition_cycles::mention::{Mention, add_mentions};
use name_check::declaration::Declaration;
use name_check::scope::Scope;
use name_check::top::top_names;
use std::alloc::Global;
use syntax_tree::tree::Item;
use tsl_value::memory::NoMemory;

/// The calls of a specification, each as the pair of an item and what is called in it.
#[derive(Drop)]
pub struct Calls {
    pub macros: Vec<(u32, u32)>,
    pub functions: Vec<(u32, u32)>,
}

impl Calls {
    /// Those in the definitions and outputs among these items.
    pub fn of_items(alloc: Global, items: &[Item]) -> Result<Calls, NoMemory>
        requires { HasFewNodes (map item_of items.now) }
        ensures macros { IfOk result (λ c. AreEdges (CallsMacro (map item_of items.now)) c.macros.items) }
        ensures functions { IfOk result (λ c. AreEdges (CallsFunction (map item_of items.now)) c.functions.items) }
    {
        let graph = Graph::of_items(alloc, items)?;
        let outputs = output_mentions(alloc, items)?;
        let mut calls = Calls {
            macros: Vec::new(alloc),
            functions: Vec::new(alloc),
        };
        calls.add_all(graph.found.mentions())?;
        calls.add_all(&outputs)?;
        Ok(calls)
    }

    /// Adds the calls among mentions.
    fn add_all(&mut self, mentions: &[Mention]) -> Result<(), NoMemory>
        requires { All IsSmallCall mentions.now }
        ensures macros { OnOk result (self.new.macros.items ≡ self.old.macros.items ++ filter_map macro_call mentions.now) }
        ensures functions { OnOk result (self.new.functions.items ≡ self.old.functions.items ++ filter_map function_call mentions.now) }
    {
        for mention in mentions {
            self.add(mention)?;
        }
        Ok(())
    }

    /// Adds a mention, if it is a call.
    fn add(&mut self, mention: &Mention) -> Result<(), NoMemory>
        requires { IsSmallCall mention.now }
        ensures macros { OnOk result (self.new.macros.items ≡ self.old.macros.items ++ option_to_list (macro_call mention.now)) }
        ensures functions { OnOk result (self.new.functions.items
            ≡ self.old.functions.items ++ option_to_list (function_call mention.now)) }
    {
        if !mention.calls {
            return Ok(());
        }
        match mention.is {
            Declaration::Macro(callee) => {
                self.macros.push((to_node(mention.item), to_node(callee)))?
            }
            Declaration::Function(callee) => {
                self.functions
                    .push((to_node(mention.item), to_node(callee)))?
            }
            _ => {}
        }
        Ok(())
    }
}

/// The mentions in the expressions of outputs.
fn output_mentions(alloc: Global, items: &[Item]) -> Result<Vec<Mention>, NoMemory>
    ensures { IfOk result (λ m. m.items ≡ mentions_in_outputs 0 (top (map item_of items.now)) (map item_of items.now)) }
{
    let names = top_names(alloc, items)?;
    let scope = Scope::all(&names);
    let mut mentions = Vec::new(alloc);
    for (number, item) in items.iter().enumerate() {
        add_output(&mut mentions, alloc, number, item, &scope)?;
    }
    Ok(mentions)
}

/// Adds the mentions in an item, if it is an output of an expression.
fn add_output(
    mentions: &mut Vec<Mention>,
    alloc: Global,
    number: usize,
    item: &Item,
    scope: &Scope<'_>,
) -> Result<(), NoMemory>
    ensures { OnOk result (mentions.new.items ≡ mentions.old.items ++ mentions_in_output number (seen scope.now) (item_of item.now)) }
{
    match item {
        // The node of a mention is of no account for calls.
        Item::OutputAs(_, expression, _, _) => {
            add_mentions(mentions, alloc, number, 0, expression, scope)
        }
        // An output of a name alone calls nothing.
        Item::Output(_, _, _) => Ok(()),
        Item::Input(_, _, _, _) => Ok(()),
        Item::Defined(_, _) => Ok(()),
    }
}
