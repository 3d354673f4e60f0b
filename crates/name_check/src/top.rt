// The names of the top of any specification, where names may be declared twice.

ghost use Rattle.std.specs.Prelude.{◌≡◌, [], ◌∷◌, ◌++◌, map, IfOk, OnOk};
ghost use Rattle.syntax_tree.specs.inner.OneLevel.{definition_of, item_of};
ghost use Rattle.name_check.specs.Scope.{Agree, functions_of, top};
ghost use Rattle.name_check.specs.inner.Steps.{declared_by, declared_by_definition};

use crate::declaration::Declaration;
use crate::names::Names;
use crate::twice::declared_as;
use std::alloc::Global;
use syntax_tree::tree::{DefinitionParts, Item};
use tsl_value::memory::NoMemory;

/// The names that items declare, the first of which has number 0. The first of two equal names counts.
pub fn top_names(alloc: Global, items: &[Item]) -> Result<Names, NoMemory>
    ensures { IfOk result (λ names. Agree names (top (map item_of items.now))) }
{
    let mut names = Names::new(alloc);
    for (number, item) in items.iter().enumerate() {
        add_item(&mut names, number, item)?;
    }
    Ok(names)
}

/// The value functions among them. The first of two equal names counts.
pub fn top_functions(alloc: Global, items: &[Item]) -> Result<Names, NoMemory>
    ensures { IfOk result (λ names. Agree names (functions_of (top (map item_of items.now)))) }
{
    let mut names = Names::new(alloc);
    for (number, item) in items.iter().enumerate() {
        add_function_of(&mut names, number, item)?;
    }
    Ok(names)
}

/// Adds what an item with this number declares.
fn add_item(names: &mut Names, number: usize, item: &Item) -> Result<(), NoMemory>
    ensures { OnOk result (Agree names.new (names.old ++ declared_by number (item_of item.now))) }
{
    match item {
        Item::Input(_, _, name, _) => add(names, name.as_str(), Declaration::Input(number)),
        Item::Defined(_, definition) => add_definition(names, number, definition.parts()),
        Item::Output(_, _, _) => Ok(()),
        Item::OutputAs(_, _, _, _) => Ok(()),
    }
}

fn add_definition(names: &mut Names, number: usize, parts: &DefinitionParts) -> Result<(), NoMemory>
    ensures { OnOk result (Agree names.new (names.old ++ declared_by_definition number (definition_of parts.now))) }
{
    let is = declared_as(number, &parts.params);
    add(names, parts.name.as_str(), is)
}

/// Adds the value function that an item with this number defines, if it defines one.
fn add_function_of(names: &mut Names, number: usize, item: &Item) -> Result<(), NoMemory>
    ensures { OnOk result (Agree names.new (names.old ++ functions_of (declared_by number (item_of item.now)))) }
{
    match item {
        Item::Defined(_, definition) => add_function(names, number, definition.parts()),
        Item::Input(_, _, _, _) => Ok(()),
        Item::Output(_, _, _) => Ok(()),
        Item::OutputAs(_, _, _, _) => Ok(()),
    }
}

fn add_function(names: &mut Names, number: usize, parts: &DefinitionParts) -> Result<(), NoMemory>
    ensures { OnOk result (Agree names.new (names.old ++ functions_of (declared_by_definition number (definition_of parts.now)))) }
{
    let is = declared_as(number, &parts.params);
    if is.is_function() {
        add(names, parts.name.as_str(), is)
    } else {
        Ok(())
    }
}

/// Adds a name. If it is there, it keeps what it stands for.
fn add(names: &mut Names, name: &str, is: Declaration) -> Result<(), NoMemory>
    ensures { OnOk result (Agree names.new (names.old ++ record { name = name.now; is = is } ∷ [])) }
{
    let _new = names.declare(name, is)?;
    Ok(())
}
