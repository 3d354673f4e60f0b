// Calls with a wrong number of arguments, and value functions of too many parameters.

ghost use Rattle.std.specs.Prelude.{◌≡◌, map, IfOk};
ghost use Rattle.std.specs.List.{flat_map};
ghost use Rattle.syntax_tree.specs.Tree as tree;
ghost use Rattle.syntax_tree.specs.Counts.{AreFew, HasFewInside};
ghost use Rattle.syntax_tree.specs.inner.OneLevel.{body_of, definition_of, definitions_of, item_of};
ghost use Rattle.name_check.specs.Scope.{seen};
ghost use Rattle.name_check.specs.Bodies.{item_bodies};
ghost use Rattle.name_check.specs.Faults.{first};
ghost use Rattle.name_check.specs.inner.Steps.{local_body};
ghost use Rattle.form_check.specs.Arity.{wrong_in, too_many_in_definition, too_many_in_item, wrong_in_item, wrong_where};
ghost use Rattle.form_check.specs.inner.Steps.{wrong_in_body, wrong_in_locals, wrong_in_definition};

use crate::call::is_wrong;
use name_check::names::Names;
use name_check::parts::parts;
use name_check::scope::{Scope, are_values, locals, parameters};
use std::alloc::Global;
use syntax_tree::tree::{Body, Definition, DefinitionParts, Expr, Item};
use tsl_value::memory::NoMemory;
use tsl_value::place::Place;

fn find_in_expression(
    alloc: Global,
    items: &[Item],
    expression: &Expr,
    scope: &Scope<'_>,
) -> Result<Option<Place>, NoMemory>
    ensures { IfOk result (λ found. found
        ≡ first (wrong_in (map item_of items.now) (record { scope = seen scope.now; expr = expression.now }))) }
{
    let parts = parts(alloc, expression)?;
    for part in &parts {
        if is_wrong(items, scope, part) {
            return Ok(Some(part.place()));
        }
    }
    Ok(None)
}

#[cycle(arity)]
fn find_in_body(
    alloc: Global,
    items: &[Item],
    body: &Body,
    scope: &Scope<'_>,
) -> Result<Option<Place>, NoMemory>
    requires { HasFewInside (body_of body.now) }
    ensures { IfOk result (λ found. found ≡ first (wrong_in_body (map item_of items.now) (seen scope.now) (body_of body.now))) }
{
    match body {
        Body::Plain(expression) => find_in_expression(alloc, items, expression, scope),
        Body::Block(definitions, last) => find_in_block(alloc, items, definitions, last, scope),
    }
}

#[cycle(arity)]
fn find_in_block(
    alloc: Global,
    items: &[Item],
    definitions: &[Definition],
    last: &Expr,
    scope: &Scope<'_>,
) -> Result<Option<Place>, NoMemory>
    requires { AreFew (definitions_of definitions.now) }
    ensures { IfOk result (λ found. found
        ≡ first (wrong_in_body (map item_of items.now) (seen scope.now) (tree.Block (definitions_of definitions.now) last.now))) }
{
    // Which numbers the definitions have does not matter here.
    let inner = Scope::inner(locals(alloc, 0, definitions)?, scope);
    if let Some(place) = find_in_locals(alloc, items, definitions, &inner)? {
        return Ok(Some(place));
    }
    find_in_expression(alloc, items, last, &inner)
}

#[cycle(arity)]
fn find_in_locals(
    alloc: Global,
    items: &[Item],
    definitions: &[Definition],
    scope: &Scope<'_>,
) -> Result<Option<Place>, NoMemory>
    ensures { IfOk result (λ found. found
        ≡ first (wrong_in_locals (map item_of items.now) (seen scope.now) (definitions_of definitions.now))) }
{
    for definition in definitions {
        if let Some(place) = find_in_local(alloc, items, definition.parts(), scope)? {
            return Ok(Some(place));
        }
    }
    Ok(None)
}

/// A definition of a block, which has no parameters.
#[cycle(arity)]
fn find_in_local(
    alloc: Global,
    items: &[Item],
    parts: &DefinitionParts,
    scope: &Scope<'_>,
) -> Result<Option<Place>, NoMemory>
    requires { HasFewInside (body_of parts.now.body) }
    ensures { IfOk result (λ found. found
        ≡ first (wrong_in_body (map item_of items.now) (seen scope.now) (local_body (definition_of parts.now)))) }
{
    find_in_body(alloc, items, &parts.body, scope)
}

/// The calls in the body of a definition of an item.
fn find_in_definition(
    alloc: Global,
    items: &[Item],
    parts: &DefinitionParts,
    names: &Names,
) -> Result<Option<Place>, NoMemory>
    requires { HasFewInside (body_of parts.now.body) }
    ensures { IfOk result (λ found. found ≡ first (wrong_in_definition (map item_of items.now) names.now (definition_of parts.now))) }
{
    let outer = Scope::around(names, &parts.params);
    let scope = Scope::inner(parameters(alloc, &parts.params)?, &outer);
    find_in_body(alloc, items, &parts.body, &scope)
}

/// The name of a value function of more than eight parameters.
fn find_too_many_in_definition(parts: &DefinitionParts) -> Option<Place>
    ensures { result ≡ first (too_many_in_definition (definition_of parts.now)) }
{
    if are_values(&parts.params) && 8 < parts.params.len() {
        Some(parts.place)
    } else {
        None
    }
}

fn find_too_many_in_item(item: &Item) -> Option<Place>
    ensures { result ≡ first (too_many_in_item (item_of item.now)) }
{
    match item {
        Item::Defined(_, definition) => find_too_many_in_definition(definition.parts()),
        Item::Input(_, _, _, _) => None,
        Item::Output(_, _, _) => None,
        Item::OutputAs(_, _, _, _) => None,
    }
}

/// The calls in an item.
fn find_calls_in_item(
    alloc: Global,
    items: &[Item],
    item: &Item,
    names: &Names,
) -> Result<Option<Place>, NoMemory>
    ensures { IfOk result (λ found. found
        ≡ first (flat_map (wrong_in (map item_of items.now)) (item_bodies names.now (item_of item.now)))) }
{
    match item {
        Item::Input(_, _, _, _) => Ok(None),
        Item::Defined(_, definition) => find_in_definition(alloc, items, definition.parts(), names),
        Item::Output(_, _, _) => Ok(None),
        Item::OutputAs(_, expression, _, _) => {
            find_in_expression(alloc, items, expression, &Scope::all(names))
        }
    }
}

fn find_in_item(
    alloc: Global,
    items: &[Item],
    item: &Item,
    names: &Names,
) -> Result<Option<Place>, NoMemory>
    ensures { IfOk result (λ found. found ≡ first (wrong_in_item (map item_of items.now) names.now (item_of item.now))) }
{
    if let Some(place) = find_too_many_in_item(item) {
        return Ok(Some(place));
    }
    find_calls_in_item(alloc, items, item, names)
}

/// The first place in the source of a call with another number of arguments than it takes, or of the name of a value function with
/// more than eight parameters. These names are seen at the top.
pub fn find_wrong_arity(
    alloc: Global,
    items: &[Item],
    names: &Names,
) -> Result<Option<Place>, NoMemory>
    ensures { IfOk result (λ found. found ≡ first (wrong_where names.now (map item_of items.now))) }
{
    for item in items {
        if let Some(place) = find_in_item(alloc, items, item, names)? {
            return Ok(Some(place));
        }
    }
    Ok(None)
}
