// Names that are not declared where they stand.

ghost use Rattle.std.specs.Prelude.{◌≡◌, map, not, ◌||◌, IfOk};
ghost use Rattle.std.specs.List.{flat_map};
ghost use Rattle.syntax_tree.specs.Tree as tree;
ghost use Rattle.syntax_tree.specs.Counts.{AreFew, HasFewInside};
ghost use Rattle.syntax_tree.specs.inner.OneLevel.{body_of, definition_of, definitions_of, item_of};
ghost use Rattle.name_check.specs.Builtin.{is_called as is_called_name, is_unit as is_unit_name};
ghost use Rattle.name_check.specs.Scope.{meaning, seen};
ghost use Rattle.name_check.specs.inner.Shown.{part_of};
ghost use Rattle.name_check.specs.Faults.{first, is_mentionable, is_declared, is_a_function, is_unknown, unknown_in};
ghost use Rattle.name_check.specs.inner.Steps.{local_body, unknown_in_body, unknown_in_locals, unknown_in_definition, unknown_in_item};

use crate::builtin::{is_called, is_unit};
use crate::names::Names;
use crate::parts::{Part, parts};
use crate::scope::{Scope, locals, parameters};
use std::alloc::Global;
use syntax_tree::tree::{Body, Definition, DefinitionParts, Expr, Item, Node};
use tsl_value::memory::NoMemory;
use tsl_value::place::Place;

/// The name may not stand alone here.
fn is_unknown_alone(scope: &Scope<'_>, name: &str) -> bool
    ensures { result ≡ not (is_unit_name name.now || is_mentionable (meaning (seen scope.now) name.now)) }
{
    if is_unit(name) {
        return false;
    }
    match scope.find(name) {
        Some(declaration) => declaration.takes_arguments(),
        None => true,
    }
}

/// The name may not be called here.
fn is_unknown_call(scope: &Scope<'_>, name: &str) -> bool
    ensures { result ≡ not (is_unit_name name.now || is_called_name name.now || is_declared (meaning (seen scope.now) name.now)) }
{
    !is_unit(name) && !is_called(name) && scope.find(name).is_none()
}

/// The name is no value function here.
fn is_no_function(scope: &Scope<'_>, name: &str) -> bool
    ensures { result ≡ not (is_a_function (meaning (seen scope.now) name.now)) }
{
    match scope.find(name) {
        Some(declaration) => !declaration.is_function(),
        None => true,
    }
}

/// The part is a name that may not stand here.
fn is_unknown(scope: &Scope<'_>, part: &Part<'_>) -> bool
    ensures { result ≡ is_unknown (seen scope.now) (part_of part.now) }
{
    match part {
        Part::Operand(expression) => match expression.node() {
            Node::Name(name) => is_unknown_alone(scope, name.as_str()),
            Node::Call(name, _) => is_unknown_call(scope, name.as_str()),
            _ => false,
        },
        Part::Function(expression) => match expression.node() {
            Node::Name(name) => is_no_function(scope, name.as_str()),
            _ => true,
        },
    }
}

fn find_in_expression(
    alloc: Global,
    expression: &Expr,
    scope: &Scope<'_>,
) -> Result<Option<Place>, NoMemory>
    ensures { IfOk result (λ found. found ≡ first (unknown_in (record { scope = seen scope.now; expr = expression.now }))) }
{
    let parts = parts(alloc, expression)?;
    for part in &parts {
        if is_unknown(scope, part) {
            return Ok(Some(part.place()));
        }
    }
    Ok(None)
}

#[cycle(unknown)]
fn find_in_body(alloc: Global, body: &Body, scope: &Scope<'_>) -> Result<Option<Place>, NoMemory>
    requires { HasFewInside (body_of body.now) }
    ensures { IfOk result (λ found. found ≡ first (unknown_in_body (seen scope.now) (body_of body.now))) }
{
    match body {
        Body::Plain(expression) => find_in_expression(alloc, expression, scope),
        Body::Block(definitions, last) => find_in_block(alloc, definitions, last, scope),
    }
}

#[cycle(unknown)]
fn find_in_block(
    alloc: Global,
    definitions: &[Definition],
    last: &Expr,
    scope: &Scope<'_>,
) -> Result<Option<Place>, NoMemory>
    requires { AreFew (definitions_of definitions.now) }
    ensures { IfOk result (λ found. found
        ≡ first (unknown_in_body (seen scope.now) (tree.Block (definitions_of definitions.now) last.now))) }
{
    // Which numbers the definitions have does not matter here.
    let inner = Scope::inner(locals(alloc, 0, definitions)?, scope);
    if let Some(place) = find_in_locals(alloc, definitions, &inner)? {
        return Ok(Some(place));
    }
    find_in_expression(alloc, last, &inner)
}

#[cycle(unknown)]
fn find_in_locals(
    alloc: Global,
    definitions: &[Definition],
    scope: &Scope<'_>,
) -> Result<Option<Place>, NoMemory>
    ensures { IfOk result (λ found. found ≡ first (unknown_in_locals (seen scope.now) (definitions_of definitions.now))) }
{
    for definition in definitions {
        if let Some(place) = find_in_local(alloc, definition.parts(), scope)? {
            return Ok(Some(place));
        }
    }
    Ok(None)
}

/// A definition of a block, which has no parameters.
#[cycle(unknown)]
fn find_in_local(
    alloc: Global,
    parts: &DefinitionParts,
    scope: &Scope<'_>,
) -> Result<Option<Place>, NoMemory>
    requires { HasFewInside (body_of parts.now.body) }
    ensures { IfOk result (λ found. found ≡ first (unknown_in_body (seen scope.now) (local_body (definition_of parts.now)))) }
{
    find_in_body(alloc, &parts.body, scope)
}

fn find_in_definition(
    alloc: Global,
    parts: &DefinitionParts,
    names: &Names,
) -> Result<Option<Place>, NoMemory>
    requires { HasFewInside (body_of parts.now.body) }
    ensures { IfOk result (λ found. found ≡ first (unknown_in_definition names.now (definition_of parts.now))) }
{
    let outer = Scope::around(names, &parts.params);
    let scope = Scope::inner(parameters(alloc, &parts.params)?, &outer);
    find_in_body(alloc, &parts.body, &scope)
}

fn find_in_item(alloc: Global, item: &Item, names: &Names) -> Result<Option<Place>, NoMemory>
    ensures { IfOk result (λ found. found ≡ first (unknown_in_item names.now (item_of item.now))) }
{
    match item {
        Item::Input(_, _, _, _) => Ok(None),
        Item::Defined(_, definition) => find_in_definition(alloc, definition.parts(), names),
        Item::Output(_, place, name) => {
            if is_unknown_alone(&Scope::all(names), name.as_str()) {
                Ok(Some(*place))
            } else {
                Ok(None)
            }
        }
        Item::OutputAs(_, expression, _, _) => {
            find_in_expression(alloc, expression, &Scope::all(names))
        }
    }
}

/// The first name that is not declared where it stands, where these names are seen at the top.
pub(crate) fn find_in_items(
    alloc: Global,
    items: &[Item],
    names: &Names,
) -> Result<Option<Place>, NoMemory>
    ensures { IfOk result (λ found. found ≡ first (flat_map (unknown_in_item names.now) (map item_of items.now))) }
{
    for item in items {
        if let Some(place) = find_in_item(alloc, item, names)? {
            return Ok(Some(place));
        }
    }
    Ok(None)
}
