// Written types that may not stand where they do.

ghost use Rattle.std.specs.Prelude.{◌≡◌, map, IfOk};
ghost use Rattle.std.specs.List.{flat_map};
ghost use Rattle.syntax_tree.specs.Tree as tree;
ghost use Rattle.syntax_tree.specs.inner.OneLevel.{params_in, body_of, definition_of, definitions_of, item_of};
ghost use Rattle.name_check.specs.Faults.{first};
ghost use Rattle.name_check.specs.inner.Shown.{part_of};
ghost use Rattle.form_check.specs.Types.{bad_in_part, bad_in_expression, bad_stream, bad_written, bad_in_body, bad_in_locals, bad_in_local};
ghost use Rattle.form_check.specs.Types.{bad_in_params, bad_in_definition, bad_in_item, bad_types};

use name_check::parts::{Part, parts};
use std::alloc::Global;
use syntax_tree::tree::{Body, Definition, DefinitionParts, Expr, Item, Node, Param, TypeName};
use tsl_value::memory::NoMemory;
use tsl_value::place::Place;
use type_rules::written::{bad_as_stream, bad_as_written, bad_in, bad_inside};

/// The first wrong type that is written in the part, without what stands in it.
fn find_in_part(part: &Part<'_>) -> Option<Place>
    ensures { result ≡ first (bad_in_part (part_of part.now)) }
{
    match part {
        Part::Operand(expression) => match expression.node() {
            Node::Nil(of) => bad_inside(of),
            Node::None(of) => bad_inside(of),
            Node::Empty(of) => bad_in(of),
            _ => None,
        },
        Part::Function(_) => None,
    }
}

fn find_in_expression(alloc: Global, expression: &Expr) -> Result<Option<Place>, NoMemory>
    ensures { IfOk result (λ found. found ≡ first (bad_in_expression expression.now)) }
{
    let parts = parts(alloc, expression)?;
    for part in &parts {
        if let Some(place) = find_in_part(part) {
            return Ok(Some(place));
        }
    }
    Ok(None)
}

/// The written type of what has no parameters.
fn find_in_stream(written: &Option<TypeName>) -> Option<Place>
    ensures { result ≡ first (bad_stream written.now) }
{
    match written {
        Some(written) => bad_as_stream(written),
        None => None,
    }
}

/// The written type of what has these parameters.
fn find_in_written(params: &[Param], written: &Option<TypeName>) -> Option<Place>
    ensures { result ≡ first (bad_written (params_in params.now) written.now) }
{
    match written {
        Some(written) => {
            if params.is_empty() {
                bad_as_stream(written)
            } else {
                bad_as_written(written)
            }
        }
        None => None,
    }
}

#[cycle(written)]
fn find_in_body(alloc: Global, body: &Body) -> Result<Option<Place>, NoMemory>
    ensures { IfOk result (λ found. found ≡ first (bad_in_body (body_of body.now))) }
{
    match body {
        Body::Plain(expression) => find_in_expression(alloc, expression),
        Body::Block(definitions, last) => find_in_block(alloc, definitions, last),
    }
}

#[cycle(written)]
fn find_in_block(
    alloc: Global,
    definitions: &[Definition],
    last: &Expr,
) -> Result<Option<Place>, NoMemory>
    ensures { IfOk result (λ found. found ≡ first (bad_in_body (tree.Block (definitions_of definitions.now) last.now))) }
{
    if let Some(place) = find_in_locals(alloc, definitions)? {
        return Ok(Some(place));
    }
    find_in_expression(alloc, last)
}

#[cycle(written)]
fn find_in_locals(alloc: Global, definitions: &[Definition]) -> Result<Option<Place>, NoMemory>
    ensures { IfOk result (λ found. found ≡ first (bad_in_locals (definitions_of definitions.now))) }
{
    for definition in definitions {
        if let Some(place) = find_in_local(alloc, definition.parts())? {
            return Ok(Some(place));
        }
    }
    Ok(None)
}

/// A definition of a block, which has no parameters.
#[cycle(written)]
fn find_in_local(alloc: Global, parts: &DefinitionParts) -> Result<Option<Place>, NoMemory>
    ensures { IfOk result (λ found. found ≡ first (bad_in_local (definition_of parts.now))) }
{
    if let Some(place) = find_in_stream(&parts.written) {
        return Ok(Some(place));
    }
    find_in_body(alloc, &parts.body)
}

fn find_in_params(params: &[Param]) -> Option<Place>
    ensures { result ≡ first (bad_in_params (params_in params.now)) }
{
    for param in params {
        if let Some(place) = bad_as_written(&param.of) {
            return Some(place);
        }
    }
    None
}

/// The definition of an item.
fn find_in_definition(alloc: Global, parts: &DefinitionParts) -> Result<Option<Place>, NoMemory>
    ensures { IfOk result (λ found. found ≡ first (bad_in_definition (definition_of parts.now))) }
{
    if let Some(place) = find_in_params(&parts.params) {
        return Ok(Some(place));
    }
    if let Some(place) = find_in_written(&parts.params, &parts.written) {
        return Ok(Some(place));
    }
    find_in_body(alloc, &parts.body)
}

fn find_in_item(alloc: Global, item: &Item) -> Result<Option<Place>, NoMemory>
    ensures { IfOk result (λ found. found ≡ first (bad_in_item (item_of item.now))) }
{
    match item {
        Item::Input(_, _, _, of) => Ok(bad_as_stream(of)),
        Item::Defined(_, definition) => find_in_definition(alloc, definition.parts()),
        Item::Output(_, _, _) => Ok(None),
        Item::OutputAs(_, expression, _, _) => find_in_expression(alloc, expression),
    }
}

/// The first token of the first type that may not stand where it is written.
pub fn find_bad_type(alloc: Global, items: &[Item]) -> Result<Option<Place>, NoMemory>
    ensures { IfOk result (λ found. found ≡ first (bad_types (map item_of items.now))) }
{
    for item in items {
        if let Some(place) = find_in_item(alloc, item)? {
            return Ok(Some(place));
        }
    }
    Ok(None)
}
