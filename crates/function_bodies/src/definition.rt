// What value functions become.

ghost use Rattle.std.specs.Prelude.{◌≡◌, IfOk, IfSome, Some, None};
ghost use Rattle.syntax_tree.specs.inner.OneLevel.{body_of, definition_of, item_of};
ghost use Rattle.spec_meaning.specs.Occurrence.{result_of};
ghost use Rattle.function_bodies.specs.inner.Made.{IsDefinitionMade, IsItemMade, function_places, item_places};
ghost use Rattle.name_check.specs.Faults.{first};

use crate::around::Around;
use crate::expression::expression;
use lift_func::body::Body;
use name_check::names::Names;
use name_check::scope::{Scope, are_values, parameters};
use std::alloc::Global;
use syntax_tree::tree::{Body as Written, DefinitionParts, Expr, Item};
use tsl_value::memory::NoMemory;
use tsl_value::place::Place;

/// The expression of a body. A value function has no definitions between braces.
fn result_of(body: &Written) -> &Expr
    ensures { result.now ≡ result_of (body_of body.now) }
{
    match body {
        Written::Plain(result) => result,
        Written::Block(_, result) => result,
    }
}

/// The body of a definition, if it is a value function whose body has not too many nodes. Those that it calls are made.
fn definition_body(
    alloc: Global,
    parts: &DefinitionParts,
    names: &Names,
    functions: &[Option<Body>],
) -> Result<Option<Body>, NoMemory>
    ensures { IfOk result (λ b. IsDefinitionMade functions.now names.now (definition_of parts.now) b) }
{
    if !are_values(&parts.params) {
        return Ok(None);
    }
    let outer = Scope::functions(names);
    let scope = Scope::inner(parameters(alloc, &parts.params)?, &outer);
    let at = Around {
        functions,
        scope: &scope,
        params: &parts.params,
    };
    expression(alloc, &at, result_of(&parts.body))
}

/// The body of an item, if it is a value function whose body has not too many nodes.
pub(crate) fn item_body(
    alloc: Global,
    item: &Item,
    names: &Names,
    functions: &[Option<Body>],
) -> Result<Option<Body>, NoMemory>
    ensures { IfOk result (λ b. IsItemMade functions.now names.now (item_of item.now) b) }
{
    match item {
        Item::Defined(_, definition) => {
            definition_body(alloc, definition.parts(), names, functions)
        }
        Item::Input(_, _, _, _) => Ok(None),
        Item::Output(_, _, _) => Ok(None),
        Item::OutputAs(_, _, _, _) => Ok(None),
    }
}

fn definition_place(parts: &DefinitionParts) -> Option<Place>
    ensures { result ≡ first (function_places (definition_of parts.now)) }
{
    if are_values(&parts.params) {
        Some(parts.place)
    } else {
        None
    }
}

/// Where the name of an item stands, if it is a value function.
pub(crate) fn item_place(item: &Item) -> Option<Place>
    ensures { result ≡ first (item_places (item_of item.now)) }
{
    match item {
        Item::Defined(_, definition) => definition_place(definition.parts()),
        Item::Input(_, _, _, _) => None,
        Item::Output(_, _, _) => None,
        Item::OutputAs(_, _, _, _) => None,
    }
}
