// What definitions are, by their written types or their bodies.

ghost use Rattle.std.specs.Prelude.{◌≡◌, IfOk, None, map, slice_get};
ghost use Rattle.std.specs.Option.{option_and_then};
ghost use Rattle.syntax_tree.specs.Counts.{HasFewInside};
ghost use Rattle.syntax_tree.specs.inner.OneLevel.{body_of, definition_of, item_of};
ghost use Rattle.name_check.specs.Scope.{top};
ghost use Rattle.type_rules.specs.Rules.{body_rule as what_is_asked};
ghost use Rattle.expr_types.specs.Bodies.{fitting, expr_kind, body_kind, item_kind, block_kind};
ghost use Rattle.expr_types.specs.inner.BodySteps.{kind_of_local, kind_of_definition, kind_in_definition};
ghost use Rattle.expr_types.specs.inner.Blocks.{AreBlocks, kind_within};
ghost use Rattle.expr_types.specs.inner.Shown.{around_of, kinds_of};

use crate::around::Around;
use crate::block::{Block, Blocks};
use crate::body::{may_have_braces, setting_of, written_of, written_stream};
use crate::judge::expression;
use crate::kinds::KindTable;
use name_check::names::Names;
use name_check::scope::{Scope, locals, parameters};
use std::alloc::Global;
use syntax_tree::tree::{Body, DefinitionParts, Expr, Item};
use tsl_value::memory::NoMemory;
use type_rules::call::body_rule;
use type_rules::rule::{ExprType, Setting};
use type_rules::written::as_stream;

/// A body without a written type, if it is what is asked of it.
fn fitting(at: Setting, of: Option<ExprType>) -> Option<ExprType>
    ensures { result ≡ option_and_then (λ t. fitting (what_is_asked at None t) t) of }
{
    match of {
        Some(of) => match body_rule(at, None, of) {
            Ok(()) => Some(of),
            Err(_) => None,
        },
        None => None,
    }
}

fn expression_kind(
    alloc: Global,
    at: &Around<'_>,
    body: &Expr,
) -> Result<Option<ExprType>, NoMemory>
    ensures { IfOk result (λ kind. kind ≡ expr_kind (around_of at.now) body.now) }
{
    match expression(alloc, at, body) {
        Ok(of) => Ok(fitting(at.setting, of)),
        Err(stop) => {
            let _wrong = stop.wrong()?;
            Ok(None)
        }
    }
}

/// A body, in which braces may stand or not.
fn body_kind(
    alloc: Global,
    at: &Around<'_>,
    braces: bool,
    body: &Body,
) -> Result<Option<ExprType>, NoMemory>
    requires { HasFewInside (body_of body.now) }
    ensures { IfOk result (λ kind. kind ≡ body_kind (around_of at.now) braces (body_of body.now)) }
{
    match body {
        Body::Plain(only) => expression_kind(alloc, at, only),
        Body::Block(definitions, last) => {
            if braces {
                let scope = Scope::inner(locals(alloc, 0, definitions)?, at.scope);
                expression_kind(alloc, &at.within(&scope), last)
            } else {
                Ok(None)
            }
        }
    }
}

/// What a definition is by its written type or else its body, where this is around it. It is nothing where it has no written
/// type and its body is refused.
pub fn definition_kind(
    alloc: Global,
    at: &Around<'_>,
    parts: &DefinitionParts,
) -> Result<Option<ExprType>, NoMemory>
    requires { HasFewInside (body_of parts.now.body) }
    ensures { IfOk result (λ kind. kind ≡ kind_of_definition (around_of at.now) (definition_of parts.now)) }
{
    match &parts.written {
        Some(_) => Ok(written_of(&parts.params, &parts.written)),
        None => body_kind(alloc, at, may_have_braces(&parts.params), &parts.body),
    }
}

/// What a definition of a block is, where this is around it: what is seen in the block. It has no parameters, and braces may
/// not stand in it.
pub fn local_definition_kind(
    alloc: Global,
    at: &Around<'_>,
    parts: &DefinitionParts,
) -> Result<Option<ExprType>, NoMemory>
    requires { HasFewInside (body_of parts.now.body) }
    ensures { IfOk result (λ kind. kind ≡ kind_of_local (around_of at.now) (definition_of parts.now)) }
{
    match &parts.written {
        Some(_) => Ok(written_stream(&parts.written)),
        None => body_kind(alloc, at, false, &parts.body),
    }
}

/// The definition of a number in the block of an item.
fn kind_within(
    alloc: Global,
    items: &[Item],
    names: &Names,
    kinds: &KindTable,
    block: &Block<'_>,
    number: usize,
    local: usize,
) -> Result<Option<ExprType>, NoMemory>
    requires { names.now ≡ top (map item_of items.now) }
    ensures { IfOk result (λ kind. kind ≡ kind_within (map item_of items.now) (kinds_of kinds.now) number local block.now) }
{
    // A macro's parameters are streams, so all names are seen around it.
    let outer = Scope::all(names);
    let around = Scope::within(&block.around, &outer);
    let scope = Scope::within(&block.inside, &around);
    let at = Around {
        items,
        kinds,
        scope: &scope,
        setting: Setting::Streams,
        number,
        params: block.params,
    };
    match block.definition(local) {
        Some(definition) => local_definition_kind(alloc, &at, definition.parts()),
        None => Ok(None),
    }
}

fn kind_in_definition(
    alloc: Global,
    items: &[Item],
    names: &Names,
    kinds: &KindTable,
    number: usize,
    parts: &DefinitionParts,
) -> Result<Option<ExprType>, NoMemory>
    requires names { names.now ≡ top (map item_of items.now) }
    requires few { HasFewInside (body_of parts.now.body) }
    ensures { IfOk result (λ kind. kind ≡ kind_in_definition (map item_of items.now) (kinds_of kinds.now) number
        (definition_of parts.now)) }
{
    let params = parts.params.as_slice();
    let outer = Scope::around(names, params);
    let scope = Scope::inner(parameters(alloc, params)?, &outer);
    let at = Around {
        items,
        kinds,
        scope: &scope,
        setting: setting_of(params),
        number,
        params,
    };
    definition_kind(alloc, &at, parts)
}

/// What the item of a number is by its written type or its body, where these names are declared at the top and are these. Of
/// a macro or a value function it is what a call of it gives.
pub fn item_kind(
    alloc: Global,
    items: &[Item],
    names: &Names,
    kinds: &KindTable,
    number: usize,
) -> Result<Option<ExprType>, NoMemory>
    requires { names.now ≡ top (map item_of items.now) }
    ensures { IfOk result (λ kind. kind ≡ item_kind (map item_of items.now) (kinds_of kinds.now) number
        (slice_get (map item_of items.now) number)) }
{
    match items.get(number) {
        Some(Item::Input(_, _, _, of)) => Ok(as_stream(of)),
        Some(Item::Defined(_, definition)) => {
            kind_in_definition(alloc, items, names, kinds, number, definition.parts())
        }
        Some(Item::Output(_, _, _)) => Ok(None),
        Some(Item::OutputAs(_, _, _, _)) => Ok(None),
        None => Ok(None),
    }
}

/// What a definition of an item's block is, as `item_kind` says it of an item, where these are the blocks of the items.
pub fn block_kind(
    alloc: Global,
    items: &[Item],
    names: &Names,
    kinds: &KindTable,
    blocks: &Blocks<'_>,
    number: usize,
    local: usize,
) -> Result<Option<ExprType>, NoMemory>
    requires names { names.now ≡ top (map item_of items.now) }
    requires blocks { AreBlocks blocks.now (map item_of items.now) }
    ensures { IfOk result (λ kind. kind ≡ block_kind (map item_of items.now) (kinds_of kinds.now) number local
        (slice_get (map item_of items.now) number)) }
{
    match blocks.at(number) {
        Some(block) => kind_within(alloc, items, names, kinds, block, number, local),
        None => Ok(None),
    }
}
