// Bodies, and what is asked of them.

ghost use Rattle.std.specs.Prelude.{◌≡◌, ◌++◌, IfOk, None};
ghost use Rattle.std.specs.List.{list_all};
ghost use Rattle.std.specs.Option.{option_and_then, option_map};
ghost use Rattle.syntax_tree.specs.Counts.{HasFewInside};
ghost use Rattle.syntax_tree.specs.inner.OneLevel.{body_of, definition_of, definitions_of, params_in};
ghost use Rattle.syntax_tree.specs.Tree as tree;
ghost use Rattle.name_check.specs.Scope.{is_events as has_events};
ghost use Rattle.type_rules.specs.Written.{as_stream as stream_that_is, as_written as just_what_is};
ghost use Rattle.expr_types.specs.Bodies.{setting_of, may_have_braces, written_of, expr_wrongs, braces_place, plain_wrongs, local_wrongs};
ghost use Rattle.expr_types.specs.Bodies.{macro_wrongs};
ghost use Rattle.expr_types.specs.inner.BodySteps.{asked_clash, local_plain_wrongs, definition_wrongs};
ghost use Rattle.expr_types.specs.inner.Shown.{around_of};
ghost use Rattle.expr_types.specs.inner.Answers.{first};
ghost use Rattle.expr_types.specs.declared.wrong.Wrong.TheVariants as wrong;

use crate::around::Around;
use crate::judge::expression;
use crate::leaf::mentioned;
use crate::wrong::Wrong;
use name_check::scope::{Scope, are_values, is_events, locals};
use std::alloc::Global;
use syntax_tree::tree::{Body, Definition, DefinitionParts, Expr, Param, TypeName};
use tsl_value::memory::NoMemory;
use tsl_value::place::Place;
use type_rules::call::body_rule;
use type_rules::rule::{Clash, ExprType, Setting};
use type_rules::written::{as_stream, as_written};

pub(crate) fn setting_of(params: &[Param]) -> Setting
    ensures { result ≡ setting_of (params_in params.now) }
{
    if are_values(params) {
        Setting::Values
    } else {
        Setting::Streams
    }
}

fn all_are_streams(params: &[Param]) -> bool
    ensures { result ≡ list_all (λ q. has_events q.of) params.now }
{
    params.iter().all(|param| is_events(&param.of))
}

/// Braces may stand in a macro alone.
pub(crate) fn may_have_braces(params: &[Param]) -> bool
    ensures { result ≡ may_have_braces (params_in params.now) }
{
    !params.is_empty() && all_are_streams(params)
}

/// What is written, of a definition without parameters.
pub(crate) fn written_stream(written: &Option<TypeName>) -> Option<ExprType>
    ensures { result ≡ option_and_then stream_that_is written.now }
{
    match written {
        Some(written) => as_stream(written),
        None => None,
    }
}

/// What is written, of a definition with parameters.
fn written_just(written: &Option<TypeName>) -> Option<ExprType>
    ensures { result ≡ option_and_then just_what_is written.now }
{
    match written {
        Some(written) => as_written(written),
        None => None,
    }
}

/// What is written: of a definition without parameters a stream, of another just what stands there.
pub(crate) fn written_of(params: &[Param], written: &Option<TypeName>) -> Option<ExprType>
    ensures { result ≡ written_of (params_in params.now) written.now }
{
    if params.is_empty() {
        written_stream(written)
    } else {
        written_just(written)
    }
}

/// What is refused of the expression of a body, if it is something.
fn asked_clash(at: Setting, written: Option<ExprType>, of: Option<ExprType>) -> Option<Clash>
    ensures { result ≡ asked_clash at written of }
{
    match of {
        Some(of) => body_rule(at, written, of).err(),
        None => None,
    }
}

fn part_at(place: Place, clash: Option<Clash>) -> Option<Wrong>
    ensures { result ≡ option_map (wrong.Part place) clash }
{
    match clash {
        Some(clash) => Some(Wrong::Part { place, clash }),
        None => None,
    }
}

/// In the expression of a body, and then what is asked of it.
pub(crate) fn find_in_expression(
    alloc: Global,
    at: &Around<'_>,
    written: Option<ExprType>,
    body: &Expr,
) -> Result<Option<Wrong>, NoMemory>
    ensures { IfOk result (λ found. found ≡ first (expr_wrongs (around_of at.now) written body.now)) }
{
    match expression(alloc, at, body) {
        Ok(of) => {
            let clash = asked_clash(at.setting, written, of);
            Ok(part_at(body.place(), clash))
        }
        Err(stop) => Ok(Some(stop.wrong()?)),
    }
}

/// An output that is the mention of a name.
pub(crate) fn find_in_mention(at: &Around<'_>, place: Place, name: &str) -> Option<Wrong>
    ensures { result ≡ first (expr_wrongs (around_of at.now) None (tree.Name place name.now)) }
{
    let of = mentioned(at, name);
    part_at(place, asked_clash(at.setting, None, of))
}

/// The place of what stands between braces.
fn braces_place(definitions: &[Definition], last: &Expr) -> Place
    ensures { result ≡ braces_place (definitions_of definitions.now) last.now }
{
    match definitions.first() {
        Some(definition) => definition.parts().place,
        None => last.place(),
    }
}

/// A body in which braces may not stand.
fn find_in_plain(
    alloc: Global,
    at: &Around<'_>,
    written: Option<ExprType>,
    body: &Body,
) -> Result<Option<Wrong>, NoMemory>
    ensures { IfOk result (λ found. found ≡ first (plain_wrongs (around_of at.now) written (body_of body.now))) }
{
    match body {
        Body::Plain(only) => find_in_expression(alloc, at, written, only),
        Body::Block(definitions, last) => Ok(Some(Wrong::Braces {
            place: braces_place(definitions, last),
            written,
        })),
    }
}

/// A definition of a block, which has no parameters.
fn find_in_local(
    alloc: Global,
    at: &Around<'_>,
    parts: &DefinitionParts,
) -> Result<Option<Wrong>, NoMemory>
    ensures { IfOk result (λ found. found ≡ first (local_plain_wrongs (around_of at.now) (definition_of parts.now))) }
{
    find_in_plain(alloc, at, written_stream(&parts.written), &parts.body)
}

fn find_in_locals(
    alloc: Global,
    at: &Around<'_>,
    definitions: &[Definition],
) -> Result<Option<Wrong>, NoMemory>
    ensures { IfOk result (λ found. found ≡ first (local_wrongs (around_of at.now) (definitions_of definitions.now))) }
{
    for definition in definitions {
        if let Some(wrong) = find_in_local(alloc, at, definition.parts())? {
            return Ok(Some(wrong));
        }
    }
    Ok(None)
}

/// The block of a macro, at what is seen in it.
fn find_in_block(
    alloc: Global,
    at: &Around<'_>,
    written: Option<ExprType>,
    definitions: &[Definition],
    last: &Expr,
) -> Result<Option<Wrong>, NoMemory>
    ensures { IfOk result (λ found. found
        ≡ first (local_wrongs (around_of at.now) (definitions_of definitions.now) ++ expr_wrongs (around_of at.now) written last.now)) }
{
    if let Some(wrong) = find_in_locals(alloc, at, definitions)? {
        return Ok(Some(wrong));
    }
    find_in_expression(alloc, at, written, last)
}

/// The body of a macro.
fn find_in_macro(
    alloc: Global,
    at: &Around<'_>,
    written: Option<ExprType>,
    body: &Body,
) -> Result<Option<Wrong>, NoMemory>
    requires { HasFewInside (body_of body.now) }
    ensures { IfOk result (λ found. found ≡ first (macro_wrongs (around_of at.now) written (body_of body.now))) }
{
    match body {
        Body::Plain(only) => find_in_expression(alloc, at, written, only),
        Body::Block(definitions, last) => {
            let scope = Scope::inner(locals(alloc, 0, definitions)?, at.scope);
            find_in_block(alloc, &at.within(&scope), written, definitions, last)
        }
    }
}

/// The definition of an item, with what is seen in it.
pub(crate) fn find_in_body(
    alloc: Global,
    at: &Around<'_>,
    parts: &DefinitionParts,
) -> Result<Option<Wrong>, NoMemory>
    requires { HasFewInside (body_of parts.now.body) }
    ensures { IfOk result (λ found. found ≡ first (definition_wrongs (around_of at.now) (definition_of parts.now))) }
{
    let written = written_of(&parts.params, &parts.written);
    if may_have_braces(&parts.params) {
        find_in_macro(alloc, at, written, &parts.body)
    } else {
        find_in_plain(alloc, at, written, &parts.body)
    }
}
