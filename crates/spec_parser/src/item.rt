// Items, and all of them.

ghost use Rattle.std.specs.Prelude.{◌≡◌, ◌<◌, ◌^◌, [], map, option_map};
ghost use Rattle.syntax_tree.specs.inner.OneLevel.{item_of};
ghost use Rattle.spec_parser.specs.inner.Reading.{input_after, plain_output, printed_as as reading_printed, after_output, output_after};
ghost use Rattle.spec_parser.specs.inner.Reading.{at_item, specification};
ghost use Rattle.spec_parser.specs.inner.PartReaders.{given};
ghost use Rattle.spec_parser.specs.Words.{is_as};
ghost use Rattle.spec_parser.specs.inner.Gives.{Gives, TurnGives};

use crate::definition::definition;
use crate::expression::within_room;
use crate::mark::{Mark, pass};
use crate::stop::Stop;
use crate::type_name::type_in_room;
use spec_lexer::token::{Token, TokenKind, Word};
use std::alloc::Global;
use syntax_tree::tree::{Expr, Item, Node};
use tsl_value::place::Place;

fn input(
    alloc: Global,
    room: u32,
    place: Place,
    tokens: &[Token],
) -> Result<(Item, &[Token]), Stop<'_>>
    requires { room < 2 ^ 31 }
    ensures { Gives (λ x. (item_of x.0, x.1.now)) result (input_after room place tokens.now) }
{
    match tokens {
        [] => Err(Stop::Unexpected(tokens)),
        [token, rest @ ..] => match &token.kind {
            TokenKind::Name(name) => {
                let rest = pass(Mark::Colon, rest)?;
                let (of, rest) = type_in_room(alloc, room + 1, rest)?;
                Ok((Item::Input(place, token.place, name.copy()?, of), rest))
            }
            _ => Err(Stop::Unexpected(tokens)),
        },
    }
}

/// A plain name alone.
fn plain(place: Place, expression: Expr, alone: bool) -> Option<Item>
    ensures { option_map item_of result ≡ plain_output place (expression, alone) }
{
    if !alone {
        return None;
    }
    let at = expression.place();
    match expression.into_node() {
        Node::Name(name) => Some(Item::Output(place, at, name)),
        _ => None,
    }
}

/// The name after `as`.
fn printed(place: Place, expression: Expr, tokens: &[Token]) -> Result<(Item, &[Token]), Stop<'_>>
    ensures { Gives (λ x. (item_of x.0, x.1.now)) result (reading_printed place expression tokens.now) }
{
    match tokens {
        [] => Err(Stop::Unexpected(tokens)),
        [token, rest @ ..] => match &token.kind {
            TokenKind::Name(name) => {
                let name = name.copy()?;
                Ok((Item::OutputAs(place, expression, token.place, name), rest))
            }
            _ => Err(Stop::Unexpected(tokens)),
        },
    }
}

fn begins_printed_name(token: &Token) -> bool
    ensures { result ≡ is_as token.now.kind }
{
    matches!(&token.kind, TokenKind::Word(Word::As))
}

/// An output without `as`.
fn unprinted(
    place: Place,
    expression: Expr,
    alone: bool,
    tokens: &[Token],
) -> Result<(Item, &[Token]), Stop<'_>>
    ensures { Gives (λ x. (item_of x.0, x.1.now)) result (given (plain_output place (expression, alone)) tokens.now) }
{
    match plain(place, expression, alone) {
        Some(item) => Ok((item, tokens)),
        None => Err(Stop::Unexpected(tokens)),
    }
}

/// What stands after the expression of an output.
fn after_expression(
    place: Place,
    expression: Expr,
    alone: bool,
    tokens: &[Token],
) -> Result<(Item, &[Token]), Stop<'_>>
    ensures { Gives (λ x. (item_of x.0, x.1.now)) result (after_output place (expression, alone) tokens.now) }
{
    match tokens.split_first() {
        None => unprinted(place, expression, alone, tokens),
        Some((token, rest)) => {
            if begins_printed_name(token) {
                printed(place, expression, rest)
            } else {
                unprinted(place, expression, alone, tokens)
            }
        }
    }
}

fn output(
    alloc: Global,
    room: u32,
    place: Place,
    tokens: &[Token],
) -> Result<(Item, &[Token]), Stop<'_>>
    requires { room < 2 ^ 31 }
    ensures { Gives (λ x. (item_of x.0, x.1.now)) result (output_after room place tokens.now) }
{
    let (expression, rest) = within_room(alloc, room + 1, tokens)?;
    let alone = tokens.len() == 1 + rest.len();
    after_expression(place, expression, alone, rest)
}

/// The item that begins at a token, if one does.
fn item_at<'a>(
    alloc: Global,
    room: u32,
    token: &Token,
    after: &'a [Token],
) -> Result<Option<(Item, &'a [Token])>, Stop<'a>>
    requires { room < 2 ^ 31 }
    ensures { TurnGives (λ x. (item_of x.0, x.1.now)) result (at_item room token.now.place token.now.kind) after.now }
{
    match &token.kind {
        TokenKind::Word(Word::In) => Ok(Some(input(alloc, room, token.place, after)?)),
        TokenKind::Word(Word::Def) => {
            let (definition, rest) = definition(alloc, room, after)?;
            Ok(Some((Item::Defined(token.place, definition), rest)))
        }
        TokenKind::Word(Word::Out) => Ok(Some(output(alloc, room, token.place, after)?)),
        _ => Ok(None),
    }
}

/// The items that the tokens spell, all of the tokens.
pub(crate) fn items(alloc: Global, room: u32, tokens: &[Token]) -> Result<Vec<Item>, Stop<'_>>
    requires { room < 2 ^ 31 }
    ensures { Gives (λ v. (map item_of v.items, [])) result (specification room tokens.now) }
{
    let mut items = Vec::new(alloc);
    let mut rest = tokens;
    'items: while let Some((token, after)) = rest.split_first() {
        match item_at(alloc, room, token, after)? {
            None => return Err(Stop::Unexpected(rest)),
            Some((item, left)) => {
                items.push(item)?;
                rest = left;
            }
        }
    }
    Ok(items)
}
