// Definitions, their parameters and their bodies.

ghost use Rattle.std.specs.Prelude.{◌≡◌, ◌<◌, ◌^◌, suc};
ghost use Rattle.token_reader.specs.inner.Reader.{opened, many, with_list};
ghost use Rattle.syntax_tree.specs.Tree as tree;
ghost use Rattle.syntax_tree.specs.inner.OneLevel.{param_of, params_in, body_of, definitions_of as definitions_in};
ghost use Rattle.spec_parser.specs.inner.Reading.{type_in, within, a_param, after_param, other_params_of, params as reading_params};
ghost use Rattle.spec_parser.specs.inner.Reading.{may_have_params, may_have_type, after_params, defined_as};
ghost use Rattle.spec_parser.specs.inner.Reading.{inner_definition as reading_definition, definitions_of, a_body, a_block};
ghost use Rattle.spec_parser.specs.inner.Reading.{block as reading_block, whole_definition};
ghost use Rattle.spec_parser.specs.inner.PartReaders.{plain_body};
ghost use Rattle.spec_parser.specs.Words.{is_def};
ghost use Rattle.spec_parser.specs.inner.Gives.{Gives};
ghost use Rattle.syntax_tree.specs.inner.Joins.{join_definitions, join_params};

use crate::expression::within_room;
use crate::mark::{Mark, fits, pass};
use crate::stop::Stop;
use crate::type_name::type_in_room;
use spec_lexer::token::{Symbol, Token, TokenKind, Word};
use std::alloc::Global;
use syntax_tree::tree::{Body, Definition, DefinitionParts, Param, TypeName};
use tsl_value::place::Place;
use tsl_value::text::Text;

/// What stands before the body of a definition, beside its name.
#[derive(Drop)]
struct Head {
    place: Place,
    /// None where no parentheses stand.
    params: Vec<Param>,
    written: Option<TypeName>,
}

fn param(alloc: Global, room: u32, tokens: &[Token]) -> Result<(Param, &[Token]), Stop<'_>>
    ensures { Gives (λ x. (param_of x.0, x.1.now)) result (a_param (type_in room) tokens.now) }
{
    match tokens {
        [] => Err(Stop::Unexpected(tokens)),
        [token, rest @ ..] => match &token.kind {
            TokenKind::Name(name) => {
                let rest = pass(Mark::Colon, rest)?;
                let (of, rest) = type_in_room(alloc, room, rest)?;
                let name = name.copy()?;
                let place = token.place;
                Ok((Param { place, name, of }, rest))
            }
            _ => Err(Stop::Unexpected(tokens)),
        },
    }
}

/// The parameters after the first.
fn more_params<'a>(
    alloc: Global,
    room: u32,
    tokens: &'a [Token],
    all: &mut Vec<Param>,
) -> Result<&'a [Token], Stop<'a>>
    ensures { Gives (λ x. (params_in all.new.items, x.now)) result
        (with_list (join_params all.old.items) (many (other_params_of (type_in room)) tokens.now)) }
{
    let mut rest = tokens;
    'params: while let Some((token, after)) = rest.split_first() {
        if !fits(Mark::Comma, token) {
            break;
        }
        let (param, left) = param(alloc, room, after)?;
        all.push(param)?;
        rest = left;
    }
    Ok(rest)
}

/// Parameters and the closing parenthesis, after the opening one.
fn opened_params(
    alloc: Global,
    room: u32,
    tokens: &[Token],
) -> Result<(Vec<Param>, &[Token]), Stop<'_>>
    ensures { Gives (λ x. (params_in x.0.items, x.1.now)) result (opened room (reading_params (type_in room)) tokens.now) }
{
    if room == 0 {
        return Err(Stop::TooDeep(tokens));
    }
    let (first, rest) = param(alloc, room, tokens)?;
    after_the_first(alloc, room, first, rest)
}

/// Parameters after the first.
fn after_the_first(
    alloc: Global,
    room: u32,
    first: Param,
    tokens: &[Token],
) -> Result<(Vec<Param>, &[Token]), Stop<'_>>
    ensures { Gives (λ x. (params_in x.0.items, x.1.now)) result (after_param (type_in room) (param_of first) tokens.now) }
{
    let mut all = Vec::new(alloc);
    all.push(first)?;
    let rest = more_params(alloc, room, tokens, &mut all)?;
    let rest = pass(Mark::Close, rest)?;
    Ok((all, rest))
}

/// Parameters, or none.
fn may_be_params(
    alloc: Global,
    room: u32,
    tokens: &[Token],
) -> Result<(Vec<Param>, &[Token]), Stop<'_>>
    ensures { Gives (λ x. (params_in x.0.items, x.1.now)) result (may_have_params room (type_in room) tokens.now) }
{
    match tokens {
        [] => Ok((Vec::new(alloc), tokens)),
        [token, rest @ ..] => match &token.kind {
            TokenKind::Symbol(Symbol::Open) => opened_params(alloc, room, rest),
            _ => Ok((Vec::new(alloc), tokens)),
        },
    }
}

/// A written type, or none.
fn may_be_type(
    alloc: Global,
    room: u32,
    tokens: &[Token],
) -> Result<(Option<TypeName>, &[Token]), Stop<'_>>
    ensures { Gives (λ x. (x.0, x.1.now)) result (may_have_type (type_in room) tokens.now) }
{
    match tokens {
        [] => Ok((None, tokens)),
        [token, rest @ ..] => match &token.kind {
            TokenKind::Symbol(Symbol::Colon) => {
                let (of, rest) = type_in_room(alloc, room, rest)?;
                Ok((Some(of), rest))
            }
            _ => Ok((None, tokens)),
        },
    }
}

/// A body without braces.
fn plain(alloc: Global, room: u32, tokens: &[Token]) -> Result<(Body, &[Token]), Stop<'_>>
    requires { room < 2 ^ 31 }
    ensures { Gives (λ x. (body_of x.0, x.1.now)) result (plain_body (within (suc room)) tokens.now) }
{
    let (result, rest) = within_room(alloc, room + 1, tokens)?;
    Ok((Body::Plain(result), rest))
}

fn begins_definition(token: &Token) -> bool
    ensures { result ≡ is_def token.now.kind }
{
    matches!(&token.kind, TokenKind::Word(Word::Def))
}

/// A body, or a block in braces.
#[cycle(body)]
fn body(alloc: Global, room: u32, tokens: &[Token]) -> Result<(Body, &[Token]), Stop<'_>>
    requires { room < 2 ^ 31 }
    ensures { Gives (λ x. (body_of x.0, x.1.now)) result (a_body (reading_block room) (within (suc room)) tokens.now) }
{
    match tokens {
        [] => plain(alloc, room, tokens),
        [token, rest @ ..] => match &token.kind {
            TokenKind::Symbol(Symbol::OpenBrace) => block(alloc, room, rest),
            _ => plain(alloc, room, tokens),
        },
    }
}

/// A block after its brace.
#[cycle(body)]
#[tactic(auto, unfolding(crate::specs::inner::Reading::block))]
fn block(alloc: Global, room: u32, tokens: &[Token]) -> Result<(Body, &[Token]), Stop<'_>>
    requires { room < 2 ^ 31 }
    ensures { Gives (λ x. (body_of x.0, x.1.now)) result (reading_block room tokens.now) }
{
    if room == 0 {
        return Err(Stop::TooDeep(tokens));
    }
    in_block(alloc, room - 1, tokens)
}

#[cycle(body)]
fn in_block(alloc: Global, room: u32, tokens: &[Token]) -> Result<(Body, &[Token]), Stop<'_>>
    requires { room < 2 ^ 31 }
    ensures { Gives (λ x. (body_of x.0, x.1.now)) result (a_block room (reading_block room) tokens.now) }
{
    let (definitions, rest) = definitions(alloc, room, tokens)?;
    let (result, rest) = within_room(alloc, room + 1, rest)?;
    let rest = pass(Mark::CloseBrace, rest)?;
    Ok((Body::Block(definitions, result), rest))
}

/// The definitions of a block.
#[cycle(body)]
fn definitions(
    alloc: Global,
    room: u32,
    tokens: &[Token],
) -> Result<(Vec<Definition>, &[Token]), Stop<'_>>
    requires { room < 2 ^ 31 }
    ensures { Gives (λ x. (definitions_in x.0.items, x.1.now)) result
        (many (definitions_of (type_in (suc room)) (a_body (reading_block room) (within (suc room)))) tokens.now) }
{
    let mut definitions = Vec::new(alloc);
    let mut rest = tokens;
    'definitions: while let Some((token, after)) = rest.split_first() {
        if !begins_definition(token) {
            break;
        }
        let (definition, left) = inner_definition(alloc, room, after)?;
        definitions.push(definition)?;
        rest = left;
    }
    Ok((definitions, rest))
}

/// A definition of a block, after the word `def`.
#[cycle(body)]
fn inner_definition(
    alloc: Global,
    room: u32,
    tokens: &[Token],
) -> Result<(Definition, &[Token]), Stop<'_>>
    requires { room < 2 ^ 31 }
    ensures { Gives (λ x. (x.0, x.1.now)) result
        (reading_definition (type_in (suc room)) (a_body (reading_block room) (within (suc room))) tokens.now) }
{
    match tokens {
        [] => Err(Stop::Unexpected(tokens)),
        [token, rest @ ..] => match &token.kind {
            TokenKind::Name(name) => {
                let params = Vec::new(alloc);
                after_head(alloc, room, token.place, name, params, rest)
            }
            _ => Err(Stop::Unexpected(tokens)),
        },
    }
}

/// A definition from its written type on.
#[cycle(body)]
fn after_head<'a>(
    alloc: Global,
    room: u32,
    place: Place,
    name: &Text,
    params: Vec<Param>,
    tokens: &'a [Token],
) -> Result<(Definition, &'a [Token]), Stop<'a>>
    requires { room < 2 ^ 31 }
    ensures { Gives (λ x. (x.0, x.1.now)) result (after_params (type_in (suc room)) (a_body (reading_block room) (within (suc room))) place
        name.now (params_in params.items) tokens.now) }
{
    let (written, rest) = may_be_type(alloc, room + 1, tokens)?;
    let head = Head {
        place,
        params,
        written,
    };
    defined(alloc, room, name, head, rest)
}

/// A definition from `:=` on.
#[cycle(body)]
fn defined<'a>(
    alloc: Global,
    room: u32,
    name: &Text,
    head: Head,
    tokens: &'a [Token],
) -> Result<(Definition, &'a [Token]), Stop<'a>>
    requires { room < 2 ^ 31 }
    ensures { Gives (λ x. (x.0, x.1.now)) result (defined_as (a_body (reading_block room) (within (suc room)))
        (tree.Define head.place name.now (params_in head.params.items) head.written) tokens.now) }
{
    let rest = pass(Mark::Defines, tokens)?;
    // no more definitions stand in a body than tokens, and these are counted
    prove!(rest.len() <= usize::MAX);
    let (body, rest) = body(alloc, room, rest)?;
    let parts = DefinitionParts {
        place: head.place,
        name: name.copy()?,
        params: head.params,
        written: head.written,
        body,
    };
    Ok((Definition::new(parts), rest))
}

/// A definition of a specification, after the word `def`.
pub(crate) fn definition(
    alloc: Global,
    room: u32,
    tokens: &[Token],
) -> Result<(Definition, &[Token]), Stop<'_>>
    requires { room < 2 ^ 31 }
    ensures { Gives (λ x. (x.0, x.1.now)) result (whole_definition room tokens.now) }
{
    match tokens {
        [] => Err(Stop::Unexpected(tokens)),
        [token, rest @ ..] => match &token.kind {
            TokenKind::Name(name) => {
                let (params, rest) = may_be_params(alloc, room, rest)?;
                after_head(alloc, room, token.place, name, params, rest)
            }
            _ => Err(Stop::Unexpected(tokens)),
        },
    }
}
