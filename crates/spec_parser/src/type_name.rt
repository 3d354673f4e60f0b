// Types.

ghost use Rattle.std.specs.Prelude.{◌≡◌};
ghost use Rattle.token_reader.specs.inner.Reader.{opened};
ghost use Rattle.syntax_tree.specs.Tree as tree;
ghost use Rattle.syntax_tree.specs.inner.OneLevel.{aggregate_in};
ghost use Rattle.spec_parser.specs.Words.{is_open_bracket};
ghost use Rattle.spec_parser.specs.inner.Reading.{must, in_brackets, two_in_brackets, aggregate_of, an_aggregate};
ghost use Rattle.spec_parser.specs.inner.Reading.{a_type, type_after, type_in, wrapped};
ghost use Rattle.spec_parser.specs.inner.Gives.{Gives, IfOkOrMemory};

use crate::mark::{Mark, pass};
use crate::stop::Stop;
use crate::words::{TypeWord, Wrapper, type_word};
use spec_lexer::token::{Token, TokenKind};
use std::alloc::Global;
use syntax_tree::tree::{Aggregate, TypeName, TypeShape};
use tsl_value::place::Place;
use vocabulary::kind::Kind;

#[cycle(type_name)]
#[tactic(auto, unfolding(crate::specs::inner::Reading::type_in))]
pub(crate) fn type_in_room(
    alloc: Global,
    room: u32,
    tokens: &[Token],
) -> Result<(TypeName, &[Token]), Stop<'_>>
    ensures { Gives (λ x. (x.0, x.1.now)) result (type_in room tokens.now) }
{
    if room == 0 {
        return Err(Stop::TooDeep(tokens));
    }
    any_type(alloc, room - 1, tokens)
}

#[cycle(type_name)]
fn any_type(alloc: Global, room: u32, tokens: &[Token]) -> Result<(TypeName, &[Token]), Stop<'_>>
    ensures { Gives (λ x. (x.0, x.1.now)) result (a_type room (type_in room) tokens.now) }
{
    match tokens {
        [] => Err(Stop::Unexpected(tokens)),
        [token, rest @ ..] => match &token.kind {
            TokenKind::Name(name) => match type_word(name.as_str()) {
                Some(word) => after_word(alloc, room, token.place, word, rest),
                None => Err(Stop::Unexpected(tokens)),
            },
            _ => Err(Stop::Unexpected(tokens)),
        },
    }
}

/// What stands after the word that a type begins with.
#[cycle(type_name)]
fn after_word(
    alloc: Global,
    room: u32,
    place: Place,
    word: TypeWord,
    tokens: &[Token],
) -> Result<(TypeName, &[Token]), Stop<'_>>
    ensures { Gives (λ x. (x.0, x.1.now)) result (type_after room (type_in room) place word tokens.now) }
{
    match word {
        TypeWord::Unit => Ok((TypeName::new(place, TypeShape::Unit), tokens)),
        TypeWord::Int => Ok((TypeName::new(place, TypeShape::Int), tokens)),
        TypeWord::Bool => Ok((TypeName::new(place, TypeShape::Bool), tokens)),
        TypeWord::Text => Ok((TypeName::new(place, TypeShape::Text), tokens)),
        TypeWord::Of(kind) => {
            let (of, rest) = aggregate(alloc, room, kind, tokens)?;
            Ok((TypeName::new(place, TypeShape::Aggregate(of)), rest))
        }
        TypeWord::Option => with_one(alloc, room, place, Wrapper::Option, tokens),
        TypeWord::Events => with_one(alloc, room, place, Wrapper::Events, tokens),
    }
}

fn wrap(
    alloc: Global,
    place: Place,
    wrapper: Wrapper,
    inner: TypeName,
) -> Result<TypeName, Stop<'static>>
    ensures { IfOkOrMemory result (λ t. t ≡ wrapped place wrapper inner) }
{
    let inner = Box::new(alloc, inner)?;
    let shape = match wrapper {
        Wrapper::Option => TypeShape::Option(inner),
        Wrapper::Events => TypeShape::Events(inner),
    };
    Ok(TypeName::new(place, shape))
}

/// A type with one type in brackets, after its word.
#[cycle(type_name)]
fn with_one(
    alloc: Global,
    room: u32,
    place: Place,
    wrapper: Wrapper,
    tokens: &[Token],
) -> Result<(TypeName, &[Token]), Stop<'_>>
    ensures { Gives (λ x. (x.0, x.1.now)) result
        (must is_open_bracket (opened room (in_brackets (type_in room) (wrapped place wrapper))) tokens.now) }
{
    let rest = pass(Mark::OpenBracket, tokens)?;
    one_inside(alloc, room, place, wrapper, rest)
}

#[cycle(type_name)]
fn one_inside(
    alloc: Global,
    room: u32,
    place: Place,
    wrapper: Wrapper,
    tokens: &[Token],
) -> Result<(TypeName, &[Token]), Stop<'_>>
    ensures { Gives (λ x. (x.0, x.1.now)) result (opened room (in_brackets (type_in room) (wrapped place wrapper)) tokens.now) }
{
    if room == 0 {
        return Err(Stop::TooDeep(tokens));
    }
    let (inner, rest) = type_in_room(alloc, room, tokens)?;
    let rest = pass(Mark::CloseBracket, rest)?;
    let whole = wrap(alloc, place, wrapper, inner)?;
    Ok((whole, rest))
}

/// What stands in brackets after the name of a kind.
#[cycle(type_name)]
pub(crate) fn aggregate(
    alloc: Global,
    room: u32,
    kind: Kind,
    tokens: &[Token],
) -> Result<(Aggregate, &[Token]), Stop<'_>>
    ensures { Gives (λ x. (aggregate_in x.0, x.1.now)) result (an_aggregate room (type_in room) kind tokens.now) }
{
    let rest = pass(Mark::OpenBracket, tokens)?;
    aggregate_inside(alloc, room, kind, rest)
}

#[cycle(type_name)]
fn aggregate_inside(
    alloc: Global,
    room: u32,
    kind: Kind,
    tokens: &[Token],
) -> Result<(Aggregate, &[Token]), Stop<'_>>
    ensures { Gives (λ x. (aggregate_in x.0, x.1.now)) result (opened room (aggregate_of (type_in room) kind) tokens.now) }
{
    if room == 0 {
        return Err(Stop::TooDeep(tokens));
    }
    match kind {
        Kind::Set => set_of(alloc, room, tokens),
        Kind::Map => map_of(alloc, room, tokens),
        Kind::Queue => queue_of(alloc, room, tokens),
    }
}

#[cycle(type_name)]
fn set_of(alloc: Global, room: u32, tokens: &[Token]) -> Result<(Aggregate, &[Token]), Stop<'_>>
    ensures { Gives (λ x. (aggregate_in x.0, x.1.now)) result (in_brackets (type_in room) tree.SetOf tokens.now) }
{
    let (key, rest) = type_in_room(alloc, room, tokens)?;
    let rest = pass(Mark::CloseBracket, rest)?;
    Ok((Aggregate::Set(Box::new(alloc, key)?), rest))
}

#[cycle(type_name)]
fn queue_of(alloc: Global, room: u32, tokens: &[Token]) -> Result<(Aggregate, &[Token]), Stop<'_>>
    ensures { Gives (λ x. (aggregate_in x.0, x.1.now)) result (in_brackets (type_in room) tree.QueueOf tokens.now) }
{
    let (of, rest) = type_in_room(alloc, room, tokens)?;
    let rest = pass(Mark::CloseBracket, rest)?;
    Ok((Aggregate::Queue(Box::new(alloc, of)?), rest))
}

#[cycle(type_name)]
fn map_of(alloc: Global, room: u32, tokens: &[Token]) -> Result<(Aggregate, &[Token]), Stop<'_>>
    ensures { Gives (λ x. (aggregate_in x.0, x.1.now)) result (two_in_brackets (type_in room) tree.MapOf tokens.now) }
{
    let (key, rest) = type_in_room(alloc, room, tokens)?;
    let rest = pass(Mark::Comma, rest)?;
    map_after_key(alloc, room, key, rest)
}

#[cycle(type_name)]
fn map_after_key(
    alloc: Global,
    room: u32,
    key: TypeName,
    tokens: &[Token],
) -> Result<(Aggregate, &[Token]), Stop<'_>>
    ensures { Gives (λ x. (aggregate_in x.0, x.1.now)) result (in_brackets (type_in room) (tree.MapOf key) tokens.now) }
{
    let (value, rest) = type_in_room(alloc, room, tokens)?;
    let rest = pass(Mark::CloseBracket, rest)?;
    let whole = map(alloc, key, value)?;
    Ok((whole, rest))
}

fn map(alloc: Global, key: TypeName, value: TypeName) -> Result<Aggregate, Stop<'static>>
    ensures { IfOkOrMemory result (λ a. aggregate_in a ≡ tree.MapOf key value) }
{
    Ok(Aggregate::Map(Box::new(alloc, key)?, Box::new(alloc, value)?))
}
