// Expressions, by recursive descent.

ghost use Rattle.std.specs.Prelude.{◌≡◌};
ghost use Rattle.token_reader.specs.inner.Reader.{opened, many, with_list};
ghost use Rattle.syntax_tree.specs.Tree as tree;
ghost use Rattle.syntax_tree.specs.Tree.{place_of};
ghost use Rattle.syntax_tree.specs.inner.OneLevel.{exprs_of, links_in};
ghost use Rattle.spec_parser.specs.Words.{operator_at, comparison_at, opens_call, is_if};
ghost use Rattle.spec_parser.specs.Grammar.{chained};
ghost use Rattle.spec_parser.specs.inner.Reading.{in_brackets, type_in, empty_after, typed_as, called_as, links_of};
ghost use Rattle.spec_parser.specs.inner.Reading.{chain as reading_chain, others_of, arguments, a_member, must_call, name_or_call, negated};
ghost use Rattle.spec_parser.specs.inner.Reading.{opposed};
ghost use Rattle.spec_parser.specs.inner.Reading.{denied, in_parens, closed, unary_at, operand_at, after_sum, after_argument, if_false};
ghost use Rattle.spec_parser.specs.inner.Reading.{if_true, choice as reading_choice, expression, within, prefixed};
ghost use Rattle.spec_parser.specs.inner.Gives.{Gives, IfOkOrMemory};
ghost use Rattle.syntax_tree.specs.inner.Joins.{join_exprs};

use crate::mark::{Mark, fits, pass};
use crate::stop::Stop;
use crate::type_name::{aggregate, type_in_room};
use crate::words::{Callee, Member, TypedWord, member_named, typed_word};
use spec_lexer::token::{Symbol, Token, TokenKind, Word};
use std::alloc::Global;
use syntax_tree::tree::{Comparison, Expr, Level, Link, Node, Operator};
use tsl_value::place::Place;
use tsl_value::text::Text;
use vocabulary::dotted::{Dotted, Family, family_named};
use vocabulary::kind::Kind;

/// The operator of a level; a minus that is the first of its line is none.
fn operator(level: Level, token: &Token) -> Option<Operator>
    ensures { result ≡ operator_at level token.now.kind token.now.first }
{
    match (level, &token.kind) {
        (Level::Disjunction, TokenKind::Symbol(Symbol::Or)) => Some(Operator::Or),
        (Level::Conjunction, TokenKind::Symbol(Symbol::And)) => Some(Operator::And),
        (Level::Sum, TokenKind::Symbol(Symbol::Plus)) => Some(Operator::Add),
        (Level::Sum, TokenKind::Symbol(Symbol::Minus)) if !token.first => Some(Operator::Subtract),
        (Level::Product, TokenKind::Symbol(Symbol::Times)) => Some(Operator::Multiply),
        (Level::Product, TokenKind::Symbol(Symbol::Divide)) => Some(Operator::Divide),
        (Level::Product, TokenKind::Symbol(Symbol::Remainder)) => Some(Operator::Remainder),
        _ => None,
    }
}

fn comparison(token: &Token) -> Option<Comparison>
    ensures { result ≡ comparison_at token.now.kind }
{
    match &token.kind {
        TokenKind::Symbol(Symbol::Same) => Some(Comparison::Same),
        TokenKind::Symbol(Symbol::Differs) => Some(Comparison::Differs),
        TokenKind::Symbol(Symbol::AtMost) => Some(Comparison::AtMost),
        TokenKind::Symbol(Symbol::AtLeast) => Some(Comparison::AtLeast),
        TokenKind::Symbol(Symbol::Below) => Some(Comparison::Below),
        TokenKind::Symbol(Symbol::Above) => Some(Comparison::Above),
        _ => None,
    }
}

fn begins_choice(token: &Token) -> bool
    ensures { result ≡ is_if token.now.kind }
{
    matches!(&token.kind, TokenKind::Word(Word::If))
}

/// A parenthesis that is not the first of its line.
fn begins_arguments(token: &Token) -> bool
    ensures { result ≡ opens_call token.now.kind token.now.first }
{
    matches!(&token.kind, TokenKind::Symbol(Symbol::Open)) && !token.first
}

/// The operand, or a chain where links follow it.
#[tactic(auto, using(crate::proofs::LoopLaws::chained_none, crate::proofs::LoopLaws::chained_some))]
fn chain_of(
    alloc: Global,
    level: Level,
    first: Expr,
    links: Vec<Link>,
) -> Result<Expr, Stop<'static>>
    ensures { IfOkOrMemory result (λ e. e ≡ chained level first (links_in links.items)) }
{
    if links.is_empty() {
        return Ok(first);
    }
    let place = first.place();
    let node = Node::Chain(level, Box::new(alloc, first)?, links);
    Ok(Expr::new(place, node))
}

fn compared(
    alloc: Global,
    comparison: Comparison,
    left: Expr,
    right: Expr,
) -> Result<Expr, Stop<'static>>
    ensures { IfOkOrMemory result (λ e. e ≡ tree.Compare (place_of left) comparison left right) }
{
    let place = left.place();
    let node = Node::Compare(comparison, Box::new(alloc, left)?, Box::new(alloc, right)?);
    Ok(Expr::new(place, node))
}

fn chosen(
    alloc: Global,
    place: Place,
    condition: Expr,
    yes: Expr,
    no: Expr,
) -> Result<Expr, Stop<'static>>
    ensures { IfOkOrMemory result (λ e. e ≡ tree.If place condition yes no) }
{
    let node = Node::If(
        Box::new(alloc, condition)?,
        Box::new(alloc, yes)?,
        Box::new(alloc, no)?,
    );
    Ok(Expr::new(place, node))
}

fn named(place: Place, name: &Text) -> Result<Expr, Stop<'static>>
    ensures { IfOkOrMemory result (λ e. e ≡ tree.Name place name.now) }
{
    let node = Node::Name(name.copy()?);
    Ok(Expr::new(place, node))
}

/// A name with a type in brackets after it.
fn with_type(
    alloc: Global,
    room: u32,
    place: Place,
    word: TypedWord,
    tokens: &[Token],
) -> Result<(Expr, &[Token]), Stop<'_>>
    ensures { Gives (λ x. (x.0, x.1.now)) result (opened room (in_brackets (type_in room) (typed_as place word)) tokens.now) }
{
    if room == 0 {
        return Err(Stop::TooDeep(tokens));
    }
    let (of, rest) = type_in_room(alloc, room, tokens)?;
    let rest = pass(Mark::CloseBracket, rest)?;
    let node = match word {
        TypedWord::Nil => Node::Nil(of),
        TypedWord::None => Node::None(of),
    };
    Ok((Expr::new(place, node), rest))
}

/// An empty aggregate, after its name.
fn empty(
    alloc: Global,
    room: u32,
    place: Place,
    kind: Kind,
    tokens: &[Token],
) -> Result<(Expr, &[Token]), Stop<'_>>
    ensures { Gives (λ x. (x.0, x.1.now)) result (empty_after room (type_in room) place kind tokens.now) }
{
    let (of, rest) = aggregate(alloc, room, kind, tokens)?;
    Ok((Expr::new(place, Node::Empty(of)), rest))
}

fn call_of(place: Place, callee: Callee, all: Vec<Expr>) -> Expr
    ensures { result ≡ called_as place callee (exprs_of all.items) }
{
    let node = match callee {
        Callee::Name(name) => Node::Call(name, all),
        Callee::Dotted(function) => Node::CallDotted(function, all),
    };
    Expr::new(place, node)
}

/// An expression inside a level that was opened.
#[cycle(parser)]
#[tactic(auto, unfolding(crate::specs::inner::Reading::within))]
pub(crate) fn within_room(
    alloc: Global,
    room: u32,
    tokens: &[Token],
) -> Result<(Expr, &[Token]), Stop<'_>>
    ensures { Gives (λ x. (x.0, x.1.now)) result (within room tokens.now) }
{
    if room == 0 {
        return Err(Stop::TooDeep(tokens));
    }
    any_expression(alloc, room - 1, tokens)
}

#[cycle(parser)]
fn any_expression(alloc: Global, room: u32, tokens: &[Token]) -> Result<(Expr, &[Token]), Stop<'_>>
    ensures { Gives (λ x. (x.0, x.1.now)) result (expression room (type_in room) (within room) (prefixed room) tokens.now) }
{
    match tokens.split_first() {
        None => Err(Stop::Unexpected(tokens)),
        Some((token, rest)) => {
            if begins_choice(token) {
                choice(alloc, room, token.place, rest)
            } else {
                chain(alloc, Level::Disjunction, room, tokens)
            }
        }
    }
}

/// A choice after the word `if`.
#[cycle(parser)]
fn choice(
    alloc: Global,
    room: u32,
    place: Place,
    tokens: &[Token],
) -> Result<(Expr, &[Token]), Stop<'_>>
    ensures { Gives (λ x. (x.0, x.1.now)) result (opened room (reading_choice (within room) place) tokens.now) }
{
    if room == 0 {
        return Err(Stop::TooDeep(tokens));
    }
    let (condition, rest) = within_room(alloc, room, tokens)?;
    then_branch(alloc, room, place, condition, rest)
}

#[cycle(parser)]
fn then_branch(
    alloc: Global,
    room: u32,
    place: Place,
    condition: Expr,
    tokens: &[Token],
) -> Result<(Expr, &[Token]), Stop<'_>>
    ensures { Gives (λ x. (x.0, x.1.now)) result (if_true (within room) place condition tokens.now) }
{
    let rest = pass(Mark::Then, tokens)?;
    let (yes, rest) = within_room(alloc, room, rest)?;
    else_branch(alloc, room, place, condition, yes, rest)
}

#[cycle(parser)]
fn else_branch(
    alloc: Global,
    room: u32,
    place: Place,
    condition: Expr,
    yes: Expr,
    tokens: &[Token],
) -> Result<(Expr, &[Token]), Stop<'_>>
    ensures { Gives (λ x. (x.0, x.1.now)) result (if_false (within room) place condition yes tokens.now) }
{
    let rest = pass(Mark::Else, tokens)?;
    let (no, rest) = within_room(alloc, room, rest)?;
    let whole = chosen(alloc, place, condition, yes, no)?;
    Ok((whole, rest))
}

/// The operands of a level, with the operators between them.
#[cycle(parser)]
fn chain(
    alloc: Global,
    level: Level,
    room: u32,
    tokens: &[Token],
) -> Result<(Expr, &[Token]), Stop<'_>>
    ensures { Gives (λ x. (x.0, x.1.now)) result (reading_chain level (operand_at level room) tokens.now) }
{
    let (first, rest) = operand(alloc, level, room, tokens)?;
    let (links, rest) = more_links(alloc, level, room, rest)?;
    let whole = chain_of(alloc, level, first, links)?;
    Ok((whole, rest))
}

#[cycle(parser)]
fn more_links(
    alloc: Global,
    level: Level,
    room: u32,
    tokens: &[Token],
) -> Result<(Vec<Link>, &[Token]), Stop<'_>>
    ensures { Gives (λ x. (links_in x.0.items, x.1.now)) result (many (links_of level (operand_at level room)) tokens.now) }
{
    let mut links = Vec::new(alloc);
    let mut rest = tokens;
    'links: while let Some((token, after)) = rest.split_first() {
        match operator(level, token) {
            None => break,
            Some(operator) => {
                let (operand, left) = operand(alloc, level, room, after)?;
                links.push(Link { operator, operand })?;
                rest = left;
            }
        }
    }
    Ok((links, rest))
}

/// What stands between the operators of a level.
#[cycle(parser)]
fn operand(
    alloc: Global,
    level: Level,
    room: u32,
    tokens: &[Token],
) -> Result<(Expr, &[Token]), Stop<'_>>
    ensures { Gives (λ x. (x.0, x.1.now)) result (operand_at level room tokens.now) }
{
    match level {
        Level::Disjunction => chain(alloc, Level::Conjunction, room, tokens),
        Level::Conjunction => one_comparison(alloc, room, tokens),
        Level::Sum => chain(alloc, Level::Product, room, tokens),
        Level::Product => unary(alloc, room, tokens),
    }
}

/// A sum, or two with a comparison between them.
#[cycle(parser)]
fn one_comparison(alloc: Global, room: u32, tokens: &[Token]) -> Result<(Expr, &[Token]), Stop<'_>>
    ensures { Gives (λ x. (x.0, x.1.now)) result (operand_at Level.Conjunction room tokens.now) }
{
    let (left, rest) = chain(alloc, Level::Sum, room, tokens)?;
    after_left(alloc, room, left, rest)
}

/// A comparison after its left side, or that side.
#[cycle(parser)]
fn after_left(
    alloc: Global,
    room: u32,
    left: Expr,
    tokens: &[Token],
) -> Result<(Expr, &[Token]), Stop<'_>>
    ensures { Gives (λ x. (x.0, x.1.now)) result (after_sum (reading_chain Level.Sum (operand_at Level.Sum room)) left tokens.now) }
{
    match tokens {
        [] => Ok((left, tokens)),
        [token, rest @ ..] => match comparison(token) {
            None => Ok((left, tokens)),
            Some(comparison) => {
                let (right, rest) = chain(alloc, Level::Sum, room, rest)?;
                let whole = compared(alloc, comparison, left, right)?;
                Ok((whole, rest))
            }
        },
    }
}

#[cycle(parser)]
fn unary(alloc: Global, room: u32, tokens: &[Token]) -> Result<(Expr, &[Token]), Stop<'_>>
    ensures { Gives (λ x. (x.0, x.1.now)) result (unary_at room tokens.now) }
{
    match tokens {
        [] => Err(Stop::Unexpected(tokens)),
        [token, rest @ ..] => match &token.kind {
            TokenKind::Symbol(Symbol::Open) => parens(alloc, room, token.place, rest),
            TokenKind::Symbol(Symbol::Minus) => minus(alloc, room, token.place, rest),
            TokenKind::Symbol(Symbol::Not) => negation(alloc, room, token.place, rest),
            TokenKind::Name(name) => name_after(alloc, room, token.place, name, rest),
            TokenKind::Number(n) => Ok((Expr::new(token.place, Node::Number(*n)), rest)),
            TokenKind::Text(text) => Ok((Expr::new(token.place, Node::Text(text.copy()?)), rest)),
            TokenKind::Word(Word::True) => Ok((Expr::new(token.place, Node::Boolean(true)), rest)),
            TokenKind::Word(Word::False) => Ok((
                Expr::new(token.place, Node::Boolean(false)),
                rest,
            )),
            _ => Err(Stop::Unexpected(tokens)),
        },
    }
}

/// What stands after a parenthesis that begins an expression.
#[cycle(parser)]
fn parens(
    alloc: Global,
    room: u32,
    place: Place,
    tokens: &[Token],
) -> Result<(Expr, &[Token]), Stop<'_>>
    ensures { Gives (λ x. (x.0, x.1.now)) result (opened room (in_parens (within room) place) tokens.now) }
{
    if room == 0 {
        return Err(Stop::TooDeep(tokens));
    }
    match tokens.split_first() {
        None => inside(alloc, room, tokens),
        Some((token, rest)) => {
            if fits(Mark::Close, token) {
                let node = Node::Unit;
                Ok((Expr::new(place, node), rest))
            } else {
                inside(alloc, room, tokens)
            }
        }
    }
}

/// An expression and the closing parenthesis.
#[cycle(parser)]
fn inside(alloc: Global, room: u32, tokens: &[Token]) -> Result<(Expr, &[Token]), Stop<'_>>
    ensures { Gives (λ x. (x.0, x.1.now)) result (closed (within room) tokens.now) }
{
    let (inner, rest) = within_room(alloc, room, tokens)?;
    let rest = pass(Mark::Close, rest)?;
    Ok((inner, rest))
}

/// What stands after a prefix minus.
#[cycle(parser)]
fn minus(
    alloc: Global,
    room: u32,
    place: Place,
    tokens: &[Token],
) -> Result<(Expr, &[Token]), Stop<'_>>
    ensures { Gives (λ x. (x.0, x.1.now)) result (negated room (prefixed room) place tokens.now) }
{
    match tokens {
        [] => opposite(alloc, room, place, tokens),
        [token, rest @ ..] => match &token.kind {
            TokenKind::Number(n) => {
                let node = Node::Negative(*n);
                Ok((Expr::new(place, node), rest))
            }
            _ => opposite(alloc, room, place, tokens),
        },
    }
}

/// What stands after a minus that opens a level.
#[cycle(parser)]
#[tactic(auto, unfolding(crate::specs::inner::Reading::prefixed))]
fn opposite(
    alloc: Global,
    room: u32,
    place: Place,
    tokens: &[Token],
) -> Result<(Expr, &[Token]), Stop<'_>>
    ensures { Gives (λ x. (x.0, x.1.now)) result (opposed room (prefixed room) place tokens.now) }
{
    if room == 0 {
        return Err(Stop::TooDeep(tokens));
    }
    let (operand, rest) = unary(alloc, room - 1, tokens)?;
    let node = Node::Negate(Box::new(alloc, operand)?);
    Ok((Expr::new(place, node), rest))
}

/// What stands after the operator `!`.
#[cycle(parser)]
#[tactic(auto, unfolding(crate::specs::inner::Reading::prefixed))]
fn negation(
    alloc: Global,
    room: u32,
    place: Place,
    tokens: &[Token],
) -> Result<(Expr, &[Token]), Stop<'_>>
    ensures { Gives (λ x. (x.0, x.1.now)) result (denied room (prefixed room) place tokens.now) }
{
    if room == 0 {
        return Err(Stop::TooDeep(tokens));
    }
    let (operand, rest) = unary(alloc, room - 1, tokens)?;
    let node = Node::Not(Box::new(alloc, operand)?);
    Ok((Expr::new(place, node), rest))
}

/// An expression that begins with a name.
#[cycle(parser)]
fn name_after<'a>(
    alloc: Global,
    room: u32,
    place: Place,
    name: &Text,
    tokens: &'a [Token],
) -> Result<(Expr, &'a [Token]), Stop<'a>>
    ensures { Gives (λ x. (x.0, x.1.now)) result (name_or_call room (type_in room) (within room) place name.now tokens.now) }
{
    match tokens {
        [] => Ok((named(place, name)?, tokens)),
        [token, rest @ ..] => match &token.kind {
            TokenKind::Symbol(Symbol::Open) => {
                if token.first {
                    return Ok((named(place, name)?, tokens));
                }
                let callee = Callee::Name(name.copy()?);
                call(alloc, room, place, callee, rest)
            }
            TokenKind::Symbol(Symbol::OpenBracket) => match typed_word(name.as_str()) {
                Some(word) => with_type(alloc, room, place, word, rest),
                None => Ok((named(place, name)?, tokens)),
            },
            TokenKind::Symbol(Symbol::Dot) => match family_named(name.as_str()) {
                Some(family) => member_after_dot(alloc, room, place, family, rest),
                None => Ok((named(place, name)?, tokens)),
            },
            _ => Ok((named(place, name)?, tokens)),
        },
    }
}

/// What stands after the dot.
#[cycle(parser)]
fn member_after_dot(
    alloc: Global,
    room: u32,
    place: Place,
    family: Family,
    tokens: &[Token],
) -> Result<(Expr, &[Token]), Stop<'_>>
    ensures { Gives (λ x. (x.0, x.1.now)) result (a_member room (type_in room) (within room) place family tokens.now) }
{
    match tokens {
        [] => Err(Stop::Unexpected(tokens)),
        [token, rest @ ..] => match &token.kind {
            TokenKind::Name(name) => match member_named(family, name.as_str()) {
                Some(Member::Called(function)) => call_dotted(alloc, room, place, function, rest),
                Some(Member::Empty(kind)) => empty(alloc, room, place, kind, rest),
                None => Err(Stop::Unexpected(tokens)),
            },
            _ => Err(Stop::Unexpected(tokens)),
        },
    }
}

#[cycle(parser)]
fn call_dotted(
    alloc: Global,
    room: u32,
    place: Place,
    function: Dotted,
    tokens: &[Token],
) -> Result<(Expr, &[Token]), Stop<'_>>
    ensures { Gives (λ x. (x.0, x.1.now)) result
        (must_call (opened room (arguments (within room) (tree.CallDotted place function))) tokens.now) }
{
    match tokens {
        [token, rest @ ..] if begins_arguments(token) => {
            call(alloc, room, place, Callee::Dotted(function), rest)
        }
        _ => Err(Stop::Unexpected(tokens)),
    }
}

/// A call, after its opening parenthesis.
#[cycle(parser)]
fn call(
    alloc: Global,
    room: u32,
    place: Place,
    callee: Callee,
    tokens: &[Token],
) -> Result<(Expr, &[Token]), Stop<'_>>
    ensures { Gives (λ x. (x.0, x.1.now)) result (opened room (arguments (within room) (called_as place callee)) tokens.now) }
{
    if room == 0 {
        return Err(Stop::TooDeep(tokens));
    }
    let (first, rest) = within_room(alloc, room, tokens)?;
    after_the_first(alloc, room, place, callee, first, rest)
}

/// A call after its first argument.
#[cycle(parser)]
fn after_the_first(
    alloc: Global,
    room: u32,
    place: Place,
    callee: Callee,
    first: Expr,
    tokens: &[Token],
) -> Result<(Expr, &[Token]), Stop<'_>>
    ensures { Gives (λ x. (x.0, x.1.now)) result (after_argument (within room) (called_as place callee) first tokens.now) }
{
    let mut all = Vec::new(alloc);
    all.push(first)?;
    let rest = more_arguments(alloc, room, tokens, &mut all)?;
    let rest = pass(Mark::Close, rest)?;
    Ok((call_of(place, callee, all), rest))
}

#[cycle(parser)]
fn more_arguments<'a>(
    alloc: Global,
    room: u32,
    tokens: &'a [Token],
    all: &mut Vec<Expr>,
) -> Result<&'a [Token], Stop<'a>>
    ensures { Gives (λ x. (exprs_of all.new.items, x.now)) result
        (with_list (join_exprs all.old.items) (many (others_of (within room)) tokens.now)) }
{
    let mut rest = tokens;
    'others: while let Some((token, after)) = rest.split_first() {
        if !fits(Mark::Comma, token) {
            break;
        }
        let (expression, left) = within_room(alloc, room, after)?;
        all.push(expression)?;
        rest = left;
    }
    Ok(rest)
}
