// Tokens that have to come inside a construct.

ghost use Rattle.std.specs.Prelude.{◌≡◌, true};
ghost use Rattle.token_reader.specs.inner.Reader.{Read};
ghost use Rattle.spec_parser.specs.inner.Reading.{must};
ghost use Rattle.spec_parser.specs.inner.Gives.{Gives};
ghost use Rattle.spec_parser.specs.inner.Marks.{test_of};

use crate::stop::Stop;
use spec_lexer::token::{Symbol, Token, TokenKind, Word};

#[derive(Clone, Copy, PartialEq, Eq, Debug)]
pub(crate) enum Mark {
    Close,
    OpenBracket,
    CloseBracket,
    CloseBrace,
    Comma,
    Colon,
    /// What stands between the head of a definition and its body.
    Defines,
    Then,
    Else,
}

pub(crate) fn fits(mark: Mark, token: &Token) -> bool
    ensures { result ≡ test_of mark token.now.kind }
{
    match (mark, &token.kind) {
        (Mark::Close, TokenKind::Symbol(Symbol::Close)) => true,
        (Mark::OpenBracket, TokenKind::Symbol(Symbol::OpenBracket)) => true,
        (Mark::CloseBracket, TokenKind::Symbol(Symbol::CloseBracket)) => true,
        (Mark::CloseBrace, TokenKind::Symbol(Symbol::CloseBrace)) => true,
        (Mark::Comma, TokenKind::Symbol(Symbol::Comma)) => true,
        (Mark::Colon, TokenKind::Symbol(Symbol::Colon)) => true,
        (Mark::Defines, TokenKind::Symbol(Symbol::Define)) => true,
        (Mark::Defines, TokenKind::Symbol(Symbol::Equals)) => true,
        (Mark::Then, TokenKind::Word(Word::Then)) => true,
        (Mark::Else, TokenKind::Word(Word::Else)) => true,
        _ => false,
    }
}

/// The tokens after the mark.
pub(crate) fn pass(mark: Mark, tokens: &[Token]) -> Result<&[Token], Stop<'_>>
    ensures { Gives (λ x. (true, x.now)) result (must (test_of mark) (Read true) tokens.now) }
{
    match tokens {
        [token, rest @ ..] if fits(mark, token) => Ok(rest),
        _ => Err(Stop::Unexpected(tokens)),
    }
}
