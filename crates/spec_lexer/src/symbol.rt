// Symbols.

ghost use Rattle.std.specs.Prelude.{◌≡◌, IfOk};
ghost use Rattle.spec_lexer.specs.Found.{pair_of, single_of, symbol_found};
ghost use Rattle.spec_lexer.specs.Source.{IfFault};

use crate::fault::LexFault;
use crate::piece::Piece;
use crate::token::{Symbol, TokenKind};
use tsl_value::place::Place;

/// The symbol that two characters spell.
#[tactic(auto, unfolding(crate::specs::Found::pair_of))]
fn pair(c: char, next: char) -> Option<Symbol>
    ensures { result ≡ pair_of c next }
{
    match (c, next) {
        (':', '=') => Some(Symbol::Define),
        ('|', '|') => Some(Symbol::Or),
        ('&', '&') => Some(Symbol::And),
        ('=', '=') => Some(Symbol::Same),
        ('!', '=') => Some(Symbol::Differs),
        ('<', '=') => Some(Symbol::AtMost),
        ('>', '=') => Some(Symbol::AtLeast),
        _ => None,
    }
}

/// The symbol that one character spells.
#[tactic(auto, unfolding(crate::specs::Found::single_of))]
fn single(c: char) -> Option<Symbol>
    ensures { result ≡ single_of c }
{
    match c {
        '=' => Some(Symbol::Equals),
        ':' => Some(Symbol::Colon),
        ',' => Some(Symbol::Comma),
        '.' => Some(Symbol::Dot),
        '(' => Some(Symbol::Open),
        ')' => Some(Symbol::Close),
        '[' => Some(Symbol::OpenBracket),
        ']' => Some(Symbol::CloseBracket),
        '{' => Some(Symbol::OpenBrace),
        '}' => Some(Symbol::CloseBrace),
        '<' => Some(Symbol::Below),
        '>' => Some(Symbol::Above),
        '+' => Some(Symbol::Plus),
        '-' => Some(Symbol::Minus),
        '*' => Some(Symbol::Times),
        '/' => Some(Symbol::Divide),
        '%' => Some(Symbol::Remainder),
        '!' => Some(Symbol::Not),
        _ => None,
    }
}

/// The longest symbol that begins with one character, or with two.
#[tactic(auto, unfolding(crate::specs::Found::symbol_found))]
pub(crate) fn symbol_at(at: Place, c: char, next: char) -> Result<Piece, LexFault>
    ensures ok { IfOk result (λ p. Ok p ≡ symbol_found at c next) }
    ensures fault { IfFault result (λ e. Err e ≡ symbol_found at c next) }
{
    if let Some(symbol) = pair(c, next) {
        Ok(Piece::Made(TokenKind::Symbol(symbol), 2))
    } else if let Some(symbol) = single(c) {
        Ok(Piece::Made(TokenKind::Symbol(symbol), 1))
    } else {
        Err(LexFault::BadCharacter { place: at })
    }
}
