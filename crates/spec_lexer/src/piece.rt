// The piece in front of some characters: a blank, a comment, a line end or a token.

ghost use Rattle.std.specs.Prelude.{◌≡◌, ◌∷◌, ◌+◌, ◌≤◌, ◌^◌, length, IfOk};
ghost use Rattle.std.specs.List.{prefix_len};
ghost use Rattle.spec_lexer.specs.Spelling.{is_within_line, is_blank as blank, begins_name as name_first};
ghost use Rattle.spec_lexer.specs.Found.{begins_comment as comment_first, found, next_of};
ghost use Rattle.spec_lexer.specs.Source.{IfFault};

use crate::fault::LexFault;
use crate::name::name_at;
use crate::number::number_at;
use crate::quoted::text_at;
use crate::symbol::symbol_at;
use crate::token::TokenKind;
use std::alloc::Global;
use tsl_value::place::Place;

/// What stands in front of some characters, and how many of them it takes.
#[derive(Drop)]
pub(crate) enum Piece {
    /// A blank or a comment.
    Blank(usize),
    LineEnd,
    Made(TokenKind, usize),
}

/// Whether it is a blank. LF ends a line, and is a piece of its own.
fn is_blank(c: char) -> bool
    ensures { result ≡ blank c }
{
    c == ' ' || c == '\t' || c == '\r'
}

fn begins_comment(c: char, next: char) -> bool
    ensures { result ≡ comment_first c next }
{
    c == '#' || (c == '-' && next == '-')
}

fn begins_name(c: char) -> bool
    ensures { result ≡ name_first c }
{
    unicode_ident::is_xid_start(c) || c == '_'
}

/// How many characters stand before the end of the line.
fn comment_length(characters: &[char]) -> usize
    ensures length { result ≡ prefix_len is_within_line characters.now }
    ensures within { result ≤ length characters.now }
{
    characters.iter().take_while(|c| **c != '\n').count()
}

/// The first character, or NUL where there is none, which begins nothing.
fn first_or_nul(characters: &[char]) -> char
    ensures { result ≡ next_of characters.now }
{
    characters.first().copied().unwrap_or('\0')
}

/// The piece in front of characters that stand at a place. They are `c` and those after it.
#[tactic(auto, unfolding(crate::specs::Found::found))]
pub(crate) fn piece_at(
    alloc: Global,
    at: Place,
    c: char,
    after: &[char],
    characters: &[char],
) -> Result<Piece, LexFault>
    requires characters { characters.now ≡ c ∷ after.now }
    requires place { at.column + length characters.now ≤ 2 ^ 31 }
    ensures ok { IfOk result (λ p. Ok p ≡ found at c after.now) }
    ensures fault { IfFault result (λ e. Err e ≡ found at c after.now) }
{
    let next = first_or_nul(after);
    if c == '\n' {
        Ok(Piece::LineEnd)
    } else if is_blank(c) {
        Ok(Piece::Blank(1))
    } else if begins_comment(c, next) {
        Ok(Piece::Blank(1 + comment_length(after)))
    } else if begins_name(c) {
        name_at(alloc, at, after, characters)
    } else if c.is_ascii_digit() {
        number_at(alloc, at, c, after, characters)
    } else if c == '"' {
        text_at(alloc, at, after)
    } else {
        symbol_at(at, c, next)
    }
}
