// Names and words.

ghost use Rattle.std.specs.Prelude.{◌≡◌, ◌+◌, ◌≤◌, ◌<◌, length, IfOk};
ghost use Rattle.std.specs.List.{prefix_len};
ghost use Rattle.unicode_ident.specs.Ident.{is_xid_continue};
ghost use Rattle.spec_lexer.specs.Found.{word_of, name_found};
ghost use Rattle.spec_lexer.specs.Source.{IfFault};

use crate::characters::text_of;
use crate::fault::LexFault;
use crate::limits::MOST_NAME_BYTES;
use crate::piece::Piece;
use crate::token::{TokenKind, Word};
use std::alloc::Global;
use tsl_value::place::Place;

/// The word that is spelled so.
fn word(name: &str) -> Option<Word>
    ensures { result ≡ word_of name.now }
{
    match name {
        "in" => Some(Word::In),
        "def" => Some(Word::Def),
        "out" => Some(Word::Out),
        "as" => Some(Word::As),
        "if" => Some(Word::If),
        "then" => Some(Word::Then),
        "else" => Some(Word::Else),
        "true" => Some(Word::True),
        "false" => Some(Word::False),
        _ => None,
    }
}

/// How many characters go on with a name.
fn continued(characters: &[char]) -> usize
    ensures length { result ≡ prefix_len is_xid_continue characters.now }
    ensures within { result ≤ length characters.now }
{
    characters
        .iter()
        .take_while(|c| unicode_ident::is_xid_continue(**c))
        .count()
}

/// The name or word in front of characters whose first begins a name.
#[tactic(auto, unfolding(crate::specs::Found::name_found))]
pub(crate) fn name_at(
    alloc: Global,
    at: Place,
    after: &[char],
    characters: &[char],
) -> Result<Piece, LexFault>
    requires { length after.now < length characters.now }
    ensures ok { let count = 1 + prefix_len is_xid_continue after.now in
        IfOk result (λ p. Ok p ≡ name_found at characters.now count) }
    ensures fault { let count = 1 + prefix_len is_xid_continue after.now in
        IfFault result (λ e. Err e ≡ name_found at characters.now count) }
{
    let count = 1 + continued(after);
    let name = text_of(alloc, &characters[..count])?;
    if let Some(word) = word(name.as_str()) {
        return Ok(Piece::Made(TokenKind::Word(word), count));
    }
    if name.len() > MOST_NAME_BYTES {
        return Err(LexFault::NameTooLong { place: at });
    }
    Ok(Piece::Made(TokenKind::Name(name), count))
}
