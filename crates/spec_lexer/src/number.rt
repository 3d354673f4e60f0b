// Numbers.

ghost use Rattle.std.specs.Prelude.{◌≡◌, ◌∷◌, ◌+◌, ◌≤◌, length, true, IfOk};
ghost use Rattle.std.specs.List.{prefix_len};
ghost use Rattle.std.specs.Char.{is_ascii_digit};
ghost use Rattle.spec_lexer.specs.Found.{number_found};
ghost use Rattle.spec_lexer.specs.Source.{IfFault};

use crate::characters::text_of;
use crate::fault::LexFault;
use crate::natural::Natural;
use crate::piece::Piece;
use crate::token::TokenKind;
use std::alloc::Global;
use tsl_value::place::Place;

/// The greatest number.
const MAX_NUMBER: u64 = i64::MAX as u64;

/// How many digits stand in front.
fn digits(characters: &[char]) -> usize
    ensures length { result ≡ prefix_len is_ascii_digit characters.now }
    ensures within { result ≤ length characters.now }
{
    characters.iter().take_while(|c| c.is_ascii_digit()).count()
}

/// The number in front of characters whose first is a digit.
pub(crate) fn number_at(
    alloc: Global,
    at: Place,
    c: char,
    after: &[char],
    characters: &[char],
) -> Result<Piece, LexFault>
    requires characters { characters.now ≡ c ∷ after.now }
    requires digit { is_ascii_digit c ≡ true }
    ensures ok { let count = 1 + prefix_len is_ascii_digit after.now in
        IfOk result (λ p. Ok p ≡ number_found at characters.now count) }
    ensures fault { let count = 1 + prefix_len is_ascii_digit after.now in
        IfFault result (λ e. Err e ≡ number_found at characters.now count) }
{
    let count = 1 + digits(after);
    let digits = text_of(alloc, &characters[..count])?;
    match digits.as_str().parse::<u64>() {
        Ok(number) if number <= MAX_NUMBER => {
            let kind = TokenKind::Number(Natural::new(number));
            Ok(Piece::Made(kind, count))
        }
        _ => Err(LexFault::LiteralTooWide { place: at }),
    }
}
