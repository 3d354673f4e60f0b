// Texts between quotes.

ghost use Rattle.std.specs.Prelude.{◌≡◌, ◌+◌, ◌<◌, ◌^◌, [], false, length, IfOk};
ghost use Rattle.spec_lexer.specs.Spelling.{escaped as meant_by};
ghost use Rattle.spec_lexer.specs.Found.{text_as, text_found};
ghost use Rattle.spec_lexer.specs.Source.{IfFault};

use crate::fault::LexFault;
use crate::piece::Piece;
use crate::token::TokenKind;
use std::alloc::Global;
use tsl_value::limits::MOST_TEXT_BYTES;
use tsl_value::place::Place;
use tsl_value::text::Text;

/// The character that a backslash and this one stand for.
fn escaped(c: char) -> Option<char>
    ensures { result ≡ meant_by c }
{
    match c {
        '"' => Some('"'),
        '\\' => Some('\\'),
        'n' => Some('\n'),
        't' => Some('\t'),
        'r' => Some('\r'),
        _ => None,
    }
}

/// The text whose first quote stands at a place, before the characters.
#[tactic(auto, unfolding(crate::specs::Found::text_found))]
pub(crate) fn text_at(alloc: Global, at: Place, after: &[char]) -> Result<Piece, LexFault>
    requires { at.column + length after.now < 2 ^ 31 }
    ensures ok { IfOk result (λ p. Ok p ≡ text_found at 1 [] false after.now) }
    ensures fault { IfFault result (λ e. Err e ≡ text_found at 1 [] false after.now) }
{
    let mut text = Text::new(alloc);
    let mut count = 1;
    let mut rest = after;
    while let Some((c, tail)) = rest.split_first() {
        match *c {
            '"' => return made(at, text, count + 1),
            '\n' => return Err(LexFault::OpenText { place: at }),
            '\\' => {
                let Some((e, tail)) = tail.split_first() else {
                    return Err(LexFault::OpenText { place: at });
                };
                let Some(meant) = escaped(*e) else {
                    return Err(LexFault::BadEscape {
                        place: Place {
                            line: at.line,
                            column: at.column + count as u32,
                        },
                    });
                };
                text.push(meant)?;
                count += 2;
                rest = tail;
            }
            c => {
                text.push(c)?;
                count += 1;
                rest = tail;
            }
        }
    }
    Err(LexFault::OpenText { place: at })
}

/// The token of a text that takes so many characters, quotes among them.
fn made(at: Place, text: Text, count: usize) -> Result<Piece, LexFault>
    ensures ok { IfOk result (λ p. Ok p ≡ text_as at text count) }
    ensures fault { IfFault result (λ e. Err e ≡ text_as at text count) }
{
    if text.len() > MOST_TEXT_BYTES {
        Err(LexFault::TextTooLong { place: at })
    } else {
        Ok(Piece::Made(TokenKind::Text(text), count))
    }
}
