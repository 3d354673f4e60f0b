// The tokens of a source.

ghost use Rattle.std.specs.Prelude.{◌≡◌, ◌≤◌, ◌<◌, ◌^◌, length, take, IfOk};
ghost use Rattle.std.specs.Str.{IsUtf8};
ghost use Rattle.spec_lexer.specs.Pieces.{place_after};
ghost use Rattle.spec_lexer.specs.declared.fault.LexFault.{LexFault as Fault};
ghost use Rattle.spec_lexer.specs.Tokens.{Spelled};
ghost use Rattle.spec_lexer.specs.Source.{Lexes, Fails, IsText, HasTokens, HasFault, IfFault, IsUnlessMemory, start};

use crate::characters::{START, characters_of, place_following, skip};
use crate::fault::LexFault;
use crate::limits::MOST_SOURCE_BYTES;
use crate::piece::{Piece, piece_at};
use crate::token::Token;
use crate::tokens::Tokens;
use std::alloc::Global;
use tsl_value::place::Place;

/// The tokens of characters that begin at the start of a source, or their first fault.
fn lex_characters(alloc: Global, characters: &[char]) -> Result<Tokens, LexFault>
    requires { length characters.now < 2 ^ 30 }
    ensures tokens { IfOk result (λ t. Lexes start 0 characters.now t.tokens) }
    ensures end { IfOk result (λ t. t.end ≡ place_after start characters.now) }
    ensures fault { IfFault result (Fails start characters.now) }
{
    let mut tokens = Tokens::new(alloc);
    let mut at = START;
    let mut last_line = 0;
    let mut rest = characters;
    'pieces: while let Some((c, after)) = rest.split_first() {
        match piece_at(alloc, at, *c, after, rest)? {
            Piece::Blank(count) => {
                at.column += count as u32;
                rest = skip(rest, count);
            }
            Piece::LineEnd => {
                at = Place {
                    line: at.line + 1,
                    column: 1,
                };
                rest = after;
            }
            Piece::Made(kind, count) => {
                tokens.push(Token {
                    kind,
                    place: at,
                    first: last_line < at.line,
                })?;
                last_line = at.line;
                at.column += count as u32;
                rest = skip(rest, count);
            }
        }
    }
    tokens.set_end(at);
    Ok(tokens)
}

/// The text that the first so many bytes spell.
fn valid_front(source: &[u8], count: usize) -> &str
    requires within { count ≤ length source.now }
    requires text { IsUtf8 (take count source.now) }
    ensures { result.now ≡ take count source.now }
{
    match str::from_utf8(&source[..count]) {
        Ok(text) => text,
        Err(_) => unreachable!(),
    }
}

/// The characters of a source that is not too long.
fn decode(alloc: Global, source: &[u8]) -> Result<Vec<char>, LexFault>
    requires { length source.now ≤ MOST_SOURCE_BYTES }
    ensures text { IfOk result (λ v. IsText v.items source.now) }
    ensures fault { IfFault result (HasFault source.now) }
{
    match str::from_utf8(source) {
        Ok(text) => Ok(characters_of(alloc, text)?),
        Err(error) => {
            let front = characters_of(alloc, valid_front(source, error.valid_up_to()))?;
            Err(LexFault::BadUtf8 {
                place: place_following(front.as_slice()),
            })
        }
    }
}

/// The tokens of a source, in its order, or its first fault.
///
/// A source that is too long has no other fault, and one that is no UTF-8 has that fault alone. Of
/// the others the first in the order of the source is answered. In a text this is the first by
/// where it happens; that it is too long comes last.
pub fn lex(alloc: Global, source: &[u8]) -> Result<Tokens, LexFault>
    ensures tokens { IfOk result (HasTokens source.now) }
    ensures few { IfOk result (λ t. length t.tokens ≤ length source.now) }
    ensures fault { IfFault result (HasFault source.now) }

    // Unless out of memory, the tokens come wherever a source has them, and so does each
    // fault.
    ensures tokens_exactly { (spelled : Spelled) → HasTokens source.now spelled → IsUnlessMemory result (Ok spelled) }
    ensures fault_exactly { (e : Fault) → HasFault source.now e → IsUnlessMemory result (Err e) }
{
    if source.len() > MOST_SOURCE_BYTES {
        return Err(LexFault::SpecTooLong { place: START });
    }
    let characters = decode(alloc, source)?;
    lex_characters(alloc, characters.as_slice())
}
