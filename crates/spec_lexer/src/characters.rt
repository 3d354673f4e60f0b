// Runs of characters, their bytes, and the places after them.

ghost use Rattle.std.specs.Prelude.{◌≡◌, ◌≤◌, ◌<◌, ◌^◌, length, drop, IfOk, encode_utf8_all};
ghost use Rattle.spec_lexer.specs.Pieces.{place_after};
ghost use Rattle.spec_lexer.specs.Source.{IsText, start};

use std::alloc::{AllocError, Global};
use tsl_value::memory::NoMemory;
use tsl_value::place::Place;
use tsl_value::text::Text;

/// Where the characters of a source begin.
pub(crate) const START: Place = Place { line: 1, column: 1 };

/// The characters of a text.
pub(crate) fn characters_of(alloc: Global, text: &str) -> Result<Vec<char>, AllocError>
    ensures { IfOk result (λ v. IsText v.items text.now) }
{
    text.chars().collect(alloc)
}

/// The text of some characters.
pub(crate) fn text_of(alloc: Global, characters: &[char]) -> Result<Text, NoMemory>
    ensures { IfOk result (λ t. t ≡ encode_utf8_all characters.now) }
{
    let mut text = Text::new(alloc);
    for c in characters {
        text.push(*c)?;
    }
    Ok(text)
}

/// What follows the first so many characters.
pub(crate) fn skip(characters: &[char], count: usize) -> &[char]
    requires { count ≤ length characters.now }
    ensures { result.now ≡ drop count characters.now }
{
    &characters[count..]
}

/// The place after characters that begin at the start of a source.
pub(crate) fn place_following(characters: &[char]) -> Place
    requires { length characters.now < 2 ^ 31 }
    ensures { result ≡ place_after start characters.now }
{
    let mut at = START;
    for character in characters {
        at = if *character == '\n' {
            Place {
                line: at.line + 1,
                column: 1,
            }
        } else {
            Place {
                line: at.line,
                column: at.column + 1,
            }
        };
    }
    at
}
