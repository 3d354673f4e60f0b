// Literals, read.

ghost use Rattle.std.specs.Prelude.{◌≡◌, IfNone, IfSome, IsTrue};
ghost use Rattle.std.specs.Char.{is_ascii_digit};
ghost use Rattle.std.specs.List.{list_all};
ghost use Rattle.std.specs.Option.{SomeIff};
ghost use Rattle.std.specs.Str.{IsUtf8, is_utf8};
ghost use Rattle.tsl_value.specs.Literal.{BeginsWith, HasNoByte, IsAnswer, IsContent, are_digits, bool_literal, int_literal, is_int};
ghost use Rattle.tsl_value.specs.Literal.{literal, quoted, short_text, signed_value, text_literal, unescaped, unit_literal, unquoted};
ghost use Rattle.tsl_value.specs.Literal.{without_minus};

use crate::bytes::Bytes;
use crate::limits::MOST_TEXT_BYTES;
use crate::memory::NoMemory;
use crate::scalar::{Scalar, ScalarType};
use crate::text::Text;
use std::alloc::Global;
use std::str;

/// Why bytes spell no literal of a type.
#[derive(Clone, Copy, PartialEq, Eq, Debug)]
pub enum LiteralFault {
    /// They are not of the type's grammar.
    BadLiteral,
    /// They are the digits of a number that 64 bits with a sign don't hold.
    LiteralTooWide,
    /// They spell a text of more than 65,536 bytes.
    TextTooLong,
    /// Out of memory.
    Memory,
}

impl From<NoMemory> for LiteralFault {
    ghost use Rattle.tsl_value.specs.declared.literal.LiteralFault.TheVariants.{Memory};

    ghost from_gives = { λ _ fault. fault ≡ Memory };

    fn from(_none: NoMemory) -> LiteralFault {
        LiteralFault::Memory
    }
}

/// The scalar of a type that bytes spell: `()`, a number with `-` or nothing before it, `true` or
/// `false`, or a text between quotes with the escapes `\"`, `\\`, `\n`, `\t` and `\r`.
#[tactic(auto, unfolding(crate::specs::Literal::literal))]
pub fn read_literal(alloc: Global, bytes: &[u8], of: ScalarType) -> Result<Scalar, LiteralFault>
    ensures { IsAnswer (literal of bytes.now) result }
{
    match of {
        ScalarType::Unit => read_unit(bytes),
        ScalarType::Int => read_int(bytes),
        ScalarType::Bool => read_bool(bytes),
        ScalarType::Text => read_text(alloc, bytes),
    }
}

fn read_unit(bytes: &[u8]) -> Result<Scalar, LiteralFault>
    ensures { IsAnswer (unit_literal bytes.now) result }
{
    if bytes == b"()".as_slice() {
        Ok(Scalar::Unit)
    } else {
        Err(LiteralFault::BadLiteral)
    }
}

fn read_bool(bytes: &[u8]) -> Result<Scalar, LiteralFault>
    ensures { IsAnswer (bool_literal bytes.now) result }
{
    if bytes == b"true".as_slice() {
        Ok(Scalar::Bool(true))
    } else if bytes == b"false".as_slice() {
        Ok(Scalar::Bool(false))
    } else {
        Err(LiteralFault::BadLiteral)
    }
}

fn read_int(bytes: &[u8]) -> Result<Scalar, LiteralFault>
    ensures { IsAnswer (int_literal bytes.now) result }
{
    if !is_number(bytes) {
        return Err(LiteralFault::BadLiteral);
    }
    match int_of_digits(bytes) {
        Some(number) => Ok(Scalar::Int(number)),
        None => Err(LiteralFault::LiteralTooWide),
    }
}

/// A minus or nothing, and digits.
fn is_number(bytes: &[u8]) -> bool
    ensures { result ≡ are_digits (without_minus bytes.now) }
{
    match bytes {
        [b'-', digits @ ..] => is_digits(digits),
        _ => is_digits(bytes),
    }
}

fn is_digits(bytes: &[u8]) -> bool
    ensures { result ≡ are_digits bytes.now }
{
    !bytes.is_empty() && has_only_digits(bytes)
}

fn has_only_digits(bytes: &[u8]) -> bool
    ensures { result ≡ list_all is_ascii_digit bytes.now }
{
    bytes.iter().all(|byte| byte.is_ascii_digit())
}

/// The number of a minus or nothing and digits, where 64 bits with a sign hold it.
fn int_of_digits(bytes: &[u8]) -> Option<i64>
    requires { IsTrue (are_digits (without_minus bytes.now)) }
    ensures { SomeIff result (IsTrue (is_int (signed_value bytes.now))) (signed_value bytes.now) }
{
    match str::from_utf8(bytes) {
        Ok(digits) => match digits.parse::<i64>() {
            Ok(number) => Some(number),
            Err(_) => None,
        },
        Err(_) => None,
    }
}

fn read_text(alloc: Global, bytes: &[u8]) -> Result<Scalar, LiteralFault>
    ensures { IsAnswer (text_literal bytes.now) result }
{
    if !is_text(bytes) {
        return Err(LiteralFault::BadLiteral);
    }
    let content = unquote(alloc, bytes)?;
    short_text_of(content)
}

fn is_text(bytes: &[u8]) -> bool
    ensures { result ≡ is_utf8 bytes.now }
{
    match str::from_utf8(bytes) {
        Ok(_) => true,
        Err(_) => false,
    }
}

fn short_text_of(content: Bytes) -> Result<Scalar, LiteralFault>
    requires { IsUtf8 content }
    ensures { IsAnswer (short_text (Some content)) result }
{
    if content.len() > MOST_TEXT_BYTES {
        return Err(LiteralFault::TextTooLong);
    }
    match Text::from_utf8(content) {
        Some(text) => Ok(Scalar::Text(text)),
        None => Err(LiteralFault::BadLiteral),
    }
}

/// The text between quotes, its escapes read.
fn unquote(alloc: Global, bytes: &[u8]) -> Result<Bytes, LiteralFault>
    ensures { IsContent (unquoted bytes.now) result }
{
    match bytes {
        [b'"', rest @ ..] => read_content(alloc, rest),
        _ => Err(LiteralFault::BadLiteral),
    }
}

/// The text of the bytes after a first quote.
fn read_content(alloc: Global, bytes: &[u8]) -> Result<Bytes, LiteralFault>
    ensures { IsContent (quoted bytes.now) result }
{
    let mut content = Bytes::new(alloc);
    let mut rest = bytes;
    while let Some((byte, others)) = next_byte(rest) {
        content.push(byte)?;
        rest = others;
    }
    match rest {
        [b'"'] => Ok(content),
        _ => Err(LiteralFault::BadLiteral),
    }
}

/// The first byte of a text within quotes, its escape read, and the bytes after it.
fn next_byte(bytes: &[u8]) -> Option<(u8, &[u8])>
    ensures more { IfSome result (λ p. BeginsWith p.0 p.1.now bytes.now) }
    ensures ended { IfNone result (HasNoByte bytes.now) }
{
    match bytes {
        [] | [b'"', ..] | [b'\n', ..] => None,
        [b'\\', escape, others @ ..] => Some((unescape(*escape)?, others)),
        [b'\\'] => None,
        [byte, others @ ..] => Some((*byte, others)),
    }
}

/// The byte that an escape stands for, by the byte after its backslash.
fn unescape(escape: u8) -> Option<u8>
    ensures { result ≡ unescaped escape }
{
    match escape {
        b'"' | b'\\' => Some(escape),
        b'n' => Some(b'\n'),
        b't' => Some(b'\t'),
        b'r' => Some(b'\r'),
        _ => None,
    }
}
