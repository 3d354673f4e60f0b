// The form of a trace line.

ghost use Rattle.std.specs.Prelude.{◌≡◌, ◌==◌, ◌<◌, ◌^◌, ◌+◌, ◌*◌, IfSome, IsTrue, option_map, position};
ghost use Rattle.std.specs.Char.{digit_value, is_ascii_digit};
ghost use Rattle.std.specs.List.{list_all};
ghost use Rattle.std.specs.Option.{SomeIff};
ghost use Rattle.std.specs.Str.Parse.{digits_value};
ghost use Rattle.tsl_value.specs.Literal.{are_digits};
ghost use Rattle.trace_reader.specs.inner.Borrowed.{bytes_of};
ghost use Rattle.trace_reader.specs.Form.{after_time, line_of_name, content, is_blank, is_end_blank, parts_of, says_nothing, split_once};
ghost use Rattle.trace_reader.specs.Form.{time_of, timed, valued, without_end, without_front};

use crate::name::name_of;
use tsl_value::time::Time;

/// The bytes of a line's time, its name and its value, where it has them.
#[derive(Clone, Copy, Drop)]
pub(crate) struct LineParts<'a> {
    pub(crate) time: &'a [u8],
    pub(crate) name: Option<&'a str>,
    pub(crate) value: Option<&'a [u8]>,
}

/// The place of the first such byte.
pub(crate) fn place_of(bytes: &[u8], mark: u8) -> Option<usize>
    ensures { result ≡ position (λ b. b == mark) bytes.now }
{
    bytes.iter().position(|byte| *byte == mark)
}

/// What stands before the first such byte, and what stands after it.
fn split_once(bytes: &[u8], mark: u8) -> Option<(&[u8], &[u8])>
    ensures { option_map (λ p. (p.0.now, p.1.now)) result ≡ split_once mark bytes.now }
{
    match place_of(bytes, mark) {
        Some(at) => Some((&bytes[..at], &bytes[at + 1..])),
        None => None,
    }
}

/// The bytes without the blanks before them.
fn without_blanks_before(bytes: &[u8]) -> &[u8]
    ensures { result.now ≡ without_front is_blank bytes.now }
{
    let mut rest = bytes;
    while let [b' ' | b'\t', others @ ..] = rest {
        rest = others;
    }
    rest
}

/// The bytes without the blanks after them.
fn without_blanks_after(bytes: &[u8]) -> &[u8]
    ensures { result.now ≡ without_end is_blank bytes.now }
{
    let mut rest = bytes;
    while let Some((last, others)) = rest.split_last() {
        if !is_blank(*last) {
            return rest;
        }
        rest = others;
    }
    rest
}

/// A line without the blanks at its end, of which CR is one.
fn without_end_blanks(line: &[u8]) -> &[u8]
    ensures { result.now ≡ without_end is_end_blank line.now }
{
    let mut rest = line;
    while let Some((last, others)) = rest.split_last() {
        if !is_end_blank(*last) {
            return rest;
        }
        rest = others;
    }
    rest
}

pub(crate) fn is_blank(byte: u8) -> bool
    ensures { result ≡ is_blank byte }
{
    byte == b' ' || byte == b'\t'
}

pub(crate) fn is_end_blank(byte: u8) -> bool
    ensures { result ≡ is_end_blank byte }
{
    is_blank(byte) || byte == b'\r'
}

/// A line without the blanks around it.
pub(crate) fn content(line: &[u8]) -> &[u8]
    ensures { result.now ≡ content line.now }
{
    without_blanks_before(without_end_blanks(line))
}

/// Whether a line's content is empty or a comment.
pub(crate) fn says_nothing(content: &[u8]) -> bool
    ensures { result ≡ says_nothing content.now }
{
    match content {
        [] | [b'#', ..] | [b'-', b'-', ..] => true,
        _ => false,
    }
}

pub(crate) fn are_digits(bytes: &[u8]) -> bool
    ensures { result ≡ are_digits bytes.now }
{
    !bytes.is_empty() && all_are_digits(bytes)
}

fn all_are_digits(bytes: &[u8]) -> bool
    ensures { result ≡ list_all is_ascii_digit bytes.now }
{
    bytes.iter().all(|byte| byte.is_ascii_digit())
}

/// The parts of a line's content, where it is `TIME :`, `TIME : NAME` or `TIME : NAME = VALUE`.
pub(crate) fn parts_of(content: &[u8]) -> Option<LineParts<'_>>
    ensures parts { option_map bytes_of result ≡ parts_of content.now }
    ensures digits { IfSome result (λ p. IsTrue (are_digits p.time.now)) }
{
    let (time, rest) = split_once(content, b':')?;
    timed(without_blanks_after(time), without_blanks_before(rest))
}

/// The parts, by what stands before the colon and after it.
fn timed<'a>(time: &'a [u8], rest: &'a [u8]) -> Option<LineParts<'a>>
    ensures parts { option_map bytes_of result ≡ timed time.now rest.now }
    ensures digits { IfSome result (λ p. IsTrue (are_digits p.time.now)) }
{
    if are_digits(time) {
        after_time(time, rest)
    } else {
        None
    }
}

/// The parts, by what stands after the colon.
fn after_time<'a>(time: &'a [u8], rest: &'a [u8]) -> Option<LineParts<'a>>
    ensures { option_map bytes_of result ≡ after_time time.now rest.now }
{
    if rest.is_empty() {
        return Some(LineParts {
            time,
            name: None,
            value: None,
        });
    }
    match split_once(rest, b'=') {
        Some((name, value)) => valued(
            time,
            without_blanks_after(name),
            without_blanks_before(value),
        ),
        None => line_of_name(time, rest, None),
    }
}

/// A name and a value, which is not empty, after a time.
fn valued<'a>(time: &'a [u8], name: &'a [u8], value: &'a [u8]) -> Option<LineParts<'a>>
    ensures { option_map bytes_of result ≡ valued time.now name.now value.now }
{
    if value.is_empty() {
        return None;
    }
    line_of_name(time, name, Some(value))
}

/// A name, and perhaps a value, after a time.
fn line_of_name<'a>(
    time: &'a [u8],
    name: &'a [u8],
    value: Option<&'a [u8]>,
) -> Option<LineParts<'a>>
    ensures { option_map bytes_of result ≡ line_of_name time.now name.now (option_map (λ b. b.now) value.entry) }
{
    Some(LineParts {
        time,
        name: Some(name_of(name)?),
        value,
    })
}

/// The time that digits spell, where it is one.
pub(crate) fn time_of(digits: &[u8]) -> Option<Time>
    requires { IsTrue (are_digits digits.now) }
    ensures { result ≡ time_of digits.now }
{
    match number_of(digits) {
        Some(number) => Time::new(number),
        None => None,
    }
}

/// The number that digits spell, where 64 bits hold it.
pub(crate) fn number_of(digits: &[u8]) -> Option<u64>
    requires { IsTrue (are_digits digits.now) }
    ensures { SomeIff result (digits_value 10 digits.now < 2 ^ 64) (digits_value 10 digits.now) }
{
    let mut number = 0;
    for digit in digits {
        number = with_digit(number, *digit)?;
    }
    Some(number)
}

/// A number with a digit more at its end, where 64 bits hold it.
fn with_digit(number: u64, digit: u8) -> Option<u64>
    requires { IsTrue (is_ascii_digit digit) }
    ensures { SomeIff result (number * 10 + digit_value digit < 2 ^ 64) (number * 10 + digit_value digit) }
{
    number.checked_mul(10)?.checked_add(u64::from(digit - b'0'))
}
