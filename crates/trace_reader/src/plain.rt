// Lines of the forms in which most are written: `TIME: NAME = VALUE` with one blank at each of these places and an end, and of a unit
// `TIME: NAME` as well.

ghost use Rattle.std.specs.Prelude.{◌≡◌, ◌++◌, ◌<◌, ◌^◌, codes, neg_ℤ, pos, IfSome, IsTrue};
ghost use Rattle.tsl_value.specs.declared.scalar.Scalar.TheVariants as scalar;
ghost use Rattle.trace_reader.specs.inner.Plain.{BeginsWithNumber, BeginsWithTail, BeginsWithValue, IsPlainOf};
ghost use Rattle.trace_reader.specs.inner.Spelling.{IsWhole};
ghost use Rattle.tsl_value.specs.declared.scalar.ScalarType.TheVariants as scalar_type;

use crate::form::{is_blank, is_end_blank, place_of};
use crate::inputs::Inputs;
use crate::line::literal_of;
use std::alloc::Global;
use tsl_value::ids::EqId;
use tsl_value::scalar::{Scalar, ScalarType};
use tsl_value::time::Time;

/// So many digits spell a number below 2^63.
const MAX_DIGITS: usize = 18;

/// The byte of the digit 0.
const ZERO: u64 = 48;

/// The time, the input and the value of a line, and how many bytes it has, its end not counted.
#[derive(Drop)]
pub(crate) struct PlainLine {
    pub(crate) time: Time,
    pub(crate) input: EqId,
    pub(crate) value: Scalar,
    pub(crate) len: usize,
}

/// The line at the front, where it is of this form and has the name of an input. `None` says nothing of it.
pub(crate) fn plain_line(alloc: Global, inputs: &Inputs<'_>, bytes: &[u8]) -> Option<PlainLine>
    ensures { IfSome result (IsPlainOf inputs.now bytes.now) }
{
    if !inputs.has_plain() {
        return None;
    }
    let (digits, after_time) = number_before(bytes)?;
    let time = Time::new(digits)?;
    let named = after_colon(after_time)?;
    let input = inputs.plain_input(named)?;
    let name = inputs.name(input)?;
    let of = inputs.type_of(input)?;
    let (value, end) = tail_before(alloc, of, after(named, name)?)?;
    let _next = after(end, b"\n")?;
    let len = bytes.len() - end.len();
    Some(PlainLine {
        time,
        input,
        value,
        len,
    })
}

/// What a line has after its name, and what stands after that: a value, or of a unit perhaps nothing.
#[inline(always)]
fn tail_before(alloc: Global, of: ScalarType, bytes: &[u8]) -> Option<(Scalar, &[u8])>
    ensures { IfSome result (λ r. BeginsWithTail of bytes.now r.0 r.1.now) }
{
    match after_equals(bytes) {
        Some(written) => value_before(alloc, of, written),
        None => nothing_before(of, bytes),
    }
}

/// The value of a unit that has none written.
fn nothing_before(of: ScalarType, bytes: &[u8]) -> Option<(Scalar, &[u8])>
    ensures { IfSome result (λ r. BeginsWithTail of bytes.now r.0 r.1.now) }
{
    match of {
        ScalarType::Unit => Some((Scalar::Unit, bytes)),
        _ => None,
    }
}

/// The value of a type at the front, and what stands after it.
#[inline(always)]
fn value_before(alloc: Global, of: ScalarType, bytes: &[u8]) -> Option<(Scalar, &[u8])>
    ensures { IfSome result (λ r. BeginsWithValue of bytes.now r.0 r.1.now) }
{
    match of {
        ScalarType::Int => int_before(bytes),
        _ => literal_before(alloc, of, bytes),
    }
}

/// The literal that goes up to the line's end, and what stands after it. Out of memory it is `None` too, and is asked again where the line is
/// judged.
#[inline(never)]
fn literal_before(alloc: Global, of: ScalarType, bytes: &[u8]) -> Option<(Scalar, &[u8])>
    ensures { IfSome result (λ r. BeginsWithValue of bytes.now r.0 r.1.now) }
{
    let len = place_of(bytes, b'\n')?;
    let written = &bytes[..len];
    if !is_whole(written) {
        return None;
    }
    match literal_of(alloc, written, of) {
        Ok(Some(value)) => Some((value, &bytes[len..])),
        _ => None,
    }
}

/// No blank stands at the front or at the end.
fn is_whole(bytes: &[u8]) -> bool
    ensures { IsTrue result → IsWhole bytes.now }
{
    match (bytes.first(), bytes.last()) {
        (Some(first), Some(last)) => !is_blank(*first) && !is_end_blank(*last),
        _ => false,
    }
}

/// What stands after `: `.
fn after_colon(bytes: &[u8]) -> Option<&[u8]>
    ensures { IfSome result (λ r. bytes.now ≡ codes ": " ++ r.now) }
{
    match bytes {
        [b':', b' ', rest @ ..] => Some(rest),
        _ => None,
    }
}

/// What stands after ` = `.
#[inline(always)]
fn after_equals(bytes: &[u8]) -> Option<&[u8]>
    ensures { IfSome result (λ r. bytes.now ≡ codes " = " ++ r.now) }
{
    match bytes {
        [b' ', b'=', b' ', rest @ ..] => Some(rest),
        _ => None,
    }
}

/// What stands after these bytes.
fn after<'a>(bytes: &'a [u8], front: &[u8]) -> Option<&'a [u8]>
    ensures { IfSome result (λ r. bytes.now ≡ front.now ++ r.now) }
{
    let mut rest = bytes;
    for byte in front {
        let (first, others) = rest.split_first()?;
        if first != byte {
            return None;
        }
        rest = others;
    }
    Some(rest)
}

/// The number that digits at the front spell, with a minus or nothing before them, and what stands after them.
#[inline(always)]
fn int_before(bytes: &[u8]) -> Option<(Scalar, &[u8])>
    ensures { IfSome result (λ r. BeginsWithValue scalar_type.Int bytes.now r.0 r.1.now) }
{
    match after(bytes, b"-") {
        Some(digits) => {
            let (number, rest) = number_before(digits)?;
            Some((negative(number), rest))
        }
        None => {
            let (number, rest) = number_before(bytes)?;
            Some((positive(number), rest))
        }
    }
}

fn positive(number: u64) -> Scalar
    requires { number < 2 ^ 63 }
    ensures { result ≡ scalar.Int (pos number) }
{
    Scalar::Int(number as i64)
}

fn negative(number: u64) -> Scalar
    requires { number < 2 ^ 63 }
    ensures { result ≡ scalar.Int (neg_ℤ (pos number)) }
{
    Scalar::Int(-(number as i64))
}

/// The number that digits at the front spell, and what stands after them. `None` says nothing of them.
fn number_before(bytes: &[u8]) -> Option<(u64, &[u8])>
    ensures number { IfSome result (λ r. BeginsWithNumber bytes.now r.0 r.1.now) }
    ensures bounded { IfSome result (λ r. r.0 < 2 ^ 63) }
{
    // A digit more stands where a line of this form has none.
    let front = &bytes[..bytes.len().min(MAX_DIGITS)];
    let mut number = 0;
    let mut rest = front;
    while let Some((digit, others)) = rest.split_first() {
        if !digit.is_ascii_digit() {
            break;
        }
        number = number * 10 + (u64::from(*digit) - ZERO);
        rest = others;
    }
    let count = front.len() - rest.len();
    if count == 0 {
        return None;
    }
    Some((number, &bytes[count..]))
}
