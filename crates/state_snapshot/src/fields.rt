// Fields of a state, read: a value and the bytes after it.

ghost use Rattle.std.specs.Prelude.{◌&&◌, None, Some, if◌then◌else◌, length, nat_le, nat_lt};
ghost use Rattle.std.specs.Str.{is_utf8};
ghost use Rattle.tsl_value.specs.declared.limits.TheConstants.{MOST_TEXT_BYTES};
ghost use Rattle.tsl_value.specs.declared.scalar.Scalar.TheVariants as scalar;
ghost use Rattle.state_snapshot.specs.inner.Reading.{Gives, flag_at, number_at, optional_at, scalar_at, text_at};

use crate::fault::StateFault;
use std::alloc::Global;
use tsl_value::bytes::Bytes;
use tsl_value::limits::MOST_TEXT_BYTES;
use tsl_value::scalar::{Scalar, ScalarType};
use tsl_value::text::Text;
use tsl_value::time::Time;

/// A value and the bytes after it, or why the bytes are no state.
pub(crate) type Read<'b, T> = Result<(T, &'b [u8]), StateFault>;

pub(crate) fn read_number(bytes: &[u8]) -> Read<'_, u64>
    ensures { Gives (λ x. (x.0, x.1.now)) result (number_at bytes.now) }
{
    if bytes.len() < 8 {
        return Err(StateFault::WrongForm);
    }
    let (front, rest) = bytes.split_at(8);
    let number = u64::from_be_bytes([
        front[0], front[1], front[2], front[3], front[4], front[5], front[6], front[7],
    ]);
    Ok((number, rest))
}

/// As many bytes as a number before them says.
#[tactic(auto, unfolding(crate::specs::inner::Reading::text_at))]
pub(crate) fn read_text(bytes: &[u8]) -> Read<'_, &[u8]>
    ensures { Gives (λ x. (x.0.now, x.1.now)) result (text_at bytes.now) }
{
    let (len, rest) = read_number(bytes)?;
    if (rest.len() as u64) < len {
        return Err(StateFault::WrongForm);
    }
    Ok(rest.split_at(len as usize))
}

pub(crate) fn read_flag(bytes: &[u8]) -> Read<'_, bool>
    ensures { Gives (λ x. (x.0, x.1.now)) result (flag_at bytes.now) }
{
    match bytes {
        [0, rest @ ..] => Ok((false, rest)),
        [1, rest @ ..] => Ok((true, rest)),
        _ => Err(StateFault::WrongForm),
    }
}

/// The time of a number.
fn time_of(number: u64) -> Result<Time, StateFault>
    ensures { Gives (λ t. t) result (if nat_lt number 0x8000_0000_0000_0000 then Some number else None) }
{
    match Time::new(number) {
        Some(time) => Ok(time),
        None => Err(StateFault::WrongForm),
    }
}

/// A time after a flag that says whether there is one.
#[tactic(auto, unfolding(crate::specs::inner::Reading::optional_at))]
pub(crate) fn read_optional(bytes: &[u8]) -> Read<'_, Option<Time>>
    ensures { Gives (λ x. (x.0, x.1.now)) result (optional_at bytes.now) }
{
    let (is_there, rest) = read_flag(bytes)?;
    if !is_there {
        return Ok((None, rest));
    }
    let (number, rest) = read_number(rest)?;
    Ok((Some(time_of(number)?), rest))
}

/// A text of these bytes, which is in UTF-8 and not too long.
fn scalar_of_text(alloc: Global, bytes: &[u8]) -> Result<Scalar, StateFault>
    ensures { Gives (λ s. s) result
        (if is_utf8 bytes.now && nat_le (length bytes.now) MOST_TEXT_BYTES then Some (scalar.Text bytes.now) else None) }
{
    if bytes.len() > MOST_TEXT_BYTES {
        return Err(StateFault::WrongForm);
    }
    match Text::from_utf8(Bytes::from_slice(alloc, bytes)?) {
        Some(text) => Ok(Scalar::Text(text)),
        None => Err(StateFault::WrongForm),
    }
}

/// A scalar of a type.
#[tactic(auto, unfolding(crate::specs::inner::Reading::scalar_at))]
pub(crate) fn read_scalar(alloc: Global, of: ScalarType, bytes: &[u8]) -> Read<'_, Scalar>
    ensures { Gives (λ x. (x.0, x.1.now)) result (scalar_at of bytes.now) }
{
    match of {
        ScalarType::Unit => Ok((Scalar::Unit, bytes)),
        ScalarType::Int => {
            let (number, rest) = read_number(bytes)?;
            Ok((Scalar::Int(number.cast_signed()), rest))
        }
        ScalarType::Bool => {
            let (value, rest) = read_flag(bytes)?;
            Ok((Scalar::Bool(value), rest))
        }
        ScalarType::Text => {
            let (text, rest) = read_text(bytes)?;
            Ok((scalar_of_text(alloc, text)?, rest))
        }
    }
}
