// Fields of code, read: a value and the bytes after it.

ghost use Rattle.code_file.specs.inner.Reading.{bytes_at, if_name, name_at, named_at, number_at, optional_name_at, wide_at};
ghost use Rattle.code_reader.specs.inner.Gives.{Gives};

use code_file::fault::CodeFault;
use spec_lexer::limits::MOST_NAME_BYTES;
use std::alloc::Global;
use trace_reader::name::name_of as name_in;
use tsl_value::text::Text;

/// A value and the bytes after it, or why the bytes are no code.
pub(crate) type Read<'b, T> = Result<(T, &'b [u8]), CodeFault>;

/// So many bytes.
pub(crate) fn read_bytes(count: usize, bytes: &[u8]) -> Read<'_, &[u8]>
    ensures { Gives (λ x. (x.0.now, x.1.now)) result (bytes_at count bytes.now) }
{
    if bytes.len() < count {
        return Err(CodeFault::WrongForm);
    }
    Ok(bytes.split_at(count))
}

pub(crate) fn read_number(bytes: &[u8]) -> Read<'_, u32>
    ensures { Gives (λ x. (x.0, x.1.now)) result (number_at bytes.now) }
{
    if bytes.len() < 4 {
        return Err(CodeFault::WrongForm);
    }
    let (front, rest) = bytes.split_at(4);
    let number = u32::from_be_bytes([front[0], front[1], front[2], front[3]]);
    Ok((number, rest))
}

/// A number of eight bytes.
pub(crate) fn read_wide(bytes: &[u8]) -> Read<'_, u64>
    ensures { Gives (λ x. (x.0, x.1.now)) result (wide_at bytes.now) }
{
    if bytes.len() < 8 {
        return Err(CodeFault::WrongForm);
    }
    let (front, rest) = bytes.split_at(8);
    let number = u64::from_be_bytes([
        front[0], front[1], front[2], front[3], front[4], front[5], front[6], front[7],
    ]);
    Ok((number, rest))
}

/// The name of these bytes.
fn name_of(alloc: Global, bytes: &[u8]) -> Result<Text, CodeFault>
    ensures { Gives (λ name. name) result (if_name bytes.now) }
{
    match name_in(bytes) {
        Some(name) if name.len() <= MOST_NAME_BYTES => Ok(Text::from_str(alloc, name)?),
        _ => Err(CodeFault::WrongForm),
    }
}

/// The name of so many bytes.
fn read_named(alloc: Global, count: usize, bytes: &[u8]) -> Read<'_, Text>
    ensures { Gives (λ x. (x.0, x.1.now)) result (named_at count bytes.now) }
{
    let (name, rest) = read_bytes(count, bytes)?;
    Ok((name_of(alloc, name)?, rest))
}

#[tactic(auto, unfolding(code_file::specs::inner::Reading::name_at))]
pub(crate) fn read_name(alloc: Global, bytes: &[u8]) -> Read<'_, Text>
    ensures { Gives (λ x. (x.0, x.1.now)) result (name_at bytes.now) }
{
    let (count, rest) = read_number(bytes)?;
    read_named(alloc, count as usize, rest)
}

/// A name, or none after length 0.
#[tactic(auto, unfolding(code_file::specs::inner::Reading::optional_name_at))]
pub(crate) fn read_optional_name(alloc: Global, bytes: &[u8]) -> Read<'_, Option<Text>>
    ensures { Gives (λ x. (x.0, x.1.now)) result (optional_name_at bytes.now) }
{
    let (count, rest) = read_number(bytes)?;
    if count == 0 {
        return Ok((None, rest));
    }
    let (name, rest) = read_named(alloc, count as usize, rest)?;
    Ok((Some(name), rest))
}
