// Aggregates, read.

ghost use Rattle.std.specs.Prelude.{◌≡◌};
ghost use Rattle.state_snapshot.specs.inner.Reading.{Gives, as_scalar, content_at, entry_at, is_entry_below, is_key_below, items_at};
ghost use Rattle.state_snapshot.specs.inner.Reading.{map_at, queue_at, rise_by, scalar_at, set_at};

use crate::fault::StateFault;
use crate::fields::{Read, read_number, read_scalar};
use aggregate_store::content::Content;
use aggregate_store::lists::{Pairs, Scalars};
use std::alloc::Global;
use tsl_value::scalar::{KeyType, Scalar, ScalarType, ValueType};

/// The type of keys as one of scalars.
fn as_scalar(of: KeyType) -> ScalarType
    ensures { result ≡ as_scalar of }
{
    match of {
        KeyType::Int => ScalarType::Int,
        KeyType::Bool => ScalarType::Bool,
        KeyType::Text => ScalarType::Text,
    }
}

/// So many scalars of a type.
fn read_scalars(alloc: Global, of: ScalarType, count: u64, bytes: &[u8]) -> Read<'_, Scalars>
    ensures { Gives (λ x. (x.0, x.1.now)) result (items_at (scalar_at of) count bytes.now) }
{
    let mut values = Scalars::new(alloc);
    let mut rest = bytes;
    for _ in 0..count {
        let (value, after) = read_scalar(alloc, of, rest)?;
        values.push(value)?;
        rest = after;
    }
    Ok((values, rest))
}

/// An entry of a map: a key and its value.
#[tactic(auto, unfolding(crate::specs::inner::Reading::entry_at))]
fn read_entry(
    alloc: Global,
    key: KeyType,
    of: ScalarType,
    bytes: &[u8],
) -> Read<'_, (Scalar, Scalar)>
    ensures { Gives (λ x. (x.0, x.1.now)) result (entry_at key of bytes.now) }
{
    let (key, rest) = read_scalar(alloc, as_scalar(key), bytes)?;
    let (value, rest) = read_scalar(alloc, of, rest)?;
    Ok(((key, value), rest))
}

/// So many entries of a map.
fn read_entries(
    alloc: Global,
    key: KeyType,
    of: ScalarType,
    count: u64,
    bytes: &[u8],
) -> Read<'_, Pairs>
    ensures { Gives (λ x. (x.0, x.1.now)) result (items_at (entry_at key of) count bytes.now) }
{
    let mut entries = Pairs::new(alloc);
    let mut rest = bytes;
    for _ in 0..count {
        let (entry, after) = read_entry(alloc, key, of, rest)?;
        entries.push(entry)?;
        rest = after;
    }
    Ok((entries, rest))
}

fn is_below(a: &Scalar, b: &Scalar) -> bool
    ensures { result ≡ is_key_below a.now b.now }
{
    a.cmp(b).is_lt()
}

/// Whether each key is below the next.
fn are_rising(keys: &[Scalar]) -> bool
    ensures { result ≡ rise_by is_key_below keys.now }
{
    let Some((first, others)) = keys.split_first() else {
        return true;
    };
    let mut last = first;
    for key in others {
        if !is_below(last, key) {
            return false;
        }
        last = key;
    }
    true
}

/// Whether each entry's key is below the next one's.
fn are_entries_rising(entries: &[(Scalar, Scalar)]) -> bool
    ensures { result ≡ rise_by is_entry_below entries.now }
{
    let Some((first, others)) = entries.split_first() else {
        return true;
    };
    let mut last = first;
    for entry in others {
        if !is_below(&last.0, &entry.0) {
            return false;
        }
        last = entry;
    }
    true
}

#[tactic(auto, unfolding(crate::specs::inner::Reading::set_at))]
fn read_set(alloc: Global, key: KeyType, bytes: &[u8]) -> Read<'_, Content>
    ensures { Gives (λ x. (x.0, x.1.now)) result (set_at key bytes.now) }
{
    let (count, rest) = read_number(bytes)?;
    let (keys, rest) = read_scalars(alloc, as_scalar(key), count, rest)?;
    if !are_rising(keys.as_slice()) {
        return Err(StateFault::WrongForm);
    }
    Ok((Content::Set(keys), rest))
}

#[tactic(auto, unfolding(crate::specs::inner::Reading::map_at))]
fn read_map(alloc: Global, key: KeyType, of: ScalarType, bytes: &[u8]) -> Read<'_, Content>
    ensures { Gives (λ x. (x.0, x.1.now)) result (map_at key of bytes.now) }
{
    let (count, rest) = read_number(bytes)?;
    let (entries, rest) = read_entries(alloc, key, of, count, rest)?;
    if !are_entries_rising(entries.as_slice()) {
        return Err(StateFault::WrongForm);
    }
    Ok((Content::Map(entries), rest))
}

#[tactic(auto, unfolding(crate::specs::inner::Reading::queue_at))]
fn read_queue(alloc: Global, of: ScalarType, bytes: &[u8]) -> Read<'_, Content>
    ensures { Gives (λ x. (x.0, x.1.now)) result (queue_at of bytes.now) }
{
    let (count, rest) = read_number(bytes)?;
    let (elements, rest) = read_scalars(alloc, of, count, rest)?;
    Ok((Content::Queue(elements), rest))
}

/// An aggregate of a type.
pub(crate) fn read_content(alloc: Global, of: ValueType, bytes: &[u8]) -> Read<'_, Content>
    ensures { Gives (λ x. (x.0, x.1.now)) result (content_at of bytes.now) }
{
    match of {
        ValueType::Scalar(_) => Err(StateFault::WrongForm),
        ValueType::Set(key) => read_set(alloc, key, bytes),
        ValueType::Map(key, value) => read_map(alloc, key, value, bytes),
        ValueType::Queue(element) => read_queue(alloc, element, bytes),
    }
}
