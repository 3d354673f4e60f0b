// The inputs that had an event at the last time.

ghost use Rattle.std.specs.Prelude.{◌≡◌, ◌<◌, ◌∷◌, ◌++◌, [], ℕ, IfOk, OnErr, OnOk, Some, length, slice_get, if◌then◌else◌};
ghost use Rattle.std.specs.Prelude.{vec_capacity, vec_len};
ghost use Rattle.flat_core.specs.Members.{is_in};
ghost use Rattle.trace_reader.specs.Reading.{is_among};
ghost use Rattle.trace_reader.specs.inner.LastTime.{last_of};
ghost use Rattle.trace_reader.specs.inner.Reader.{seen_with};

use crate::last::LastTime;
use flat_core::line::TraceLine;
use flat_core::lists::EqSet;
use std::alloc::Global;
use tsl_value::ids::EqId;
use tsl_value::memory::NoMemory;

/// Notes the event of a line, where it has one. Those of lower times are forgotten.
#[inline(always)]
pub(crate) fn note_event(
    seen: &mut Vec<EqId>,
    last: LastTime,
    line: &TraceLine,
) -> Result<(), NoMemory>
    ensures ok { OnOk result (seen.new.items ≡ seen_with (last_of last.number) seen.old.items line.now) }
    ensures err { OnErr result (seen.new.items ≡ seen.old.items) }
{
    let again = last.is(line.time);
    match &line.event {
        Some((input, _)) => note_input(seen, *input, again),
        None => {
            if !again {
                seen.clear();
            }
            Ok(())
        }
    }
}

/// Notes an input with those that were noted, or alone.
#[inline(always)]
fn note_input(seen: &mut Vec<EqId>, input: EqId, again: bool) -> Result<(), NoMemory>
    ensures ok { OnOk result (seen.new.items ≡ (if again then seen.old.items else []) ++ input ∷ []) }
    ensures err { OnErr result (seen.new.items ≡ seen.old.items) }
{
    if again {
        seen.push(input)?;
        return Ok(());
    }
    note_alone(seen, input)
}

/// Notes an input alone. Where one is noted, as mostly, it takes its place.
#[inline(always)]
fn note_alone(seen: &mut Vec<EqId>, input: EqId) -> Result<(), NoMemory>
    ensures ok { OnOk result (seen.new.items ≡ input ∷ []) }
    ensures err { OnErr result (seen.new.items ≡ seen.old.items) }
{
    if seen.len() == 1 {
        seen[0] = input;
        return Ok(());
    }
    seen.reserve(1)?;
    seen.clear();
    put(seen, input);
    Ok(())
}

/// Appends an input, for which there is room.
fn put(seen: &mut Vec<EqId>, input: EqId)
    requires { vec_len seen.old < vec_capacity seen.old }
    ensures { seen.new.items ≡ seen.old.items ++ input ∷ [] }
{
    let _ = seen.push(input);
}

/// The set of some inputs.
pub(crate) fn set_of(alloc: Global, seen: &[EqId]) -> Result<EqSet, NoMemory>
    ensures { IfOk result (λ set. (i : ℕ) → is_in set i ≡ is_among seen.now i) }
{
    let mut set = EqSet::new(alloc);
    for input in seen {
        set.push(*input)?;
    }
    Ok(set)
}

/// The input at a place of a set.
fn input_at(set: &EqSet, place: usize) -> EqId
    requires { place < length set.now }
    ensures { Some result ≡ slice_get set.now place }
{
    match set.get(place) {
        Some(input) => *input,
        None => unreachable!(),
    }
}

/// The inputs of a set.
pub(crate) fn listed(alloc: Global, set: &EqSet) -> Result<Vec<EqId>, NoMemory>
    ensures { IfOk result (λ seen. seen.items ≡ set.now) }
{
    let mut seen = Vec::new(alloc);
    for place in 0..set.len() {
        seen.push(input_at(set, place))?;
    }
    Ok(seen)
}
