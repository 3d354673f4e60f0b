// Runs that are saved after some bytes of their traces and go on, and bytes that no run wrote.

use crate::tests::samples::{
    ANSWERS, BEATS, BITS, HEARTBEATS, LATENCIES, NUMBERS, REQUESTS, SEEN, SIGNS,
};
use code_check::read::read_code;
use register_code::code::Code;
use resumed_run::part::{After, Part};
use resumed_run::save::{begun, resumed};
use state_snapshot::fault::StateFault;
use std::alloc::Global;
use trace_monitor::ending::RunEnding;
use trace_monitor::options::Options;
use trace_reader::limits::MOST_PIECE_BYTES;
use tsl_value::bytes::Bytes;
use tsl_value::limits::{MOST_INSTANTS, MOST_TRACE_BYTES};
use tsl_value::memory::NoMemory;

/// The bytes of a run of which nothing was taken.
fn first_state(alloc: Global, code: &Code) -> Result<Bytes, NoMemory> {
    let options = Options {
        until: 0,
        instants: MOST_INSTANTS,
        bytes: MOST_TRACE_BYTES,
        strict: false,
    };
    begun(alloc, code, options)
}

/// What a run makes of a piece that goes on from the state of these bytes, or of the end, which is an empty piece. For a piece that is longer
/// than a run takes there is no memory.
fn part(alloc: Global, code: &Code, state: &[u8], piece: &[u8]) -> Result<Part, StateFault> {
    if piece.len() > MOST_PIECE_BYTES {
        return Err(StateFault::Memory);
    }
    resumed(alloc, code, 0, state, piece)
}

/// The whole is the front and then the rest.
fn is_joined(front: &[u8], rest: &[u8], whole: &[u8]) -> bool {
    match whole.strip_prefix(front) {
        Some(after) => after == rest,
        None => false,
    }
}

/// A run goes on after both, from the same bytes.
fn leave_alike(one: &After, other: &After) -> bool {
    match one {
        After::GoesOn(state) => match other {
            After::GoesOn(other) => state.as_slice() == other.as_slice(),
            After::Ends(_) => false,
        },
        After::Ends(_) => false,
    }
}

/// Two parts print what the whole prints, and leave the same bytes.
fn are_whole(one: &Part, two: &Part, whole: &Part) -> bool {
    is_joined(
        one.text.as_slice(),
        two.text.as_slice(),
        whole.text.as_slice(),
    ) && leave_alike(&two.after, &whole.after)
}

/// After one part of a run the rest of its trace makes the whole of it.
fn goes_on_to(
    alloc: Global,
    code: &Code,
    one: &Part,
    rest: &[u8],
    whole: &Part,
) -> Result<bool, StateFault> {
    match &one.after {
        After::GoesOn(state) => {
            let two = part(alloc, code, state.as_slice(), rest)?;
            Ok(are_whole(one, &two, whole))
        }
        After::Ends(_) => Ok(false),
    }
}

/// A run from these bytes does in two parts what it does in one, wherever it is cut.
fn is_whole_wherever_cut(
    alloc: Global,
    code: &Code,
    first: &[u8],
    trace: &[u8],
    whole: &Part,
) -> Result<bool, StateFault> {
    for at in 1..trace.len() {
        let one = part(alloc, code, first, &trace[..at])?;
        if !goes_on_to(alloc, code, &one, &trace[at..], whole)? {
            return Ok(false);
        }
    }
    Ok(true)
}

/// What the end adds after a part makes this text of it, and then all is done.
fn is_done_with(alloc: Global, code: &Code, one: &Part, text: &[u8]) -> Result<bool, StateFault> {
    match &one.after {
        After::GoesOn(state) => {
            let end = part(alloc, code, state.as_slice(), &[])?;
            Ok(is_done(&end.after) && is_joined(one.text.as_slice(), end.text.as_slice(), text))
        }
        After::Ends(_) => Ok(false),
    }
}

/// A run has ended as one of which all is done.
fn is_done(after: &After) -> bool {
    match after {
        After::Ends(RunEnding::Done) => true,
        _ => false,
    }
}

/// Whether a run prints this text, and wherever it is cut, goes on as if it were not.
fn goes_on_wherever_cut(
    alloc: Global,
    code: &Code,
    trace: &[u8],
    text: &[u8],
) -> Result<bool, StateFault> {
    let first = first_state(alloc, code)?;
    let whole = part(alloc, code, first.as_slice(), trace)?;
    Ok(
        is_done_with(alloc, code, &whole, text)?
            && is_whole_wherever_cut(alloc, code, first.as_slice(), trace, &whole)?,
    )
}

/// Whether the run of this code prints this text, wherever it is cut.
fn prints_wherever_cut(alloc: Global, code: &[u8], trace: &[u8], text: &[u8]) -> bool {
    match read_code(alloc, code) {
        Ok(code) => match goes_on_wherever_cut(alloc, &code, trace, text) {
            Ok(goes_on) => goes_on,
            Err(_) => false,
        },
        Err(_) => false,
    }
}

/// Whether a run ends after its part, at the end of its trace if it goes on.
fn ends_after(alloc: Global, code: &Code, one: &Part) -> bool {
    match &one.after {
        After::GoesOn(state) => match part(alloc, code, state.as_slice(), &[]) {
            Ok(end) => has_ended(&end.after),
            Err(_) => false,
        },
        After::Ends(_) => true,
    }
}

fn has_ended(after: &After) -> bool {
    match after {
        After::Ends(_) => true,
        After::GoesOn(_) => false,
    }
}

/// Whether bytes are refused as no state, or a run goes on from them and ends in a way that has a name.
fn are_answered(alloc: Global, code: &Code, bytes: &[u8]) -> bool {
    match part(alloc, code, bytes, NUMBERS) {
        Ok(one) => ends_after(alloc, code, &one),
        Err(fault) => fault != StateFault::Memory,
    }
}

/// Whether bytes are no state, and do not begin as that of another program.
fn are_refused(alloc: Global, code: &Code, bytes: &[u8]) -> bool {
    match part(alloc, code, bytes, &[]) {
        Ok(_) => false,
        Err(fault) => fault == StateFault::WrongForm,
    }
}

/// A front, a byte in which some bits are turned, and the bytes after it.
fn turned(
    alloc: Global,
    front: &[u8],
    byte: u8,
    bits: u8,
    after: &[u8],
) -> Result<Bytes, NoMemory> {
    let mut bytes = Bytes::from_slice(alloc, front)?;
    bytes.push(byte ^ bits)?;
    bytes.append(after)?;
    Ok(bytes)
}

/// Whether bytes are answered so, whichever bit of the first one after this front is turned.
fn are_answered_turned(
    alloc: Global,
    code: &Code,
    front: &[u8],
    rest: &[u8],
) -> Result<bool, NoMemory> {
    let Some((byte, after)) = rest.split_first() else {
        return Ok(true);
    };
    for bits in BITS {
        let bytes = turned(alloc, front, *byte, *bits, after)?;
        if !are_answered(alloc, code, bytes.as_slice()) {
            return Ok(false);
        }
    }
    Ok(true)
}

/// Whether no front of a state is one, and whichever bit of it is turned it is answered.
fn is_guarded(alloc: Global, code: &Code, state: &[u8]) -> Result<bool, NoMemory> {
    for at in 0..state.len() {
        if !are_refused(alloc, code, &state[..at]) {
            return Ok(false);
        }
        if !are_answered_turned(alloc, code, &state[..at], &state[at..])? {
            return Ok(false);
        }
    }
    Ok(true)
}

/// Whether the first state of the run of this code has so many bytes, and is guarded.
fn first_is_guarded(alloc: Global, code: &[u8], len: usize) -> Result<bool, NoMemory> {
    match read_code(alloc, code) {
        Ok(code) => {
            let state = first_state(alloc, &code)?;
            Ok(state.len() == len && is_guarded(alloc, &code, state.as_slice())?)
        }
        Err(_) => Ok(false),
    }
}

#[test]
fn a_run_with_a_map_and_a_delay_goes_on(rt: HostRuntime) {
    assert!(rt; prints_wherever_cut(rt.alloc(), HEARTBEATS, BEATS, SIGNS));
}

#[test]
fn a_run_with_a_queue_goes_on(rt: HostRuntime) {
    assert!(rt; prints_wherever_cut(rt.alloc(), LATENCIES, REQUESTS, ANSWERS));
}

#[test]
fn what_is_no_state_is_answered(rt: HostRuntime) {
    let is_guarded = first_is_guarded(rt.alloc(), SEEN, 249);
    assert!(rt; matches!(is_guarded, Ok(true)));
}
