// A state, read.

ghost use Rattle.std.specs.Prelude.{◌≡◌, ◌<◌, ◌^◌, Err, IfOk, length, map};
ghost use Rattle.std.specs.List.Sorted.{IsStrictlyIncreasing};
ghost use Rattle.run_state.specs.Fits.{FitsRun};
ghost use Rattle.run_state.specs.Spelling.{IsOfOther, spelling};
ghost use Rattle.state_snapshot.specs.inner.Reading.{AnswersProgram, Gives, fields_at, if_fits, marked_at, reader_at, state_at};

use crate::check::fits_rest;
use crate::fault::StateFault;
use crate::fields::{Read, read_flag, read_number, read_optional, read_text};
use crate::monitor::read_monitor;
use crate::write::MARK;
use flat_core::lists::EqSet;
use monitor_state::state::OpenEvent;
use register_code::code::Code;
use register_code::print::print_code;
use run_state::state::RunState;
use std::alloc::Global;
use trace_reader::state::ReaderState;
use tsl_value::bytes::Bytes;
use tsl_value::memory::NoMemory;

/// The text of the program whose state begins so, and the bytes after it.
fn read_program(bytes: &[u8]) -> Read<'_, &[u8]>
    ensures { Gives (λ x. (x.0.now, x.1.now)) result (marked_at bytes.now) }
{
    match bytes.strip_prefix(MARK) {
        Some(rest) => read_text(rest),
        None => Err(StateFault::WrongForm),
    }
}

/// The bytes after the mark and this program's text.
fn after_program<'b>(alloc: Global, code: &Code, bytes: &'b [u8]) -> Result<&'b [u8], StateFault>
    ensures { AnswersProgram (λ rest. rest.now) code.now bytes.now result }
{
    let (program, rest) = read_program(bytes)?;
    let mut text = Bytes::new(alloc);
    print_code(code, &mut text)?;
    if text.as_slice() == program {
        Ok(rest)
    } else {
        Err(StateFault::OtherProgram)
    }
}

/// What a reader keeps, but the inputs that it has seen.
#[tactic(auto, unfolding(crate::specs::inner::Reading::reader_at))]
fn read_reader(alloc: Global, bytes: &[u8]) -> Read<'_, ReaderState>
    ensures { Gives (λ x. (x.0, x.1.now)) result (reader_at bytes.now) }
{
    let (taken, rest) = read_number(bytes)?;
    let (lines, rest) = read_number(rest)?;
    // Where a reference comes with an `Option<Time>`, `?` has no rule of borrowing.
    let (last, rest) = match read_optional(rest) {
        Ok(read) => read,
        Err(fault) => return Err(fault),
    };
    let (unread, rest) = read_text(rest)?;
    let state = ReaderState {
        taken,
        lines,
        last,
        seen: EqSet::new(alloc),
        rest: Bytes::from_slice(alloc, unread)?,
    };
    Ok((state, rest))
}

/// The equations of open events, which rise.
fn equations_of(alloc: Global, events: &[OpenEvent]) -> Result<EqSet, NoMemory>
    requires { IsStrictlyIncreasing (map (λ e. e.equation) events.now) }
    ensures { IfOk result (λ set. set ≡ map (λ e. e.equation) events.now) }
{
    let mut set = EqSet::new(alloc);
    for event in events {
        set.push(event.equation)?;
    }
    set.assert_ascending();
    Ok(set)
}

/// The state, where it fits and nothing follows it.
fn if_fits(alloc: Global, mut state: RunState, rest: &[u8]) -> Result<RunState, StateFault>
    requires { IsStrictlyIncreasing (map (λ e. e.equation) state.monitor.open_events) }
    ensures { Gives (λ st. st) result (if_fits (state, rest.now)) }
{
    if !rest.is_empty() {
        return Err(StateFault::WrongForm);
    }
    if !fits_rest(&state) {
        return Err(StateFault::WrongForm);
    }
    state.reader.seen = equations_of(alloc, state.monitor.open_events.as_slice())?;
    Ok(state)
}

/// The fields after the program's text.
#[tactic(auto, unfolding(crate::specs::inner::Reading::fields_at))]
fn read_fields<'b>(alloc: Global, code: &Code, bytes: &'b [u8]) -> Read<'b, RunState>
    ensures { Gives (λ x. (x.0, x.1.now)) result (fields_at code.now.system bytes.now) }
{
    let (strict, rest) = read_flag(bytes)?;
    let (instants_limit, rest) = read_number(rest)?;
    let (bytes_limit, rest) = read_number(rest)?;
    let (reader, rest) = read_reader(alloc, rest)?;
    let bound = reader.last.map_or(0, |time| time.get());
    let (monitor, rest) = read_monitor(alloc, code, bound, rest)?;
    let state = RunState {
        strict,
        instants_limit,
        bytes_limit,
        reader,
        monitor,
    };
    Ok((state, rest))
}

/// The state that the bytes after the program's text spell, all of them.
#[tactic(auto, unfolding(crate::specs::inner::Reading::state_at))]
fn read_all(alloc: Global, code: &Code, bytes: &[u8]) -> Result<RunState, StateFault>
    ensures { Gives (λ st. st) result (state_at code.now.system bytes.now) }
{
    let (state, rest) = read_fields(alloc, code, bytes)?;
    if_fits(alloc, state, rest)
}

/// Asserts that there are fewer than 2^64 bytes, as in each slice. Nothing is done. A caller whose proof needs this of bytes says so here.
fn assert_few(bytes: &[u8])
    ensures { length bytes.now < 2 ^ 64 }
{
    // The bound is known where the length is taken.
    let _len = bytes.len();
}

/// The state of a program that bytes spell, all of them.
///
/// Just one of three things holds of the bytes: they spell a state that fits, just one; they begin as the state of another program; or
/// neither.
pub fn read_state(alloc: Global, bytes: &[u8], code: &Code) -> Result<RunState, StateFault>
    ensures found { IfOk result (λ st. FitsRun code.now.system st × (bytes.now ≡ spelling code.now st)) }
    ensures other { result ≡ Err StateFault.OtherProgram → IsOfOther code.now bytes.now }
    ensures wrong { result ≡ Err StateFault.WrongForm → ¬ (IsOfOther code.now bytes.now)
        × ((st : RunState) → FitsRun code.now.system st → ¬ (bytes.now ≡ spelling code.now st)) }
{
    code.assert_whole();
    assert_few(bytes);
    let fields = after_program(alloc, code, bytes)?;
    read_all(alloc, code, fields)
}
