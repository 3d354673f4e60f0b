// Whether a state that was read fits: what the reading of its fields leaves open.

ghost use Rattle.std.specs.Prelude.{◌≡◌, ◌==◌, is_none, position};
ghost use Rattle.trace_reader.specs.Form.{split_once};
ghost use Rattle.state_snapshot.specs.inner.Reading.{are_instants, are_limits, fits_reader, fits_rest, is_from, is_open_at};
ghost use Rattle.std.specs.List.{list_all};

use monitor_state::state::{MonitorState, OpenEvents, PendingTimes};
use run_state::state::RunState;
use trace_reader::limits::MOST_LINE_BYTES;
use trace_reader::state::ReaderState;
use tsl_value::limits::{MOST_INSTANTS, MOST_TRACE_BYTES};
use tsl_value::time::Time;

/// The limits are those that a user can ask for.
fn are_limits(state: &RunState) -> bool
    ensures { result ≡ are_limits state.now }
{
    1 <= state.instants_limit
        && state.instants_limit <= MOST_INSTANTS
        && 1 <= state.bytes_limit
        && state.bytes_limit <= MOST_TRACE_BYTES
}

/// The place of the first end of a line.
fn line_end(bytes: &[u8]) -> Option<usize>
    ensures { result ≡ position (λ b. b == 10) bytes.now }
{
    bytes.iter().position(|byte| *byte == b'\n')
}

/// The bytes end no line.
fn is_one_line(bytes: &[u8]) -> bool
    ensures { result ≡ is_none (split_once 10 bytes.now) }
{
    line_end(bytes).is_none()
}

/// No more was taken than may be, each whole line has taken a byte, and the rest is the beginning of one line and was taken.
fn fits_reader(limit: u64, state: &ReaderState) -> bool
    ensures { result ≡ fits_reader limit state.now }
{
    let rest = state.rest.as_slice();
    state.taken <= limit
        && state.lines <= state.taken
        && rest.len() <= MOST_LINE_BYTES
        && is_one_line(rest)
        && rest.len() as u64 <= state.taken
}

/// An instant has run exactly where a time is closed, and no more than may.
fn are_instants(limit: u64, state: &MonitorState) -> bool
    ensures { result ≡ are_instants limit state.now }
{
    state.instants <= limit && (state.bound == 0) == (state.instants == 0)
}

/// No delay is due before the bound.
fn are_from(bound: u64, pending: &PendingTimes) -> bool
    ensures { result ≡ list_all (is_from bound) pending.now }
{
    pending.as_slice().iter().all(|time| match time {
        Some(time) => bound <= time.get(),
        None => true,
    })
}

/// Events are open only where there is a last time.
fn is_open_at(last: Option<Time>, events: &OpenEvents) -> bool
    ensures { result ≡ is_open_at last events.now }
{
    last.is_some() || events.len() == 0
}

/// All that the reading of the fields leaves open.
pub(crate) fn fits_rest(state: &RunState) -> bool
    ensures { result ≡ fits_rest state.now }
{
    are_limits(state)
        && fits_reader(state.bytes_limit, &state.reader)
        && are_instants(state.instants_limit, &state.monitor)
        && are_from(state.monitor.bound, &state.monitor.pending)
        && is_open_at(state.reader.last, &state.monitor.open_events)
}
