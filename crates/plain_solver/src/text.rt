// The text of a run.

ghost use Rattle.std.specs.Prelude.{◌≡◌, ◌++◌, Some, OnOk, OnErr, IfOk};
ghost use Rattle.std.specs.List.{flat_map};
ghost use Rattle.flat_core.specs.Stream.{event};
ghost use Rattle.flat_core.specs.Text.{event_line, text_at};
ghost use Rattle.plain_solver.specs.inner.Streams.{streams_of};
ghost use Rattle.plain_solver.specs.inner.Ending.{IsDueText};

use crate::events::Events;
use crate::lender::{Lender, register};
use crate::solve::Solved;
use crate::value::Value;
use event_writer::event::write_event;
use flat_core::equation::Output;
use flat_core::flat::Flat;
use std::alloc::Global;
use tsl_value::bytes::Bytes;
use tsl_value::memory::NoMemory;
use tsl_value::text::Text;
use tsl_value::time::Time;

/// Appends the line of an event, or leaves `out` as it was.
fn append_line(time: Time, name: &Text, value: &Value, out: &mut Bytes) -> Result<(), NoMemory>
    ensures ok { OnOk result (out.new ≡ out.old ++ event_line time name.now (Some value.now)) }
    ensures err { OnErr result (out.new ≡ out.old) }
{
    let values = [Some(value.copy()?)];
    let register = register(&values[0], 0)?;
    write_event(time, name, &register, &Lender { values: &values }, out)
}

/// Appends the line of an output at a time, where it has an event.
fn append_output(
    output: &Output,
    streams: &[Events],
    time: Time,
    out: &mut Bytes,
) -> Result<(), NoMemory>
    ensures { OnOk result (out.new ≡ out.old ++ event_line time output.now.name (event (streams_of streams.now output.now.equation time))) }
{
    match streams.get(output.equation.get() as usize) {
        Some(events) => match events.value_at(time) {
            Some(value) => append_line(time, &output.name, value, out),
            None => Ok(()),
        },
        None => Ok(()),
    }
}

/// Appends the lines of a time, by output.
fn append_instant(
    flat: &Flat,
    streams: &[Events],
    time: Time,
    out: &mut Bytes,
) -> Result<(), NoMemory>
    ensures { OnOk result (out.new ≡ out.old ++ text_at flat.now (streams_of streams.now) time) }
{
    for output in flat.outputs() {
        append_output(output, streams, time, out)?;
    }
    Ok(())
}

/// The lines of some instants.
fn ran_text(
    alloc: Global,
    flat: &Flat,
    streams: &[Events],
    instants: &[Time],
) -> Result<Bytes, NoMemory>
    ensures { IfOk result (λ text. text ≡ flat_map (text_at flat.now (streams_of streams.now)) instants.now) }
{
    let mut out = Bytes::new(alloc);
    for time in instants {
        append_instant(flat, streams, *time, &mut out)?;
    }
    Ok(out)
}

/// The text of all output events of a run, by time and then by output: those of the instants that
/// were run, and so nothing of a fault's own time.
///
/// It is the due text of every solution of the system for the lines that were solved.
pub fn print_due(alloc: Global, flat: &Flat, solved: &Solved) -> Result<Bytes, NoMemory>
    ensures { IfOk result (IsDueText flat.now solved.now.streams.items solved.now.instants.items solved.now.end) }
{
    let text = ran_text(alloc, flat, &solved.streams, &solved.instants)?;
    Ok(text)
}
