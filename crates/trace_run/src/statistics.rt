// The statistics of a run.

ghost use Rattle.std.specs.Prelude.{◌≡◌, ◌<◌, [], ◌++◌, codes, if◌then◌else◌, IfOk, OnOk, length, slice_index};
ghost use Rattle.event_writer.specs.Text.{place_text};
ghost use Rattle.flat_core.specs.Updates.{is_running_update};
ghost use Rattle.trace_run.specs.Statistics.{copied_text, counted_text, statistics_text, update_line};

use event_writer::place::print_place;
use flat_core::flat::Flat;
use program_text::print::print_label;
use std::alloc::Global;
use trace_monitor::monitor::TraceMonitor;
use tsl_value::bytes::Bytes;
use tsl_value::ids::EqId;
use tsl_value::memory::NoMemory;
use tsl_value::place::Place;
use tsl_value::print::print_number;

/// Appends that so many elements were copied, with the end of the line.
fn print_copied(count: u64, out: &mut Bytes) -> Result<(), NoMemory>
    ensures { OnOk result (out.new ≡ out.old ++ copied_text count) }
{
    out.append(b" copied ")?;
    print_number(count, out)?;
    out.push(b'\n')
}

/// Appends a place, and that so many elements were copied there.
fn print_counted(place: Place, count: u64, out: &mut Bytes) -> Result<(), NoMemory>
    ensures { OnOk result (out.new ≡ out.old ++ (codes " " ++ (place_text place ++ copied_text count))) }
{
    out.push(b' ')?;
    print_place(place, out)?;
    print_copied(count, out)
}

/// Appends the line of an update that has copied so many elements.
fn print_update(flat: &Flat, update: EqId, count: u64, out: &mut Bytes) -> Result<(), NoMemory>
    requires { update < length flat.now.equations }
    ensures { OnOk result (out.new ≡ out.old ++ update_line flat.now update count) }
{
    out.append(b"stats ")?;
    print_label(flat, update, out)?;
    print_counted(flat.equation(update).place, count, out)
}

/// Appends the line of an equation of the monitor's system, if it is an update that runs.
fn print_if_update(
    flat: &Flat,
    monitor: &TraceMonitor<'_>,
    id: EqId,
    out: &mut Bytes,
) -> Result<(), NoMemory>
    requires there { id < length flat.now.equations }
    requires system { monitor.now.engine.system ≡ flat.now }
    ensures { OnOk result (out.new ≡ out.old ++
        (if is_running_update flat.now id then update_line flat.now id (slice_index monitor.now.engine.ledger id) else [])) }
{
    if flat.is_running_update(id) {
        print_update(flat, id, monitor.copied(id), out)
    } else {
        Ok(())
    }
}

/// Appends the lines of all running updates of the monitor's system by number.
fn print_updates(flat: &Flat, monitor: &TraceMonitor<'_>, out: &mut Bytes) -> Result<(), NoMemory>
    requires { monitor.now.engine.system ≡ flat.now }
    ensures { OnOk result (out.new ≡ out.old ++ statistics_text flat.now (λ u. slice_index monitor.now.engine.ledger u)) }
{
    for number in 0..flat.count() {
        print_if_update(flat, monitor, EqId::new(number), out)?;
    }
    Ok(())
}

/// The statistics of a monitor's run where they are asked for. Else no bytes.
pub fn statistics_of(
    alloc: Global,
    flat: &Flat,
    monitor: &TraceMonitor<'_>,
    asked: bool,
) -> Result<Bytes, NoMemory>
    requires { monitor.now.engine.system ≡ flat.now }
    ensures { IfOk result (λ text. text ≡ counted_text flat.now monitor.now.engine asked) }
{
    let mut text = Bytes::new(alloc);
    if asked {
        print_updates(flat, monitor, &mut text)?;
    }
    Ok(text)
}
