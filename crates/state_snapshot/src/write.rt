// A state, written.

ghost use Rattle.std.specs.Prelude.{◌≡◌, ◌++◌, length, take, OnErr, OnOk};
ghost use Rattle.std.specs.List.{flat_map};
ghost use Rattle.register_code.specs.Text.{code_text};
ghost use Rattle.run_state.specs.Spelling.{content_bytes, entry_bytes, event_bytes, events_bytes, flag, kept_bytes, mark, number};
ghost use Rattle.run_state.specs.Spelling.{optional, options_bytes, reader_bytes, register_bytes, scalar_bytes, spelling, text};

use aggregate_store::content::Content;
use monitor_state::state::{MonitorState, OpenEvent, SavedRegister};
use register_code::code::Code;
use register_code::print::print_code;
use run_state::state::RunState;
use trace_reader::state::ReaderState;
use tsl_value::bytes::Bytes;
use tsl_value::memory::NoMemory;
use tsl_value::scalar::Scalar;
use tsl_value::time::Time;

/// The first bytes of each state.
pub(crate) const MARK: &[u8] = b"TSLSTA1\n";

// ---- fields

fn put_number(value: u64, out: &mut Bytes) -> Result<(), NoMemory>
    ensures ok { OnOk result (out.new ≡ out.old ++ number value) }
    ensures err { OnErr result (out.new ≡ out.old) }
{
    out.append(&value.to_be_bytes())
}

fn put_text(bytes: &[u8], out: &mut Bytes) -> Result<(), NoMemory>
    ensures ok { OnOk result (out.new ≡ out.old ++ text bytes.now) }
    ensures err { OnErr result (take (length out.old) out.new ≡ out.old) }
{
    put_number(bytes.len() as u64, out)?;
    out.append(bytes)
}

fn put_flag(value: bool, out: &mut Bytes) -> Result<(), NoMemory>
    ensures ok { OnOk result (out.new ≡ out.old ++ flag value) }
    ensures err { OnErr result (out.new ≡ out.old) }
{
    if value { out.push(1) } else { out.push(0) }
}

fn put_optional(time: Option<Time>, out: &mut Bytes) -> Result<(), NoMemory>
    ensures ok { OnOk result (out.new ≡ out.old ++ optional time) }
    ensures err { OnErr result (take (length out.old) out.new ≡ out.old) }
{
    match time {
        Some(time) => {
            out.push(1)?;
            put_number(time.get(), out)
        }
        None => out.push(0),
    }
}

fn put_scalar(value: &Scalar, out: &mut Bytes) -> Result<(), NoMemory>
    ensures ok { OnOk result (out.new ≡ out.old ++ scalar_bytes value.now) }
    ensures err { OnErr result (take (length out.old) out.new ≡ out.old) }
{
    match value {
        Scalar::Unit => Ok(()),
        Scalar::Int(number) => out.append(&number.to_be_bytes()),
        Scalar::Bool(value) => put_flag(*value, out),
        Scalar::Text(text) => put_text(text.as_str().as_bytes(), out),
    }
}

fn put_scalars(values: &[Scalar], out: &mut Bytes) -> Result<(), NoMemory>
    ensures ok { OnOk result (out.new ≡ out.old ++ flat_map scalar_bytes values.now) }
    ensures err { OnErr result (take (length out.old) out.new ≡ out.old) }
{
    for value in values {
        put_scalar(value, out)?;
    }
    Ok(())
}

fn put_entries(entries: &[(Scalar, Scalar)], out: &mut Bytes) -> Result<(), NoMemory>
    ensures ok { OnOk result (out.new ≡ out.old ++ flat_map entry_bytes entries.now) }
    ensures err { OnErr result (take (length out.old) out.new ≡ out.old) }
{
    for entry in entries {
        put_scalar(&entry.0, out)?;
        put_scalar(&entry.1, out)?;
    }
    Ok(())
}

fn put_content(content: &Content, out: &mut Bytes) -> Result<(), NoMemory>
    ensures ok { OnOk result (out.new ≡ out.old ++ content_bytes content.now) }
    ensures err { OnErr result (take (length out.old) out.new ≡ out.old) }
{
    match content {
        Content::Scalar(value) => put_scalar(value, out),
        Content::Set(keys) => {
            put_number(keys.len() as u64, out)?;
            put_scalars(keys.as_slice(), out)
        }
        Content::Map(entries) => {
            put_number(entries.len() as u64, out)?;
            put_entries(entries.as_slice(), out)
        }
        Content::Queue(elements) => {
            put_number(elements.len() as u64, out)?;
            put_scalars(elements.as_slice(), out)
        }
    }
}

fn put_register(register: &SavedRegister, out: &mut Bytes) -> Result<(), NoMemory>
    ensures ok { OnOk result (out.new ≡ out.old ++ register_bytes register.now) }
    ensures err { OnErr result (take (length out.old) out.new ≡ out.old) }
{
    match register {
        SavedRegister::Empty => out.push(0),
        SavedRegister::Scalar(value) => {
            out.push(1)?;
            put_scalar(value, out)
        }
        SavedRegister::Cell(cell) => {
            out.push(2)?;
            put_number(*cell, out)
        }
    }
}

// ---- lists of them

fn put_events(events: &[OpenEvent], out: &mut Bytes) -> Result<(), NoMemory>
    ensures ok { OnOk result (out.new ≡ out.old ++ flat_map event_bytes events.now) }
    ensures err { OnErr result (take (length out.old) out.new ≡ out.old) }
{
    for event in events {
        put_number(u64::from(event.equation.get()), out)?;
        put_scalar(&event.value, out)?;
    }
    Ok(())
}

fn put_numbers(numbers: &[u64], out: &mut Bytes) -> Result<(), NoMemory>
    ensures ok { OnOk result (out.new ≡ out.old ++ flat_map number numbers.now) }
    ensures err { OnErr result (take (length out.old) out.new ≡ out.old) }
{
    for value in numbers {
        put_number(*value, out)?;
    }
    Ok(())
}

fn put_registers(registers: &[SavedRegister], out: &mut Bytes) -> Result<(), NoMemory>
    ensures ok { OnOk result (out.new ≡ out.old ++ flat_map register_bytes registers.now) }
    ensures err { OnErr result (take (length out.old) out.new ≡ out.old) }
{
    for register in registers {
        put_register(register, out)?;
    }
    Ok(())
}

fn put_cells(cells: &[Content], out: &mut Bytes) -> Result<(), NoMemory>
    ensures ok { OnOk result (out.new ≡ out.old ++ flat_map content_bytes cells.now) }
    ensures err { OnErr result (take (length out.old) out.new ≡ out.old) }
{
    for content in cells {
        put_content(content, out)?;
    }
    Ok(())
}

fn put_times(times: &[Option<Time>], out: &mut Bytes) -> Result<(), NoMemory>
    ensures ok { OnOk result (out.new ≡ out.old ++ flat_map optional times.now) }
    ensures err { OnErr result (take (length out.old) out.new ≡ out.old) }
{
    for time in times {
        put_optional(*time, out)?;
    }
    Ok(())
}

// ---- the whole

fn put_program(code: &Code, out: &mut Bytes) -> Result<(), NoMemory>
    ensures ok { OnOk result (out.new ≡ out.old ++ (mark ++ text (code_text code.now))) }
    ensures err { OnErr result (take (length out.old) out.new ≡ out.old) }
{
    out.append(MARK)?;
    // It grows where `out` does.
    let mut program = out.copy()?;
    program.truncate(0);
    print_code(code, &mut program)?;
    put_text(program.as_slice(), out)
}

fn put_options(state: &RunState, out: &mut Bytes) -> Result<(), NoMemory>
    ensures ok { OnOk result (out.new ≡ out.old ++ options_bytes state.now) }
    ensures err { OnErr result (take (length out.old) out.new ≡ out.old) }
{
    put_flag(state.strict, out)?;
    put_number(state.instants_limit, out)?;
    put_number(state.bytes_limit, out)
}

fn put_reader(state: &ReaderState, out: &mut Bytes) -> Result<(), NoMemory>
    ensures ok { OnOk result (out.new ≡ out.old ++ reader_bytes state.now) }
    ensures err { OnErr result (take (length out.old) out.new ≡ out.old) }
{
    put_number(state.taken, out)?;
    put_number(state.lines, out)?;
    put_optional(state.last, out)?;
    put_text(state.rest.as_slice(), out)
}

fn put_open(state: &MonitorState, out: &mut Bytes) -> Result<(), NoMemory>
    ensures ok { OnOk result (out.new ≡ out.old ++ events_bytes state.now) }
    ensures err { OnErr result (take (length out.old) out.new ≡ out.old) }
{
    put_number(state.instants, out)?;
    put_number(state.open_events.len() as u64, out)?;
    put_events(state.open_events.as_slice(), out)
}

fn put_kept(state: &MonitorState, out: &mut Bytes) -> Result<(), NoMemory>
    ensures ok { OnOk result (out.new ≡ out.old ++ kept_bytes state.now) }
    ensures err { OnErr result (take (length out.old) out.new ≡ out.old) }
{
    put_numbers(state.ledger.as_slice(), out)?;
    put_registers(state.registers.as_slice(), out)?;
    put_cells(state.cells.as_slice(), out)?;
    put_times(state.pending.as_slice(), out)
}

fn append_state(state: &RunState, code: &Code, out: &mut Bytes) -> Result<(), NoMemory>
    ensures ok { OnOk result (out.new ≡ out.old ++ spelling code.now state.now) }
    ensures err { OnErr result (take (length out.old) out.new ≡ out.old) }
{
    put_program(code, out)?;
    put_options(state, out)?;
    put_reader(&state.reader, out)?;
    put_open(&state.monitor, out)?;
    put_kept(&state.monitor, out)
}

/// Appends the spelling of a state, or leaves `out` as it was.
pub fn write_state(state: &RunState, code: &Code, out: &mut Bytes) -> Result<(), NoMemory>
    ensures ok { OnOk result (out.new ≡ out.old ++ spelling code.now state.now) }
    ensures err { OnErr result (out.new ≡ out.old) }
{
    let before = out.len();
    match append_state(state, code, out) {
        Ok(()) => Ok(()),
        Err(none) => {
            out.truncate(before);
            Err(none)
        }
    }
}
