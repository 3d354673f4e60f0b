// The lines of events.

ghost use Rattle.std.specs.Prelude.{◌≡◌, ◌++◌, codes, length, take, OnOk, OnErr};
ghost use Rattle.std.specs.Fmt.{decimal};
ghost use Rattle.body_eval.specs.inner.Registers.{held};
ghost use Rattle.flat_core.specs.Text.{event_line};
ghost use Rattle.event_writer.specs.Text.{IsPrintable};

use crate::short::{append_short, is_short};
use body_eval::register::Register;
use cell_reader::reader::Reader;
use itoa::write_digits;
use tsl_value::bytes::Bytes;
use tsl_value::memory::NoMemory;
use tsl_value::print::print_scalar;
use tsl_value::text::Text;
use tsl_value::time::Time;

/// Appends the output line of an event, `TIME: NAME = VALUE` and its end, or leaves `out` as it was.
///
/// Unit is printed as `()`, an Int in decimal, a Bool as `true` or `false`, and a text between quotes with its
/// escapes. The reader prints sets and maps, as `Set(1, 2)` and `Map(1 -> 2, 3 -> 4)` with their keys in order, and queues, as
/// `Queue(5, 7)`.
pub fn write_event<R: Reader>(
    time: Time,
    name: &Text,
    value: &Register,
    reader: &R,
    out: &mut Bytes,
) -> Result<(), NoMemory>
    requires { IsPrintable (R.cells reader.now) value.now }
    ensures ok { OnOk result (out.new ≡ out.old ++ event_line time name.now (held (R.cells reader.now) value.now)) }
    ensures err { OnErr result (out.new ≡ out.old) }
{
    if let Register::Scalar(scalar) = value {
        let name = name.as_str().as_bytes();
        if is_short(name, scalar) {
            return append_short(time, name, scalar, out);
        }
    }
    let before = out.len();
    match append_event(time, name, value, reader, out) {
        Ok(()) => Ok(()),
        Err(none) => {
            out.truncate(before);
            Err(none)
        }
    }
}

fn append_event<R: Reader>(
    time: Time,
    name: &Text,
    value: &Register,
    reader: &R,
    out: &mut Bytes,
) -> Result<(), NoMemory>
    requires { IsPrintable (R.cells reader.now) value.now }
    ensures ok { OnOk result (out.new ≡ out.old ++ event_line time name.now (held (R.cells reader.now) value.now)) }
    ensures err { OnErr result (take (length out.old) out.new ≡ out.old) }
{
    append_head(time, name, out)?;
    match value {
        Register::Empty => unreachable!(),
        Register::Scalar(scalar) => print_scalar(scalar, out)?,
        Register::Aggregate(cell) => reader.print(*cell, out)?,
    }
    out.push(b'\n')
}

/// Appends what stands before the value.
fn append_head(time: Time, name: &Text, out: &mut Bytes) -> Result<(), NoMemory>
    ensures ok { OnOk result (out.new ≡ out.old ++ (decimal time ++ (codes ": " ++ (name.now ++ codes " = ")))) }
    ensures err { OnErr result (take (length out.old) out.new ≡ out.old) }
{
    append_time(time, out)?;
    out.append(name.as_str().as_bytes())?;
    out.append(b" = ")
}

/// Appends a time and its colon.
fn append_time(time: Time, out: &mut Bytes) -> Result<(), NoMemory>
    ensures ok { OnOk result (out.new ≡ out.old ++ (decimal time ++ codes ": ")) }
    ensures err { OnErr result (out.new ≡ out.old) }
{
    let mut text = *b"                    : ";
    let start = write_digits(time.get(), &mut text, 20);
    out.append(&text[start..])
}
