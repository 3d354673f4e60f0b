// The lines of faults.

ghost use Rattle.std.specs.Prelude.{◌≡◌, ◌++◌, length, take, OnOk, OnErr};
ghost use Rattle.event_writer.specs.Text.{fault_line, kind_text};

use crate::place::print_place;
use lift_func::fault::FaultKind;
use tsl_value::bytes::Bytes;
use tsl_value::memory::NoMemory;
use tsl_value::place::Place;
use tsl_value::print::print_number;
use tsl_value::time::Time;

/// Appends the line of a fault, `TIME: fault KIND at LINE:COLUMN` with the place of its equation, and its end, or
/// leaves `out` as it was.
pub fn write_fault(
    time: Time,
    kind: FaultKind,
    place: Place,
    out: &mut Bytes,
) -> Result<(), NoMemory>
    ensures ok { OnOk result (out.new ≡ out.old ++ fault_line time kind place) }
    ensures err { OnErr result (out.new ≡ out.old) }
{
    let before = out.len();
    match append_fault(time, kind, place, out) {
        Ok(()) => Ok(()),
        Err(none) => {
            out.truncate(before);
            Err(none)
        }
    }
}

fn append_fault(time: Time, kind: FaultKind, place: Place, out: &mut Bytes) -> Result<(), NoMemory>
    ensures ok { OnOk result (out.new ≡ out.old ++ fault_line time kind place) }
    ensures err { OnErr result (take (length out.old) out.new ≡ out.old) }
{
    print_number(time.get(), out)?;
    out.append(b": fault ")?;
    out.append(kind_name(kind))?;
    out.append(b" at ")?;
    print_place(place, out)?;
    out.push(b'\n')
}

/// The name of a kind of fault.
fn kind_name(kind: FaultKind) -> &'static [u8]
    ensures { result.now ≡ kind_text kind }
{
    match kind {
        FaultKind::Overflow => b"Overflow",
        FaultKind::DivideByZero => b"DivideByZero",
        FaultKind::MissingKey => b"MissingKey",
        FaultKind::NoValue => b"NoValue",
        FaultKind::TextTooLong => b"TextTooLong",
        FaultKind::EmptyQueue => b"EmptyQueue",
        FaultKind::DelayNotPositive => b"DelayNotPositive",
    }
}
