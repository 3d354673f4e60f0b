// The text of the sample trace.

ghost use Rattle.std.specs.Prelude.{◌≡◌, ◌+◌, ◌-◌, ◌*◌, ◌<◌, ◌≤◌, ◌^◌, ◌++◌, length, take, IfOk, OnOk, OnErr};
ghost use Rattle.sample_trace.specs.Trace.{line_text, lines_text, most_line, trace_text};

use std::alloc::Global;
use tsl_value::bytes::Bytes;
use tsl_value::memory::NoMemory;
use tsl_value::print::print_number;

/// Values repeat after as many times.
const PERIOD: u64 = 1_000;

/// Appends the line of a time, or a beginning of it.
#[tactic(auto, unfolding(crate::specs::Trace::line_text))]
fn append_line(time: u64, out: &mut Bytes) -> Result<(), NoMemory>
    ensures ok { OnOk result (out.new ≡ out.old ++ line_text time) }
    ensures err { OnErr result (take (length out.old) out.new ≡ out.old) }
{
    print_number(time, out)?;
    out.append(b": i = ")?;
    print_number(time % PERIOD, out)?;
    out.push(b'\n')
}

/// Appends the lines of the times from one on and below another, or a beginning of them.
fn append_each(from: u64, to: u64, out: &mut Bytes) -> Result<(), NoMemory>
    ensures ok { OnOk result (out.new ≡ out.old ++ lines_text from (to - from)) }
    ensures err { OnErr result (take (length out.old) out.new ≡ out.old) }
{
    for time in from..to {
        append_line(time, out)?;
    }
    Ok(())
}

/// Appends the lines of the sample trace for the times from one on and below another, or leaves `out` as it was. No line has more than
/// 30 bytes.
pub fn append_lines(from: u64, to: u64, out: &mut Bytes) -> Result<(), NoMemory>
    ensures ok { OnOk result (out.new ≡ out.old ++ lines_text from (to - from)) }
    ensures short { OnOk result (length out.new ≤ length out.old + (to - from) * most_line) }
    ensures err { OnErr result (out.new ≡ out.old) }
{
    let before = out.len();
    match append_each(from, to, out) {
        Ok(()) => Ok(()),
        Err(none) => {
            out.truncate(before);
            Err(none)
        }
    }
}

/// The sample trace with so many lines.
pub fn sample_trace(alloc: Global, lines: u64) -> Result<Bytes, NoMemory>
    requires { lines < 2 ^ 63 }
    ensures { IfOk result (λ trace. trace ≡ trace_text lines) }
{
    let mut trace = Bytes::new(alloc);
    append_lines(1, lines + 1, &mut trace)?;
    Ok(trace)
}
