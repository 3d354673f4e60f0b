// What a run over the sample trace did, in numbers.

ghost use Rattle.std.specs.Prelude.{◌≡◌, ◌++◌, IfOk, OnOk};
ghost use Rattle.trace_bench.specs.Text.{count_line, tally_text};

use std::alloc::Global;
use tsl_value::bytes::Bytes;
use tsl_value::memory::NoMemory;
use tsl_value::print::print_number;

/// What a run did. Each number stops at 2^64 - 1.
#[derive(Clone, Copy, PartialEq, Eq, Debug)]
pub struct Tally {
    /// Events of the input.
    pub events: u64,
    /// Instants that ran.
    pub instants: u64,
    /// Bytes of the output.
    pub bytes: u64,
    /// Elements that updates copied.
    pub copied: u64,
}

fn print_count(name: &[u8], number: u64, out: &mut Bytes) -> Result<(), NoMemory>
    ensures { OnOk result (out.new ≡ out.old ++ count_line name.now number) }
{
    out.append(name)?;
    out.push(b' ')?;
    print_number(number, out)?;
    out.push(b'\n')
}

fn print_tally(tally: Tally, out: &mut Bytes) -> Result<(), NoMemory>
    ensures { OnOk result (out.new ≡ out.old ++ tally_text tally) }
{
    print_count(b"events", tally.events, out)?;
    print_count(b"instants", tally.instants, out)?;
    print_count(b"bytes", tally.bytes, out)?;
    print_count(b"copied", tally.copied, out)
}

/// The text of a tally: a line for each number, with its name before it.
pub fn tally_text(alloc: Global, tally: Tally) -> Result<Bytes, NoMemory>
    ensures { IfOk result (λ text. text ≡ tally_text tally) }
{
    let mut text = Bytes::new(alloc);
    print_tally(tally, &mut text)?;
    Ok(text)
}
