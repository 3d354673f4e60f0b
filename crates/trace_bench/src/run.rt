// The run over the sample trace.

ghost use Rattle.std.specs.Prelude.{◌≡◌, ◌<◌, ◌^◌, [], IfOk, OnOk};
ghost use Rattle.trace_bench.specs.Ran.{HasRanOver};
ghost use Rattle.trace_monitor.specs.inner.Kept.{Kept};

use sample_trace::trace::append_lines;
use std::alloc::Global;
use trace_monitor::ending::RunEnding;
use trace_monitor::monitor::TraceMonitor;
use tsl_value::bytes::Bytes;
use tsl_value::memory::NoMemory;

/// As many lines make a piece. They have at most 60,000 bytes.
const PIECE: u64 = 2_000;

/// Runs a monitor over the sample trace with so many lines. The answer is how the run ends, and how many bytes of text are due.
pub(crate) fn run_over(
    alloc: Global,
    monitor: &mut TraceMonitor<'_>,
    lines: u64,
) -> Result<(RunEnding, u64), NoMemory>
    requires few { lines < 2 ^ 63 }
    requires kept { Kept monitor.old [] }
    ensures set { OnOk result (monitor.new.engine.in_place ≡ monitor.old.engine.in_place) }
    ensures ran { IfOk result (λ r. HasRanOver monitor.old.system monitor.old.options monitor.new.engine lines r.0 r.1) }
{
    let mut piece = Bytes::new(alloc);
    let mut text = Bytes::new(alloc);
    let mut taken: u64 = 0;
    let mut bytes: u64 = 0;
    loop {
        let more = lines.min(taken + PIECE);
        piece.truncate(0);
        append_lines(taken + 1, more + 1, &mut piece)?;
        // After the last line the piece is empty, which is the end.
        let next = monitor.advance(piece.as_slice(), &mut text)?;
        bytes = bytes.saturating_add(text.len() as u64);
        if let Some(ending) = next {
            return Ok((ending, bytes));
        }
        taken = more;
    }
}
