// The measure of code over the sample trace.

ghost use Rattle.std.specs.Prelude.{◌<◌, ◌^◌, IfOk};
ghost use Rattle.trace_bench.specs.Outcome.{IsOutcomeOf};

use crate::outcome::Outcome;
use crate::run::run_over;
use crate::tally::Tally;
use crate::updates::copied_together;
use register_code::code::Code;
use std::alloc::Global;
use trace_monitor::ending::RunEnding;
use trace_monitor::monitor::TraceMonitor;
use trace_monitor::options::Options;
use tsl_value::limits::{MOST_INSTANTS, MOST_TRACE_BYTES};
use tsl_value::memory::NoMemory;

/// How far the run goes: to the end of the trace, within the largest limits.
const OPTIONS: Options = Options {
    until: 0,
    instants: MOST_INSTANTS,
    bytes: MOST_TRACE_BYTES,
    strict: false,
};

/// Runs code over the sample trace with so many lines, and tells what the run did.
pub fn measure(alloc: Global, code: &Code, lines: u64) -> Result<Outcome, NoMemory>
    requires { lines < 2 ^ 63 }
    ensures { IfOk result (IsOutcomeOf code.now.system code.now.in_place lines) }
{
    let mut monitor = TraceMonitor::new(alloc, code, OPTIONS)?;
    let (ending, bytes) = run_over(alloc, &mut monitor, lines)?;
    match ending {
        RunEnding::Done => Ok(Outcome::Whole(Tally {
            events: lines,
            instants: monitor.instants(),
            bytes,
            copied: copied_together(code.flat(), &monitor),
        })),
        ending => Ok(Outcome::Stopped(ending)),
    }
}
