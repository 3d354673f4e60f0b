// The bench: a specification is compiled and run over the sample trace.

ghost use Rattle.std.specs.Prelude.{◌<◌, ◌^◌, IfErr, IfOk};
ghost use Rattle.source_rules.specs.Source.{IsRefused};
ghost use Rattle.trace_bench.specs.Bench.{IsBenched, source_of};
ghost use Rattle.tessla_cli.specs.inner.RunPhases.{IsBenchedAs};

use crate::ending::{ending_of, refused};
use crate::made::Made;
use command_words::command::Workload;
use source_rules::fault::SpecFault;
use spec_compiler::compile::compile;
use std::alloc::Global;
use trace_bench::measure::measure;
use trace_bench::outcome::Outcome;
use trace_bench::source::source_of;
use trace_bench::tally::tally_text;
use tsl_value::memory::NoMemory;

/// Compiles the specification of a kind, runs it over the sample trace with so many lines, and tells what the run did or how it ended. No
/// time is closed after the last line, and the limits are the largest. It is refused where the specification is, or memory runs out.
fn bench(alloc: Global, kind: Workload, lines: u64) -> Result<Outcome, SpecFault>
    requires { lines < 2 ^ 63 }
    ensures outcome { IfOk result (IsBenched (source_of kind) lines) }
    ensures fault { IfErr result (IsRefused (source_of kind)) }
{
    let compiled = compile(alloc, source_of(kind))?;
    let outcome = measure(alloc, &compiled.code, lines)?;
    Ok(outcome)
}

/// The tally of the specification of a kind over the sample trace with so many lines, or the ending without one.
pub fn outcome_of(alloc: Global, kind: Workload, lines: u64) -> Result<Made, NoMemory>
    requires { lines < 2 ^ 63 }
    ensures { IfOk result (IsBenchedAs kind lines) }
{
    match bench(alloc, kind, lines) {
        Ok(Outcome::Whole(tally)) => Ok(Made::Text(tally_text(alloc, tally)?)),
        Ok(Outcome::Stopped(how)) => Ok(Made::Stops(ending_of(how))),
        Err(fault) => Ok(Made::Stops(refused(fault)?)),
    }
}
