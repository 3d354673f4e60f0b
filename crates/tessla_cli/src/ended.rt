// How a run ends, with all that tells it.

ghost use Rattle.std.specs.Prelude.{◌≡◌, [], IfOk};
ghost use Rattle.tessla_cli.specs.Endings.{ending_of};
ghost use Rattle.tessla_cli.specs.inner.RunPhases.{IsToldAfter};

use crate::ending::{Ending, ending_of};
use crate::report::print_ending;
use std::alloc::Global;
use trace_monitor::ending::RunEnding;
use tsl_value::bytes::Bytes;
use tsl_value::memory::NoMemory;

/// How a run ends, and all that tells it.
#[derive(Drop)]
pub struct Ended {
    pub ending: Ending,
    /// What is told before, if anything is, and then the line of the ending, if it has one.
    pub text: Bytes,
}

impl Ended {
    /// An ending that is told after a text.
    fn after(mut text: Bytes, ending: Ending) -> Result<Ended, NoMemory>
        ensures ending { IfOk result (λ ended. ended.ending ≡ ending) }
        ensures text { IfOk result (IsToldAfter text) }
    {
        print_ending(&ending, &mut text)?;
        Ok(Ended { ending, text })
    }

    /// An ending that is told by its line alone.
    pub fn alone(alloc: Global, ending: Ending) -> Result<Ended, NoMemory>
        ensures ending { IfOk result (λ ended. ended.ending ≡ ending) }
        ensures text { IfOk result (IsToldAfter []) }
    {
        Ended::after(Bytes::new(alloc), ending)
    }

    /// The ending of a run over a trace, which is told after its statistics.
    pub fn of(ending: RunEnding, statistics: Bytes) -> Result<Ended, NoMemory>
        ensures ending { IfOk result (λ ended. ended.ending ≡ ending_of ending) }
        ensures text { IfOk result (IsToldAfter statistics) }
    {
        Ended::after(statistics, ending_of(ending))
    }
}
