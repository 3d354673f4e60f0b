// How a run ends.

ghost use Rattle.std.specs.Prelude.{◌≡◌, ◌≢◌, IfOk};
ghost use Rattle.tessla_cli.specs.Endings.{ending_of};

use code_file::fault::CodeFault;
use lift_func::fault::FaultKind;
use source_rules::fault::SpecFault;
use state_snapshot::fault::StateFault;
use trace_monitor::ending::RunEnding;
use trace_reader::fault::TraceFault;
use tsl_value::memory::NoMemory;
use tsl_value::place::Place;
use tsl_value::text::Text;
use tsl_value::time::Time;

/// How a run ends where the outside and the memory served it.
#[derive(Drop)]
pub enum Ending {
    /// All was done.
    Done,
    /// The words are not accepted.
    Words,
    /// The specification is refused, in this way and at this place.
    Spec(SpecFault),
    /// There is no code, for this cause: none is written, or a file has none.
    Code(CodeFault),
    /// No output is printed under this name.
    NoOutput(Text),
    /// The output of this name has no event at this time.
    NoEvent {
        name: Text,
        time: Time,
    },
    /// The state that the run was to go on from is refused.
    State(StateFault),
    /// A line of the trace is refused.
    Trace(TraceFault),
    /// An equation faults: the fault that is named, and the place of its equation.
    Fault {
        time: Time,
        kind: FaultKind,
        place: Place,
    },
    /// As many instants ran as may, and the next one comes at this time.
    Limit {
        count: u64,
        time: Time,
    },
}

/// How the program ends where a run over a trace ends so.
pub fn ending_of(ending: RunEnding) -> Ending
    ensures { result ≡ ending_of ending }
{
    match ending {
        RunEnding::Done => Ending::Done,
        RunEnding::Trace(fault) => Ending::Trace(fault),
        RunEnding::Fault { time, kind, place } => Ending::Fault { time, kind, place },
        RunEnding::Limit { count, time } => Ending::Limit { count, time },
    }
}

/// How a run ends whose specification is refused in this way. Out of memory refuses none.
pub fn refused(fault: SpecFault) -> Result<Ending, NoMemory>
    ensures ending { IfOk result (λ ending. ending ≡ Ending.Spec fault) }
    ensures refused { IfOk result (λ _. fault ≢ SpecFault.Memory) }
{
    match fault {
        SpecFault::Memory => Err(NoMemory),
        fault => Ok(Ending::Spec(fault)),
    }
}

/// How a run ends where there is no code, for this cause. Out of memory is none.
pub fn no_code(fault: CodeFault) -> Result<Ending, NoMemory>
    ensures ending { IfOk result (λ ending. ending ≡ Ending.Code fault) }
    ensures cause { IfOk result (λ _. fault ≢ CodeFault.Memory) }
{
    match fault {
        CodeFault::Memory => Err(NoMemory),
        fault => Ok(Ending::Code(fault)),
    }
}

/// How a run ends that was to go on from a state, for this cause. Out of memory is none.
pub fn no_state(fault: StateFault) -> Result<Ending, NoMemory>
    ensures ending { IfOk result (λ ending. ending ≡ Ending.State fault) }
    ensures cause { IfOk result (λ _. fault ≢ StateFault.Memory) }
{
    match fault {
        StateFault::Memory => Err(NoMemory),
        fault => Ok(Ending::State(fault)),
    }
}
