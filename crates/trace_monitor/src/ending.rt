// How a run over a trace ends.

use lift_func::fault::FaultKind;
use trace_reader::fault::TraceFault;
use tsl_value::place::Place;
use tsl_value::time::Time;

/// How a run over a trace ends where memory served it.
#[derive(Drop)]
pub enum RunEnding {
    /// The trace has ended, and all was done.
    Done,
    /// A line of the trace is refused.
    Trace(TraceFault),
    /// An equation faults: the fault that is named, and the place of its equation.
    Fault {
        time: Time,
        kind: FaultKind,
        place: Place,
    },
    /// As many instants ran as may, and the next one comes at this time.
    Limit {
        count: u64,
        time: Time,
    },
}
