// What is answered to a question.

use lift_func::fault::FaultKind;
use trace_reader::fault::TraceFault;
use tsl_value::bytes::Bytes;
use tsl_value::place::Place;
use tsl_value::time::Time;

/// What is answered to a question where memory served it.
#[derive(Drop)]
pub enum WhyEnding {
    /// The output has the event, by the derivation of this text.
    Text(Bytes),
    /// The output has no due event at the time.
    NoEvent,
    /// A line of the trace is refused, and the time is not closed before it.
    Refused(TraceFault),
    /// An equation faults up to the time: the fault that is named, and the place of its equation.
    Fault {
        time: Time,
        kind: FaultKind,
        place: Place,
    },
    /// As many instants ran as may, and the next one comes at this time, which is no later than the one that is asked for.
    Limit {
        count: u64,
        time: Time,
    },
}
