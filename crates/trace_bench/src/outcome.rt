// What comes of a run over the sample trace.

use crate::tally::Tally;
use trace_monitor::ending::RunEnding;

/// What comes of a run over the sample trace.
#[derive(Drop)]
pub enum Outcome {
    /// The whole trace was run over, and the run did so much.
    Whole(Tally),
    /// The run ended before that, in this way.
    Stopped(RunEnding),
}
