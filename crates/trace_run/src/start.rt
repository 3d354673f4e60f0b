// How a run begins.

use run_state::state::RunState;
use trace_monitor::options::Options;

/// How a run begins.
#[derive(Drop)]
pub enum Start {
    /// With nothing: this is how far it goes.
    Anew(Options),
    /// With the state that an earlier run has left, within the limits of that one. At the end of the trace the times up to `until` are
    /// closed.
    Resumed { until: u64, state: RunState },
}
