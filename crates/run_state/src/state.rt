// The state of a run over a trace.

use monitor_state::state::MonitorState;
use trace_reader::state::ReaderState;

/// All that a run needs to go on: how its lines are judged, how far it may go, and what its reader and its monitor keep.
#[derive(Drop)]
pub struct RunState {
    /// Whether a line is refused whose name is no input's.
    pub strict: bool,
    /// As many instants run at most, from the first byte of the first run on.
    pub instants_limit: u64,
    /// As many bytes are read at most, from the first byte of the first run on.
    pub bytes_limit: u64,
    pub reader: ReaderState,
    pub monitor: MonitorState,
}
