// How far a run goes.

/// How far a run goes, and which lines it takes.
#[derive(Clone, Copy, PartialEq, Eq, Debug)]
pub struct Options {
    /// At the end of the trace the times up to this one are closed.
    pub until: u64,
    /// As many instants run at most.
    pub instants: u64,
    /// As many bytes of the trace are read at most.
    pub bytes: u64,
    /// Whether a line is refused whose name is no input's. Otherwise it only says its time.
    pub strict: bool,
}
