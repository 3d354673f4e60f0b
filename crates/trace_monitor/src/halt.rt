// Why no further line is taken.

use trace_reader::fault::TraceFault;

/// Why no further line is taken.
#[derive(Drop)]
pub enum Halt {
    /// No further whole line was fed yet.
    More,
    /// The trace has ended.
    End,
    /// The next line is refused.
    Refused(TraceFault),
}
