// What a reader answers.

use flat_core::line::TraceLine;

/// What comes next in a trace.
#[derive(Drop)]
pub enum Next {
    /// The next line.
    Line(TraceLine),
    /// No further whole line was fed yet.
    More,
    /// The trace has ended, and all its lines were given.
    End,
}

/// What comes once all lines that stand were given.
#[derive(Clone, Copy, PartialEq, Eq, Debug)]
pub enum Rest {
    /// The trace goes on.
    More,
    /// The trace has ended.
    End,
}
