// Limits of a trace's lines and of the pieces that it is read in. That of its bytes is `tsl_value`'s.

/// The most bytes of a line, its end not counted. From the manual's limits.
pub const MOST_LINE_BYTES: usize = 65_536;

/// The most bytes of a piece, as one read gives it. So what a reader holds besides a line is bounded.
pub const MOST_PIECE_BYTES: usize = 65_536;
