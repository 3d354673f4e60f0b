// Limits of what the program reads.

/// As many bytes a saved state may have that a run goes on from.
pub const MOST_STATE_BYTES: usize = 1 << 40;
