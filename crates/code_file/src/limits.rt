// The limit of a code file, from the manual's limits.

/// The most bytes of a code file: 2^30.
pub const MOST_CODE_BYTES: usize = 0x4000_0000;
