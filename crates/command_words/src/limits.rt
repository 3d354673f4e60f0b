// Limits of the numbers after options, from the manual's limits. Those of instants and of bytes are `tsl_value`'s.

/// The last time that there is: 2^63 - 1.
pub const MOST_TIME: u64 = 0x7fff_ffff_ffff_ffff;

/// The most lines of a generated trace.
pub const MOST_LINES: u64 = 1_000_000;
