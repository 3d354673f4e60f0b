// Limits of the language that hold for values and for traces, and so in nearly all crates.

/// The most bytes of a text, in UTF-8: of a literal once its escapes are read, of a value in a trace, and of what a
/// concatenation makes. From the manual's limits.
pub const MOST_TEXT_BYTES: usize = 65_536;

/// The most bytes of a trace: 2^40. Nobody can ask for more, and a trace of so many is far from what a run reaches. From the
/// manual's limits.
pub const MOST_TRACE_BYTES: u64 = 0x100_0000_0000;

/// The most instants of a run. No run reaches so many. From the manual's limits.
pub const MOST_INSTANTS: u64 = 1_000_000_000_000;
