// The limit of calls, from the manual's limits.

/// The most calls inside each other. Those of macros and those of value functions count apart.
pub const MOST_CALLS: u32 = 64;
