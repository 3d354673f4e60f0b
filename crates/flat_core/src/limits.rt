// The limit of a system, from the manual's limits.

/// The most equations of a system.
pub const MOST_EQUATIONS: u32 = 4096;
