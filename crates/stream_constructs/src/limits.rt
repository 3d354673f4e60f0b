// The limit of what constructs make, from the manual's limits. That of equations is the system's own.

/// The most updates of sets and maps among the equations of a system.
pub const MOST_UPDATES: u32 = 256;
