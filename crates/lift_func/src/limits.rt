// The limit of a body, from the manual's limits.

/// The most nodes of the body of a value function, with the bodies that it calls in place: operations, literals and parameters.
pub const MOST_NODES: u32 = 1024;
