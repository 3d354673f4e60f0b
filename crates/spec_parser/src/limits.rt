// The limit of a tree, from the manual's limits.

/// The most levels of a tree: parentheses, brackets, braces, `if` and prefix operators inside each other.
pub const MOST_LEVELS: u32 = 64;
