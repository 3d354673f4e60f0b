// The limit of trigger questions.

/// The largest number of atoms that a question about trigger formulas may have. Beyond it the cautious answer comes.
pub const ATOMS: u32 = 24;
