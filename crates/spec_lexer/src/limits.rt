// Limits of a specification's text, from the manual's limits.

/// The most bytes of a source.
pub const MOST_SOURCE_BYTES: usize = 1_048_576;

/// The most bytes of a name, in UTF-8.
pub const MOST_NAME_BYTES: usize = 255;
