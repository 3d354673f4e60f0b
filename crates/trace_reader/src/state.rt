// What a reader keeps, apart from it.

use flat_core::lists::EqSet;
use tsl_value::bytes::Bytes;
use tsl_value::time::Time;

/// What a reader keeps of what it was fed, once all lines that stand were given.
#[derive(Drop)]
pub struct ReaderState {
    /// The number of bytes that were fed.
    pub taken: u64,
    /// The number of whole lines, those that say nothing among them.
    pub lines: u64,
    /// The time of the last line that has one.
    pub last: Option<Time>,
    /// The inputs that had an event at that time.
    pub seen: EqSet,
    /// The bytes after the last line's end.
    pub rest: Bytes,
}
