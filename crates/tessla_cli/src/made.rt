// What comes of what a command asks for.

use crate::ending::Ending;
use tsl_value::bytes::Bytes;

/// The text that a command asks for, or the ending that stands against it.
#[derive(Drop)]
pub enum Made {
    /// This text is to be written.
    Text(Bytes),
    /// There is none, and the program ends so.
    Stops(Ending),
}
