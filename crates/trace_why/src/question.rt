// What is asked of a trace.

use tsl_value::time::Time;

/// Why the output of a number has an event at a time.
#[derive(Clone, Copy, PartialEq, Eq, Debug)]
pub struct Question {
    /// The number of the output, counted from 0.
    pub output: u32,
    pub time: Time,
}
