// What a part of a run makes.

use trace_monitor::ending::RunEnding;
use tsl_value::bytes::Bytes;

/// What a part of a run makes.
#[derive(Drop)]
pub struct Part {
    /// The text that the part adds to what is due.
    pub text: Bytes,
    /// How the run stands then.
    pub after: After,
}

/// How a run stands after a part of it.
#[derive(Drop)]
pub enum After {
    /// It goes on, from the state of these bytes.
    GoesOn(Bytes),
    /// It has ended so.
    Ends(RunEnding),
}
