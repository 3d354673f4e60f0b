//! From the pieces of a trace to the text that is due: each line that is read is given to the engine, which runs the instants that it
//! closes.
#![tactic(auto)]

pub mod ending;
pub mod halt;
pub mod monitor;
pub mod options;
pub mod save;
