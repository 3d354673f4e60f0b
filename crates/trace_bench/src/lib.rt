//! How much a run over the sample trace does: its events, its instants, the bytes of its output, and the elements that its updates copy.
#![tactic(auto)]

pub mod laws;
pub mod measure;
pub mod outcome;
mod run;
pub mod source;
pub mod tally;
pub mod updates;
