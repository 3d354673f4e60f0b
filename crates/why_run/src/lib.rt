//! A question why an output has an event, asked of a trace of the outside, which is read a piece at a time.
//!
//! `ask` has the call `ask`, which opens the trace of a name and reads it until the question has its ending.
#![tactic(auto)]

pub mod ask;
