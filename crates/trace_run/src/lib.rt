//! A run over a trace of the outside: the trace is read a piece at a time, and what is due is written before each further read.
//!
//! `run` has the call `run_code`, which opens the trace of a name and monitors it by the code of a system. `Start` is how it begins, `Ran`
//! how it ended and what is left of it. `write` has the writing of all bytes, for all that writes.
#![tactic(auto)]

pub mod run;
pub mod start;
mod statistics;
mod watch;
pub mod write;
