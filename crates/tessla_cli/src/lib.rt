//! The monitor: from a specification and a trace to the output events up to the first fault, and that fault. It also prints what is run.
//!
//! `top` has the call `tessla`, with all that is promised of the program. The program, the crate `tessla`, makes it.
#![tactic(auto)]

mod begun;
mod bench;
pub mod ended;
pub mod ending;
mod file;
pub mod laws;
pub mod limits;
pub mod made;
mod print;
mod program;
mod put;
mod report;
mod run;
pub mod tell;
pub mod top;
mod trace;
mod why;
