//! The sample trace, by which runs are measured, and the specifications that are run over it.
#![tactic(auto)]

pub mod laws;
pub mod spec;
pub mod trace;
