//! The state of a run over a trace.
#![tactic(auto)]

pub mod state;
