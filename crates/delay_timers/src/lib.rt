//! The pending delays of a monitor.
#![tactic(auto)]

mod apart;
pub mod timers;
mod tournament;
mod tree;
