//! Which updates of sets and maps happen in place, and why the others copy.
#![tactic(auto)]

mod block;
pub mod choice;
mod cycles;
pub mod laws;
pub mod reasons;
mod trial;
