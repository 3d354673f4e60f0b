//! Orders of steps, and cycles where there are none.
#![tactic(auto)]

mod cycle;
pub mod laws;
pub mod on_cycle;
pub mod order;
mod search;
pub mod steps;
mod taking;
