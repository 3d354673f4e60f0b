//! Code files: code as bytes.
#![tactic(auto)]

mod body;
mod equations;
pub mod fault;
pub mod laws;
pub mod limits;
mod numbers;
pub mod types;
pub mod write;
