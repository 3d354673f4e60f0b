//! Code from bytes that nobody has to trust.
#![tactic(auto)]

pub mod check;
pub mod laws;
mod plan;
pub mod read;
mod system;
mod types;
