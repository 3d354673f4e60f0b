//! Whether a flat system is well-formed.
#![tactic(auto)]

pub mod check;
mod edges;
pub mod laws;
