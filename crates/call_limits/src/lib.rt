//! Cycles of macros, and calls that nest too deep.
#![tactic(auto)]

mod calls;
pub mod cycle;
pub mod deep;
mod depth;
pub mod laws;
