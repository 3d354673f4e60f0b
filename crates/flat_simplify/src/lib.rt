//! Simplification of flat systems: merges that give way to their first argument.
#![tactic(auto)]

pub mod laws;
pub mod simplify;
