//! Which updates of sets and maps may happen in place.
#![tactic(auto)]

pub mod laws;
