//! What the system means that is run for a source.
#![tactic(auto)]

pub mod laws;
