//! The flat system of a specification means what the specification means.
#![tactic(auto)]

pub mod complete;
pub mod laws;
pub mod one_flat;
