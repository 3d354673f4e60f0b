//! What holds of a specification that the check of types accepts.
#![tactic(auto)]

pub mod flat_laws;
pub mod function_laws;
pub mod laws;
