//! The chains of a parsed specification have the operators of their levels.
#![tactic(auto)]

pub mod laws;
pub mod text_laws;
