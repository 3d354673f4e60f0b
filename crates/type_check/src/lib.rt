//! The check of types: the first refusal of a specification, or what its declared names are.
#![tactic(auto)]

pub mod check;
pub mod fault;
mod kinds;
pub mod laws;
pub mod print;
mod slot;
pub mod typed;
