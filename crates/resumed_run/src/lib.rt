//! A run in parts: each goes on from the bytes that the one before has left.
#![tactic(auto)]

pub mod part;
pub mod save;
