//! The printed form of a flat system.
#![tactic(auto)]

mod body;
mod names;
pub mod print;
