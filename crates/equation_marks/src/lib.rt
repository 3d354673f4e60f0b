//! How many equations a specification makes, and where they pass the limits.
#![tactic(auto)]

pub mod body;
mod call;
pub mod count;
mod own;
