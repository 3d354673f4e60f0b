//! The code of a flat system: its equations and prints in an order to run them in, and what ends an instant.
#![tactic(auto)]

pub mod code;
pub mod copying;
mod keep;
pub mod laws;
mod pairs;
pub mod plan;
pub mod print;
