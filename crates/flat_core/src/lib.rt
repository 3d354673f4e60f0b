//! The flat system: numbered equations, and what their streams are.
#![tactic(auto)]

pub mod builder;
pub mod equation;
pub mod flat;
pub mod laws;
pub mod limits;
pub mod line;
pub mod lists;
mod reach;
pub mod replacements;
