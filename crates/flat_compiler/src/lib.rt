//! From a flat system to the code that runs.
#![tactic(auto)]

pub mod compile;
