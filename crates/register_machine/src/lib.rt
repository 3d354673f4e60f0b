//! The register machine: what the code of a plan means, and that updates in place cannot be seen.
#![tactic(auto)]

pub mod laws;
