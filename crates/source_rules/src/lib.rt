//! Which specification a source is, what system it means, and how another source is refused.
#![tactic(auto)]

pub mod fault;
pub mod laws;
