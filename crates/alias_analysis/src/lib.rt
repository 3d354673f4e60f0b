//! Where updates of sets and maps would change content that is still needed.
#![tactic(auto)]

mod answers;
mod around;
mod bypass;
mod conflict;
mod constraints;
pub mod graph;
mod nears;
mod onward;
mod wider;
