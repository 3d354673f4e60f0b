//! Reduced ordered decision diagrams: what is true in the same valuations is one node.
#![tactic(auto)]

pub mod arena;
pub mod join;
pub mod search;
