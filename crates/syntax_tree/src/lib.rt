//! The syntax tree of a specification.
#![tactic(auto)]

pub mod tree;
