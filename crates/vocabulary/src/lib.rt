//! The names of the language that stand for functions: how each is spelled, what it takes and gives, and what it is.
#![tactic(auto)]

pub mod dotted;
pub mod kind;
pub mod plain;
pub mod signature;
