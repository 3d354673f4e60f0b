//! Whether equations have arity and types, before a system is made of them.
#![tactic(auto)]

mod arguments;
pub mod body;
pub mod equation;
pub mod kind;
mod operation;
mod same;
