//! The bodies of value functions: calls of other value functions stand in them with the arguments in the place of the parameters.
#![tactic(auto)]

mod around;
mod definition;
mod expression;
pub mod functions;
pub mod laws;
pub mod operation;
pub mod order;
