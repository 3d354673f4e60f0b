//! The flat system of a specification.
#![tactic(auto)]

mod call;
mod chain;
mod context;
mod expression;
pub mod flatten;
pub mod laws;
mod top;
