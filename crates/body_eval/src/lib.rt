//! What the value of a body is at scalars and at registers.
#![tactic(auto)]

pub mod eval;
pub mod law;
mod operation;
pub mod quick;
mod read;
pub mod register;
