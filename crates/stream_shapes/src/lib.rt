//! Which construct over streams an expression is, and the equations of constructs.
#![tactic(auto)]

pub mod body;
mod call;
pub mod construct;
mod dotted;
mod leaf;
pub mod literal;
pub mod make;
mod operands;
mod operation;
pub mod shape;
