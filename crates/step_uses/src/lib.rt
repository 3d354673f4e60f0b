//! Which steps use an equation, and which delays wait for it.
#![tactic(auto)]

pub mod rows;
pub mod uses;
