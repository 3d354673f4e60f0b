//! Times, places, texts and values, and what a value is to a contract.
#![tactic(auto)]

pub mod bytes;
pub mod ids;
pub mod laws;
pub mod limits;
pub mod literal;
pub mod memory;
pub mod operation;
mod order;
pub mod place;
pub mod print;
pub mod scalar;
pub mod text;
pub mod time;
