//! The state of a run as bytes: written, and read back where it fits the code.
#![tactic(auto)]

mod cells;
mod check;
pub mod fault;
mod fields;
pub mod laws;
mod monitor;
pub mod read;
mod registers;
pub mod write;
