//! The words after the program's name, and what they ask for.
#![tactic(auto)]

pub mod command;
pub mod limits;
mod room;
pub mod words;
