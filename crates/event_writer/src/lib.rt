//! The lines that a run writes: those of its output events, and that of the fault that ends it.
#![tactic(auto)]

pub mod event;
pub mod fault;
pub mod place;
mod short;
