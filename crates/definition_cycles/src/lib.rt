//! Cycles of value functions, cycles of definitions without a written type, and an order of definitions.
#![tactic(auto)]

pub mod calls;
pub mod found;
pub mod functions;
pub mod graph;
pub mod kinds;
pub mod limits;
mod list;
pub mod mention;
pub mod top;
mod untyped;
