//! Trigger formulas: when the equations of a flat system have events.
#![tactic(auto)]

pub mod atom;
pub mod laws;
pub mod limit;
