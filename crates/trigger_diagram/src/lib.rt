//! Decision diagrams of trigger formulas: formulas that are true in the same assignments are one node.
#![tactic(auto)]

pub mod diagrams;
mod formula;
pub mod laws;
mod made;
