//! The rules of a flat system: for each equation its trigger formula, the atoms that stand in it, and whether it starts.
#![tactic(auto)]

pub mod atoms;
pub mod gather;
pub mod listed;
pub mod needed;
pub mod rules;
pub mod starts;
