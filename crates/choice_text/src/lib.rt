//! What is told of the updates of a system: which happen in place, and why each other one copies.
#![tactic(auto)]

pub mod print;
