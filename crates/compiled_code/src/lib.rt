//! What the code of each compiled source has, so that a file can be made of it, and that codes of one spelling are alike.
#![tactic(auto)]

pub mod laws;
