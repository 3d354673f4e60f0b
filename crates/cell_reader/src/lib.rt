//! How cells of aggregates are read, by whatever holds them.
#![tactic(auto)]

pub mod reader;
