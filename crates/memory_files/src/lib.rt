//! A specification and a trace as files in memory, runs of a program over them, and how they end: for the tests of whole runs.
#![tactic(auto)]

pub mod end;
pub mod every_place;
pub mod files;
pub mod long;
pub mod parts;
pub mod program;
pub mod rows;
