//! Systems that differ in equations alone that neither run nor are inputs read, solve and print alike.
#![tactic(auto)]

pub mod laws;
