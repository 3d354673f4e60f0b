//! Which output is printed under a name, and what is told of its slice: the lines of its equations, and that of the output.
#![tactic(auto)]

pub mod number;
pub mod print;
