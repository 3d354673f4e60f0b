//! From the bytes of a specification to the code that runs, or the way in which it is refused.
#![tactic(auto)]

pub mod compile;
