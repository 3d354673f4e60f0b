//! What an output of a flat system can depend on.
#![tactic(auto)]

pub mod slice;
