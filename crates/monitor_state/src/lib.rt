//! What a monitor keeps between two instants, apart from it.
#![tactic(auto)]

pub mod state;
