//! Two flat systems that tests of several crates ask about.
#![tactic(auto)]

pub mod systems;
