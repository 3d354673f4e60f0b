//! What stands near updates of sets and maps that happen in place, as far as no trigger is asked.
#![tactic(auto)]

pub mod asked;
pub mod begins;
pub mod kept;
pub mod merges;
pub mod near;
pub mod reason;
pub mod search;
pub mod steps;
pub mod writes;
