//! Where the content of aggregates comes from and where it goes on, for any set of updates in place. No trigger is asked about.
#![tactic(auto)]

pub mod links;
pub mod numbers;
pub mod pairs;
pub mod paths;
pub mod reach;
pub mod roots;
pub mod sharing;
pub mod uses;
