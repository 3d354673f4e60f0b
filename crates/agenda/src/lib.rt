//! The places of a list that are still to be visited, of which the least comes first.
#![tactic(auto)]

mod bits;
pub mod marks;
mod words;
