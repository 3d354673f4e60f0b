//! Whether a plan is fine: a set of updates that can all happen in place together, with an order of the steps that lets them.
#![tactic(auto)]

mod places;
pub mod plan;
