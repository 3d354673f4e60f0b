//! Questions about the trigger formulas of a flat system.
#![tactic(auto)]

mod asked;
mod nodes;
mod side;
pub mod triggers;
