//! The trigger formulas of a flat system as circuits of gates, one for time 0 and one for all times after it.
#![tactic(auto)]

pub mod formulas;
mod gate;
