//! Which gates of a circuit without negations imply which.
#![tactic(auto)]

mod asked;
pub mod circuit;
mod deciding;
mod effort;
pub mod implied;
mod knowledge;
mod marks;
mod models;
mod search;
mod summands;
