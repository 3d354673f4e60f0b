//! What the expressions of a specification are, and which do not fit.
#![tactic(auto)]

pub mod around;
pub mod block;
mod body;
mod call;
pub mod define;
pub mod items;
pub mod judge;
pub mod kinds;
pub mod law;
mod leaf;
pub mod stop;
pub mod wrong;
