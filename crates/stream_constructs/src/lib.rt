//! The constructs of the language over streams: what each makes of its parts' streams, the equations that make it, and that both
//! agree.
#![tactic(auto)]

mod arguments;
pub mod construct;
pub mod laws;
mod lifting;
pub mod limits;
pub mod maker;
mod operations;
mod signals;
mod sources;
