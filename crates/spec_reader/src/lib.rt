//! From the bytes of a specification to its flat system and an order to run it in, or the way in which it is refused.
#![tactic(auto)]

mod cycle;
pub mod read;
