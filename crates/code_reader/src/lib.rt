//! Code files, read: from bytes to the parts of code, by their form.
#![tactic(auto)]

mod body;
mod equation;
mod fields;
mod joined;
pub mod parts;
pub mod read;
mod types;
