//! The rules of typing: what each construct asks of its parts, and what it is then.
#![tactic(auto)]

pub mod asked;
pub mod call;
pub mod laws;
pub mod operation;
pub mod rule;
pub mod same;
pub mod written;
