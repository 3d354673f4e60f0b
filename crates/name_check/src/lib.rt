//! What the names of a specification stand for, which of them are declared twice, and which are not declared where they
//! stand.
#![tactic(auto)]

pub mod builtin;
pub mod check;
pub mod count;
pub mod declaration;
pub mod law;
pub mod names;
pub mod parts;
pub mod scope;
pub mod top;
mod twice;
mod unknown;
