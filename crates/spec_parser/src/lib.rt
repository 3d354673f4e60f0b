//! The parser of specifications.
#![tactic(auto)]

mod definition;
mod expression;
mod item;
pub mod law;
pub mod limits;
mod mark;
pub mod parse;
mod stop;
mod type_name;
mod words;
