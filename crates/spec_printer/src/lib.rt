//! The printer of specifications: of a tree, a source that is lexed and parsed to the same tree, places aside.
//!
//! Each token has a blank after it. Each item, each definition of a block and the result of a block begins a line.
//! Parentheses stand only where the tree would be another without them.
#![tactic(auto)]

mod definition;
mod expression;
pub mod law;
mod mark;
pub mod print;
mod type_name;
