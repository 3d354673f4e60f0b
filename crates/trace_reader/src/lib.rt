//! The lines of a trace, however its bytes are cut into pieces.
#![tactic(auto)]

pub mod fault;
mod form;
mod inputs;
mod int;
mod last;
pub mod laws;
pub mod limits;
mod line;
pub mod name;
pub mod next;
mod plain;
pub mod reader;
mod seen;
pub mod state;
mod unread;

pub use flat_core::line::TraceLine;
