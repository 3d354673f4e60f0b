//! Sets, maps and queues in cells behind handles.
#![tactic(auto)]

pub mod cell;
pub mod content;
pub mod entry_tree;
pub mod key_tree;
pub mod keys;
pub mod laws;
pub mod lists;
pub mod print;
pub mod range;
pub mod same;
mod slots;
pub mod store;
