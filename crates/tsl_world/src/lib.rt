//! The outside of a program, as one trait: what it opens, makes, reads and writes, told as a journal.
//!
//! `outside` has the trait `World` and the values that it speaks of, and `broken` what can cut short what is done with it. `RealWorld` is the
//! host: its files and its standard streams. `MemoryWorld` and `CalmWorld` are for tests and for proofs about what a program does:
//! they keep files in memory, and tell everything in their journal.
#![tactic(auto)]

mod broken;
mod calm;
mod desk;
mod failures;
mod files;
mod memory;
mod outside;
mod real;
mod sizes;

pub use broken::Broken;
pub use calm::CalmWorld;
pub use files::{Calls, Files, NamedFile};
pub use memory::MemoryWorld;
pub use outside::{Channel, Did, Failed, Slot, World};
pub use real::RealWorld;
pub use sizes::Sizes;
