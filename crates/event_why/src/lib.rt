//! Why an output has an event: derivations, of which each fact follows from earlier ones, made, checked and printed.
#![tactic(auto)]

mod agrees;
pub mod check;
mod course;
mod draft;
mod event;
pub mod explain;
pub mod explained;
pub mod fact;
mod gap;
mod grounded;
mod grounds;
mod instants;
mod named;
mod next;
mod pending;
pub mod print;
mod prune;
mod row;
mod rule;
mod search;
mod silent;
mod sliced;
mod told;
mod used;
mod waits;
