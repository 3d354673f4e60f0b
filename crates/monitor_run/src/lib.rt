//! The engine: it runs a flat system instant by instant, and keeps between instants the last registers, the cells of aggregates,
//! the pending delays and the events of the open time.
#![tactic(auto)]

mod action;
mod begin;
mod case;
mod delay;
mod end;
mod event;
mod hand;
mod instant;
pub mod laws;
mod machine;
pub mod monitor;
mod next;
mod restored;
mod run;
mod saved;
mod tables;
mod update;
mod visits;
