//! The refusals of a specification for which no expression needs its type: written types that may not stand where they do, mixed
//! parameters, inputs of aggregates, calls with a wrong number of arguments, outputs of one name, and the want of an output.
#![tactic(auto)]

pub mod arity;
mod call;
pub mod declared;
pub mod output;
pub mod written;
