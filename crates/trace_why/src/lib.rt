//! Why an output has an event at a time, asked of the pieces of a trace. They are read until the time is closed. Then a derivation of the
//! event is made of the lines, or it is said why there is none.
#![tactic(auto)]

mod answer;
mod course;
pub mod ending;
mod gather;
pub mod laws;
pub mod monitor;
pub mod question;
