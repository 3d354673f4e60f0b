//! From which facts another follows in a derivation of an event, and that what follows is so.
#![tactic(auto)]

pub mod laws;
