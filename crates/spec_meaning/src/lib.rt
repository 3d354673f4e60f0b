//! What a specification means: what happens in the streams of its expressions, each from those of its parts; and which equations it
//! makes. It has no code.
#![tactic(auto)]
