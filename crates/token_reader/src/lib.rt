//! Readers of tokens: small grammars that are put together to larger ones, and the laws that they keep.
//!
//! There is no code here. `specs/Reader.antt` has the readers, and `proofs/` the laws.
#![tactic(auto)]
