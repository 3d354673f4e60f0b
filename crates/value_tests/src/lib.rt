//! Tests of sets and maps, of bodies that are evaluated apart, and of many delays. There is nothing but tests: the check of a crate's tests
//! proves the whole crate again, and here only they are proved.
#![tactic(auto)]

#[cfg(test)]
mod tests;
