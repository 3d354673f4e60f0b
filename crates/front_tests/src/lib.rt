//! Tests of the printer of sources, which the program does not call. There is nothing but tests: the check of a
//! crate's tests proves the whole crate again, and here only they are proved.
#![tactic(auto)]

#[cfg(test)]
mod tests;
