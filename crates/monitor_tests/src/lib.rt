//! Tests of runs that are saved and go on. There is nothing but tests: the check of a crate's tests proves the whole
//! crate again, and here only they are proved.
#![tactic(auto)]

#[cfg(test)]
mod tests;
