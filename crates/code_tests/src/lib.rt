//! Tests of what is asked of a flat system before its updates are chosen, and of code from bytes, by calls that the program does not make.
//! There is nothing but tests: the check of a crate's tests proves the whole crate again, and here only they are proved.
#![tactic(auto)]

#[cfg(test)]
mod tests;
