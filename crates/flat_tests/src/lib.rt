//! Tests of calls on flat systems that the program does not make: slices, derivations, the plain solver, the code in which all updates copy,
//! and an equation that is printed. There is nothing but tests: the check of a crate's tests proves the whole crate again, and here only they
//! are proved.
#![tactic(auto)]

#[cfg(test)]
mod tests;
