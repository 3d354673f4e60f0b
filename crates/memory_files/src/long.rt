// Long texts: definitions that double, and a trace with what it writes.

use std::alloc::{AllocError, Global};
use std::fmt::Write;

/// Twenty macros, each of which calls the one before it twice.
pub fn doubling_macros(alloc: Global) -> Result<String, AllocError> {
    let mut spec = String::from_str(
        alloc,
        "in i: Events[Int]\ndef m0(x: Events[Int]): Events[Int] := time(x)\n",
    )?;
    for number in 0..20u32 {
        let caller = number + 1;
        write!(
            spec,
            "def m{caller}(x: Events[Int]): Events[Int] := merge(m{number}(x), m{number}(x))\n"
        )?;
    }
    spec.push_str("out m20(i) as o\n")?;
    Ok(spec)
}

/// Twenty value functions, each of which calls the one before it twice.
pub fn doubling_functions(alloc: Global) -> Result<String, AllocError> {
    let mut spec = String::from_str(alloc, "in i: Events[Int]\ndef f0(a: Int): Int := a + 1\n")?;
    for number in 0..20u32 {
        let caller = number + 1;
        write!(
            spec,
            "def f{caller}(a: Int): Int := f{number}(a) + f{number}(a)\n"
        )?;
    }
    spec.push_str("out f20(i) as o\n")?;
    Ok(spec)
}

/// How many lines the long trace has.
const LINES: u32 = 100_000;

/// A trace with another number at each time.
pub fn long_trace(alloc: Global) -> Result<String, AllocError> {
    let mut trace = String::new(alloc);
    for number in 1..LINES + 1 {
        write!(trace, "{number}: i = {number}\n")?;
    }
    Ok(trace)
}

/// That none of its numbers came before.
pub fn all_new(alloc: Global) -> Result<String, AllocError> {
    let mut text = String::new(alloc);
    for number in 1..LINES + 1 {
        write!(text, "{number}: s = false\n")?;
    }
    Ok(text)
}

/// The number before each, but for the first.
pub fn all_before(alloc: Global) -> Result<String, AllocError> {
    let mut text = String::new(alloc);
    for before in 1..LINES {
        let number = before + 1;
        write!(text, "{number}: p = {before}\n")?;
    }
    Ok(text)
}
