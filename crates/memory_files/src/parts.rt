// A run in two parts, of which the second goes on from what the first has left.

use crate::end::{End, Left, has_ended};
use crate::files::{calls, file, files, words};
use crate::program::{Program, run};
use std::alloc::Global;
use tsl_value::memory::NoMemory;
use tsl_world::MemoryWorld;

const SAVE: &[&str] = &["run", "s.tsl", "--save", "state"];

const RESUME: &[&str] = &["run", "s.tsl", "--resume", "state"];

/// As many bytes a read gives at most, and a write takes.
const PIECE: usize = 7;

/// A run over the rest of a trace, from the state of these bytes.
fn run_rest<P: Program>(
    program: &P,
    alloc: Global,
    spec: &str,
    state: &[u8],
    rest: &str,
) -> Result<Left, NoMemory> {
    let mut files = files(alloc, spec, "-", rest.as_bytes())?;
    files.push(file(alloc, "state", state)?)?;
    let mut world = MemoryWorld::new(alloc, files, PIECE, calls(alloc, &[])?)?;
    let status = program.start(alloc, &words(alloc, RESUME)?, &mut world);
    Ok(Left { status, world })
}

/// A run over the first part of a trace saves its state and ends so, and a run over the rest goes on from that and ends so.
pub fn parts_end<P: Program>(
    program: &P,
    alloc: Global,
    spec: &str,
    parts: (&str, &str),
    ends: (End<'_>, End<'_>),
) -> Result<bool, NoMemory> {
    let (first, rest) = parts;
    let left = run(program, alloc, SAVE, spec, first, PIECE)?;
    if !has_ended(&left, ends.0) {
        return Ok(false);
    }
    let left = run_rest(program, alloc, spec, left.world.state(), rest)?;
    Ok(has_ended(&left, ends.1))
}
