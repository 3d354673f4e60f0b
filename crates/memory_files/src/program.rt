// Runs of a program over files in memory.

ghost use Rattle.std.specs.Prelude.{◌≡◌, ◌<◌};
ghost use Rattle.tsl_world.specs.Standing.{at_first};
ghost use Rattle.tsl_world.specs.inner.Memory.{standing_of};

use crate::end::{End, Left, has_ended};
use crate::files::{words, world};
use command_words::words::Words;
use std::alloc::Global;
use tsl_value::memory::NoMemory;
use tsl_world::MemoryWorld;

/// A program that is tried. It stands above this crate, so that what tries it is proved before it is.
pub trait Program {
    /// The status of a run with these words.
    fn start(&self, alloc: Global, words: &Words, world: &mut MemoryWorld) -> u8
        requires { standing_of world.old ≡ at_first };
}

/// A run with these words over a specification `s.tsl` and a trace of this name, in pieces of this size. The calls with the numbers in
/// `fails` fail.
pub fn run_files<P: Program>(
    program: &P,
    alloc: Global,
    list: &[&str],
    spec: &str,
    name: &str,
    trace: &[u8],
    piece: usize,
    fails: &[u64],
) -> Result<Left, NoMemory>
    requires { 0 < piece }
{
    let mut world = world(alloc, spec, name, trace, piece, fails)?;
    let status = program.start(alloc, &words(alloc, list)?, &mut world);
    Ok(Left { status, world })
}

/// The same without a call that fails, where the trace is the standard input.
pub fn run<P: Program>(
    program: &P,
    alloc: Global,
    list: &[&str],
    spec: &str,
    trace: &str,
    piece: usize,
) -> Result<Left, NoMemory>
    requires { 0 < piece }
{
    run_files(
        program,
        alloc,
        list,
        spec,
        "-",
        trace.as_bytes(),
        piece,
        &[],
    )
}

/// Such a run ends so, and its world was told of each call.
pub fn ends<P: Program>(
    program: &P,
    alloc: Global,
    list: &[&str],
    spec: &str,
    trace: &str,
    piece: usize,
    end: End<'_>,
) -> Result<bool, NoMemory>
    requires { 0 < piece }
{
    let left = run(program, alloc, list, spec, trace, piece)?;
    Ok(has_ended(&left, end))
}
