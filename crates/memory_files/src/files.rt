// Words and files in memory.

ghost use Rattle.std.specs.Prelude.{◌≡◌, ◌<◌, IfOk};
ghost use Rattle.tsl_world.specs.Standing.{at_first};
ghost use Rattle.tsl_world.specs.inner.Memory.{standing_of};

use command_words::words::Words;
use std::alloc::Global;
use tsl_value::bytes::Bytes;
use tsl_value::memory::NoMemory;
use tsl_value::text::Text;
use tsl_world::{Calls, Files, MemoryWorld, NamedFile};

/// These words.
pub fn words(alloc: Global, list: &[&str]) -> Result<Words, NoMemory> {
    let mut words = Words::new(alloc);
    for word in list {
        words.push(Text::from_str(alloc, word)?)?;
    }
    Ok(words)
}

pub(crate) fn file(alloc: Global, name: &str, bytes: &[u8]) -> Result<NamedFile, NoMemory> {
    Ok(NamedFile {
        name: Text::from_str(alloc, name)?,
        bytes: Bytes::from_slice(alloc, bytes)?,
    })
}

/// The specification `s.tsl` and a trace of this name.
pub fn files(alloc: Global, spec: &str, name: &str, trace: &[u8]) -> Result<Files, NoMemory> {
    let mut files = Files::new(alloc);
    files.push(file(alloc, "s.tsl", spec.as_bytes())?)?;
    files.push(file(alloc, name, trace)?)?;
    Ok(files)
}

pub(crate) fn calls(alloc: Global, numbers: &[u64]) -> Result<Calls, NoMemory> {
    let mut calls = Calls::new(alloc);
    for number in numbers {
        calls.push(*number)?;
    }
    Ok(calls)
}

/// A world of these, in pieces of this size. The calls with the numbers in `fails` fail.
pub fn world(
    alloc: Global,
    spec: &str,
    name: &str,
    trace: &[u8],
    piece: usize,
    fails: &[u64],
) -> Result<MemoryWorld, NoMemory>
    requires { 0 < piece }
    ensures { IfOk result (λ world. standing_of world ≡ at_first) }
{
    let files = files(alloc, spec, name, trace)?;
    MemoryWorld::new(alloc, files, piece, calls(alloc, fails)?)
}
