// Runs of which one call fails, whichever it is, and traces that end after any of their bytes.

ghost use Rattle.std.specs.Prelude.{◌≡◌, ◌<◌, IfOk};
ghost use Rattle.tsl_world.specs.Standing.{at_first};
ghost use Rattle.tsl_world.specs.inner.Memory.{standing_of};
ghost use Rattle.tsl_world.specs.inner.Sizes.{AreSizes};

use crate::end::Left;
use crate::files::{files, words};
use crate::program::{Program, run_files};
use std::alloc::Global;
use tsl_value::memory::NoMemory;
use tsl_world::{Calls, MemoryWorld, Sizes};

const RUN: &[&str] = &["run", "s.tsl"];

const STATISTICS: &[&str] = &["run", "s.tsl", "--stats"];

/// More calls than any run makes that is tried.
const CALLS: u64 = 5_000;

/// What tells that a call failed.
const FAILED: &str = "outside: a call failed\n";

/// What a run wrote begins this output, and its world was told of each call.
fn begins(left: &Left, out: &str) -> bool {
    left.world.is_told() && out.as_bytes().starts_with(left.world.out())
}

/// Seven bytes, one, and sixty-four, in turn.
fn several(alloc: Global) -> Result<Sizes, NoMemory>
    ensures { IfOk result AreSizes }
{
    let mut sizes = Sizes::new(alloc);
    sizes.push(7)?;
    sizes.push(1)?;
    sizes.push(64)?;
    Ok(sizes)
}

/// A world that gives pieces of several sizes. The call with this number fails.
fn failing_world(alloc: Global, spec: &str, trace: &str, call: u64) -> Result<MemoryWorld, NoMemory>
    ensures { IfOk result (λ world. standing_of world ≡ at_first) }
{
    let mut calls = Calls::new(alloc);
    calls.push(call)?;
    let files = files(alloc, spec, "-", trace.as_bytes())?;
    MemoryWorld::with_pieces(alloc, files, several(alloc)?, calls)
}

/// A run with statistics over such a world.
fn run_failing<P: Program>(
    program: &P,
    alloc: Global,
    spec: &str,
    trace: &str,
    call: u64,
) -> Result<Left, NoMemory> {
    let mut world = failing_world(alloc, spec, trace, call)?;
    let status = program.start(alloc, &words(alloc, STATISTICS)?, &mut world);
    Ok(Left { status, world })
}

/// The first call of a run fails, then the second call of another run, and so on, until none fails. Each run but the last ends with
/// status 5, and the last one writes this output.
pub fn fails_at_each_call<P: Program>(
    program: &P,
    alloc: Global,
    spec: &str,
    trace: &str,
    out: &str,
) -> Result<bool, NoMemory> {
    for call in 0..CALLS {
        let left = run_failing(program, alloc, spec, trace, call)?;
        if !begins(&left, out) {
            return Ok(false);
        }
        if left.status != 5 {
            return Ok(left.status == 0 && left.world.out() == out.as_bytes());
        }
    }
    Ok(false)
}

/// Nothing but the write of the line that tells it followed the call with this number, which failed, and nothing where that call was to
/// tell something.
fn has_stopped(left: &Left, call: u64) -> bool
    requires { call < 5_000 }
{
    let err = left.world.err();
    let last = if err == FAILED.as_bytes() {
        call + 1
    } else {
        call
    };
    let has_told = err.is_empty() || last > call;
    left.status == 5 && has_told && left.world.calls() == last + 1
}

/// Whichever call of a run fails, nothing follows but what tells it. Where the next call fails too, Err is given nothing, and nothing
/// follows either.
pub fn stops_at_each_call<P: Program>(
    program: &P,
    alloc: Global,
    spec: &str,
    trace: &[u8],
) -> Result<bool, NoMemory> {
    for call in 0..CALLS {
        let left = run_files(program, alloc, STATISTICS, spec, "-", trace, 64, &[call])?;
        if left.status != 5 {
            return Ok(left.status == 0);
        }
        let fails = [call, call + 1];
        let both = run_files(program, alloc, STATISTICS, spec, "-", trace, 64, &fails)?;
        let is_untold = both.status == 5 && both.world.err().is_empty();
        let stops = is_untold && both.world.calls() == left.world.calls();
        if !stops || !has_stopped(&left, call) {
            return Ok(false);
        }
    }
    Ok(false)
}

/// Two runs ended alike.
fn are_alike(one: &Left, other: &Left) -> bool {
    let wrote = one.world.out() == other.world.out() && one.world.err() == other.world.err();
    one.status == other.status && wrote && one.world.is_told() && other.world.is_told()
}

/// A trace, byte by byte, ends as it does in one piece: with all accepted or with a refused line, and with a beginning of this output.
fn ends_as_a_whole<P: Program>(
    program: &P,
    alloc: Global,
    spec: &str,
    trace: &[u8],
    out: &str,
) -> Result<bool, NoMemory> {
    let cut = run_files(program, alloc, RUN, spec, "-", trace, 1, &[])?;
    let whole = run_files(program, alloc, RUN, spec, "-", trace, 65_536, &[])?;
    let is_end = whole.status == 0 || whole.status == 4;
    Ok(is_end && are_alike(&cut, &whole) && begins(&whole, out))
}

/// The same of each beginning of a trace.
pub fn ends_after_each_byte<P: Program>(
    program: &P,
    alloc: Global,
    spec: &str,
    trace: &[u8],
    out: &str,
) -> Result<bool, NoMemory> {
    for count in 0..trace.len() + 1 {
        if !ends_as_a_whole(program, alloc, spec, &trace[..count], out)? {
            return Ok(false);
        }
    }
    Ok(true)
}
