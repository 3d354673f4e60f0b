// Whole runs over files in memory.

mod every_place;
mod long;
mod rows;
mod specs;

use crate::tests::specs::{PREVIOUS, SEEN};
use command_words::words::Words;
use memory_files::end::{has_ended, prints, refusal};
use memory_files::parts::parts_end;
use memory_files::program::{Program, ends, run, run_files};
use std::alloc::Global;
use std::test::Fail;
use tessla_cli::top::tessla;
use tsl_world::MemoryWorld;

/// The call `tessla`.
struct Tessla;

impl Program for Tessla {
    fn start(&self, alloc: Global, words: &Words, world: &mut MemoryWorld) -> u8 {
        tessla(alloc, words, world)
    }
}

const RUN: &[&str] = &["run", "s.tsl"];

const TRACE: &str = "1: i = 4\n3: i = 9\n";

#[test]
fn the_previous_value_in_pieces_of_one_byte(rt: HostRuntime) -> Result<(), Fail> {
    let end = prints("3: p = 4\n");
    assert!(rt; ends(&Tessla, rt.alloc(), RUN, PREVIOUS, TRACE, 1, end)?);
    Ok(())
}

#[test]
fn a_run_makes_no_call_too_many_or_too_few(rt: HostRuntime) -> Result<(), Fail> {
    let end = prints("3: p = 4\n");
    let left = run(&Tessla, rt.alloc(), RUN, PREVIOUS, TRACE, 64)?;
    assert!(rt; has_ended(&left, end));
    assert!(rt; left.world.calls() == 7);
    // As many bytes as may be, one at a time, and their end.
    let words = &["run", "s.tsl", "--bytes", "18"];
    assert!(rt; ends(&Tessla, rt.alloc(), words, PREVIOUS, TRACE, 1, end)?);
    Ok(())
}

#[test]
fn the_first_call_fails(rt: HostRuntime) -> Result<(), Fail> {
    let trace = TRACE.as_bytes();
    let left = run_files(&Tessla, rt.alloc(), RUN, PREVIOUS, "-", trace, 64, &[0])?;
    assert!(rt; has_ended(&left, refusal(5, "outside: a call failed\n")));
    Ok(())
}

#[test]
fn a_named_trace_is_closed_up_to_a_time(rt: HostRuntime) -> Result<(), Fail> {
    let spec = "def p: Events[Unit] := delay(const(10, merge(unit, p)), unit)\nout p\n";
    let words = &["run", "s.tsl", "t", "--until=25"];
    let left = run_files(&Tessla, rt.alloc(), words, spec, "t", b"", 64, &[])?;
    assert!(rt; has_ended(&left, prints("10: p = ()\n20: p = ()\n")));
    Ok(())
}

#[test]
fn a_run_is_saved_and_goes_on(rt: HostRuntime) -> Result<(), Fail> {
    let parts = ("1: i = 5\n2: i = 7\n3: i", " = 5\n");
    let ends = (
        prints("1: s = false\n"),
        prints("2: s = false\n3: s = true\n"),
    );
    assert!(rt; parts_end(&Tessla, rt.alloc(), SEEN, parts, ends)?);
    Ok(())
}

#[test]
fn a_state_of_nothing_has_249_bytes(rt: HostRuntime) -> Result<(), Fail> {
    let words = &["run", "s.tsl", "--save", "state"];
    let left = run(&Tessla, rt.alloc(), words, SEEN, "", 64)?;
    assert!(rt; has_ended(&left, prints("")));
    assert!(rt; left.world.state().len() == 249);
    Ok(())
}
