// Runs of which one call fails, whichever it is, and a trace that ends after any of its bytes.

use crate::tests::Tessla;
use crate::tests::specs::{HEARTBEATS, KEPT, NUMBERS, SEEN};
use memory_files::every_place::{ends_after_each_byte, fails_at_each_call, stops_at_each_call};
use std::test::Fail;

const CAME: &str = "1: s = false\n2: s = false\n3: s = true\n";

const BEATS: &str = "10: beat = 1\n20: beat = 2\n45: beat = 1\n110:\n";

const HEARD: &str =
    "0: ticks = 0\n0: devices = 0\n10: ticks = 1\n10: devices = 1\n20: ticks = 2\n20: devices = 2\n45: late = 1\n45: ticks = 3\n45: devices = 2\n95: quiet = ()\n";

// With a set, with sets of which one is kept beside, so that each update copies, and with a map.
#[test]
fn each_call_of_a_run_fails(rt: HostRuntime) -> Result<(), Fail> {
    assert!(rt; fails_at_each_call(&Tessla, rt.alloc(), SEEN, NUMBERS, CAME)?);
    assert!(rt; fails_at_each_call(&Tessla, rt.alloc(), KEPT, NUMBERS, CAME)?);
    assert!(rt; fails_at_each_call(&Tessla, rt.alloc(), HEARTBEATS, BEATS, HEARD)?);
    Ok(())
}

#[test]
fn nothing_but_what_tells_it_follows_a_call_that_failed(rt: HostRuntime) -> Result<(), Fail> {
    assert!(rt; stops_at_each_call(&Tessla, rt.alloc(), SEEN, NUMBERS.as_bytes())?);
    assert!(rt; stops_at_each_call(&Tessla, rt.alloc(), HEARTBEATS, BEATS.as_bytes())?);
    Ok(())
}

#[test]
fn a_trace_ends_after_each_of_its_bytes(rt: HostRuntime) -> Result<(), Fail> {
    let trace = BEATS.as_bytes();
    assert!(rt; ends_after_each_byte(&Tessla, rt.alloc(), HEARTBEATS, trace, HEARD)?);
    Ok(())
}
