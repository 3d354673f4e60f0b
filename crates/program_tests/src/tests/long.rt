// Long specifications, and long traces in small pieces.

use crate::tests::Tessla;
use crate::tests::specs::{NUMBERS, PREVIOUS, SEEN};
use memory_files::end::{End, prints, refusal};
use memory_files::long::{all_before, all_new, doubling_functions, doubling_macros, long_trace};
use memory_files::program::ends;
use std::test::Fail;

const RUN: &[&str] = &["run", "s.tsl"];

const STATISTICS: &[&str] = &["run", "s.tsl", "--stats"];

#[test]
fn definitions_that_double_are_refused(rt: HostRuntime) -> Result<(), Fail> {
    let spec = doubling_macros(rt.alloc())?;
    let end = refusal(3, "spec 2:40: TooManyEquations\n");
    assert!(rt; ends(&Tessla, rt.alloc(), RUN, spec.as_str(), "", 64, end)?);
    let spec = doubling_functions(rt.alloc())?;
    let end = refusal(3, "spec 11:5: BodyTooLarge\n");
    assert!(rt; ends(&Tessla, rt.alloc(), RUN, spec.as_str(), "", 64, end)?);
    Ok(())
}

/// A run of `SEEN` writes this, and copies nothing.
fn copying_nothing(out: &str) -> End<'_> {
    End {
        status: 0,
        out,
        err: "stats y 4:28 copied 0\n",
    }
}

#[test]
fn a_set_is_updated_whatever_the_pieces(rt: HostRuntime) -> Result<(), Fail> {
    let end = copying_nothing("1: s = false\n2: s = false\n3: s = true\n");
    assert!(rt; ends(&Tessla, rt.alloc(), STATISTICS, SEEN, NUMBERS, 1, end)?);
    assert!(rt; ends(&Tessla, rt.alloc(), STATISTICS, SEEN, NUMBERS, 7, end)?);
    Ok(())
}

#[test]
fn the_value_before_in_a_long_trace(rt: HostRuntime) -> Result<(), Fail> {
    let trace = long_trace(rt.alloc())?;
    let wanted = all_before(rt.alloc())?;
    assert!(rt; wanted.len() == 1_677_776);
    let end = prints(wanted.as_str());
    assert!(rt; ends(&Tessla, rt.alloc(), RUN, PREVIOUS, trace.as_str(), 16, end)?);
    Ok(())
}

// A program that copies the set at each update, or runs the whole trace again at each piece, takes hours for this.
#[test]
fn a_long_trace_in_small_pieces(rt: HostRuntime) -> Result<(), Fail> {
    let trace = long_trace(rt.alloc())?;
    let wanted = all_new(rt.alloc())?;
    assert!(rt; wanted.len() == 1_688_895);
    let end = copying_nothing(wanted.as_str());
    assert!(rt;
        ends(
            &Tessla,
            rt.alloc(),
            STATISTICS,
            SEEN,
            trace.as_str(),
            16,
            end
        )?
    );
    Ok(())
}
