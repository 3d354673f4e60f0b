// A run of the sample.

use crate::tests::small_system::{are_sorted, are_typed, trace};
use plain_solver::solve::{End, solve};
use plain_solver::text::print_due;
use recursion_check::check::run_order;
use sample_systems::systems::sample;
use std::test::Fail;

// The set is printed where it has the number already.
#[test]
fn events_are_printed_by_time(rt: HostRuntime) -> Result<(), Fail> {
    let flat = sample(rt.alloc())?;
    let Ok(order) = run_order(rt.alloc(), &flat) else {
        return Err(Fail::from("a cycle"));
    };
    let lines = trace(rt.alloc(), &[(1, 0, 5), (2, 0, 7), (3, 0, 5)])?;
    if !are_sorted(&lines) || !are_typed(&flat, &lines) {
        return Err(Fail::from("the lines are not sorted or not typed"));
    }
    let solved = solve(rt.alloc(), &flat, &order, &lines, 10, 100)?;
    assert!(rt; solved.end == End::Bound);
    let text = print_due(rt.alloc(), &flat, &solved)?;
    assert!(rt; text.as_slice() == b"3: f = Set(5, 7)\n".as_slice());
    Ok(())
}
