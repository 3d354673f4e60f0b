// An equation of the sample, and its code in which all updates copy.

use program_text::print::print_equation;
use recursion_check::check::check_cycles;
use register_code::code::generate;
use register_code::copying::copying_plan;
use register_code::print::print_code;
use sample_systems::systems::sample;
use std::test::Fail;
use tsl_value::bytes::Bytes;
use tsl_value::ids::EqId;

// The first line is that of an equation that does not run.
#[test]
fn steps_are_printed_and_then_what_is_kept(rt: HostRuntime) -> Result<(), Fail> {
    let flat = sample(rt.alloc())?;
    let Ok(()) = check_cycles(rt.alloc(), &flat) else {
        return Err(Fail::from("a cycle"));
    };
    let mut out = Bytes::new(rt.alloc());
    print_equation(&flat, EqId::new(11), &mut out)?;
    let plan = copying_plan(rt.alloc(), &flat)?;
    let code = generate(rt.alloc(), flat, plan)?;
    print_code(&code, &mut out)?;
    let wanted =
        b"%11 := Delay %0 %9\n%0 := Input Int\n%1 := Empty Set[Int]\n%3 := Last %2 %0\n%4 := Last %3 %0\n%5 := Merge %3 %4\n\
%6 := Last %0 %3\n%7 := Merge %0 %6\n%8 := SetAdd %5 %7\n%2 := Merge %8 %1\n%9 := Lift contains($0, $1) %5 %7\n\
%10 := Filter %8 %9\nprint f %10\nkeep %0\nkeep %2\nkeep %3\n";
    assert!(rt; out.as_slice() == wanted.as_slice());
    Ok(())
}
