// Derivations of events of both outputs, and some that are refused.

ghost use Rattle.std.specs.Prelude.{◌<◌, ◌^◌};

use crate::tests::small_system::{are_sorted, are_typed, at, small_system, trace};
use event_why::check::check_why;
use event_why::explain::explain;
use event_why::explained::Explained;
use event_why::fact::{Fact, Why, WhyFault, WhyStep};
use event_why::print::print_why;
use plain_solver::value::Value;
use recursion_check::check::check_cycles;
use std::alloc::Global;
use std::test::Fail;
use tsl_value::bytes::Bytes;
use tsl_value::ids::EqId;
use tsl_value::memory::NoMemory;
use tsl_value::scalar::Scalar;
use tsl_value::time::Time;

/// The events of the inputs i and j.
const EVENTS: &[(u64, u32, i64)] = &[(1, 0, 4), (3, 0, 9), (3, 1, 2)];

/// What a check answers of a derivation for an output.
fn checked(alloc: Global, output: u32, why: &Why) -> Result<Result<(), WhyFault>, Fail> {
    let flat = small_system(alloc)?;
    let lines = trace(alloc, EVENTS)?;
    let Ok(()) = check_cycles(alloc, &flat) else {
        return Err(Fail::from("a cycle"));
    };
    if !are_sorted(&lines) || !are_typed(&flat, &lines) || output as usize >= flat.outputs().len() {
        return Err(Fail::from("no such output, or lines that are not sorted or not typed"));
    }
    Ok(check_why(alloc, &flat, &lines, output, why))
}

/// What is known of an output at a time, as a text. A derivation has to be accepted.
fn explained(alloc: Global, output: u32, t: u64) -> Result<Bytes, Fail>
    requires { t < 2 ^ 63 }
{
    let flat = small_system(alloc)?;
    let lines = trace(alloc, EVENTS)?;
    let Ok(()) = check_cycles(alloc, &flat) else {
        return Err(Fail::from("a cycle"));
    };
    if !are_sorted(&lines) || !are_typed(&flat, &lines) || output as usize >= flat.outputs().len() {
        return Err(Fail::from("no such output, or lines that are not sorted or not typed"));
    }
    let mut text = Bytes::new(alloc);
    match explain(alloc, &flat, &lines, output, at(t))? {
        Explained::Why(why) => {
            if checked(alloc, output, &why)? != Ok(()) {
                return Err(Fail::from("a derivation that is not accepted"));
            }
            print_why(&flat, &why, &mut text)?;
        }
        Explained::NoEvent => text.append(b"no event")?,
        Explained::Fault {
            time: _,
            equation: _,
            kind: _,
        } => text.append(b"fault")?,
    }
    Ok(text)
}

const WHY_LAST: &[u8] =
    b"#0 %0 i at 1 = 4\n#1 gap 2 to 2\n#2 %0 i silent 2 to 2 by #1\n#3 %1 j at 3 = 2\n#4 %2 p at 3 = 4 by #3 #0 #2\n";

#[test]
fn a_last_is_explained(rt: HostRuntime) -> Result<(), Fail> {
    let text = explained(rt.alloc(), 0, 3)?;
    assert!(rt; text.as_slice() == WHY_LAST);
    let none = explained(rt.alloc(), 0, 1)?;
    assert!(rt; none.as_slice() == b"no event".as_slice());
    Ok(())
}

const WHY_DELAY: &[u8] =
    b"#0 %0 i at 3 = 9\n#1 %1 j at 3 = 2\n#2 %3 d pending after 3: 12 by #0 #1\n#3 gap 4 to 11 by #2\n#4 %3 d pending after 11: 12 by #3 #2\n#5 %3 d at 12 = () by #4\n";

#[test]
fn a_delay_is_explained(rt: HostRuntime) -> Result<(), Fail> {
    let text = explained(rt.alloc(), 1, 12)?;
    assert!(rt; text.as_slice() == WHY_DELAY);
    Ok(())
}

fn event(equation: u32, t: u64, value: i64) -> Fact
    requires { t < 2 ^ 63 }
{
    Fact::Event {
        equation: EqId::new(equation),
        time: at(t),
        value: Value::of_scalar(Scalar::Int(value)),
    }
}

fn gap(from: u64, to: u64) -> Fact
    requires from { from < 2 ^ 63 }
    requires to { to < 2 ^ 63 }
{
    Fact::Gap {
        from: at(from),
        to: at(to),
    }
}

fn silent(equation: u32, from: u64, to: u64) -> Fact
    requires from { from < 2 ^ 63 }
    requires to { to < 2 ^ 63 }
{
    Fact::Silent {
        equation: EqId::new(equation),
        from: at(from),
        to: at(to),
    }
}

fn pending(t: u64, due: Option<Time>) -> Fact
    requires { t < 2 ^ 63 }
{
    Fact::Pending {
        equation: EqId::new(3),
        time: at(t),
        due,
    }
}

fn put(alloc: Global, fact: Fact, by: &[u64], why: &mut Why) -> Result<(), NoMemory> {
    let by = Vec::from_slice(alloc, by)?;
    why.steps.push(WhyStep { fact, by })?;
    Ok(())
}

/// A fact that follows from none, and another that is to follow from these.
fn of_two(alloc: Global, first: Fact, second: Fact, by: &[u64]) -> Result<Why, NoMemory> {
    let mut why = Why {
        steps: Vec::new(alloc),
    };
    put(alloc, first, &[], &mut why)?;
    put(alloc, second, by, &mut why)?;
    Ok(why)
}

// A gap has no time before its first one, and a last is silent where its second argument is.
#[test]
fn a_silence_that_does_not_follow_is_wrong(rt: HostRuntime) -> Result<(), Fail> {
    let wider = of_two(rt.alloc(), gap(2, 2), silent(0, 1, 2), &[0])?;
    assert!(rt; checked(rt.alloc(), 0, &wider)? == Err(WhyFault::Wrong { fact: 1 }));
    let other = of_two(rt.alloc(), silent(0, 2, 2), silent(2, 2, 2), &[0])?;
    assert!(rt; checked(rt.alloc(), 0, &other)? == Err(WhyFault::Wrong { fact: 1 }));
    Ok(())
}

// A last value needs the silence since, and each fact is named by a later one.
#[test]
fn a_last_without_its_silence_is_wrong(rt: HostRuntime) -> Result<(), Fail> {
    let mut why = of_two(rt.alloc(), event(0, 1, 4), event(1, 3, 2), &[])?;
    assert!(rt; checked(rt.alloc(), 0, &why)? == Err(WhyFault::Unused { fact: 0 }));
    put(rt.alloc(), event(2, 3, 4), &[1, 0], &mut why)?;
    assert!(rt; checked(rt.alloc(), 0, &why)? == Err(WhyFault::Wrong { fact: 2 }));
    Ok(())
}

// It is not set where its second argument is silent, and has an event at the time at which it is due, so that a gap ends before.
#[test]
fn a_delay_is_set_anew_and_ends_a_gap(rt: HostRuntime) -> Result<(), Fail> {
    let never = of_two(rt.alloc(), silent(3, 0, 0), pending(0, None), &[0, 0])?;
    assert!(rt; checked(rt.alloc(), 1, &never)? == Err(WhyFault::Wrong { fact: 1 }));
    let mut why = of_two(rt.alloc(), event(0, 3, 9), event(1, 3, 2), &[])?;
    put(rt.alloc(), pending(3, Some(at(12))), &[0, 1], &mut why)?;
    put(rt.alloc(), gap(4, 12), &[2], &mut why)?;
    assert!(rt; checked(rt.alloc(), 1, &why)? == Err(WhyFault::Wrong { fact: 3 }));
    Ok(())
}
