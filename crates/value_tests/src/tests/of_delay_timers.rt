// Each call, with ample memory.

ghost use Rattle.std.specs.Prelude.{◌≡◌, ◌<◌};

use delay_timers::timers::Timers;
use std::test::Fail;
use tsl_value::time::Time;

// Delay d is due at 7 * d modulo 1,000. Since 7 * 143 is 1,001, the delay of time t is 143 * t modulo 1,000.
#[test]
fn many_delays_are_taken_in_order(rt: HostRuntime) -> Result<(), Fail> {
    let mut timers = Timers::with_capacity(rt.alloc(), 1_000)?;
    for delay in 0..1_000 {
        if let Some(due) = Time::new(u64::from(7 * delay % 1_000)) {
            timers.set(delay, due);
        }
    }
    assert!(rt; timers.at(3) == Time::new(21));
    for now in 0..1_000 {
        assert!(rt; timers.next() == Time::new(u64::from(now)));
        if let Some(time) = Time::new(u64::from(now)) {
            assert!(rt; timers.take_due(time) == Some(143 * now % 1_000));
        }
    }
    assert!(rt; timers.next().is_none());
    Ok(())
}

/// Lets a delay be due at a time, or not be pending where that is 0.
fn change(timers: &mut Timers, delay: u32, at: u64)
    requires { delay < timers.old.capacity }
    ensures { timers.new.capacity ≡ timers.old.capacity }
{
    match Time::new(at) {
        Some(due) if at > 0 => timers.set(delay, due),
        _ => timers.cancel(delay),
    }
}

/// Takes out the delay that is due at just this time.
fn taken(timers: &mut Timers, at: u64) -> Option<u32>
    ensures { timers.new.capacity ≡ timers.old.capacity }
{
    timers.take_due(Time::new(at)?)
}

// Delays come first, are set later than others, are cancelled, and are due at one time.
#[test]
fn each_delay_comes_first_in_turn(rt: HostRuntime) -> Result<(), Fail> {
    let mut timers = Timers::with_capacity(rt.alloc(), 4)?;
    for (delay, due, next) in [
        (2, 50, 50),
        (0, 70, 50),
        (3, 20, 20),
        (3, 60, 50),
        (1, 10, 10),
        (1, 0, 50),
        (2, 0, 60),
        (0, 60, 60),
        (1, 40, 40),
    ] {
        if delay < 4 {
            change(&mut timers, delay, due);
        }
        assert!(rt; timers.next() == Time::new(next));
    }
    for (at, delay) in [
        (50, None),
        (60, Some(0)),
        (40, Some(1)),
        (40, None),
        (60, Some(3)),
        (60, None),
    ] {
        assert!(rt; taken(&mut timers, at) == delay);
    }
    change(&mut timers, 3, 80);
    assert!(rt; timers.next() == Time::new(80));
    Ok(())
}
