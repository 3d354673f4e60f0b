// When the next instant comes.

ghost use Rattle.std.specs.Prelude.{◌≡◌, ℕ};
ghost use Rattle.monitor_run.specs.inner.Given.{AreAt};
ghost use Rattle.monitor_run.specs.inner.Next.{IsFirstTime, IsNextTime, earliest, time_if};

use delay_timers::timers::Timers;
use flat_core::line::TraceLine;
use tsl_value::time::Time;

/// The earlier of two times that may be there.
fn earlier(a: Option<Time>, b: Option<Time>) -> Option<Time>
    ensures { result ≡ earliest a b }
{
    match (a, b) {
        (Some(x), Some(y)) => { if y.get() < x.get() { b } else { a } }
        (Some(_), None) => a,
        (None, _) => b,
    }
}

/// The time of given events.
fn time_of(given: &[TraceLine]) -> Option<Time>
    ensures { (at : ℕ) → AreAt at given.now → result ≡ time_if at given.now }
{
    match given.first() {
        Some(line) => Some(line.time),
        None => None,
    }
}

/// When something comes first: time 0 where nothing has run, else the given events or a delay.
fn first_time(next: u64, given: &[TraceLine], timers: &Timers) -> Option<Time>
    requires { (at : ℕ) × AreAt at given.now }
    ensures { IsFirstTime next given.now timers.now.times result }
{
    if next == 0 {
        Time::new(0)
    } else {
        earlier(time_of(given), timers.next())
    }
}

/// The first instant below a bound, where all before `next` have run: time 0, that of the given events, or that of a delay.
pub(crate) fn next_below(
    next: u64,
    bound: u64,
    given: &[TraceLine],
    timers: &Timers,
) -> Option<Time>
    requires { (at : ℕ) × AreAt at given.now }
    ensures { IsNextTime next bound given.now timers.now.times result }
{
    match first_time(next, given, timers) {
        Some(time) => { if time.get() < bound { Some(time) } else { None } }
        None => None,
    }
}
