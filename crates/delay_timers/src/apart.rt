// The delay that is due first, apart from the others.

ghost use Rattle.std.specs.Prelude.{◌≡◌, ◌<◌, IfNone, IfSome, IsTrue, MatchOption};
ghost use Rattle.std.specs.FinMap as map;
ghost use Rattle.delay_timers.specs.inner.Pending.{AreBelowCapacity, NoneIsDueAt, IsLeastDueAt};
ghost use Rattle.delay_timers.specs.inner.Tournament.{IsBeforeAll};
ghost use Rattle.delay_timers.specs.inner.Apart.{IsArranged, StandsApart, other_than};

use crate::tournament::Tournament;
use crate::tree::{Due, comes_first};
use tsl_value::time::Time;

/// The one that stands apart, unless it is this delay.
pub fn other_than(first: Option<Due>, delay: u32) -> Option<Due>
    ensures { result ≡ other_than first delay }
{
    match first {
        Some(due) => { if due.delay == delay { None } else { Some(due) } }
        None => None,
    }
}

/// None of the others comes before it.
fn is_before_all(due: &Due, others: &Tournament) -> bool
    ensures { IsTrue result → IsBeforeAll due.now others.now.times }
{
    match others.first() {
        Some(first) => comes_first(due, &first),
        None => true,
    }
}

/// Lets a delay be due at a time and at no other. Answers the one that stands apart from now on.
pub fn arrange(first: Option<Due>, others: &mut Tournament, due: Due) -> Option<Due>
    requires stands { StandsApart first others.old }
    requires there { due.delay < others.old.capacity }
    ensures { IsArranged first others.old due result others.new }
{
    match other_than(first, due.delay) {
        Some(other) => {
            if comes_first(&other, &due) {
                others.set(due.delay, due.time);
                Some(other)
            } else {
                others.cancel(due.delay);
                others.set(other.delay, other.time);
                Some(due)
            }
        }
        None => {
            if is_before_all(&due, others) {
                others.cancel(due.delay);
                Some(due)
            } else {
                others.set(due.delay, due.time);
                None
            }
        }
    }
}

/// Takes out the least of the others that is due at just this time. The flag says that there are none.
pub fn take_other(others: &mut Tournament, is_clear: &mut bool, at: Time) -> Option<u32>
    requires clear { IsTrue is_clear.old → others.old.times ≡ map.empty }
    requires bounded { AreBelowCapacity others.old }
    ensures due { MatchOption result (NoneIsDueAt others.old.times at) (IsLeastDueAt others.old.times at) }
    ensures taken { IfSome result (λ delay. others.new ≡ record others.old { times = map.remove others.old.times delay }) }
    ensures none { IfNone result (others.new ≡ others.old) }
    ensures below { IfSome result (λ delay. delay < others.old.capacity) }
    ensures clear { IsTrue is_clear.new → others.new.times ≡ map.empty }
    ensures bounded { AreBelowCapacity others.new }
{
    if *is_clear {
        return None;
    }
    let taken = others.take_due(at);
    *is_clear = others.is_empty();
    taken
}
