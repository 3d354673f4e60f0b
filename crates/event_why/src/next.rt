// Which instant comes next, by what a draft tells.

ghost use Rattle.std.specs.Prelude.{◌↔◌, ◌≤◌, ◌^◌, IsTrue, ℕ};
ghost use Rattle.flat_core.specs.Line.{IsSorted, is_line_on};
ghost use Rattle.flat_core.specs.Pending.{option_is};
ghost use Rattle.flat_core.specs.System.{System};
ghost use Rattle.plain_solver.specs.inner.Lines.{IsLeast};
ghost use Rattle.plain_solver.specs.inner.Next.{IsFirst};
ghost use Rattle.event_why.specs.inner.Coming.{IsHeardFrom, IsPassed, IsPlaceFrom, is_due_on, is_next_by};
ghost use Rattle.event_why.specs.inner.Sliced.{heard};

use crate::draft::Draft;
use flat_core::flat::Flat;
use flat_core::line::TraceLine;
use tsl_value::ids::EqId;
use tsl_value::time::Time;

/// The line has an event of an equation that runs, at a time or later.
fn is_heard_from(flat: &Flat, line: &TraceLine, from: u64) -> bool
    ensures { IsTrue result ↔ IsHeardFrom flat.now from line.now }
{
    match &line.event {
        Some((i, _)) => line.time.get() >= from && flat.runs(*i),
        None => false,
    }
}

/// The place of the first line that has, if none before this place has, or the number of lines.
pub(crate) fn place_from(flat: &Flat, lines: &[TraceLine], place: usize, from: u64) -> usize
    requires { IsPassed flat.now from lines.now place }
    ensures { IsPlaceFrom flat.now from lines.now result }
{
    for k in place..lines.len() {
        if is_heard_from(flat, &lines[k], from) {
            return k;
        }
    }
    lines.len()
}

/// The time of the line at a place, if that comes before another, else that other time.
fn least_line(lines: &[TraceLine], place: usize, high: u64) -> u64
    requires { IsSorted lines.now }
    ensures { (s : System) (from : ℕ)
        → IsPlaceFrom s from lines.now place
        → IsLeast (λ u. is_line_on u (heard s lines.now)) from high result }
{
    if place >= lines.len() {
        return high;
    }
    let time = lines[place].time.get();
    if time < high { time } else { high }
}

/// A time that is there, if it is from one time on and before another, else that other time.
fn least_of(due: Option<Time>, low: u64, high: u64) -> u64
    ensures { IsLeast (λ u. option_is u due) low high result }
{
    match due {
        Some(u) => {
            let time = u.get();
            if low <= time && time < high {
                time
            } else {
                high
            }
        }
        None => high,
    }
}

/// The least time from one on and before another at which a delay is due, else that other time.
fn least_due(flat: &Flat, draft: &Draft, low: u64, high: u64) -> u64
    ensures { IsLeast (is_due_on flat.now draft.now) low high result }
{
    let mut least = high;
    for n in 0..flat.count() {
        let i = EqId::new(n);
        if flat.runs(i) {
            least = least_of(draft.due(i), low, least);
        }
    }
    least
}

/// The first instant from one time on and below a bound.
pub(crate) fn next_instant(
    flat: &Flat,
    draft: &Draft,
    lines: &[TraceLine],
    place: usize,
    from: u64,
    bound: u64,
) -> Option<Time>
    requires small { bound ≤ 2 ^ 63 }
    requires sorted { IsSorted lines.now }
    requires placed { IsPlaceFrom flat.now from lines.now place }
    ensures { IsFirst (is_next_by flat.now lines.now draft.now) from bound result }
{
    if from == 0 && from < bound {
        return Time::new(from);
    }
    let due = least_due(flat, draft, from, bound);
    let least = least_line(lines, place, due);
    if least < bound {
        Time::new(least)
    } else {
        None
    }
}
