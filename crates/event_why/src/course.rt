// The instants of a slice, told one after the other. Nothing is kept of those before but the draft.

ghost use Rattle.std.specs.Prelude.{◌≡◌, ◌≤◌, ◌^◌, ℕ, suc, IfOk, MatchOption, length};
ghost use Rattle.flat_core.specs.Case.{Streams};
ghost use Rattle.flat_core.specs.Events.{Inputs};
ghost use Rattle.flat_core.specs.Line.{inputs_of};
ghost use Rattle.flat_core.specs.Solution.{Solves};
ghost use Rattle.event_why.specs.inner.Course.{ComesNext, GoesOn, IsSetting, Runs};
ghost use Rattle.event_why.specs.inner.Drafted.{IsBlank};
ghost use Rattle.event_why.specs.inner.Row.{IsRow};
ghost use Rattle.event_why.specs.inner.Tale.{IsCalm, IsOver, IsStory, IsUpTo, tale_of};

use crate::draft::Draft;
use crate::instants::{Story, put_gap, put_instant, settle};
use crate::next::{next_instant, place_from};
use crate::prune::prune_if_large;
use crate::row::{root_in, run_row};
use crate::waits::put_all_pending;
use flat_core::line::TraceLine;
use lift_func::fault::FaultKind;
use plain_solver::events::Outcome;
use std::alloc::Global;
use tsl_value::ids::EqId;
use tsl_value::memory::NoMemory;
use tsl_value::time::Time;

/// How the instants went.
#[derive(Clone, Copy)]
pub(crate) enum Course {
    /// None has a fault, and all are before this time.
    Over {
        until: u64,
    },
    /// The first fault, and of those at its time the one of the least number.
    Fault {
        time: Time,
        equation: EqId,
        kind: FaultKind,
    },
}

/// The times from one on and before another, if there are any.
fn between(next: u64, t: Time) -> Option<(Time, Time)>
    ensures { MatchOption result (t ≤ next) (λ r. (r.0 ≡ next) × (suc r.1 ≡ t) × (r.0 ≤ r.1)) }
{
    if t.get() <= next {
        return None;
    }
    let from = Time::new(next)?;
    let to = Time::new(t.get() - 1)?;
    Some((from, to))
}

/// What happens from the time on that is told next, and before an instant.
fn put_before(
    alloc: Global,
    draft: &mut Draft,
    story: &Story,
    next: u64,
    t: Time,
) -> Result<(), NoMemory>
    ensures { IfOk result (λ _. (p : Inputs) (z : Streams) (bound : ℕ)
        → IsStory (tale_of story.now p z bound)
        → t ≤ bound
        → next ≤ t
        → (next ≡ 0 → t ≡ 0)
        → IsCalm (tale_of story.now p z bound) next t
        → IsUpTo (tale_of story.now p z bound) next draft.old
        → IsUpTo (tale_of story.now p z bound) t draft.new) }
{
    prune_if_large(alloc, draft)?;
    match between(next, t) {
        Some(times) => put_gap(alloc, draft, story, times.0, times.1),
        None => Ok(()),
    }
}

/// All that happens at an instant without a fault.
fn put_at(
    alloc: Global,
    draft: &mut Draft,
    story: &Story,
    row: &[Option<Outcome>],
    t: Time,
) -> Result<(), NoMemory>
    ensures { IfOk result (λ _. (p : Inputs) (z : Streams)
        → IsStory (tale_of story.now p z (suc t))
        → IsRow (tale_of story.now p z (suc t)) t row.now
        → IsUpTo (tale_of story.now p z (suc t)) t draft.old
        → IsOver (tale_of story.now p z (suc t)) t draft.new) }
{
    put_instant(alloc, draft, story, row, t)?;
    settle(alloc, draft, story)?;
    put_all_pending(alloc, draft, story.flat, t)
}

/// All that happens up to the next instant and at it, or its first root fault.
fn put_next(
    alloc: Global,
    draft: &mut Draft,
    story: &Story,
    lines: &[TraceLine],
    next: u64,
    t: Time,
) -> Result<Option<(EqId, FaultKind)>, NoMemory>
    requires setting { IsSetting story.now lines.now }
    requires comes { (z : Streams) × ComesNext story.now (inputs_of lines.now) z next t draft.old }
    ensures { IfOk result (λ root. (z : Streams)
        → ComesNext story.now (inputs_of lines.now) z next t draft.old
        → GoesOn story.now (inputs_of lines.now) z t draft.new root) }
{
    put_before(alloc, draft, story, next, t)?;
    let row = run_row(alloc, story.flat, story.order, draft, lines, t)?;
    let root = root_in(alloc, story.flat, &row, t)?;
    if root.is_none() {
        put_at(alloc, draft, story, &row, t)?;
    }
    Ok(root)
}

/// All that happens at the instants below a bound, and between them, up to the first fault.
pub(crate) fn put_all(
    alloc: Global,
    draft: &mut Draft,
    story: &Story,
    lines: &[TraceLine],
    bound: u64,
) -> Result<Course, NoMemory>
    requires setting { IsSetting story.now lines.now }
    requires small { bound ≤ 2 ^ 63 }
    requires blank { IsBlank (length story.now.flat.now.equations) draft.old }
    ensures { IfOk result (λ course. (z : Streams)
        → Solves story.now.flat.now (inputs_of lines.now) bound z
        → Runs story.now (inputs_of lines.now) z bound draft.new course) }
{
    let mut next = 0;
    let mut place = place_from(story.flat, lines, 0, 0);
    while let Some(t) = next_instant(story.flat, draft, lines, place, next, bound) {
        match put_next(alloc, draft, story, lines, next, t)? {
            Some(root) => {
                return Ok(Course::Fault {
                    time: t,
                    equation: root.0,
                    kind: root.1,
                });
            }
            None => {
                next = t.get() + 1;
                place = place_from(story.flat, lines, place, next);
            }
        }
    }
    Ok(Course::Over { until: next })
}
