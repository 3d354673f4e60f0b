// Why an output has an event.

ghost use Rattle.std.specs.Prelude.{◌<◌, ℕ, suc, length, IfOk, IsTrue};
ghost use Rattle.flat_core.specs.Case.{Streams};
ghost use Rattle.flat_core.specs.Events.{Inputs};
ghost use Rattle.flat_core.specs.Line.{IsSorted, inputs_of};
ghost use Rattle.flat_core.specs.Solution.{Solves};
ghost use Rattle.flat_core.specs.Stream.{event};
ghost use Rattle.flat_core.specs.System.{runs};
ghost use Rattle.flat_core.specs.WellFormed.{IsWellFormed};
ghost use Rattle.flat_core.specs.inner.TypedLines.{AreTypedLines};
ghost use Rattle.event_why.specs.declared.instants.Story.{Story as ViewedStory};
ghost use Rattle.event_why.specs.Explained.{IsExplained};
ghost use Rattle.event_why.specs.inner.Course.{IsSetting, IsTold};
ghost use Rattle.event_why.specs.inner.Found.{IsEventNumber, Knows};

use crate::course::{Course, put_all};
use crate::draft::Draft;
use crate::explained::Explained;
use crate::fact::Why;
use crate::instants::{Story, kept_by_lasts};
use crate::prune::grounds_of;
use crate::sliced::{order_of, sliced};
use flat_core::flat::Flat;
use flat_core::line::TraceLine;
use std::alloc::Global;
use tsl_value::ids::EqId;
use tsl_value::memory::NoMemory;
use tsl_value::time::Time;

/// The number of the event that an equation has at a time, where all that happens up to it is told.
fn event_number(draft: &Draft, i: EqId, until: u64, time: Time) -> Option<u64>
    ensures { (story : ViewedStory) (p : Inputs) (z : Streams)
        → IsTold story p z (suc time) until draft.now
        → IsTrue (runs story.flat.now i)
        → IsEventNumber draft.now.steps.items i time (event (z i time)) result }
{
    if until == time.get() + 1 && draft.has_event(i) {
        draft.here.get(i)
    } else {
        None
    }
}

/// What is known of an equation at a time, where all that happens up to it is told.
fn known_by(
    alloc: Global,
    draft: Draft,
    i: EqId,
    until: u64,
    time: Time,
) -> Result<Explained, NoMemory>
    ensures { IfOk result (λ answer. (story : ViewedStory) (p : Inputs) (z : Streams)
        → IsTold story p z (suc time) until draft
        → IsTrue (runs story.flat.now i)
        → Knows story.flat.now p z i time answer) }
{
    match event_number(&draft, i, until, time) {
        Some(number) => {
            let Draft { steps, .. } = draft;
            Ok(Explained::Why(Why {
                steps: grounds_of(alloc, steps, number)?,
            }))
        }
        None => Ok(Explained::NoEvent),
    }
}

/// What is known of an equation at a time.
fn known_at(
    alloc: Global,
    story: &Story,
    lines: &[TraceLine],
    i: EqId,
    time: Time,
) -> Result<Explained, NoMemory>
    requires setting { IsSetting story.now lines.now }
    requires run { IsTrue (runs story.now.flat.now i) }
    ensures { IfOk result (λ answer. (z : Streams)
        → Solves story.now.flat.now (inputs_of lines.now) (suc time) z
        → Knows story.now.flat.now (inputs_of lines.now) z i time answer) }
{
    let mut draft = Draft::new(alloc, story.flat.count())?;
    match put_all(alloc, &mut draft, story, lines, time.get() + 1)? {
        Course::Over { until } => known_by(alloc, draft, i, until, time),
        Course::Fault {
            time: first,
            equation,
            kind,
        } => Ok(Explained::Fault {
            time: first,
            equation,
            kind,
        }),
    }
}

/// What is known of the output with this number, counted from 0, at a time, for the events that the lines have.
///
/// `NoEvent` comes exactly where it has no event then, and `Fault` exactly where something on which it can depend has a root fault up to
/// then, with the fault that is named of that alone. Else the answer is a derivation that `check_why` accepts and whose last fact is the
/// event.
pub fn explain(
    alloc: Global,
    flat: &Flat,
    lines: &[TraceLine],
    output: u32,
    time: Time,
) -> Result<Explained, NoMemory>
    requires there { output < length flat.now.outputs }
    requires well_formed { IsWellFormed flat.now }
    requires sorted { IsSorted lines.now }
    requires typed { AreTypedLines flat.now lines.now }
    ensures { IfOk result (IsExplained flat.now (inputs_of lines.now) output time) }
{
    let alone = sliced(alloc, flat, output)?;
    let order = order_of(alloc, &alone)?;
    let kept = kept_by_lasts(alloc, &alone)?;
    let story = Story {
        flat: &alone,
        order: &order,
        kept: &kept,
    };
    flat.assert_whole();
    alone.assert_whole();
    known_at(alloc, &story, lines, alone.outputs()[0].equation, time)
}
