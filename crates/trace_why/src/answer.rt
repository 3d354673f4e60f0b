// What is answered about lines.

ghost use Rattle.std.specs.Prelude.{◌≡◌, ◌<◌, length, IfOk};
ghost use Rattle.event_why.specs.Text.{steps_text};
ghost use Rattle.flat_core.specs.Line.{IsSorted};
ghost use Rattle.flat_core.specs.WellFormed.{IsWellFormed};
ghost use Rattle.flat_core.specs.inner.TypedLines.{AreTypedLines};
ghost use Rattle.trace_why.specs.inner.Lines.{IsCalm, IsTold};

use crate::ending::WhyEnding;
use crate::question::Question;
use event_why::explain::explain;
use event_why::explained::Explained;
use event_why::fact::Why;
use event_why::print::print_why;
use flat_core::flat::Flat;
use flat_core::line::TraceLine;
use std::alloc::Global;
use tsl_value::bytes::Bytes;
use tsl_value::memory::NoMemory;

/// The text of a derivation.
fn text_of(alloc: Global, flat: &Flat, why: &Why) -> Result<Bytes, NoMemory>
    ensures { IfOk result (λ text. text ≡ steps_text flat.now 0 why.now.steps.items) }
{
    let mut text = Bytes::new(alloc);
    print_why(flat, why, &mut text)?;
    Ok(text)
}

/// What the output that is asked for has at the time: a derivation of its event, or no event. Nothing has a fault up to then.
pub(crate) fn answer(
    alloc: Global,
    flat: &Flat,
    lines: &[TraceLine],
    question: Question,
) -> Result<WhyEnding, NoMemory>
    requires there { question.output < length flat.now.outputs }
    requires well_formed { IsWellFormed flat.now }
    requires sorted { IsSorted lines.now }
    requires typed { AreTypedLines flat.now lines.now }
    requires calm { IsCalm flat.now lines.now question.time }
    ensures { IfOk result (IsTold flat.now lines.now question) }
{
    flat.assert_whole();
    match explain(alloc, flat, lines, question.output, question.time)? {
        Explained::Why(why) => Ok(WhyEnding::Text(text_of(alloc, flat, &why)?)),
        Explained::NoEvent => Ok(WhyEnding::NoEvent),
        Explained::Fault { .. } => unreachable!(),
    }
}
