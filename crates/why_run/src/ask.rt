// A question that is asked of a trace of the outside.

ghost use Rattle.std.specs.Prelude.{◌≡◌, ◌<◌, ◌≤◌, ◌^◌, [], false, true, length, IfOk, OnOk, IsErrOf};
ghost use Rattle.compiled_meaning.specs.inner.Ready.{IsReady};
ghost use Rattle.trace_reader.specs.declared.limits.TheConstants.{MOST_PIECE_BYTES};
ghost use Rattle.trace_why.specs.inner.Kept.{Kept};
ghost use Rattle.tsl_world.specs.Standing.{is_open, with_slot};
ghost use Rattle.tsl_world.specs.Runs.{Grows, Runs};
ghost use Rattle.tsl_world.specs.World.{RoseBy};
ghost use Rattle.tsl_value.specs.declared.limits.TheConstants.{MOST_TRACE_BYTES};
ghost use Rattle.why_run.specs.Effects.{Asks, AskEnds, AsksTrace, HasAsked};

use register_code::code::Code;
use std::alloc::Global;
use trace_monitor::options::Options;
use trace_why::ending::WhyEnding;
use trace_why::monitor::WhyMonitor;
use trace_why::question::Question;
use tsl_world::{Broken, Slot, World};

/// Reads the trace until the question has its ending.
fn read_on<W: World>(
    world: &mut W,
    monitor: &mut WhyMonitor<'_>,
    limit: u64,
    buf: &mut [u8],
) -> Result<WhyEnding, Broken>
    requires room { 0 < length buf.old }
    requires short { length buf.old ≤ MOST_PIECE_BYTES }
    requires stands { is_open (W.standing world.old) Slot.Trace ≡ true }
    requires ready { IsReady monitor.old.system }
    requires kept { Kept monitor.old [] }
    requires limit { limit ≡ monitor.old.options.bytes }
    requires few { limit ≤ MOST_TRACE_BYTES }
    ensures ok { OnOk result (W.faults world.new ≡ W.faults world.old) }
    ensures outside { IsErrOf result Broken.Outside → RoseBy 1 (W.faults world.old) (W.faults world.new) }
    ensures memory { IsErrOf result Broken.Memory → W.faults world.new ≡ W.faults world.old }
    ensures heard { W.unheard world.new ≡ W.unheard world.old }
    ensures calls { Runs W.told W.journal W.standing world.old world.new
        (Asks monitor.old.system monitor.old.options monitor.old.question) }
    ensures ending { IfOk result (λ by. Runs W.told W.journal W.standing world.old world.new
        (HasAsked monitor.old.system monitor.old.options monitor.old.question by)) }
{
    // Each round but the last one takes a byte at least, and no question awaits more after more than the limit.
    for _ in 0..limit + 1 {
        let count = world.read(Slot::Trace, buf)?;
        if let Some(by) = monitor.advance(&buf[..count])? {
            return Ok(by);
        }
    }
    unreachable!()
}

/// Opens the trace of this name, and reads it until the question has its ending. The code is that of the system which is asked.
pub fn ask<W: World>(
    alloc: Global,
    world: &mut W,
    code: &Code,
    trace: &str,
    options: Options,
    question: Question,
    buf: &mut [u8],
) -> Result<WhyEnding, Broken>
    requires room { 0 < length buf.old }
    requires short { length buf.old ≤ MOST_PIECE_BYTES }
    requires stands { is_open (W.standing world.old) Slot.Trace ≡ false }
    requires ready { IsReady code.now.system }
    requires there { question.output < length code.now.system.outputs }
    requires some { 1 ≤ options.bytes }
    requires few { options.bytes ≤ MOST_TRACE_BYTES }
    requires instants { 1 ≤ options.instants }
    requires until { options.until < 2 ^ 63 }
    ensures ok { OnOk result (W.faults world.new ≡ W.faults world.old) }
    ensures outside { IsErrOf result Broken.Outside → RoseBy 1 (W.faults world.old) (W.faults world.new) }
    ensures memory { IsErrOf result Broken.Memory → W.faults world.new ≡ W.faults world.old }
    ensures heard { W.unheard world.new ≡ W.unheard world.old }
    ensures standing { OnOk result (W.standing world.new ≡ with_slot (W.standing world.old) Slot.Trace) }
    ensures calls { Grows W.told W.journal world.old world.new (AsksTrace trace.now code.now.system options question) }
    ensures ending { IfOk result (λ by. Grows W.told W.journal world.old world.new
        (AskEnds trace.now code.now.system options question by)) }
{
    let mut monitor = WhyMonitor::new(alloc, code, options, question)?;
    world.open(Slot::Trace, trace)?;
    read_on(world, &mut monitor, options.bytes, buf)
}
