// The loop over the trace.

ghost use Rattle.std.specs.Prelude.{◌≡◌, ◌<◌, ◌≤◌, false, true, length, IfOk, OnOk, IsErrOf};
ghost use Rattle.compiled_meaning.specs.inner.Ready.{IsReady};
ghost use Rattle.trace_monitor.specs.inner.Waits.{Waits};
ghost use Rattle.tsl_world.specs.Standing.{is_open};
ghost use Rattle.tsl_world.specs.World.{RoseBy};
ghost use Rattle.tsl_world.specs.Runs.{Runs};
ghost use Rattle.trace_run.specs.inner.Round.{GoesTo, HasTaken, HasTurned, IsLeft, Passes, Turns};
ghost use Rattle.trace_reader.specs.declared.limits.TheConstants.{MOST_PIECE_BYTES};
ghost use Rattle.tsl_value.specs.declared.limits.TheConstants.{MOST_TRACE_BYTES};

use crate::write::write_all;
use std::alloc::Global;
use trace_monitor::ending::RunEnding;
use trace_monitor::monitor::TraceMonitor;
use tsl_value::bytes::Bytes;
use tsl_world::{Broken, Channel, Slot, World};

/// Gives a piece of the trace to the monitor, or its end, and writes what that adds. `text` is room for it. The answer is how the run ends,
/// if it does.
fn pass<W: World>(
    world: &mut W,
    monitor: &mut TraceMonitor<'_>,
    piece: &[u8],
    text: &mut Bytes,
) -> Result<Option<RunEnding>, Broken>
    requires waits { Waits monitor.old }
    requires short { length piece.now ≤ MOST_PIECE_BYTES }
    ensures ok { OnOk result (W.faults world.new ≡ W.faults world.old) }
    ensures outside { IsErrOf result Broken.Outside → RoseBy 1 (W.faults world.old) (W.faults world.new) }
    ensures memory { IsErrOf result Broken.Memory → W.faults world.new ≡ W.faults world.old }
    ensures heard { W.unheard world.new ≡ W.unheard world.old }
    ensures taken { IfOk result (HasTaken monitor.old monitor.new piece.now) }
    ensures calls { Runs W.told W.journal W.standing world.old world.new (Passes monitor.old monitor.new piece.now result) }
{
    let next = monitor.advance(piece, text)?;
    write_all(world, Channel::Out, text.as_slice())?;
    Ok(next)
}

/// Reads a piece of the trace, gives it to the monitor, and writes what that adds. The answer is how the run ends, if it does.
fn round<W: World>(
    world: &mut W,
    monitor: &mut TraceMonitor<'_>,
    tells_end: bool,
    text: &mut Bytes,
    buf: &mut [u8],
) -> Result<Option<RunEnding>, Broken>
    requires room { 0 < length buf.old }
    requires short { length buf.old ≤ MOST_PIECE_BYTES }
    requires stands { is_open (W.standing world.old) Slot.Trace ≡ true }
    requires waits { Waits monitor.old }
    ensures ok { OnOk result (W.faults world.new ≡ W.faults world.old) }
    ensures outside { IsErrOf result Broken.Outside → RoseBy 1 (W.faults world.old) (W.faults world.new) }
    ensures memory { IsErrOf result Broken.Memory → W.faults world.new ≡ W.faults world.old }
    ensures heard { W.unheard world.new ≡ W.unheard world.old }
    ensures turned { IfOk result (HasTurned monitor.old monitor.new tells_end) }
    ensures calls { Runs W.told W.journal W.standing world.old world.new (Turns monitor.old monitor.new tells_end result) }
{
    let count = world.read(Slot::Trace, buf)?;
    if count == 0 && !tells_end {
        // What it answers is not needed: its contract says what the engine has counted of the bytes so far.
        monitor.instants();
        return Ok(Some(RunEnding::Done));
    }
    pass(world, monitor, &buf[..count], text)
}

/// Reads the trace until the run ends, and writes what is due before each further read. `limit` is how many bytes of the trace the
/// monitor takes at most. Where `tells_end` is false, the end of the trace is not told to the monitor, which may then be asked for its
/// state.
pub fn watch<W: World>(
    alloc: Global,
    world: &mut W,
    monitor: &mut TraceMonitor<'_>,
    limit: u64,
    tells_end: bool,
    buf: &mut [u8],
) -> Result<RunEnding, Broken>
    requires room { 0 < length buf.old }
    requires short { length buf.old ≤ MOST_PIECE_BYTES }
    requires stands { is_open (W.standing world.old) Slot.Trace ≡ true }
    requires ready { IsReady monitor.old.system }
    requires waits { Waits monitor.old }
    requires limit { limit ≡ monitor.old.options.bytes }
    requires few { limit ≤ MOST_TRACE_BYTES }
    ensures ok { OnOk result (W.faults world.new ≡ W.faults world.old) }
    ensures outside { IsErrOf result Broken.Outside → RoseBy 1 (W.faults world.old) (W.faults world.new) }
    ensures memory { IsErrOf result Broken.Memory → W.faults world.new ≡ W.faults world.old }
    ensures heard { W.unheard world.new ≡ W.unheard world.old }
    ensures left { IfOk result (IsLeft monitor.old monitor.new tells_end) }
    ensures calls { Runs W.told W.journal W.standing world.old world.new (GoesTo monitor.old monitor.new tells_end result) }
{
    let mut text = Bytes::new(alloc);
    // Each round but the last one takes a byte at least, and no run goes on after more than the limit.
    for _ in 0..limit + 1 {
        let next = round(world, monitor, tells_end, &mut text, buf)?;
        if let Some(ending) = next {
            return Ok(ending);
        }
    }
    unreachable!()
}
