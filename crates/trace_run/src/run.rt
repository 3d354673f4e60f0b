// A run over a trace, by the code of a system.

ghost use Rattle.std.specs.Prelude.{◌≡◌, ◌<◌, ◌≤◌, false, true, length, IfOk, OnOk, IsErrOf};
ghost use Rattle.compiled_meaning.specs.inner.Ready.{IsReady};
ghost use Rattle.trace_monitor.specs.inner.Snapshot.{code_of};
ghost use Rattle.trace_monitor.specs.inner.Waits.{Waits};
ghost use Rattle.trace_reader.specs.declared.limits.TheConstants.{MOST_PIECE_BYTES};
ghost use Rattle.tsl_value.specs.declared.limits.TheConstants.{MOST_INSTANTS};
ghost use Rattle.tsl_world.specs.Standing.{is_open, with_slot};
ghost use Rattle.tsl_world.specs.Runs.{Grows};
ghost use Rattle.tsl_world.specs.World.{RoseBy};
ghost use Rattle.trace_run.specs.Effects.{CodeEnds, IsMonitorOf, IsStateOf, LeavesSome, RunsCode};
ghost use Rattle.trace_run.specs.inner.Told.{ComesTo, IsToldOf};
ghost use Rattle.trace_run.specs.Starts.{CanStart, most_bytes};

use crate::start::Start;
use crate::statistics::statistics_of;
use crate::watch::watch;
use register_code::code::Code;
use std::alloc::Global;
use trace_monitor::ending::RunEnding;
use trace_monitor::monitor::TraceMonitor;
use trace_monitor::save::saved;
use tsl_value::bytes::Bytes;
use tsl_value::memory::NoMemory;
use tsl_world::{Broken, Slot, World};

/// How a run over a trace ended, what is told of its updates, and what is left of it.
#[derive(Drop)]
pub struct Ran {
    pub ending: RunEnding,
    /// The statistics, where they are asked for. Else no bytes.
    pub statistics: Bytes,
    /// The bytes of the state, where they are asked for and all was done.
    pub state: Option<Bytes>,
}

/// How many bytes of its trace a run takes at most.
fn limit_of(start: &Start) -> u64
    ensures { result ≡ most_bytes start.now }
{
    match start {
        Start::Anew(options) => options.bytes,
        Start::Resumed { state, .. } => state.bytes_limit,
    }
}

/// The monitor of a run that begins so.
fn monitor_of<'c>(alloc: Global, code: &'c Code, start: Start) -> Result<TraceMonitor<'c>, NoMemory>
    requires ready { IsReady code.now.system }
    requires starts { CanStart code.now start }
    ensures { IfOk result (IsMonitorOf code.now start) }
{
    match start {
        Start::Anew(options) => TraceMonitor::new(alloc, code, options),
        Start::Resumed { until, state } => TraceMonitor::from_state(alloc, code, until, state),
    }
}

/// The bytes of the state of a run that ended so, where they are asked for.
fn state_of(
    alloc: Global,
    code: &Code,
    monitor: &TraceMonitor<'_>,
    saves: bool,
    ending: &RunEnding,
) -> Result<Option<Bytes>, NoMemory>
    requires waits { saves ≡ true → ending.now ≡ RunEnding.Done → Waits monitor.now }
    requires few { monitor.now.options.instants ≤ MOST_INSTANTS }
    requires code { code_of monitor.now ≡ code.now }
    ensures { IfOk result (λ left. LeavesSome (IsStateOf code.now monitor.now) saves ending.now left) }
{
    if !saves {
        return Ok(None);
    }
    match ending {
        RunEnding::Done => Ok(Some(saved(alloc, code, monitor)?)),
        _ => Ok(None),
    }
}

/// What is told and left of a run that ended so.
fn ran_of(
    alloc: Global,
    code: &Code,
    monitor: &TraceMonitor<'_>,
    ending: RunEnding,
    saves: bool,
    with_statistics: bool,
) -> Result<Ran, NoMemory>
    requires waits { saves ≡ true → ending ≡ RunEnding.Done → Waits monitor.now }
    requires few { monitor.now.options.instants ≤ MOST_INSTANTS }
    requires code { code_of monitor.now ≡ code.now }
    requires engine { monitor.now.engine.system ≡ code.now.system }
    ensures { IfOk result (IsToldOf code.now monitor.now saves with_statistics ending) }
{
    let state = state_of(alloc, code, monitor, saves, &ending)?;
    let statistics = statistics_of(alloc, code.flat(), monitor, with_statistics)?;
    Ok(Ran {
        ending,
        statistics,
        state,
    })
}

/// Lets a monitor go. It has no drop of its own, so where it is dropped each part of it is a step: here, where nothing else is known.
fn let_go(_monitor: TraceMonitor<'_>) {}

/// Opens the trace of this name and gives it to the monitor of a run.
fn follow<W: World>(
    alloc: Global,
    world: &mut W,
    code: &Code,
    monitor: &mut TraceMonitor<'_>,
    trace: &str,
    limit: u64,
    saves: bool,
    with_statistics: bool,
    buf: &mut [u8],
) -> Result<Ran, Broken>
    requires room { 0 < length buf.old }
    requires short { length buf.old ≤ MOST_PIECE_BYTES }
    requires stands { is_open (W.standing world.old) Slot.Trace ≡ false }
    requires ready { IsReady code.now.system }
    requires begun { (start : Start) × IsMonitorOf code.now start monitor.old }
    requires limit { limit ≡ monitor.old.options.bytes }
    ensures ok { OnOk result (W.faults world.new ≡ W.faults world.old) }
    ensures outside { IsErrOf result Broken.Outside → RoseBy 1 (W.faults world.old) (W.faults world.new) }
    ensures memory { IsErrOf result Broken.Memory → W.faults world.new ≡ W.faults world.old }
    ensures heard { W.unheard world.new ≡ W.unheard world.old }
    ensures standing { OnOk result (W.standing world.new ≡ with_slot (W.standing world.old) Slot.Trace) }
    ensures calls { (start : Start) → IsMonitorOf code.now start monitor.old → Grows W.told W.journal world.old world.new
        (ComesTo trace.now code.now start saves with_statistics result) }
{
    world.open(Slot::Trace, trace)?;
    let ending = watch(alloc, world, monitor, limit, !saves, buf)?;
    let ran = ran_of(alloc, code, monitor, ending, saves, with_statistics)?;
    Ok(ran)
}

/// Opens the trace of this name and monitors it by the code of a system, with statistics or without. Where the run saves its state, the
/// end of the trace is not told: the trace goes on in a later run.
pub fn run_code<W: World>(
    alloc: Global,
    world: &mut W,
    code: &Code,
    trace: &str,
    start: Start,
    saves: bool,
    with_statistics: bool,
    buf: &mut [u8],
) -> Result<Ran, Broken>
    requires room { 0 < length buf.old }
    requires short { length buf.old ≤ MOST_PIECE_BYTES }
    requires stands { is_open (W.standing world.old) Slot.Trace ≡ false }
    requires ready { IsReady code.now.system }
    requires starts { CanStart code.now start }
    ensures ok { OnOk result (W.faults world.new ≡ W.faults world.old) }
    ensures outside { IsErrOf result Broken.Outside → RoseBy 1 (W.faults world.old) (W.faults world.new) }
    ensures memory { IsErrOf result Broken.Memory → W.faults world.new ≡ W.faults world.old }
    ensures heard { W.unheard world.new ≡ W.unheard world.old }
    ensures standing { OnOk result (W.standing world.new ≡ with_slot (W.standing world.old) Slot.Trace) }
    ensures calls { Grows W.told W.journal world.old world.new (RunsCode trace.now code.now start saves) }
    ensures ending { IfOk result (λ ran. Grows W.told W.journal world.old world.new
        (CodeEnds trace.now code.now start saves with_statistics ran)) }
{
    let limit = limit_of(&start);
    let mut monitor = monitor_of(alloc, code, start)?;
    let ran = follow(
        alloc,
        world,
        code,
        &mut monitor,
        trace,
        limit,
        saves,
        with_statistics,
        buf,
    );
    let_go(monitor);
    ran
}
