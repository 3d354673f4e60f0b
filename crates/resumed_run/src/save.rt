// Runs that are saved as bytes, and go on from these.

ghost use Rattle.std.specs.Prelude.{◌≡◌, ◌≤◌, ◌<◌, ◌^◌, ℕ, List, [], length, IfOk, Err};
ghost use Rattle.tsl_value.specs.declared.limits.TheConstants.{MOST_INSTANTS, MOST_TRACE_BYTES};
ghost use Rattle.trace_reader.specs.declared.limits.TheConstants.{MOST_PIECE_BYTES};
ghost use Rattle.run_state.specs.Fits.{FitsRun};
ghost use Rattle.run_state.specs.Spelling.{IsOfOther};
ghost use Rattle.run_state.specs.declared.state.RunState.{RunState};
ghost use Rattle.trace_monitor.specs.declared.options.Options.{Options};
ghost use Rattle.trace_monitor.specs.Saved.{IsRunAfter, IsSavedAs, SpellsState};
ghost use Rattle.trace_monitor.specs.inner.Kept.{Kept};
ghost use Rattle.trace_monitor.specs.inner.Snapshot.{code_of};
ghost use Rattle.trace_monitor.specs.inner.Waits.{Waits};
ghost use Rattle.resumed_run.specs.Part.{IsPart, LeavesState};

use crate::part::{After, Part};
use register_code::code::Code;
use run_state::state::RunState;
use state_snapshot::fault::StateFault;
use state_snapshot::read::read_state;
use std::alloc::Global;
use trace_monitor::monitor::TraceMonitor;
use trace_monitor::options::Options;
use trace_monitor::save::saved;
use tsl_value::bytes::Bytes;
use tsl_value::memory::NoMemory;

/// What a monitor makes of a piece, or of the end, which is an empty piece.
fn part_of(
    alloc: Global,
    code: &Code,
    monitor: &mut TraceMonitor<'_>,
    piece: &[u8],
) -> Result<Part, NoMemory>
    requires waits { Waits monitor.old }
    requires few { monitor.old.options.instants ≤ MOST_INSTANTS }
    requires code { code_of monitor.old ≡ code.now }
    requires short { length piece.now ≤ MOST_PIECE_BYTES }
    ensures leaves { IfOk result (LeavesState code.now) }
    ensures part { IfOk result (λ part. (fed : List ℕ)
        → Kept monitor.old fed
        → IsPart code.now monitor.old.options fed piece.now part) }
{
    let mut text = Bytes::new(alloc);
    match monitor.advance(piece, &mut text)? {
        Some(ending) => Ok(Part {
            text,
            after: After::Ends(ending),
        }),
        None => {
            let state = saved(alloc, code, monitor)?;
            Ok(Part {
                text,
                after: After::GoesOn(state),
            })
        }
    }
}

/// What a run that goes on from a state makes of a piece, or of the end.
fn gone_on(
    alloc: Global,
    code: &Code,
    until: u64,
    state: RunState,
    piece: &[u8],
) -> Result<Part, NoMemory>
    requires fits { FitsRun code.now.system state }
    requires until { until < 2 ^ 63 }
    requires short { length piece.now ≤ MOST_PIECE_BYTES }
    ensures leaves { IfOk result (LeavesState code.now) }
    ensures part { IfOk result (λ part. (o : Options) (earlier : List ℕ)
        → o.until ≡ until
        → IsRunAfter code.now o earlier state
        → IsPart code.now o earlier piece.now part) }
{
    let mut monitor = TraceMonitor::from_state(alloc, code, until, state)?;
    part_of(alloc, code, &mut monitor, piece)
}

/// The bytes of the state of a run of which nothing was taken.
pub fn begun(alloc: Global, code: &Code, options: Options) -> Result<Bytes, NoMemory>
    requires some { 1 ≤ options.bytes }
    requires few { options.bytes ≤ MOST_TRACE_BYTES }
    requires some_instants { 1 ≤ options.instants }
    requires few_instants { options.instants ≤ MOST_INSTANTS }
    requires until { options.until < 2 ^ 63 }
    ensures { IfOk result (IsSavedAs code.now options []) }
{
    let monitor = TraceMonitor::new(alloc, code, options)?;
    saved(alloc, code, &monitor)
}

/// What a run makes of a piece, or of the end, which is an empty piece, that goes on from the state of these bytes. It ends within the
/// limits that the state has, and closes the times up to `until` at the end.
pub fn resumed(
    alloc: Global,
    code: &Code,
    until: u64,
    bytes: &[u8],
    piece: &[u8],
) -> Result<Part, StateFault>
    requires until { until < 2 ^ 63 }
    requires short { length piece.now ≤ MOST_PIECE_BYTES }
    ensures found { IfOk result (λ _. SpellsState code.now bytes.now) }
    ensures leaves { IfOk result (LeavesState code.now) }
    ensures part { IfOk result (λ part. (o : Options) (earlier : List ℕ)
        → o.until ≡ until
        → IsSavedAs code.now o earlier bytes.now
        → IsPart code.now o earlier piece.now part) }
    ensures other { result ≡ Err StateFault.OtherProgram → IsOfOther code.now bytes.now }
    ensures wrong { result ≡ Err StateFault.WrongForm → ¬ (IsOfOther code.now bytes.now) × ¬ (SpellsState code.now bytes.now) }
{
    code.assert_whole();
    let state = read_state(alloc, bytes, code)?;
    Ok(gone_on(alloc, code, until, state, piece)?)
}
