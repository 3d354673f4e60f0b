// The lines of a trace are gathered.

ghost use Rattle.std.specs.Prelude.{◌≡◌, ◌≢◌, ◌≤◌, ◌++◌, ℕ, Bool, List, false, length, OnOk};
ghost use Rattle.flat_core.specs.Line.{Line};
ghost use Rattle.flat_core.specs.System.{System};
ghost use Rattle.trace_monitor.specs.Next.{is_nothing};
ghost use Rattle.trace_reader.specs.declared.limits.TheConstants.{MOST_PIECE_BYTES};
ghost use Rattle.trace_reader.specs.inner.Reader.{AwaitsMore};
ghost use Rattle.trace_reader.specs.inner.Reads.{Reads};
ghost use Rattle.trace_why.specs.inner.Lines.{HasGathered};

use flat_core::line::TraceLine;
use trace_reader::fault::TraceFault;
use trace_reader::reader::TraceReader;
use tsl_value::memory::NoMemory;

/// Feeds a piece of the trace to the reader, or its end, which is an empty piece.
fn feed(reader: &mut TraceReader, piece: &[u8]) -> Result<(), NoMemory>
    requires awaits { AwaitsMore reader.old }
    requires short { length piece.now ≤ MOST_PIECE_BYTES }
    ensures { OnOk result ((s : System) (strict : Bool) (limit : ℕ) (fed : List ℕ) (given : List Line)
        → Reads reader.old s strict limit fed given false
        → Reads reader.new s strict limit (fed ++ piece.now) given (is_nothing piece.now)) }
{
    if piece.is_empty() {
        reader.finish();
    } else {
        reader.feed(piece)?;
    }
    Ok(())
}

/// Out of memory, where a fault says so.
fn unless_memory(fault: TraceFault) -> Result<(), NoMemory>
    ensures { OnOk result (fault ≢ TraceFault.Memory) }
{
    match fault {
        TraceFault::Memory => Err(NoMemory),
        _ => Ok(()),
    }
}

/// Takes a piece of the trace, or its end, which is an empty piece, and appends the lines that it makes whole. A line that is refused
/// stays with the reader.
pub(crate) fn gather(
    reader: &mut TraceReader,
    lines: &mut Vec<TraceLine>,
    piece: &[u8],
) -> Result<(), NoMemory>
    requires awaits { AwaitsMore reader.old }
    requires short { length piece.now ≤ MOST_PIECE_BYTES }
    ensures { OnOk result ((s : System) (strict : Bool) (limit : ℕ) (fed : List ℕ)
        → Reads reader.old s strict limit fed lines.old.items false
        → HasGathered reader.new s strict limit (fed ++ piece.now) (is_nothing piece.now) lines.new.items) }
{
    feed(reader, piece)?;
    match reader.read_all(lines) {
        Ok(_) => Ok(()),
        Err(fault) => unless_memory(fault),
    }
}
