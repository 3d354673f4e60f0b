// What a monitor keeps, as bytes.

ghost use Rattle.std.specs.Prelude.{◌≡◌, ◌≤◌, ℕ, List, IfOk};
ghost use Rattle.tsl_value.specs.declared.limits.TheConstants.{MOST_INSTANTS};
ghost use Rattle.trace_monitor.specs.Saved.{IsSavedAs, SpellsState};
ghost use Rattle.trace_monitor.specs.inner.Kept.{Kept};
ghost use Rattle.trace_monitor.specs.inner.Snapshot.{code_of};
ghost use Rattle.trace_monitor.specs.inner.Waits.{Waits};

use crate::monitor::TraceMonitor;
use register_code::code::Code;
use state_snapshot::write::write_state;
use std::alloc::Global;
use tsl_value::bytes::Bytes;
use tsl_value::memory::NoMemory;

/// The bytes of what a monitor keeps, which runs this code.
pub fn saved(alloc: Global, code: &Code, monitor: &TraceMonitor<'_>) -> Result<Bytes, NoMemory>
    requires waits { Waits monitor.now }
    requires few { monitor.now.options.instants ≤ MOST_INSTANTS }
    requires code { code_of monitor.now ≡ code.now }
    ensures fits { IfOk result (SpellsState code.now) }
    ensures saved { IfOk result (λ bytes. (fed : List ℕ) → Kept monitor.now fed → IsSavedAs code.now monitor.now.options fed bytes) }
{
    let state = monitor.state(alloc)?;
    let mut bytes = Bytes::new(alloc);
    write_state(&state, code, &mut bytes)?;
    Ok(bytes)
}
