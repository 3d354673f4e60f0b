// How a run begins that goes on from a saved state.

ghost use Rattle.std.specs.Prelude.{◌<◌, ◌^◌, IfOk};
ghost use Rattle.tessla_cli.specs.inner.RunPhases.{IsBegunAs};

use crate::ending::{Ending, no_state};
use crate::limits::MOST_STATE_BYTES;
use register_code::code::Code;
use state_snapshot::fault::StateFault;
use state_snapshot::read::read_state;
use std::alloc::Global;
use trace_run::start::Start;
use tsl_value::memory::NoMemory;

/// What comes of the file of a state that a run is to go on from.
#[derive(Drop)]
pub enum Begun {
    /// A run begins so.
    Starts(Start),
    /// None does, and the program ends so.
    Stops(Ending),
}

/// What comes of the bytes of that file, of which more than the limit are judged without their end.
pub fn resumed(alloc: Global, code: &Code, until: u64, bytes: &[u8]) -> Result<Begun, NoMemory>
    ensures { IfOk result (IsBegunAs code.now until bytes.now) }
{
    if bytes.len() > MOST_STATE_BYTES {
        return Ok(Begun::Stops(Ending::State(StateFault::WrongForm)));
    }
    match read_state(alloc, bytes, code) {
        Ok(state) => Ok(Begun::Starts(Start::Resumed { until, state })),
        Err(fault) => Ok(Begun::Stops(no_state(fault)?)),
    }
}
