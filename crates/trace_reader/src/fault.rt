// Why a line of a trace is refused.

ghost use Rattle.std.specs.Prelude.{◌≡◌, IfOk};

use std::alloc::AllocError;
use tsl_value::memory::NoMemory;
use tsl_value::text::Text;
use tsl_value::time::Time;

/// Why a line is refused. Lines are counted from 1, skipped ones too. A line is refused for the first
/// of these causes that it has, in the order `LineTooLong`, `BadLine`, `TimeTooLarge`, `TimeBack`,
/// `UnknownStream`, `WrongValue`, `Twice`.
#[derive(Drop)]
pub enum TraceFault {
    /// The line is none of `TIME :`, `TIME : NAME` and `TIME : NAME = VALUE`, or its name is no name.
    BadLine { line: u64 },
    /// The time is above 2^63 - 1.
    TimeTooLarge { line: u64 },
    /// The line's time is below that of an earlier line, the last of which has the time `before`.
    TimeBack { line: u64, before: Time, now: Time },
    /// The name is no input's, and all names have to be.
    UnknownStream { line: u64 },
    /// What stands for the input's value is none of its type.
    WrongValue { line: u64, name: Text },
    /// The input had an event at this time already.
    Twice { line: u64, name: Text },
    /// The line has more than 65,536 bytes, its end not counted.
    LineTooLong { line: u64 },
    /// The trace has more bytes than the limit, and the first beyond it stands in this line.
    TraceTooLong { line: u64 },
    /// Out of memory. This alone says nothing of the trace.
    Memory,
}

impl TraceFault {
    /// An equal fault.
    pub fn copy(&self) -> Result<TraceFault, NoMemory>
        ensures { IfOk result (λ f. f ≡ self.now) }
    {
        let fault = match self {
            TraceFault::BadLine { line } => TraceFault::BadLine { line: *line },
            TraceFault::TimeTooLarge { line } => TraceFault::TimeTooLarge { line: *line },
            TraceFault::TimeBack { line, before, now } => TraceFault::TimeBack {
                line: *line,
                before: *before,
                now: *now,
            },
            TraceFault::UnknownStream { line } => TraceFault::UnknownStream { line: *line },
            TraceFault::WrongValue { line, name } => TraceFault::WrongValue {
                line: *line,
                name: name.copy()?,
            },
            TraceFault::Twice { line, name } => TraceFault::Twice {
                line: *line,
                name: name.copy()?,
            },
            TraceFault::LineTooLong { line } => TraceFault::LineTooLong { line: *line },
            TraceFault::TraceTooLong { line } => TraceFault::TraceTooLong { line: *line },
            TraceFault::Memory => TraceFault::Memory,
        };
        Ok(fault)
    }
}

impl From<NoMemory> for TraceFault {
    ghost use Rattle.trace_reader.specs.declared.fault.TraceFault.TheVariants.{Memory};

    ghost from_gives = { λ _ fault. fault ≡ Memory };

    fn from(_none: NoMemory) -> TraceFault {
        TraceFault::Memory
    }
}

impl From<AllocError> for TraceFault {
    ghost use Rattle.trace_reader.specs.declared.fault.TraceFault.TheVariants.{Memory};

    ghost from_gives = { λ _ fault. fault ≡ Memory };

    fn from(_none: AllocError) -> TraceFault {
        TraceFault::Memory
    }
}
