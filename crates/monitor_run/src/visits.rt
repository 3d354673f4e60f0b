// What an instant has still to visit, and what it has filled.

ghost use Rattle.std.specs.Prelude.{◌≡◌, if◌then◌else◌, length, IfOk};

use agenda::marks::Agenda;
use std::alloc::Global;
use tsl_value::ids::EqId;
use tsl_value::memory::NoMemory;

/// The places of the order that are still to be run, the outputs whose texts are still to be appended, the equations whose registers were
/// filled, and the delays that these may set.
#[derive(Drop)]
pub(crate) struct Visits {
    pub steps: Agenda,
    pub texts: Agenda,
    pub filled: Vec<EqId>,
    pub delays: Vec<EqId>,
}

impl Visits {
    /// Nothing to visit among so many steps and outputs.
    pub(crate) fn new(alloc: Global, steps: usize, outputs: usize) -> Result<Visits, NoMemory>
        ensures steps { IfOk result (λ v. length v.steps ≡ steps) }
        ensures texts { IfOk result (λ v. length v.texts ≡ outputs) }
    {
        Ok(Visits {
            steps: Agenda::with_places(alloc, steps)?,
            texts: Agenda::with_places(alloc, outputs)?,
            filled: Vec::new(alloc),
            delays: Vec::new(alloc),
        })
    }
}

impl Visits {
    /// The delays that may be set or refused: these, or those of what was filled.
    pub(crate) fn delays<'a>(&'a self, all: bool, timers: &'a [EqId]) -> &'a [EqId]
        ensures { result.now ≡ (if all then timers.now else self.now.delays.items) }
    {
        if all { timers } else { &self.delays }
    }
}
