// Steps in an order that pairs ask for.

ghost use Rattle.std.specs.Prelude.{⊤, IfOk, OnOk, IfErr};
ghost use Rattle.translation_order.specs.Graph.{IsAcyclic};
ghost use Rattle.translation_order.specs.Order.{Before, AreOfSteps, IsLeastOrder};
ghost use Rattle.translation_order.specs.Cycle.{IsCycle, IsCycleOfWalk};
ghost use Rattle.translation_order.specs.inner.Answer.{OnCycle};

use crate::cycle::cycle_from;
use crate::steps::{Edges, Steps};
use crate::taking::{first_waiting, take_all};
use std::alloc::Global;
use tsl_value::memory::NoMemory;

/// Why steps have no order.
#[derive(Drop)]
pub enum OrderFault {
    /// Each of these steps has to stand before the next, and the last before the first.
    CycleOf { steps: Steps },
    Memory,
}

impl From<NoMemory> for OrderFault {
    ghost from_gives = { λ _ f. OnCycle (λ _. ⊥) f };

    fn from(_error: NoMemory) -> OrderFault {
        OrderFault::Memory
    }
}

/// Lists all steps, which are the numbers below `steps`, so that each pair's first stands before its second. At each place
/// stands the least number that may stand there. `CycleOf` comes exactly where the pairs have a cycle.
///
/// Of several cycles this one is answered. Steps are taken away that have no remaining step before them, until none is left to
/// take. From the least remaining step a walk goes on to the least remaining step before it, until a step comes again. The steps
/// between are the cycle. They are listed in the order in which they have to stand, from the least on, each once.
pub fn order(alloc: Global, steps: u32, edges: &Edges) -> Result<Steps, OrderFault>
    requires { AreOfSteps steps edges.now }
    ensures listed { IfOk result (IsLeastOrder steps (Before edges.now)) }
    ensures acyclic { OnOk result (IsAcyclic (Before edges.now)) }
    ensures cycle { IfErr result (OnCycle (IsCycle (Before edges.now))) }
    ensures walked { IfErr result (OnCycle (IsCycleOfWalk steps (Before edges.now))) }
    ensures cyclic { IfErr result (OnCycle (λ _. IsAcyclic (Before edges.now) → ⊥)) }
{
    let taken = take_all(alloc, steps, edges.as_slice())?;
    match first_waiting(taken.waits.as_slice()) {
        None => Ok(taken.listed),
        Some(start) => Err(OrderFault::CycleOf {
            steps: cycle_from(alloc, edges.as_slice(), taken.waits.as_slice(), start)?,
        }),
    }
}
