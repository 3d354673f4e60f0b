// Whether a flat system is well-formed, and a cycle where it is not.

ghost use Rattle.std.specs.Prelude.{length, IfOk, OnOk, IfErr};
ghost use Rattle.flat_core.specs.inner.Dependency.{IsRunOrder};
ghost use Rattle.flat_core.specs.WellFormed.{IsWellFormed};
ghost use Rattle.translation_order.specs.Cycle.{IsCycle, IsCycleOfWalk};
ghost use Rattle.recursion_check.specs.Feeds.{Feeds};
ghost use Rattle.recursion_check.specs.inner.Answer.{OnCycle};

use crate::edges::edges;
use flat_core::flat::Flat;
use std::alloc::Global;
use translation_order::order::{OrderFault, order};
use translation_order::steps::Steps;
use tsl_value::memory::NoMemory;

/// Why a flat system is refused.
#[derive(Drop)]
pub enum CycleFault {
    /// Each of these equations is an argument of the next, and the last of the first, and none of these arguments is the
    /// first of a last or of a delay.
    Cycle { equations: Steps },
    Memory,
}

impl From<NoMemory> for CycleFault {
    ghost from_gives = { λ _ f. OnCycle (λ _. ⊥) f };

    fn from(_error: NoMemory) -> CycleFault {
        CycleFault::Memory
    }
}

/// Lists all equations of a well-formed system in an order to run it in, whether they run or not: at each place stands the least
/// number of which all arguments that are not guarded stand before it.
///
/// `Cycle` comes exactly where the system is not well-formed, as by `check_cycles`.
pub fn run_order(alloc: Global, flat: &Flat) -> Result<Steps, CycleFault>
    ensures order { IfOk result (IsRunOrder flat.now) }
    ensures well_formed { OnOk result (IsWellFormed flat.now) }
    ensures cycle { IfErr result (OnCycle (IsCycle (Feeds flat.now))) }
    ensures walked { IfErr result (OnCycle (IsCycleOfWalk (length flat.now.equations) (Feeds flat.now))) }
    ensures not_well_formed { IfErr result (OnCycle (λ _. IsWellFormed flat.now → ⊥)) }
{
    let edges = edges(alloc, flat)?;
    match order(alloc, flat.count(), &edges) {
        Ok(steps) => Ok(steps),
        Err(OrderFault::CycleOf { steps }) => Err(CycleFault::Cycle { equations: steps }),
        Err(OrderFault::Memory) => Err(CycleFault::Memory),
    }
}

/// Checks that each cycle of arguments has a first argument of a last or of a delay, whether its equations run or not. `Cycle`
/// comes exactly where one has none.
///
/// It is the cycle that `order` answers for the pairs of an argument and the equation that has it: it is read from an argument
/// to the equation that uses it, has each equation once, and begins with the least number.
pub fn check_cycles(alloc: Global, flat: &Flat) -> Result<(), CycleFault>
    ensures well_formed { OnOk result (IsWellFormed flat.now) }
    ensures cycle { IfErr result (OnCycle (IsCycle (Feeds flat.now))) }
    ensures walked { IfErr result (OnCycle (IsCycleOfWalk (length flat.now.equations) (Feeds flat.now))) }
    ensures not_well_formed { IfErr result (OnCycle (λ _. IsWellFormed flat.now → ⊥)) }
{
    match run_order(alloc, flat) {
        Ok(_) => Ok(()),
        Err(fault) => Err(fault),
    }
}
