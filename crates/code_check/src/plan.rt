// Whether a system is well-formed and a plan for it fine.

ghost use Rattle.std.specs.Prelude.{IfErr, IfOk, OnOk};
ghost use Rattle.flat_core.specs.inner.Dependency.{IsRunOrder};
ghost use Rattle.flat_core.specs.WellFormed.{IsWellFormed};
ghost use Rattle.alias_rules.specs.Fine.{IsFinePlan};
ghost use Rattle.code_check.specs.inner.Planning.{IsCycleFault, IsPlanFault};

use code_file::fault::CodeFault;
use flat_core::flat::Flat;
use plan_check::plan::is_fine_plan;
use recursion_check::check::{CycleFault, run_order};
use register_code::plan::Plan;
use std::alloc::Global;
use translation_order::steps::Steps;
use trigger_formulas::triggers::Triggers;

/// An order to run a system in, or the refusal of one that has none.
pub(crate) fn order_of(alloc: Global, flat: &Flat) -> Result<Steps, CodeFault>
    ensures order { IfOk result (IsRunOrder flat.now) }
    ensures well_formed { OnOk result (IsWellFormed flat.now) }
    ensures fault { IfErr result (IsCycleFault flat.now) }
{
    match run_order(alloc, flat) {
        Ok(order) => Ok(order),
        Err(CycleFault::Cycle { equations: _ }) => Err(CodeFault::Cycle),
        Err(CycleFault::Memory) => Err(CodeFault::Memory),
    }
}

/// Refuses a plan that is not fine for a system that has this order to run it in.
pub(crate) fn check_plan(
    alloc: Global,
    flat: &Flat,
    order: &Steps,
    plan: &Plan,
) -> Result<(), CodeFault>
    requires { IsRunOrder flat.now order.now }
    ensures fine { OnOk result (IsFinePlan flat.now plan.now.in_place plan.now.order) }
    ensures fault { IfErr result (IsPlanFault flat.now plan.now.in_place plan.now.order) }
{
    let triggers = Triggers::of(alloc, flat, order)?;
    if is_fine_plan(alloc, flat, &triggers, plan)? {
        Ok(())
    } else {
        Err(CodeFault::NotFine)
    }
}
