// Each call answers, where there is memory.

mod of_alias_analysis;
mod of_code_check;
mod of_trigger_diagram;
mod of_trigger_formulas;

ghost use Rattle.std.specs.Prelude.{IfOk, OnOk};
ghost use Rattle.flat_core.specs.WellFormed.{IsWellFormed};
ghost use Rattle.trigger_formulas.specs.inner.Kept.{AreTriggersOf};

use flat_core::flat::Flat;
use recursion_check::check::run_order;
use std::alloc::Global;
use std::test::Fail;
use trigger_formulas::triggers::Triggers;

/// The triggers of a system without a cycle.
fn triggers(alloc: Global, flat: &Flat) -> Result<Triggers, Fail>
    ensures triggers { IfOk result (λ t. AreTriggersOf t flat.now) }
    ensures well_formed { OnOk result (IsWellFormed flat.now) }
{
    match run_order(alloc, flat) {
        Ok(order) => Ok(Triggers::of(alloc, flat, &order)?),
        Err(_) => Err(Fail::from("a cycle")),
    }
}
