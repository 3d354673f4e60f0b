// The checks of code after its form.

ghost use Rattle.std.specs.Prelude.{◌≡◌, IfErr, IfOk, OnOk};
ghost use Rattle.flat_core.specs.WellFormed.{IsWellFormed};
ghost use Rattle.alias_rules.specs.Fine.{IsFinePlan};
ghost use Rattle.code_file.specs.Form.{IsForm, bare};
ghost use Rattle.code_check.specs.Checked.{IsChecked, IsRefusedFor};
ghost use Rattle.code_reader.specs.Parts.{code_in};
ghost use Rattle.code_check.specs.inner.Planning.{IsPlannedFault, code_by};

use crate::plan::{check_plan, order_of};
use crate::system::system_of;
use crate::types::check_types;
use code_file::fault::CodeFault;
use code_reader::parts::Parts;
use flat_core::flat::Flat;
use register_code::code::{Code, generate};
use register_code::plan::Plan;
use std::alloc::Global;

/// The code of a system by a plan, if the system is well-formed and the plan is fine.
fn planned(alloc: Global, flat: Flat, plan: Plan) -> Result<Code, CodeFault>
    ensures code { IfOk result (λ c. c ≡ code_by flat plan.in_place plan.order) }
    ensures well_formed { OnOk result (IsWellFormed flat) }
    ensures fine { OnOk result (IsFinePlan flat plan.in_place plan.order) }
    ensures fault { IfErr result (IsPlannedFault flat plan.in_place plan.order) }
{
    let order = order_of(alloc, &flat)?;
    check_plan(alloc, &flat, &order, &plan)?;
    Ok(generate(alloc, flat, plan)?)
}

/// The code that parts make, if it can be run. It is refused exactly where an equation breaks arity or types, or runs while an argument of
/// it does not, with the least such equation; or else where its system is not well-formed; or else where its plan is not fine.
pub fn checked(alloc: Global, parts: Parts) -> Result<Code, CodeFault>
    requires form { IsForm (code_in parts) }
    requires bare { bare (code_in parts) ≡ code_in parts }
    ensures code { IfOk result (λ c. c ≡ code_in parts) }
    ensures checked { IfOk result IsChecked }
    ensures fault { IfErr result (IsRefusedFor (code_in parts)) }
{
    let Parts {
        equations,
        outputs,
        running,
        plan,
    } = parts;
    check_types(alloc, &equations, &running)?;
    let flat = system_of(alloc, equations, outputs, running)?;
    planned(alloc, flat, plan)
}
