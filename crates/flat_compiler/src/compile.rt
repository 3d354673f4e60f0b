// The compiler's part after the flattening.

ghost use Rattle.std.specs.Prelude.{◌≡◌, IfOk};
ghost use Rattle.flat_core.specs.Complete.{IsFlat};
ghost use Rattle.flat_core.specs.inner.Dependency.{IsRunOrder};
ghost use Rattle.flat_core.specs.WellFormed.{IsWellFormed};
ghost use Rattle.flat_simplify.specs.Simplified.{IsSimplified};
ghost use Rattle.alias_rules.specs.Fine.{IsFinePlan, IsTakenPlan};
ghost use Rattle.last_use.specs.Reasons.{AreReasons};

use flat_core::flat::Flat;
use flat_simplify::simplify::simplify;
use last_use::choice::{Choice, choose};
use last_use::reasons::Reasons;
use recursion_check::check::{CycleFault, run_order};
use register_code::code::{Code, generate};
use std::alloc::Global;
use translation_order::steps::Steps;
use trigger_formulas::triggers::Triggers;
use tsl_value::memory::NoMemory;

/// A system that is compiled.
#[derive(Drop)]
pub struct Compiled {
    /// The code of the simplified system, in which the updates of the listed set happen in place.
    pub code: Code,
    /// Why each other update copies.
    pub reasons: Reasons,
}

/// The simplified system.
fn simplified(alloc: Global, flat: Flat, order: &Steps) -> Result<Flat, NoMemory>
    requires well_formed { IsWellFormed flat }
    requires ordered { IsRunOrder flat order.now }
    ensures simplified { IfOk result (IsSimplified flat) }
    ensures well_formed { IfOk result IsWellFormed }
{
    let triggers = Triggers::of(alloc, &flat, order)?;
    simplify(alloc, flat, order, &triggers)
}

/// An order to run a well-formed system in.
fn order_of(alloc: Global, flat: &Flat) -> Result<Steps, NoMemory>
    requires { IsWellFormed flat.now }
    ensures { IfOk result (IsRunOrder flat.now) }
{
    match run_order(alloc, flat) {
        Ok(order) => Ok(order),
        Err(CycleFault::Cycle { equations: _ }) => unreachable!(),
        Err(CycleFault::Memory) => Err(NoMemory),
    }
}

/// The plan that is taken for a system, and why the updates outside its set copy.
fn chosen(alloc: Global, flat: &Flat) -> Result<Choice, NoMemory>
    requires { IsWellFormed flat.now }
    ensures taken { IfOk result (λ c. IsTakenPlan flat.now c.plan.in_place c.plan.order) }
    ensures fine { IfOk result (λ c. IsFinePlan flat.now c.plan.in_place c.plan.order) }
    ensures reasons { IfOk result (λ c. AreReasons flat.now c.plan.in_place c.reasons) }
{
    let order = order_of(alloc, flat)?;
    let triggers = Triggers::of(alloc, flat, &order)?;
    choose(alloc, flat, &triggers)
}

/// The code of a system by the plan that is taken, and why the updates outside its set copy.
fn planned(alloc: Global, flat: Flat) -> Result<Compiled, NoMemory>
    requires { IsWellFormed flat }
    ensures system { IfOk result (λ c. c.code.system ≡ flat) }
    ensures is_flat { IfOk result (λ c. IsFlat c.code.system) }
    ensures taken { IfOk result (λ c. IsTakenPlan c.code.system c.code.in_place c.code.order) }
    ensures reasons { IfOk result (λ c. AreReasons c.code.system c.code.in_place c.reasons) }
{
    let Choice { plan, reasons } = chosen(alloc, &flat)?;
    let code = generate(alloc, flat, plan)?;
    code.assert_whole();
    Ok(Compiled { code, reasons })
}

/// Compiles a well-formed system that has this order to run it in: it is simplified, and the code is made by the plan that is taken, in
/// which each update of the listed set happens in place.
pub fn compile_flat(alloc: Global, flat: Flat, order: &Steps) -> Result<Compiled, NoMemory>
    requires well_formed { IsWellFormed flat }
    requires ordered { IsRunOrder flat order.now }
    ensures simplified { IfOk result (λ c. IsSimplified flat c.code.system) }
    ensures is_flat { IfOk result (λ c. IsFlat c.code.system) }
    ensures well_formed { IfOk result (λ c. IsWellFormed c.code.system) }
    ensures taken { IfOk result (λ c. IsTakenPlan c.code.system c.code.in_place c.code.order) }
    ensures reasons { IfOk result (λ c. AreReasons c.code.system c.code.in_place c.reasons) }
{
    let simple = simplified(alloc, flat, order)?;
    planned(alloc, simple)
}
