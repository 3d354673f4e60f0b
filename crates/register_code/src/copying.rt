// The plan in which all updates copy.

ghost use Rattle.std.specs.Prelude.{◌≡◌, [], IfOk};
ghost use Rattle.std.specs.List.{filter};
ghost use Rattle.flat_core.specs.WellFormed.{IsWellFormed};
ghost use Rattle.translation_order.specs.Order.{IsLeastOrder};
ghost use Rattle.alias_rules.specs.Fine.{IsFinePlan};
ghost use Rattle.alias_rules.specs.Steps.{MustPrecede, is_print as seen_print, is_step as seen_step, step_count};
ghost use Rattle.register_code.specs.inner.Plan.{IsLeastPlanOrder};

use crate::pairs::pairs;
use crate::plan::Plan;
use flat_core::flat::Flat;
use flat_core::lists::EqSet;
use std::alloc::Global;
use translation_order::order::{OrderFault, order};
use translation_order::steps::Steps;
use tsl_value::ids::EqId;
use tsl_value::memory::NoMemory;

/// Whether the number is that of a running equation or of an output's print.
fn is_step(flat: &Flat, step: u32) -> bool
    ensures { result ≡ seen_step flat.now step }
{
    flat.runs(EqId::new(step)) || is_print(flat, step)
}

fn is_print(flat: &Flat, step: u32) -> bool
    ensures { result ≡ seen_print flat.now step }
{
    flat.count() <= step && ((step - flat.count()) as usize) < flat.outputs().len()
}

/// Those of the numbers that are steps.
pub fn steps_among(alloc: Global, flat: &Flat, numbers: &[u32]) -> Result<Steps, NoMemory>
    ensures { IfOk result (λ steps. steps ≡ filter (seen_step flat.now) numbers.now) }
{
    let mut steps = Steps::new(alloc);
    for number in numbers {
        if is_step(flat, *number) {
            steps.push(*number)?;
        }
    }
    Ok(steps)
}

/// All equations and prints by their numbers, each after those that have to stand before it, at each place the least that may stand
/// there.
fn all_ordered(alloc: Global, flat: &Flat) -> Result<Steps, NoMemory>
    requires { IsWellFormed flat.now }
    ensures least { IfOk result (IsLeastOrder (step_count flat.now) (MustPrecede flat.now)) }
    ensures fine { IfOk result (λ all. IsFinePlan flat.now [] (filter (seen_step flat.now) all)) }
{
    let edges = pairs(alloc, flat)?;
    let steps = flat.count() + flat.outputs().len() as u32;
    match order(alloc, steps, &edges) {
        Ok(all) => Ok(all),
        Err(OrderFault::CycleOf { steps: _ }) => unreachable!(),
        Err(OrderFault::Memory) => Err(NoMemory),
    }
}

/// The plan in which no update happens in place: the running equations and the prints, each after those that have to stand before it,
/// at each place the least that may stand there.
///
/// An argument of an equation has to stand before it, unless it is the first of a `Last` or of a `Delay`, and a printed equation before
/// its print. The system has to be one for which `recursion_check::check_cycles` answers `Ok`.
pub fn copying_plan(alloc: Global, flat: &Flat) -> Result<Plan, NoMemory>
    requires { IsWellFormed flat.now }
    ensures in_place { IfOk result (λ p. p.in_place ≡ []) }
    ensures fine { IfOk result (λ p. IsFinePlan flat.now p.in_place p.order) }
    ensures least { IfOk result (λ p. IsLeastPlanOrder flat.now p.order) }
{
    let all = all_ordered(alloc, flat)?;
    let order = steps_among(alloc, flat, all.as_slice())?;
    Ok(Plan {
        in_place: EqSet::new(alloc),
        order,
    })
}
