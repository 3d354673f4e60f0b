// Code, which a plan makes of a flat system.

ghost use Rattle.std.specs.Prelude.{◌≡◌, IfOk};
ghost use Rattle.alias_rules.specs.Fine.{IsFinePlan};
ghost use Rattle.register_code.specs.Code.{IsCode};
ghost use Rattle.flat_core.specs.Kept.{keeps_of, timers_of};

use crate::keep::{keeps, timers};
use crate::plan::Plan;
use flat_core::flat::Flat;
use std::alloc::Global;
use std::marker::Model;
use tsl_value::ids::EqId;
use tsl_value::memory::NoMemory;

/// The instructions of an instant: the plan's steps in order, then a `Keep` for each first argument of a running `Last`, and then a
/// `Timer` for each running `Delay`.
///
/// Contracts see the system, the set of the plan and its order. `IsCode` says what all code has.
#[derive(Drop)]
pub struct Code {
    flat: Flat,
    plan: Plan,
    keeps: Vec<EqId>,
    timers: Vec<EqId>,
}

impl Model for Code {
    ghost use Rattle.std.specs.Prelude.{◌≡◌};
    ghost use Rattle.register_code.specs.Code as seen;
    ghost use Rattle.flat_core.specs.Kept as kept;
    ghost use Rattle.lift_func.specs.contracts.body.Body as body;
    ghost use Rattle.std.specs.Coded.{codes};

    ghost Value = { seen.Code };

    ghost coded = { Prim.hlevel (codes, body.the_row.coded) };

    ghost view = { λ c. record { system = c.flat; in_place = c.plan.in_place; order = c.plan.order } };

    ghost invariant = { λ c. seen.IsCode (record { system = c.flat; in_place = c.plan.in_place; order = c.plan.order })
        × (c.keeps.items ≡ kept.keeps_of c.flat)
        × (c.timers.items ≡ kept.timers_of c.flat) };
}

impl Code {
    /// The system whose code this is.
    ///
    /// Its second clause gives callers what all code has.
    pub fn flat(&self) -> &Flat
        ensures flat { result.now ≡ self.now.system }
        ensures is_code { IsCode self.now }
    {
        &self.flat
    }

    /// Asserts what all code has: its system is whole, and its plan is fine. Nothing is done. A caller whose proof needs this of code says
    /// so here.
    pub fn assert_whole(&self)
        ensures { IsCode self.now }
    {
        // The invariant is known where a field is used.
        let _ = &self.flat;
    }

    /// The plan that the code was made by.
    pub fn plan(&self) -> &Plan
        ensures in_place { result.now.in_place ≡ self.now.in_place }
        ensures order { result.now.order ≡ self.now.order }
    {
        &self.plan
    }

    /// The first arguments of the running `Last`s, each once, by number. At the end of an instant their events are kept.
    pub fn keeps(&self) -> &[EqId]
        ensures { result.now ≡ keeps_of self.now.system }
    {
        &self.keeps
    }

    /// The running `Delay`s by number. At the end of an instant they are set or cancelled.
    pub fn timers(&self) -> &[EqId]
        ensures { result.now ≡ timers_of self.now.system }
    {
        &self.timers
    }
}

/// The code of a system by a plan. Both are gone after `NoMemory`.
///
/// The plan has to be fine: all updates of its set can happen in place together, and its order has the running equations and the
/// prints, each once and after those that have to stand before it.
pub fn generate(alloc: Global, flat: Flat, plan: Plan) -> Result<Code, NoMemory>
    requires { IsFinePlan flat plan.in_place plan.order }
    ensures system { IfOk result (λ c. c.system ≡ flat) }
    ensures in_place { IfOk result (λ c. c.in_place ≡ plan.in_place) }
    ensures order { IfOk result (λ c. c.order ≡ plan.order) }
{
    let keeps = keeps(alloc, &flat)?;
    let timers = timers(alloc, &flat)?;
    Ok(Code {
        flat,
        plan,
        keeps,
        timers,
    })
}
