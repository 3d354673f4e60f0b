// What an instant looks up.

ghost use Rattle.std.specs.Prelude.{IfOk};
ghost use Rattle.monitor_run.specs.inner.Visits.{AreTables};

use crate::action::{Action, actions_of};
use register_code::code::Code;
use std::alloc::Global;
use step_uses::rows::Rows;
use step_uses::uses::{delay_uses, marked, step_uses};
use tsl_value::memory::NoMemory;

/// What the steps of the order do; for each equation the places of the order whose steps use it at the same time, and the delays that it may set or that may be refused by
/// it; which equations are kept; whether each instant runs all steps; and whether each looks at all delays.
#[derive(Drop)]
pub(crate) struct Tables {
    pub uses: Rows,
    pub delays: Rows,
    pub kept: Vec<bool>,
    pub actions: Vec<Action>,
    pub is_short: bool,
    pub has_few_delays: bool,
}

/// An order of so many steps is run whole at each instant: it takes longer to note which of so few can be left out.
const FEW_STEPS: usize = 32;

/// And so many equations, running or not, are emptied quickly.
const FEW_EQUATIONS: u32 = 128;

/// So many delays are looked at in less time than it takes to gather those that something was filled for.
const FEW_DELAYS: usize = 4;

impl Tables {
    /// The tables of code.
    pub(crate) fn new(alloc: Global, code: &Code) -> Result<Tables, NoMemory>
        ensures { IfOk result (AreTables code.now.system code.now.order) }
    {
        let flat = code.flat();
        let count = flat.count();
        let order = code.plan().order.as_slice();
        Ok(Tables {
            uses: step_uses(alloc, flat, order)?,
            delays: delay_uses(alloc, flat, code.timers())?,
            actions: actions_of(alloc, flat, order)?,
            kept: marked(alloc, count, code.keeps())?,
            is_short: order.len() <= FEW_STEPS && count <= FEW_EQUATIONS,
            has_few_delays: code.timers().len() <= FEW_DELAYS,
        })
    }
}
