// All that happens below a bound.

ghost use Rattle.std.specs.Prelude.{◌^◌, ◌<◌, ◌≤◌, ◌≡◌, [], IfOk, replicate};
ghost use Rattle.flat_core.specs.inner.Dependency.{IsRunOrder};
ghost use Rattle.flat_core.specs.Line.{IsSorted};
ghost use Rattle.plain_solver.specs.inner.Ending.{EndsSo};
ghost use Rattle.plain_solver.specs.inner.Solved.{IsEnded};
ghost use Rattle.flat_core.specs.inner.TypedLines.{AreTypedLines};

use crate::events::Events;
use crate::instant::{first_root, run_instant};
use crate::next::next_below;
use flat_core::flat::Flat;
use flat_core::line::TraceLine;
use lift_func::fault::FaultKind;
use std::alloc::Global;
use translation_order::steps::Steps;
use tsl_value::ids::EqId;
use tsl_value::memory::NoMemory;
use tsl_value::time::Time;

/// Why no further instant was run.
#[derive(Clone, Copy, PartialEq, Eq, Debug)]
pub enum End {
    /// No further one comes below the bound.
    Bound,
    /// The last one has a root fault.
    Fault {
        time: Time,
        equation: EqId,
        kind: FaultKind,
    },
    /// As many as are allowed were run, and one more comes.
    Limit {
        time: Time,
    },
}

/// What happens at all equations, up to where the run ends.
///
/// The streams end with the last instant that was run. Where that has a root fault, they have the
/// faults of its time.
#[derive(Drop)]
pub struct Solved {
    /// What happens at each equation.
    pub streams: Vec<Events>,
    /// The instants that were run without a root fault, in order.
    pub instants: Vec<Time>,
    /// Why no further one was run.
    pub end: End,
}

/// As many streams as there are equations, all without an outcome.
fn no_events(alloc: Global, count: u32) -> Result<Vec<Events>, NoMemory>
    ensures { IfOk result (λ v. v.items ≡ replicate count []) }
{
    let mut streams = Vec::new(alloc);
    for _n in 0..count {
        streams.push(Events::new(alloc))?;
    }
    Ok(streams)
}

/// What happens at all equations at the times below a bound, in at most as many instants as a limit. The order is one in which
/// each equation comes after those that it uses at the same time.
pub fn solve(
    alloc: Global,
    flat: &Flat,
    order: &Steps,
    lines: &[TraceLine],
    bound: u64,
    limit: u64,
) -> Result<Solved, NoMemory>
    requires ordered { IsRunOrder flat.now order.now }
    requires small { bound ≤ 2 ^ 63 }
    requires sorted { IsSorted lines.now }
    requires typed { AreTypedLines flat.now lines.now }
    ensures ended { IfOk result (λ v. IsEnded flat.now lines.now bound limit v.streams.items v.instants.items v.end) }
    ensures ending { IfOk result (λ v. EndsSo flat.now lines.now bound limit v.end) }
{
    let mut streams = no_events(alloc, flat.count())?;
    let mut instants = Vec::new(alloc);
    let mut next = 0;
    while let Some(t) = next_below(flat, &streams, lines, next, bound) {
        if instants.len() as u64 == limit {
            return Ok(Solved {
                streams,
                instants,
                end: End::Limit { time: t },
            });
        }
        run_instant(alloc, flat, order, &mut streams, lines, t)?;
        match first_root(alloc, flat, &streams, lines, t)? {
            Some(root) => {
                return Ok(Solved {
                    streams,
                    instants,
                    end: End::Fault {
                        time: t,
                        equation: root.0,
                        kind: root.1,
                    },
                });
            }
            None => {
                instants.push(t)?;
                next = t.get() + 1;
            }
        }
    }
    Ok(Solved {
        streams,
        instants,
        end: End::Bound,
    })
}
