// When the next instant comes.

ghost use Rattle.std.specs.Prelude.{◌≡◌, ◌≤◌, ◌<◌, ◌^◌, length, All};
ghost use Rattle.flat_core.specs.Line.{IsSorted};
ghost use Rattle.plain_solver.specs.inner.Lines.{IsLeast};
ghost use Rattle.plain_solver.specs.inner.Next.{due_of, is_expiry, is_next, IsFirst};
ghost use Rattle.flat_core.specs.inner.Arity.{HasArity};
ghost use Rattle.plain_solver.specs.inner.Streams.{streams_of};
ghost use Rattle.flat_core.specs.Pending.{option_is};

use crate::delay::pending_before;
use crate::events::Events;
use crate::line::least_line;
use crate::outcome::{argument, stream_at};
use flat_core::equation::{Equation, Op};
use flat_core::flat::Flat;
use flat_core::line::TraceLine;
use tsl_value::ids::EqId;
use tsl_value::time::Time;

/// What is pending before a time, of a delay.
fn due_before(e: &Equation, i: EqId, streams: &[Events], from: Time) -> Option<u64>
    requires shape { HasArity e.now.op e.now.args }
    requires known { All (λ a. a < length streams.now) e.now.args }
    requires there { i < length streams.now }
    ensures { result ≡ due_of (streams_of streams.now) i e.now.op e.now.args from }
{
    match &e.op {
        Op::Delay => {
            let amount = stream_at(streams, argument(&e.args, 0));
            let reset = stream_at(streams, argument(&e.args, 1));
            let delay = stream_at(streams, i);
            pending_before(amount, reset, delay, from)
        }
        _ => None,
    }
}

/// A time that is there, if it is from one time on and before another, else that other time.
fn least_due(due: Option<u64>, low: u64, high: u64) -> u64
    ensures { IsLeast (λ u. option_is u due) low high result }
{
    match due {
        Some(u) => { if low <= u && u < high { u } else { high } }
        None => high,
    }
}

/// The least time from one on and before another at which a running delay is due, else that other time.
pub fn least_expiry(flat: &Flat, streams: &[Events], from: Time, high: u64) -> u64
    requires { length streams.now ≡ length flat.now.equations }
    ensures { IsLeast (λ u. is_expiry flat.now (streams_of streams.now) from u) from high result }
{
    let mut least = high;
    for n in 0..flat.count() {
        let i = EqId::new(n);
        if flat.runs(i) {
            let due = due_before(flat.equation(i), i, streams, from);
            least = least_due(due, from.get(), least);
        }
    }
    least
}

/// The first instant from one time on and below a bound.
pub fn next_below(
    flat: &Flat,
    streams: &[Events],
    lines: &[TraceLine],
    next: u64,
    bound: u64,
) -> Option<Time>
    requires one_each { length streams.now ≡ length flat.now.equations }
    requires small { bound ≤ 2 ^ 63 }
    requires sorted { IsSorted lines.now }
    ensures { IsFirst (λ u. is_next flat.now lines.now (streams_of streams.now) next u) next bound result }
{
    if next >= bound {
        return None;
    }
    match Time::new(next) {
        Some(from) => {
            if next == 0 {
                return Some(from);
            }
            let due = least_expiry(flat, streams, from, bound);
            let least = least_line(lines, next, due);
            if least < bound {
                Time::new(least)
            } else {
                None
            }
        }
        None => None,
    }
}
