// From which facts, in this order, another follows.

ghost use Rattle.std.specs.Prelude.{◌≡◌, ◌↔◌, [], ◌∷◌, IfNone, IfOk, IfSome, IsTrue, map};
ghost use Rattle.flat_core.specs.Line.{inputs_of};
ghost use Rattle.flat_core.specs.inner.Arity.{HasArity};
ghost use Rattle.why_rules.specs.Facts as rules;
ghost use Rattle.why_rules.specs.Rules.{Follows};
ghost use Rattle.event_why.specs.Said.{said};
ghost use Rattle.event_why.specs.inner.Grounds.{AreGrounds, AreTypedFacts};
ghost use Rattle.event_why.specs.inner.Search.{FollowsSo};

use crate::event::makes;
use crate::fact::Fact;
use crate::grounds::Grounds;
use crate::pending::{Delay, keeps};
use crate::silent::{is_in_gap, is_joined, lacks};
use crate::told::is_same_time;
use flat_core::equation::{Equation, Op};
use plain_solver::value::Value;
use std::alloc::Global;
use tsl_value::ids::EqId;
use tsl_value::memory::NoMemory;
use tsl_value::time::Time;

/// An equation of the slice has this event.
fn happens(
    alloc: Global,
    grounds: &Grounds,
    i: EqId,
    t: Time,
    value: &Value,
    named: &[Fact],
) -> Result<bool, NoMemory>
    requires grounds { AreGrounds grounds.now.flat.now grounds.now.slice.now grounds.now.lines.now }
    requires typed { AreTypedFacts grounds.now.flat.now (map said named.now) }
    ensures { IfOk result (λ b. IsTrue b ↔ Follows grounds.now.flat.now grounds.now.slice.now (inputs_of grounds.now.lines.now)
        (rules.Happens i t value.now) (map said named.now)) }
{
    if !grounds.slice.contains(i) {
        return Ok(false);
    }
    let e = grounds.flat.equation(i);
    makes(alloc, e, i, grounds.lines, t, value, named)
}

/// An equation of the slice has no event from one time to another.
fn is_silent(
    alloc: Global,
    grounds: &Grounds,
    i: EqId,
    from: Time,
    to: Time,
    named: &[Fact],
) -> Result<bool, NoMemory>
    requires grounds { AreGrounds grounds.now.flat.now grounds.now.slice.now grounds.now.lines.now }
    requires typed { AreTypedFacts grounds.now.flat.now (map said named.now) }
    ensures { IfOk result (λ b. IsTrue b ↔ Follows grounds.now.flat.now grounds.now.slice.now (inputs_of grounds.now.lines.now)
        (rules.Silent i from to) (map said named.now)) }
{
    if !grounds.slice.contains(i) {
        return Ok(false);
    }
    let e = grounds.flat.equation(i);
    if is_in_gap(from, to, named) {
        return Ok(true);
    }
    if is_joined(i, from, to, named) {
        return Ok(true);
    }
    if !is_same_time(from, to) {
        return Ok(false);
    }
    lacks(alloc, e, i, grounds.lines, from, named)
}

/// The delay that an equation is, and its arguments, if it is one.
fn delay_of(i: EqId, e: &Equation) -> Option<Delay>
    requires { HasArity e.now.op e.now.args }
    ensures some { IfSome result (λ d. (e.now.op ≡ Op.Delay) × (d.itself ≡ i) × (e.now.args ≡ d.amount ∷ d.reset ∷ [])) }
    ensures none { IfNone result (¬ (e.now.op ≡ Op.Delay)) }
{
    match &e.op {
        Op::Delay => Some(Delay {
            itself: i,
            amount: e.args.ids()[0],
            reset: e.args.ids()[1],
        }),
        _ => None,
    }
}

/// A delay of the slice is due then, or at no time, by what happened up to a time.
fn is_pending(grounds: &Grounds, i: EqId, t: Time, due: Option<Time>, named: &[Fact]) -> bool
    requires { AreGrounds grounds.now.flat.now grounds.now.slice.now grounds.now.lines.now }
    ensures { IsTrue result ↔ Follows grounds.now.flat.now grounds.now.slice.now (inputs_of grounds.now.lines.now)
        (rules.Pending i t due) (map said named.now) }
{
    if !grounds.slice.contains(i) {
        return false;
    }
    let e = grounds.flat.equation(i);
    match delay_of(i, e) {
        Some(delay) => keeps(&delay, t, &due, named),
        None => false,
    }
}

/// Whether these facts, in this order, are those from which a rule makes a fact that is no gap.
pub(crate) fn follows(
    alloc: Global,
    grounds: &Grounds,
    fact: &Fact,
    named: &[Fact],
) -> Result<bool, NoMemory>
    requires grounds { AreGrounds grounds.now.flat.now grounds.now.slice.now grounds.now.lines.now }
    requires typed { AreTypedFacts grounds.now.flat.now (map said named.now) }
    ensures { IfOk result (λ b. IsTrue b ↔ FollowsSo grounds.now.flat.now grounds.now.slice.now (inputs_of grounds.now.lines.now)
        (said fact.now) (map said named.now)) }
{
    match fact {
        Fact::Event {
            equation,
            time,
            value,
        } => happens(alloc, grounds, *equation, *time, value, named),
        Fact::Silent { equation, from, to } => {
            is_silent(alloc, grounds, *equation, *from, *to, named)
        }
        Fact::Gap { from: _, to: _ } => Ok(false),
        Fact::Pending {
            equation,
            time,
            due,
        } => Ok(is_pending(grounds, *equation, *time, *due, named)),
    }
}
