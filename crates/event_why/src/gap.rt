// Times at which nothing happens.

ghost use Rattle.std.specs.Prelude.{◌≡◌, ◌↔◌, ◌<◌, ◌≤◌, IfNone, IfOk, IfSome, IsTrue, length, map};
ghost use Rattle.std.specs.List.{All, Contains, filter};
ghost use Rattle.std.specs.Option.{option_map};
ghost use Rattle.flat_core.specs.Instant.{is_delay, is_delay_op};
ghost use Rattle.flat_core.specs.Line.{IsSorted, inputs_of};
ghost use Rattle.flat_core.specs.declared.line.TraceLine.{TraceLine};
ghost use Rattle.flat_core.specs.System.{equation};
ghost use Rattle.why_rules.specs.Facts as rules;
ghost use Rattle.why_rules.specs.Rules.{Follows, NothingGiven};
ghost use Rattle.event_why.specs.Said.{said};
ghost use Rattle.event_why.specs.inner.Grounds.{AreGrounds, IsGiven};
ghost use Rattle.event_why.specs.inner.Search.{InSomeOrder};
ghost use Rattle.event_why.specs.inner.Waits.{IsWaiting, IsWaitingOf, PutsWaiting};

use crate::fact::Fact;
use crate::grounds::Grounds;
use crate::search::count_lacking;
use crate::told::{due_in, is_before};
use flat_core::equation::{Equation, Op};
use flat_core::line::TraceLine;
use plain_solver::line::count_before;
use std::alloc::Global;
use tsl_value::ids::EqId;
use tsl_value::memory::NoMemory;
use tsl_value::time::Time;

/// The line has an event of an input of the slice.
fn is_given(grounds: &Grounds, line: &TraceLine) -> bool
    requires { AreGrounds grounds.now.flat.now grounds.now.slice.now grounds.now.lines.now }
    ensures { IsTrue result ↔ IsGiven grounds.now.flat.now grounds.now.slice.now line.now }
{
    match &line.event {
        Some((i, _)) => grounds.slice.contains(*i) && is_input(grounds.flat.equation(*i)),
        None => false,
    }
}

fn is_input(e: &Equation) -> bool
    ensures { IsTrue result ↔ e.now.op ≡ Op.Input }
{
    match &e.op {
        Op::Input => true,
        _ => false,
    }
}

/// No input of the slice has an event from one time to another in the lines, none of which is earlier.
fn is_nothing_in(grounds: &Grounds, lines: &[TraceLine], from: Time, to: Time) -> bool
    requires grounds { AreGrounds grounds.now.flat.now grounds.now.slice.now grounds.now.lines.now }
    requires sorted { IsSorted lines.now }
    requires late { All (λ (l : TraceLine). from ≤ l.time) lines.now }
    ensures { IsTrue result ↔ NothingGiven grounds.now.flat.now grounds.now.slice.now (inputs_of lines.now) from to }
{
    for line in lines {
        if to.get() < line.time.get() {
            return true;
        }
        if is_given(grounds, line) {
            return false;
        }
    }
    true
}

/// No input of the slice has an event from one time to another.
fn is_nothing_given(grounds: &Grounds, from: Time, to: Time) -> bool
    requires { AreGrounds grounds.now.flat.now grounds.now.slice.now grounds.now.lines.now }
    ensures { IsTrue result ↔ NothingGiven grounds.now.flat.now grounds.now.slice.now (inputs_of grounds.now.lines.now) from to }
{
    let rest = &grounds.lines[count_before(grounds.lines, from.get())..];
    is_nothing_in(grounds, rest, from, to)
}

/// The fact says that a delay is due at none of the times after one time up to another.
fn is_waiting(fact: &Fact, i: EqId, before: u64, to: Time) -> bool
    ensures { IsTrue result ↔ IsWaiting i before to (said fact.now) }
{
    match due_in(fact, i, before) {
        Some(Some(due)) => to < due,
        Some(None) => true,
        None => false,
    }
}

/// The first fact that says so, if there is one.
fn waiting(i: EqId, before: u64, to: Time, facts: &[Fact]) -> Option<&Fact>
    ensures some { IfSome result (λ f. IsWaiting i before to (said f.now) × Contains (map said facts.now) (said f.now)) }
    ensures none { IfNone result ((f : rules.Fact) → Contains (map said facts.now) f → ¬ IsWaiting i before to f) }
{
    for fact in facts {
        if is_waiting(fact, i, before, to) {
            return Some(fact);
        }
    }
    None
}

fn is_delay_equation(e: &Equation) -> bool
    ensures { result ≡ is_delay_op e.now.op }
{
    match &e.op {
        Op::Delay => true,
        _ => false,
    }
}

/// Puts the first fact that says so of the equation at a place of the slice, if that is a delay. `false` where no fact says so.
fn put_waiting(
    grounds: &Grounds,
    place: usize,
    before: u64,
    to: Time,
    facts: &[Fact],
    uses: &mut Vec<Fact>,
) -> Result<bool, NoMemory>
    requires grounds { AreGrounds grounds.now.flat.now grounds.now.slice.now grounds.now.lines.now }
    requires place { place < length grounds.now.slice.now }
    ensures { IfOk result (λ b. PutsWaiting before to grounds.now.flat.now grounds.now.slice.now place
        (map said facts.now) (map said uses.old.items) b (map said uses.new.items)) }
{
    let Some(i) = grounds.slice.get(place) else {
        unreachable!();
    };
    if !is_delay_equation(grounds.flat.equation(*i)) {
        return Ok(true);
    }
    match waiting(*i, before, to, facts) {
        Some(fact) => {
            uses.push(fact.copy()?)?;
            Ok(true)
        }
        None => Ok(false),
    }
}

/// A fact for each delay of the slice, which says that it is due at none of the times after one time up to another. `None` where there is none
/// for one of them.
fn all_waiting(
    alloc: Global,
    grounds: &Grounds,
    before: u64,
    to: Time,
    facts: &[Fact],
) -> Result<Option<Vec<Fact>>, NoMemory>
    requires { AreGrounds grounds.now.flat.now grounds.now.slice.now grounds.now.lines.now }
    ensures { IfOk result (λ r. IsWaitingOf before to
        (filter (λ i. is_delay (equation grounds.now.flat.now i)) grounds.now.slice.now)
        (map said facts.now) (option_map (λ v. map said v.items) r)) }
{
    let mut uses = Vec::new(alloc);
    for place in 0..grounds.slice.len() {
        let put = put_waiting(grounds, place, before, to, facts, &mut uses)?;
        if !put {
            return Ok(None);
        }
    }
    Ok(Some(uses))
}

/// Whether these facts, in some order, are those from which it follows that nothing happens from one time to another.
pub(crate) fn is_gap(
    alloc: Global,
    grounds: &Grounds,
    from: Time,
    to: Time,
    facts: &[Fact],
) -> Result<bool, NoMemory>
    requires { AreGrounds grounds.now.flat.now grounds.now.slice.now grounds.now.lines.now }
    ensures { IfOk result (λ b. IsTrue b ↔ InSomeOrder
        (Follows grounds.now.flat.now grounds.now.slice.now (inputs_of grounds.now.lines.now) (rules.Gap from to)) (map said facts.now)) }
{
    let first = from.get();
    if first == 0 {
        return Ok(false);
    }
    if is_before(to, from) {
        return Ok(false);
    }
    if !is_nothing_given(grounds, from, to) {
        return Ok(false);
    }
    match all_waiting(alloc, grounds, first - 1, to, facts)? {
        Some(uses) => Ok(count_lacking(facts, &uses) == 0),
        None => Ok(false),
    }
}
