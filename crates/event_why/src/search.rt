// Facts in whatever order, and however often, they are named.

ghost use Rattle.std.specs.Prelude.{◌≡◌, ◌↔◌, ◌≤◌, [], ◌∷◌, IfOk, IsFalse, IsTrue, OnOk, map};
ghost use Rattle.std.specs.List.{Contains};
ghost use Rattle.flat_core.specs.Line.{inputs_of};
ghost use Rattle.why_rules.specs.Rules.{Follows};
ghost use Rattle.event_why.specs.Said.{said};
ghost use Rattle.event_why.specs.Check.{HaveSame};
ghost use Rattle.event_why.specs.inner.Grounds.{AreGrounds, AreTypedFacts};
ghost use Rattle.event_why.specs.inner.Search.{AreDistinct, EndsWell, FollowsSo, InSomeOrder, IsPutOnce, Lack};

use crate::fact::Fact;
use crate::gap::is_gap;
use crate::grounds::Grounds;
use crate::rule::follows;
use std::alloc::Global;
use tsl_value::memory::NoMemory;

/// No rule but that of gaps uses more facts: there is one for each argument of an equation at most.
const MOST_USED: usize = 8;

/// The fact is one of these.
fn is_among(fact: &Fact, facts: &[Fact]) -> bool
    ensures { IsTrue result ↔ Contains (map said facts.now) (said fact.now) }
{
    for other in facts {
        if other.is_same(fact) {
            return true;
        }
    }
    false
}

/// 1 where the fact is not among the chosen ones, and else 0.
fn lacks_one(fact: &Fact, chosen: &[Fact]) -> usize
    ensures few { result ≤ 1 }
    ensures one { Lack (map said chosen.now) (said fact.now ∷ []) result }
{
    if is_among(fact, chosen) { 0 } else { 1 }
}

/// How many of the facts are not among the chosen ones.
pub(crate) fn count_lacking(facts: &[Fact], chosen: &[Fact]) -> usize
    ensures { Lack (map said chosen.now) (map said facts.now) result }
{
    let mut count = 0;
    for fact in facts {
        count += lacks_one(fact, chosen);
    }
    count
}

/// Puts a fact to others, if it is not among them.
fn put_once(fact: &Fact, once: &mut Vec<Fact>) -> Result<(), NoMemory>
    ensures { OnOk result (IsPutOnce (said fact.now) (map said once.old.items) (map said once.new.items)) }
{
    if is_among(fact, once) {
        return Ok(());
    }
    let copy = fact.copy()?;
    once.push(copy)?;
    Ok(())
}

/// Each of the facts once.
fn each_once(alloc: Global, facts: &[Fact]) -> Result<Vec<Fact>, NoMemory>
    ensures same { IfOk result (λ v. HaveSame (map said v.items) (map said facts.now)) }
    ensures distinct { IfOk result (λ v. AreDistinct (map said v.items)) }
{
    let mut once = Vec::new(alloc);
    for fact in facts {
        put_once(fact, &mut once)?;
    }
    Ok(once)
}

/// Whether all that are named are among the chosen facts, and the fact follows from these in their order.
fn is_end(
    alloc: Global,
    grounds: &Grounds,
    fact: &Fact,
    named: &[Fact],
    chosen: &[Fact],
) -> Result<bool, NoMemory>
    requires grounds { AreGrounds grounds.now.flat.now grounds.now.slice.now grounds.now.lines.now }
    requires chosen { AreTypedFacts grounds.now.flat.now (map said chosen.now) }
    ensures { IfOk result (λ b. IsTrue b ↔ EndsWell
        (FollowsSo grounds.now.flat.now grounds.now.slice.now (inputs_of grounds.now.lines.now) (said fact.now))
        (map said named.now) (map said chosen.now) 0) }
{
    if count_lacking(named, chosen) > 0 {
        return Ok(false);
    }
    follows(alloc, grounds, fact, chosen)
}

/// Whether the fact follows from the chosen facts and then at most so many of the named ones, in some order and with all that are named.
/// Where it doesn't, the chosen ones are as they were.
fn follows_from(
    alloc: Global,
    grounds: &Grounds,
    fact: &Fact,
    named: &[Fact],
    chosen: &mut Vec<Fact>,
    room: usize,
) -> Result<bool, NoMemory>
    requires grounds { AreGrounds grounds.now.flat.now grounds.now.slice.now grounds.now.lines.now }
    requires distinct { AreDistinct (map said named.now) }
    requires named { AreTypedFacts grounds.now.flat.now (map said named.now) }
    requires chosen { AreTypedFacts grounds.now.flat.now (map said chosen.old.items) }
    ensures order { IfOk result (λ b. IsTrue b ↔ EndsWell
        (FollowsSo grounds.now.flat.now grounds.now.slice.now (inputs_of grounds.now.lines.now) (said fact.now))
        (map said named.now) (map said chosen.old.items) room) }
    ensures kept { IfOk result (λ b. IsFalse b → map said chosen.new.items ≡ map said chosen.old.items) }
{
    let ends = is_end(alloc, grounds, fact, named, chosen)?;
    if ends {
        return Ok(true);
    }
    if count_lacking(named, chosen) > room {
        return Ok(false);
    }
    if room == 0 {
        return Ok(false);
    }
    let before = chosen.len();
    for next in named {
        let copy = next.copy()?;
        chosen.push(copy)?;
        let found = follows_from(alloc, grounds, fact, named, chosen, room - 1)?;
        if found {
            return Ok(true);
        }
        chosen.truncate(before);
    }
    Ok(false)
}

/// Whether a fact, which is no gap, follows by a rule that uses just these facts, in some order.
fn is_found(alloc: Global, grounds: &Grounds, fact: &Fact, named: &[Fact]) -> Result<bool, NoMemory>
    requires grounds { AreGrounds grounds.now.flat.now grounds.now.slice.now grounds.now.lines.now }
    requires typed { AreTypedFacts grounds.now.flat.now (map said named.now) }
    ensures { IfOk result (λ b. IsTrue b ↔ InSomeOrder
        (FollowsSo grounds.now.flat.now grounds.now.slice.now (inputs_of grounds.now.lines.now) (said fact.now)) (map said named.now)) }
{
    // Mostly they are named as the rule uses them.
    let direct = follows(alloc, grounds, fact, named)?;
    if direct {
        return Ok(true);
    }
    let once = each_once(alloc, named)?;
    let mut chosen = Vec::new(alloc);
    follows_from(alloc, grounds, fact, &once, &mut chosen, MOST_USED)
}

/// Whether a fact follows by a rule that uses just these facts, in some order.
pub(crate) fn follows_in_some_order(
    alloc: Global,
    grounds: &Grounds,
    fact: &Fact,
    named: &[Fact],
) -> Result<bool, NoMemory>
    requires grounds { AreGrounds grounds.now.flat.now grounds.now.slice.now grounds.now.lines.now }
    requires typed { AreTypedFacts grounds.now.flat.now (map said named.now) }
    ensures { IfOk result (λ b. IsTrue b ↔ InSomeOrder
        (Follows grounds.now.flat.now grounds.now.slice.now (inputs_of grounds.now.lines.now) (said fact.now)) (map said named.now)) }
{
    match fact {
        Fact::Gap { from, to } => is_gap(alloc, grounds, *from, *to, named),
        Fact::Event {
            equation: _,
            time: _,
            value: _,
        } => is_found(alloc, grounds, fact, named),
        Fact::Silent {
            equation: _,
            from: _,
            to: _,
        } => is_found(alloc, grounds, fact, named),
        Fact::Pending {
            equation: _,
            time: _,
            due: _,
        } => is_found(alloc, grounds, fact, named),
    }
}
