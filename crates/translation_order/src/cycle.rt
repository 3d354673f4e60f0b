// The cycle that is answered where steps have no order.

ghost use Rattle.std.specs.Prelude.{◌≡◌, ◌<◌, ◌++◌, length, nat_lt, replicate, false, slice_index, IfOk, OnOk};
ghost use Rattle.std.specs.List.{Contains, IsFirstBest};
ghost use Rattle.translation_order.specs.Order.{AreOfSteps};
ghost use Rattle.translation_order.specs.Cycle.{IsTurned};
ghost use Rattle.translation_order.specs.inner.Walking.{lesser_of, AreLeastBefore, AreInside, Walked, IsWalkedCycle};

use crate::steps::Steps;
use std::alloc::Global;
use tsl_value::memory::NoMemory;

fn lesser(known: Option<u32>, step: u32) -> u32
    ensures { result ≡ lesser_of known step }
{
    match known {
        Some(known) => known.min(step),
        None => step,
    }
}

/// For each step the least step that waits and has to stand before it.
fn least_before(
    alloc: Global,
    pairs: &[(u32, u32)],
    waits: &[usize],
) -> Result<Vec<Option<u32>>, NoMemory>
    requires { AreOfSteps (length waits.now) pairs.now }
    ensures { IfOk result (λ b. AreLeastBefore (length waits.now) pairs.now waits.now b.items) }
{
    let mut before = vec![in alloc; None; waits.len()]?;
    for (first, second) in pairs {
        if waits[*first as usize] > 0 {
            let place = *second as usize;
            before[place] = Some(lesser(before[place], *first));
        }
    }
    Ok(before)
}

/// Where a walk ended: the steps that it came to, each once, and the one that came again.
#[derive(Drop)]
struct Walk {
    steps: Steps,
    again: u32,
}

/// No step was seen.
fn unseen(alloc: Global, steps: usize) -> Result<Vec<bool>, NoMemory>
    ensures { IfOk result (λ s. s.items ≡ replicate steps false) }
{
    Ok(vec![in alloc; false; steps]?)
}

/// Walks from a step to the one that is named before it, and so on.
fn walk_from(alloc: Global, before: &[Option<u32>], start: u32) -> Result<Walk, NoMemory>
    requires start { start < length before.now }
    requires inside { AreInside before.now }
    ensures { IfOk result (λ w. Walked before.now start w.steps w.again) }
{
    let mut seen = unseen(alloc, before.len())?;
    let mut steps = Steps::new(alloc);
    let mut at = start;
    while !seen[at as usize] {
        seen[at as usize] = true;
        steps.push(at)?;
        at = before[at as usize].unwrap_or(at);
    }
    Ok(Walk { steps, again: at })
}

/// The place of a step.
fn place_of(steps: &[u32], step: u32) -> usize
    requires { Contains steps.now step }
    ensures there { result < length steps.now }
    ensures is { slice_index steps.now result ≡ step }
{
    for place in 0..steps.len() {
        if steps[place] == step {
            return place;
        }
    }
    0
}

/// The place of the least step.
fn place_of_least(steps: &[u32]) -> usize
    requires { 0 < length steps.now }
    ensures { IsFirstBest nat_lt steps.now (length steps.now) result }
{
    let mut best = 0;
    for i in 1..steps.len() {
        if steps[i] < steps[best] {
            best = i;
        }
    }
    best
}

fn push_all(list: &mut Steps, steps: &[u32]) -> Result<(), NoMemory>
    ensures { OnOk result (list.new ≡ list.old ++ steps.now) }
{
    for step in steps {
        list.push(*step)?;
    }
    Ok(())
}

/// The same circle the other way around, from its least step on.
fn turned(alloc: Global, steps: &[u32]) -> Result<Steps, NoMemory>
    requires { 0 < length steps.now }
    ensures { IfOk result (IsTurned steps.now) }
{
    let mut backward = Vec::from_slice(alloc, steps)?;
    backward.reverse();
    let (front, back) = backward
        .as_slice()
        .split_at(place_of_least(backward.as_slice()));
    let mut cycle = Steps::new(alloc);
    push_all(&mut cycle, back)?;
    push_all(&mut cycle, front)?;
    Ok(cycle)
}

/// The cycle at the end of the walk that begins at a step and goes on to the least waiting step before it.
pub fn cycle_from(
    alloc: Global,
    pairs: &[(u32, u32)],
    waits: &[usize],
    start: u32,
) -> Result<Steps, NoMemory>
    requires pairs { AreOfSteps (length waits.now) pairs.now }
    requires start { start < length waits.now }
    ensures { IfOk result (IsWalkedCycle pairs.now waits.now start) }
{
    let before = least_before(alloc, pairs, waits)?;
    let walk = walk_from(alloc, before.as_slice(), start)?;
    let steps = walk.steps.as_slice();
    turned(alloc, &steps[place_of(steps, walk.again)..])
}
