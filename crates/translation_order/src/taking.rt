// Takes steps away, the least first, each once no step before it is left.

ghost use Rattle.std.specs.Prelude.{◌≡◌, ◌<◌, ◌≤◌, ◌^◌, ℕ, [], length, slice_index, replicate, IfOk, OnOk, MatchOption, All};
ghost use Rattle.translation_order.specs.Least.{IsLeast};
ghost use Rattle.translation_order.specs.Order.{AreOfSteps};
ghost use Rattle.translation_order.specs.inner.Taking.{times, AreSeconds, AreWaits, AreFree, AreReleased, IsTaken};

use crate::steps::Steps;
use std::alloc::Global;
use std::collections::BTreeSet;
use tsl_value::memory::NoMemory;

/// The steps that were taken away, and for each step the number of pairs for which it still waits.
#[derive(Drop)]
pub struct Taken {
    pub listed: Steps,
    pub waits: Vec<usize>,
}

/// For each step the seconds of its pairs.
fn seconds(alloc: Global, steps: usize, pairs: &[(u32, u32)]) -> Result<Vec<Steps>, NoMemory>
    requires { AreOfSteps steps pairs.now }
    ensures { IfOk result (λ s. AreSeconds steps pairs.now s.items) }
{
    let mut seconds = no_steps(alloc, steps)?;
    for (first, second) in pairs {
        let of_first = &mut seconds[*first as usize];
        of_first.push(*second)?;
    }
    Ok(seconds)
}

/// So many empty lists.
fn no_steps(alloc: Global, count: usize) -> Result<Vec<Steps>, NoMemory>
    ensures { IfOk result (λ s. s.items ≡ replicate count []) }
{
    let mut lists = Vec::new(alloc);
    for _ in 0..count {
        lists.push(Steps::new(alloc))?;
    }
    Ok(lists)
}

/// For each step the number of its pairs, as their second.
fn counts(alloc: Global, steps: usize, pairs: &[(u32, u32)]) -> Result<Vec<usize>, NoMemory>
    requires { AreOfSteps steps pairs.now }
    ensures { IfOk result (λ w. AreWaits steps pairs.now [] w.items) }
{
    let mut waits = vec![in alloc; 0usize; steps]?;
    for (_, second) in pairs {
        waits[*second as usize] += 1;
    }
    Ok(waits)
}

/// The steps that wait for no pair.
fn free_steps(alloc: Global, waits: &[usize]) -> Result<BTreeSet<u32>, NoMemory>
    requires { length waits.now < 2 ^ 32 }
    ensures { IfOk result (AreFree (length waits.now) [] waits.now) }
{
    let mut free = BTreeSet::new(alloc);
    for step in 0..waits.len() {
        if waits[step] == 0 {
            free.insert(step as u32)?;
        }
    }
    Ok(free)
}

/// Lets each of these steps wait for one pair less. Those that wait for none any more become free.
fn release(free: &mut BTreeSet<u32>, waits: &mut [usize], steps: &[u32]) -> Result<(), NoMemory>
    requires there { All (λ x. x < length waits.old) steps.now }
    requires waits { (x : ℕ) → times x steps.now ≤ slice_index waits.old x }
    ensures { OnOk result (AreReleased steps.now waits.old waits.new free.old free.new) }
{
    for step in steps {
        let place = *step as usize;
        waits[place] -= 1;
        if waits[place] == 0 {
            free.insert(*step)?;
        }
    }
    Ok(())
}

/// Takes all steps away that can be.
pub fn take_all(alloc: Global, steps: u32, pairs: &[(u32, u32)]) -> Result<Taken, NoMemory>
    requires { AreOfSteps steps pairs.now }
    ensures { IfOk result (λ t. IsTaken steps pairs.now t.listed t.waits.items) }
{
    let seconds = seconds(alloc, steps as usize, pairs)?;
    let mut waits = counts(alloc, steps as usize, pairs)?;
    let mut free = free_steps(alloc, waits.as_slice())?;
    let mut listed = Steps::new(alloc);
    while let Some(step) = free.pop_first() {
        listed.push(step)?;
        release(
            &mut free,
            waits.as_mut_slice(),
            seconds[step as usize].as_slice(),
        )?;
    }
    Ok(Taken { listed, waits })
}

/// The least step that waits.
pub fn first_waiting(waits: &[usize]) -> Option<u32>
    requires { length waits.now < 2 ^ 32 }
    ensures { MatchOption result ((x : ℕ) → slice_index waits.now x ≡ 0) (IsLeast (λ x. 0 < slice_index waits.now x)) }
{
    for step in 0..waits.len() {
        if waits[step] > 0 {
            return Some(step as u32);
        }
    }
    None
}
