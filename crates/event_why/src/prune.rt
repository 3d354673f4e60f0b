// Steps that no other names, directly or by others, are left out.

ghost use Rattle.std.specs.Prelude.{◌≡◌, ◌<◌, [], ◌∷◌, length, map, IfOk};
ghost use Rattle.std.specs.Option.{option_map};
ghost use Rattle.event_why.specs.inner.Pruned.{AreGroundsMarked, AreKept, AreNumbers, HasKnown, IsEndOf, IsMarkedFrom, IsPruned, IsRenumbered, KeepsMarked, is_marked, new_number, some_of};
ghost use Rattle.event_why.specs.inner.Used.{AreMarked, NamesEarlier};

use crate::draft::{Draft, Known};
use crate::fact::WhyStep;
use crate::used::mark_named;
use std::alloc::Global;
use tsl_value::memory::NoMemory;

/// Below so many steps nothing is left out on the way.
const FEW_STEPS: usize = 1024;

/// Whether a place is marked.
fn is_marked(marks: &[bool], place: usize) -> bool
    ensures { result ≡ is_marked marks.now place }
{
    place < marks.len() && marks[place]
}

/// Marks what each marked step names, and so on.
fn mark_grounds(steps: &[WhyStep], marks: &mut [bool])
    requires { length marks.old ≡ length steps.now }
    ensures { NamesEarlier steps.now → AreGroundsMarked steps.now marks.old marks.new }
{
    for place in (0..steps.len()).rev() {
        if is_marked(marks, place) {
            mark_named(&steps[place].by, marks);
        }
    }
}

/// The numbers that the marked steps have once the others are left out.
fn new_numbers(alloc: Global, marks: &[bool]) -> Result<Vec<u64>, NoMemory>
    ensures { IfOk result (λ v. AreNumbers marks.now v.items) }
{
    let mut numbers = Vec::new(alloc);
    let mut next = 0;
    for marked in marks {
        numbers.push(next)?;
        if *marked {
            next += 1;
        }
    }
    Ok(numbers)
}

/// The new number of a step.
fn renumbered(number: u64, numbers: &[u64]) -> u64
    ensures { result ≡ new_number numbers.now number }
{
    match numbers.get(number as usize) {
        Some(new) => *new,
        None => number,
    }
}

fn renumber(by: &mut [u64], numbers: &[u64])
    ensures { by.new ≡ map (new_number numbers.now) by.old }
{
    for n in by.iter_mut() {
        *n = renumbered(*n, numbers);
    }
}

/// The same fact, by new numbers.
fn renumbered_step(step: WhyStep, numbers: &[u64]) -> WhyStep
    ensures { IsRenumbered numbers.now step result }
{
    let WhyStep { fact, mut by } = step;
    renumber(&mut by, numbers);
    WhyStep { fact, by }
}

/// The marked steps, by their new numbers.
fn kept_steps(
    alloc: Global,
    steps: Vec<WhyStep>,
    marks: &[bool],
    numbers: &[u64],
) -> Result<Vec<WhyStep>, NoMemory>
    requires { length marks.now ≡ length steps.items }
    ensures { IfOk result (λ v. AreKept numbers.now marks.now steps.items v.items) }
{
    let mut kept = Vec::new(alloc);
    for (place, step) in steps.into_iter().enumerate() {
        if is_marked(marks, place) {
            kept.push(renumbered_step(step, numbers))?;
        }
    }
    Ok(kept)
}

/// Marks the step with a number, and those that it stands on.
fn mark_from(steps: &[WhyStep], last: u64, marks: &mut [bool])
    requires { length marks.old ≡ length steps.now }
    ensures { NamesEarlier steps.now → last < length steps.now → IsMarkedFrom steps.now last marks.old marks.new }
{
    mark_named(&[last], marks);
    mark_grounds(steps, marks);
}

/// The step with a number, and those that it stands on.
pub(crate) fn grounds_of(
    alloc: Global,
    steps: Vec<WhyStep>,
    last: u64,
) -> Result<Vec<WhyStep>, NoMemory>
    ensures { IfOk result (λ v. IsEndOf steps.items last v.items) }
{
    let mut marks = vec![in alloc; false; steps.len()]?;
    mark_from(&steps, last, &mut marks);
    let numbers = new_numbers(alloc, &marks)?;
    kept_steps(alloc, steps, &marks, &numbers)
}

/// Marks a number, if there is one.
fn mark_some(number: &Option<u64>, marks: &mut [bool])
    ensures { AreMarked (some_of (number.now ∷ [])) marks.old marks.new }
{
    if let Some(n) = number {
        mark_named(&[*n], marks);
    }
}

/// Marks the numbers of a table.
fn mark_known(known: &Known, marks: &mut [bool])
    ensures { AreMarked (some_of known.now.numbers.items) marks.old marks.new }
{
    for number in &known.numbers {
        mark_some(number, marks);
    }
}

/// The new number, if there is one.
fn renumbered_some(number: Option<u64>, numbers: &[u64]) -> Option<u64>
    ensures { result ≡ option_map (new_number numbers.now) number }
{
    match number {
        Some(n) => Some(renumbered(n, numbers)),
        None => None,
    }
}

fn renumber_all(known: &mut [Option<u64>], numbers: &[u64])
    ensures { known.new ≡ map (option_map (new_number numbers.now)) known.old }
{
    for number in known.iter_mut() {
        *number = renumbered_some(*number, numbers);
    }
}

fn renumber_known(known: &mut Known, numbers: &[u64])
    ensures { known.new.numbers.items ≡ map (option_map (new_number numbers.now)) known.old.numbers.items }
{
    renumber_all(&mut known.numbers, numbers);
}

/// Marks what may be named after an instant, and what that stands on.
fn mark_all_known(draft: &Draft, marks: &mut [bool])
    requires { length marks.old ≡ length draft.now.steps.items }
    ensures { NamesEarlier draft.now.steps.items → HasKnown draft.now marks.new }
{
    mark_known(&draft.latest, marks);
    mark_known(&draft.quiet, marks);
    mark_known(&draft.pending, marks);
    mark_grounds(&draft.steps, marks);
}

/// The marks of what may be named after an instant.
fn marked_known(alloc: Global, draft: &Draft) -> Result<Vec<bool>, NoMemory>
    ensures one_each { IfOk result (λ v. length v.items ≡ length draft.now.steps.items) }
    ensures known { IfOk result (λ v. NamesEarlier draft.now.steps.items → HasKnown draft.now v.items) }
{
    let mut marks = vec![in alloc; false; draft.steps.len()]?;
    mark_all_known(draft, &mut marks);
    Ok(marks)
}

/// Leaves out the steps that are not marked.
fn keep_marked(alloc: Global, draft: &mut Draft, marks: &[bool]) -> Result<(), NoMemory>
    requires { length marks.now ≡ length draft.old.steps.items }
    ensures { IfOk result (λ _. KeepsMarked marks.now draft.old draft.new) }
{
    let numbers = new_numbers(alloc, marks)?;
    let steps = std::mem::replace(&mut draft.steps, Vec::new(alloc));
    draft.steps = kept_steps(alloc, steps, marks, &numbers)?;
    draft.kept = draft.steps.len();
    renumber_known(&mut draft.latest, &numbers);
    renumber_known(&mut draft.quiet, &numbers);
    renumber_known(&mut draft.pending, &numbers);
    Ok(())
}

/// Leaves out of a draft, between two instants, what no later step can name.
fn prune(alloc: Global, draft: &mut Draft) -> Result<(), NoMemory>
    ensures { IfOk result (λ _. IsPruned draft.old draft.new) }
{
    let marks = marked_known(alloc, draft)?;
    keep_marked(alloc, draft, &marks)
}

/// Once a draft has doubled. So its size stays near to that of what may be named.
pub(crate) fn prune_if_large(alloc: Global, draft: &mut Draft) -> Result<(), NoMemory>
    ensures { IfOk result (λ _. IsPruned draft.old draft.new) }
{
    let count = draft.steps.len();
    if count < FEW_STEPS || count / 2 < draft.kept {
        return Ok(());
    }
    prune(alloc, draft)
}
