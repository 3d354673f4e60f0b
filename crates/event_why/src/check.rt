// The check of a derivation.

ghost use Rattle.std.specs.Prelude.{◌≡◌, ◌↔◌, ◌<◌, ◌≤◌, ℕ, length, IfNone, IfOk, IfSome, IsTrue, MatchOption, Some, map, slice_get, vec_items};
ghost use Rattle.std.specs.Option.{option_map};
ghost use Rattle.tsl_value.specs.View.{View};
ghost use Rattle.flat_core.specs.Line.{IsSorted, inputs_of};
ghost use Rattle.flat_core.specs.declared.equation.Output.{Output};
ghost use Rattle.flat_core.specs.WellFormed.{IsWellFormed};
ghost use Rattle.flat_core.specs.inner.TypedLines.{AreTypedLines};
ghost use Rattle.event_why.specs.Said.{said};
ghost use Rattle.event_why.specs.Check.{AreRight, EndsInEvent, IsChecked, IsFirstWrong, IsForced, IsJudged, IsRight};
ghost use Rattle.event_why.specs.inner.Grounds.{AreGrounds, AreTypedFacts};
ghost use Rattle.event_why.specs.inner.Judged.{IsEnded, IsRest};
ghost use Rattle.event_why.specs.inner.Named.{IsNaming};
ghost use Rattle.event_why.specs.inner.Used.{NamesEarlier};

use crate::fact::{Fact, Why, WhyFault, WhyStep};
use crate::grounds::Grounds;
use crate::search::follows_in_some_order;
use crate::used::first_unused;
use flat_core::flat::Flat;
use flat_core::line::TraceLine;
use flat_slice::slice::slice_of;
use std::alloc::Global;
use tsl_value::ids::EqId;
use tsl_value::memory::NoMemory;

/// The facts with these numbers, if all of them come before a step.
fn named_facts(
    alloc: Global,
    steps: &[WhyStep],
    step: usize,
    by: &[u64],
) -> Result<Option<Vec<Fact>>, NoMemory>
    requires { step ≤ length steps.now }
    ensures { IfOk result (λ r. IsNaming steps.now step by.now (option_map (λ v. map said v.items) r)) }
{
    let mut facts = Vec::new(alloc);
    for n in by {
        if *n >= step as u64 {
            return Ok(None);
        }
        facts.push(steps[*n as usize].fact.copy()?)?;
    }
    Ok(Some(facts))
}

/// Whether the fact of a step follows from the earlier facts that it names, where these follow from earlier ones.
fn is_right(
    alloc: Global,
    grounds: &Grounds,
    steps: &[WhyStep],
    step: usize,
) -> Result<bool, NoMemory>
    requires there { step < length steps.now }
    requires grounds { AreGrounds grounds.now.flat.now grounds.now.slice.now grounds.now.lines.now }
    requires typed_lines { AreTypedLines grounds.now.flat.now grounds.now.lines.now }
    requires before { AreRight grounds.now.flat.now grounds.now.slice.now (inputs_of grounds.now.lines.now) steps.now step }
    ensures { IfOk result (λ b. IsTrue b
        ↔ IsRight grounds.now.flat.now grounds.now.slice.now (inputs_of grounds.now.lines.now) steps.now step) }
{
    match named_facts(alloc, steps, step, &steps[step].by)? {
        Some(named) => follows_in_some_order(alloc, grounds, &steps[step].fact, &named),
        None => Ok(false),
    }
}

/// The first step that is not right.
fn first_wrong(alloc: Global, grounds: &Grounds, steps: &[WhyStep]) -> Result<Option<u64>, NoMemory>
    requires grounds { AreGrounds grounds.now.flat.now grounds.now.slice.now grounds.now.lines.now }
    requires typed_lines { AreTypedLines grounds.now.flat.now grounds.now.lines.now }
    ensures { IfOk result (λ r. MatchOption r
        (AreRight grounds.now.flat.now grounds.now.slice.now (inputs_of grounds.now.lines.now) steps.now (length steps.now))
        (λ k. IsFirstWrong grounds.now.flat.now grounds.now.slice.now (inputs_of grounds.now.lines.now) steps.now k)) }
{
    for step in 0..steps.len() {
        let right = is_right(alloc, grounds, steps, step)?;
        if !right {
            return Ok(Some(step as u64));
        }
    }
    Ok(None)
}

/// Whether the last fact is an event of an equation.
fn ends_in_event(steps: &[WhyStep], equation: EqId) -> bool
    ensures { IsTrue result ↔ ((t : ℕ) × (v : View) × EndsInEvent steps.now equation t v) }
{
    match steps.last() {
        Some(step) => match &step.fact {
            Fact::Event {
                equation: i,
                time: _,
                value: _,
            } => *i == equation,
            _ => false,
        },
        None => false,
    }
}

/// The equation of an output.
fn equation_of(flat: &Flat, output: u32) -> EqId
    requires { output < length flat.now.outputs }
    ensures { (o : Output) → slice_get flat.now.outputs output ≡ Some o → result ≡ o.equation }
{
    flat.outputs()[output as usize].equation
}

/// That the last fact is no event of an output, where it isn't.
fn ended(flat: &Flat, output: u32, steps: &[WhyStep]) -> Option<WhyFault>
    requires { output < length flat.now.outputs }
    ensures { (o : Output) → slice_get flat.now.outputs output ≡ Some o → IsEnded steps.now o.equation result }
{
    if ends_in_event(steps, equation_of(flat, output)) {
        None
    } else {
        Some(WhyFault::NoEvent)
    }
}

/// What is wrong with steps of which each is right, if anything is.
fn judged_right(
    alloc: Global,
    flat: &Flat,
    output: u32,
    steps: &[WhyStep],
) -> Result<Option<WhyFault>, NoMemory>
    requires there { output < length flat.now.outputs }
    requires earlier { NamesEarlier steps.now }
    ensures { IfOk result (λ f. (o : Output) → slice_get flat.now.outputs output ≡ Some o → IsRest steps.now o.equation f) }
{
    match first_unused(alloc, steps)? {
        Some(fact) => Ok(Some(WhyFault::Unused { fact })),
        None => Ok(ended(flat, output, steps)),
    }
}

/// What is wrong with the steps, if anything is.
fn judged(
    alloc: Global,
    flat: &Flat,
    lines: &[TraceLine],
    output: u32,
    steps: &[WhyStep],
) -> Result<Option<WhyFault>, NoMemory>
    requires there { output < length flat.now.outputs }
    requires well_formed { IsWellFormed flat.now }
    requires sorted { IsSorted lines.now }
    requires typed { AreTypedLines flat.now lines.now }
    ensures { IfOk result (λ fault. IsJudged flat.now (inputs_of lines.now) output steps.now fault) }
{
    flat.assert_whole();
    let slice = slice_of(alloc, flat, output)?;
    let grounds = Grounds {
        flat,
        slice: &slice,
        lines,
    };
    match first_wrong(alloc, &grounds, steps)? {
        Some(fact) => Ok(Some(WhyFault::Wrong { fact })),
        None => judged_right(alloc, flat, output, steps),
    }
}

/// Checks a derivation of an event of the output with this number, counted from 0, for the events that the lines have.
///
/// `Wrong` comes exactly where a fact follows by no rule from the earlier facts that it names, with the first such fact; else `Unused`
/// exactly where no later fact names one that is not the last, with the first such fact; else `NoEvent` exactly where there is no fact or
/// the last one is no event of the output. What is accepted happens in each solution in which nothing on which the output can depend has
/// had a fault.
pub fn check_why(
    alloc: Global,
    flat: &Flat,
    lines: &[TraceLine],
    output: u32,
    why: &Why,
) -> Result<(), WhyFault>
    requires there { output < length flat.now.outputs }
    requires well_formed { IsWellFormed flat.now }
    requires sorted { IsSorted lines.now }
    requires typed { AreTypedLines flat.now lines.now }
    ensures checked { IsChecked flat.now (inputs_of lines.now) output why.now.steps.items result }
    ensures forced { IfOk result (λ _. IsForced flat.now (inputs_of lines.now) output why.now.steps.items) }
{
    flat.assert_whole();
    match judged(alloc, flat, lines, output, &why.steps) {
        Ok(None) => Ok(()),
        Ok(Some(fault)) => Err(fault),
        Err(NoMemory) => Err(WhyFault::Memory),
    }
}
