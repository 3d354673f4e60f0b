// Which gates matter for what is asked.

use crate::circuit::{Gate, Inputs};
use crate::implied::Pair;
use crate::marks::Marks;
use std::alloc::Global;
use tsl_value::memory::NoMemory;

/// For each gate, which others are asked about where it is on, or where a gate is that needs it. None for a gate that no first gate needs.
#[derive(Drop)]
pub struct Asked {
    pub sets: Vec<Marks>,
    pub relevant: Vec<usize>,
}

/// The inputs of a gate.
pub fn inputs_of(gate: &Gate) -> &[usize] {
    match gate {
        Gate::Leaf => &[],
        Gate::All { inputs } => inputs.numbers(),
        Gate::Any { inputs } => inputs.numbers(),
    }
}

/// Asks for all of a set where a gate is on.
fn ask_all(
    alloc: Global,
    sets: &mut [Marks],
    first: usize,
    seconds: &Marks,
) -> Result<(), NoMemory> {
    let count = sets.len();
    if let Some(set) = sets.get_mut(first) {
        if set.has_no_room() {
            *set = Marks::with_room(alloc, count)?;
        }
        set.add_all(seconds);
    }
    Ok(())
}

/// Asks for one gate where another is on.
fn ask(alloc: Global, sets: &mut [Marks], pair: Pair) -> Result<(), NoMemory> {
    let count = sets.len();
    if let Some(set) = sets.get_mut(pair.first) {
        if set.has_no_room() {
            *set = Marks::with_room(alloc, count)?;
        }
        set.add(pair.second);
    }
    Ok(())
}

/// What is asked of a gate is asked of its inputs.
fn ask_inputs(
    alloc: Global,
    sets: &mut [Marks],
    number: usize,
    gate: &Gate,
) -> Result<(), NoMemory> {
    let asked = match sets.get(number) {
        Some(set) => set.copy(alloc)?,
        None => return Ok(()),
    };
    if asked.has_no_room() {
        return Ok(());
    }
    for input in inputs_of(gate) {
        ask_all(alloc, sets, *input, &asked)?;
    }
    Ok(())
}

/// The gates that are not leaves and that matter for what is asked.
fn relevant(
    alloc: Global,
    gates: &[Gate],
    sets: &[Marks],
    seconds: &mut Marks,
) -> Result<Vec<usize>, NoMemory> {
    for number in 0..sets.len() {
        if !sets[number].has_no_room() {
            seconds.add(number);
        }
    }
    mark_inputs(gates, seconds);
    let mut relevant = Vec::new(alloc);
    for number in 0..gates.len() {
        if seconds.has(number) && !inputs_of(&gates[number]).is_empty() {
            relevant.push(number)?;
        }
    }
    Ok(relevant)
}

/// Marks what marked gates need.
fn mark_inputs(gates: &[Gate], marked: &mut Marks) {
    for number in (0..gates.len()).rev() {
        if marked.has(number) {
            marked.add_each(inputs_of(&gates[number]));
        }
    }
}

impl Asked {
    /// By the pairs, and by each of the firsts with each of the seconds.
    pub fn of(
        alloc: Global,
        gates: &[Gate],
        pairs: &[Pair],
        firsts: &[usize],
        seconds: &[usize],
    ) -> Result<Asked, NoMemory> {
        let mut sets = Vec::new(alloc);
        for _gate in 0..gates.len() {
            sets.push(Marks::without_room(alloc))?;
        }
        let mut marked = Marks::with_room(alloc, gates.len())?;
        marked.add_each(seconds);
        for first in firsts {
            ask_all(alloc, &mut sets, *first, &marked)?;
        }
        for pair in pairs {
            ask(alloc, &mut sets, *pair)?;
            marked.add(pair.second);
        }
        for number in (0..gates.len()).rev() {
            ask_inputs(alloc, &mut sets, number, &gates[number])?;
        }
        let relevant = relevant(alloc, gates, &sets, &mut marked)?;
        Ok(Asked { sets, relevant })
    }
}
