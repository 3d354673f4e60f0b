// How the parts of code stand to each other.

ghost use Rattle.std.specs.Prelude.{◌≡◌, ◌<◌, ◌≤◌, ◌∷◌, [], Some, length, map, slice_get, slice_index, IfOk};
ghost use Rattle.std.specs.List.{list_all};
ghost use Rattle.std.specs.String.{string_bytes};
ghost use Rattle.flat_core.specs.System.{runs};
ghost use Rattle.flat_core.specs.Updates as updates;
ghost use Rattle.flat_core.specs.Updates.{running_updates};
ghost use Rattle.flat_core.specs.declared.limits.TheConstants.{MOST_EQUATIONS};
ghost use Rattle.alias_rules.specs.Steps as steps;
ghost use Rattle.code_reader.specs.Parts.{code_in};
ghost use Rattle.code_reader.specs.inner.Joined.{is_joined, is_sound, run};
ghost use Rattle.code_reader.specs.inner.Names.{Adds, are_apart, input_names, output_names};

use crate::parts::Parts;
use code_file::types::is_input;
use flat_core::equation::{Equation, Output};
use std::alloc::Global;
use std::collections::BTreeSet;
use stream_constructs::limits::MOST_UPDATES;
use tsl_value::ids::EqId;
use tsl_value::memory::NoMemory;
use tsl_value::text::Text;

/// Adds a name, unless it is there already. Names are kept in their order: whoever writes a file could make hashes collide.
fn add_name(alloc: Global, names: &mut BTreeSet<String>, name: &str) -> Result<bool, NoMemory>
    ensures { IfOk result (Adds (map string_bytes names.old.keys) (map string_bytes names.new.keys) (Some name.now ∷ [])) }
{
    let name = String::from_str(alloc, name)?;
    let is_new = names.insert(name)?;
    Ok(is_new)
}

/// Adds the name of an input, which has to have one.
fn add_input(
    alloc: Global,
    names: &mut BTreeSet<String>,
    name: &Option<Text>,
) -> Result<bool, NoMemory>
    ensures { IfOk result (Adds (map string_bytes names.old.keys) (map string_bytes names.new.keys) (name.now ∷ [])) }
{
    match name {
        Some(name) => add_name(alloc, names, name.as_str()),
        None => Ok(false),
    }
}

/// Adds the name of an equation that is an input.
fn add_equation(
    alloc: Global,
    names: &mut BTreeSet<String>,
    equation: &Equation,
) -> Result<bool, NoMemory>
    ensures { IfOk result (Adds (map string_bytes names.old.keys) (map string_bytes names.new.keys) (input_names (equation.now ∷ []))) }
{
    if is_input(&equation.op) {
        add_input(alloc, names, &equation.name)
    } else {
        Ok(true)
    }
}

/// Whether all inputs have names, and no two of them the same.
fn inputs_are_apart(alloc: Global, equations: &[Equation]) -> Result<bool, NoMemory>
    ensures { IfOk result (λ r. r ≡ are_apart [] (input_names equations.now)) }
{
    let mut names = BTreeSet::new(alloc);
    for equation in equations {
        if !add_equation(alloc, &mut names, equation)? {
            return Ok(false);
        }
    }
    Ok(true)
}

/// Whether no two outputs have the same name.
fn outputs_are_apart(alloc: Global, outputs: &[Output]) -> Result<bool, NoMemory>
    ensures { IfOk result (λ r. r ≡ are_apart [] (output_names outputs.now)) }
{
    let mut names = BTreeSet::new(alloc);
    for output in outputs {
        if !add_name(alloc, &mut names, output.name.as_str())? {
            return Ok(false);
        }
    }
    Ok(true)
}

fn is_running_update(parts: &Parts, number: u32) -> bool
    ensures { result ≡ updates.is_running_update (code_in parts.now).system number }
{
    parts.running.contains(EqId::new(number)) && is_update_at(&parts.equations, number)
}

fn is_update_at(equations: &[Equation], number: u32) -> bool
    ensures { result ≡ updates.is_update_at (slice_get equations.now number) }
{
    match equations.get(number as usize) {
        Some(equation) => equation.op.is_update(),
        None => false,
    }
}

/// How many updates run.
fn count_updates(parts: &Parts) -> u32
    requires { length parts.now.equations.items ≤ MOST_EQUATIONS }
    ensures { result ≡ length (running_updates (code_in parts.now).system) }
{
    let mut count = 0;
    for number in 0..parts.equations.len() as u32 {
        if is_running_update(parts, number) {
            count += 1;
        }
    }
    count
}

fn outputs_run(parts: &Parts) -> bool
    ensures { result ≡ list_all (λ o. runs (code_in parts.now).system o.equation) parts.now.outputs.items }
{
    parts
        .outputs
        .iter()
        .all(|output| parts.running.contains(output.equation))
}

/// Whether the member at a place of the plan's set is a running update.
fn member_runs(parts: &Parts, place: usize) -> bool
    requires { place < length parts.now.plan.in_place }
    ensures { result ≡ updates.is_running_update (code_in parts.now).system (slice_index parts.now.plan.in_place place) }
{
    match parts.plan.in_place.get(place) {
        Some(id) => is_running_update(parts, id.get()),
        None => unreachable!(),
    }
}

/// Whether all members of the plan's set are running updates.
fn updates_run(parts: &Parts) -> bool
    ensures { result ≡ list_all (updates.is_running_update (code_in parts.now).system) parts.now.plan.in_place }
{
    for place in 0..parts.plan.in_place.len() {
        if !member_runs(parts, place) {
            return false;
        }
    }
    true
}

/// Whether a number is that of an output's print.
fn is_print(parts: &Parts, step: u32) -> bool
    ensures { result ≡ steps.is_print (code_in parts.now).system step }
{
    let count = parts.equations.len();
    let step = step as usize;
    step >= count && step - count < parts.outputs.len()
}

fn is_step(parts: &Parts, step: u32) -> bool
    ensures { result ≡ steps.is_step (code_in parts.now).system step }
{
    parts.running.contains(EqId::new(step)) || is_print(parts, step)
}

fn are_steps(parts: &Parts) -> bool
    ensures { result ≡ list_all (steps.is_step (code_in parts.now).system) parts.now.plan.order }
{
    parts
        .plan
        .order
        .as_slice()
        .iter()
        .all(|step| is_step(parts, *step))
}

/// Whether outputs run, and the plan has running updates and steps.
fn run(parts: &Parts) -> bool
    ensures { result ≡ run (code_in parts.now) }
{
    outputs_run(parts) && updates_run(parts) && are_steps(parts)
}

/// Whether the parts stand to each other as those of code do, but for names.
fn are_sound(parts: &Parts) -> bool
    requires { length parts.now.equations.items ≤ MOST_EQUATIONS }
    ensures { result ≡ is_sound (code_in parts.now) }
{
    !parts.outputs.is_empty() && count_updates(parts) <= MOST_UPDATES && run(parts)
}

/// Whether the parts stand to each other as those of code do.
pub(crate) fn are_joined(alloc: Global, parts: &Parts) -> Result<bool, NoMemory>
    requires { length parts.now.equations.items ≤ MOST_EQUATIONS }
    ensures { IfOk result (λ r. r ≡ is_joined (code_in parts.now)) }
{
    if !are_sound(parts) {
        return Ok(false);
    }
    if !inputs_are_apart(alloc, &parts.equations)? {
        return Ok(false);
    }
    outputs_are_apart(alloc, &parts.outputs)
}
