// Which equations take the content of aggregates.

ghost use Rattle.std.specs.Prelude.{◌≡◌, ◌↔◌, ◌<◌, length, IfOk, OnOk, IsTrue};
ghost use Rattle.alias_rules.specs.Uses.{IsVariable, first_of, read_of, passed_of, last_of, written_of};
ghost use Rattle.alias_paths.specs.inner.Pairs.{Adds};
ghost use Rattle.alias_paths.specs.inner.Kept.{AreUses, AddsUses, IsTakenAt};

use crate::pairs::push_if;
use flat_core::equation::{Equation, Op};
use flat_core::flat::Flat;
use std::alloc::Global;
use translation_order::steps::Edges;
use tsl_value::ids::EqId;
use tsl_value::memory::NoMemory;

/// For each way to take content the pairs of a variable and an equation that takes its content so.
#[derive(Drop)]
pub struct Uses {
    pub read: Edges,
    pub passed: Edges,
    pub lasts: Edges,
    pub written: Edges,
}

/// For each way the arguments of one equation whose content it takes so, where they have content.
#[derive(Drop)]
struct Taken<'a> {
    read: &'a [EqId],
    passed: &'a [EqId],
    last: &'a [EqId],
    written: &'a [EqId],
}

/// Whether an equation is an aggregate variable.
pub fn is_variable(flat: &Flat, id: EqId) -> bool
    ensures { IsTrue result ↔ IsVariable flat.now id }
{
    id.get() < flat.count() && flat.runs(id) && flat.equation(id).of.is_aggregate()
}

fn first_of(arguments: &[EqId]) -> &[EqId]
    ensures { result.now ≡ first_of arguments.now }
{
    match arguments.split_first() {
        Some((_, rest)) => &arguments[..arguments.len() - rest.len()],
        None => arguments,
    }
}

/// Which arguments of an equation are taken in which way.
fn taken_of(equation: &Equation) -> Taken<'_>
    ensures read { result.read.now ≡ read_of equation.now.op equation.now.args }
    ensures passed { result.passed.now ≡ passed_of equation.now.op equation.now.args }
    ensures last { result.last.now ≡ last_of equation.now.op equation.now.args }
    ensures written { result.written.now ≡ written_of equation.now.op equation.now.args }
{
    let all = equation.args.ids();
    let none = &all[..0];
    let first = first_of(all);
    let written = if equation.op.is_update() { first } else { none };
    let (read, passed, last) = match &equation.op {
        Op::Lift { body: _, strict: _ } => (all, none, none),
        Op::Merge => (none, all, none),
        Op::Filter => (none, first, none),
        Op::Pick => (none, equation.other_args(), none),
        Op::Last => (none, none, first),
        _ => (none, none, none),
    };
    Taken {
        read,
        passed,
        last,
        written,
    }
}

/// Appends a pair of each variable among these arguments and the equation that takes it.
fn push_variables(
    pairs: &mut Edges,
    flat: &Flat,
    arguments: &[EqId],
    number: u32,
) -> Result<(), NoMemory>
    ensures { OnOk result (Adds pairs.old (IsTakenAt flat.now arguments.now number) pairs.new) }
{
    for argument in arguments {
        push_if(
            pairs,
            (argument.get(), number),
            is_variable(flat, *argument),
        )?;
    }
    Ok(())
}

/// Appends the uses by one equation.
fn push_uses(uses: &mut Uses, flat: &Flat, number: u32) -> Result<(), NoMemory>
    requires { number < length flat.now.equations }
    ensures { OnOk result (AddsUses flat.now number uses.old uses.new) }
{
    let id = EqId::new(number);
    if !flat.runs(id) {
        return Ok(());
    }
    let taken = taken_of(flat.equation(id));
    push_variables(&mut uses.read, flat, taken.read, number)?;
    push_variables(&mut uses.passed, flat, taken.passed, number)?;
    push_variables(&mut uses.lasts, flat, taken.last, number)?;
    push_variables(&mut uses.written, flat, taken.written, number)?;
    Ok(())
}

/// The uses by all equations.
pub fn uses_of(alloc: Global, flat: &Flat) -> Result<Uses, NoMemory>
    ensures { IfOk result (AreUses flat.now) }
{
    let mut uses = Uses {
        read: Edges::new(alloc),
        passed: Edges::new(alloc),
        lasts: Edges::new(alloc),
        written: Edges::new(alloc),
    };
    for number in 0..flat.count() {
        push_uses(&mut uses, flat, number)?;
    }
    Ok(uses)
}
