// The atoms that stand in trigger formulas.

ghost use Rattle.std.specs.Prelude.{◌≡◌, ℕ, ◌<◌, [], length, IfOk, OnOk};
ghost use Rattle.std.specs.List.{All, Contains};
ghost use Rattle.trigger_starts.specs.inner.AtomLists.{Adds, HasAtoms, IsInSome, StandsAs, StandsBy, atoms_at};
ghost use Rattle.trigger_starts.specs.inner.Kept.{AreAtomsOf};
ghost use Rattle.trigger_starts.specs.inner.Rules.{AreClosed, AreReady, ArgumentsBelow};

use crate::atoms::Atoms;
use crate::rules::Rule;
use std::alloc::Global;
use trigger_rules::atom::Atom;
use tsl_value::ids::EqId;
use tsl_value::memory::NoMemory;

fn add_each(atoms: &mut Atoms, args: &[EqId], all: &[Atoms]) -> Result<(), NoMemory>
    requires { All (λ a. a < length all.now) args.now }
    ensures { OnOk result (Adds atoms.old (IsInSome all.now args.now) atoms.new) }
{
    for arg in args {
        atoms.add_all(all[arg.get() as usize].list())?;
    }
    Ok(())
}

/// Adds the atoms of an equation's formula, by those of its arguments.
fn add_atoms(
    atoms: &mut Atoms,
    rule: &Rule,
    own: EqId,
    starts: &[bool],
    all: &[Atoms],
) -> Result<(), NoMemory>
    requires one_each { length starts.now ≡ length all.now }
    requires below { ArgumentsBelow (length all.now) rule.now }
    ensures { OnOk result (Adds atoms.old (StandsBy rule.now own starts.now all.now) atoms.new) }
{
    match rule {
        Rule::Never => Ok(()),
        Rule::Start => atoms.add(Atom::Start),
        Rule::Own => atoms.add(Atom::Happens(own)),
        Rule::All { args } => add_each(atoms, args.ids(), all),
        Rule::Any { args } => add_each(atoms, args.ids(), all),
        Rule::AnyAndOwn { args } => {
            atoms.add(Atom::Happens(own))?;
            add_each(atoms, args.ids(), all)
        }
        Rule::Filter { events, condition } => {
            atoms.add_all(all[events.get() as usize].list())?;
            atoms.add_all(all[condition.get() as usize].list())?;
            atoms.add(Atom::Holds(*condition))
        }
        Rule::Last { values, trigger } => {
            atoms.add(Atom::Start)?;
            atoms.add_all(all[trigger.get() as usize].list())?;
            if starts[values.get() as usize] {
                Ok(())
            } else {
                atoms.add(Atom::Happens(own))
            }
        }
        Rule::Delay => {
            atoms.add(Atom::Start)?;
            atoms.add(Atom::Happens(own))
        }
    }
}

/// The atoms of an equation's formula, or of its formula at time 0.
fn atoms_of(
    alloc: Global,
    rule: &Rule,
    own: EqId,
    starts: &[bool],
    all: &[Atoms],
    at_zero: bool,
) -> Result<Atoms, NoMemory>
    requires one_each { length starts.now ≡ length all.now }
    requires below { ArgumentsBelow (length all.now) rule.now }
    ensures { IfOk result (λ atoms. Adds [] (StandsAs at_zero rule.now own starts.now all.now) atoms) }
{
    let mut atoms = Atoms::new(alloc);
    if at_zero && rule.looks_back() {
        return Ok(atoms);
    }
    add_atoms(&mut atoms, rule, own, starts, all)?;
    Ok(atoms)
}

/// No atom for each of so many equations.
fn none(alloc: Global, count: usize) -> Result<Vec<Atoms>, NoMemory>
    ensures { IfOk result (λ all. length all.items ≡ count) }
{
    let mut all = Vec::new(alloc);
    for _index in 0..count {
        all.push(Atoms::new(alloc))?;
    }
    Ok(all)
}

/// The atoms of each equation's formula, or of its formula at time 0. The order has each equation after its arguments.
pub fn gather(
    alloc: Global,
    rules: &[Rule],
    starts: &[bool],
    order: &[u32],
    at_zero: bool,
) -> Result<Vec<Atoms>, NoMemory>
    requires one_each { length starts.now ≡ length rules.now }
    requires closed { AreClosed rules.now }
    requires ready { AreReady rules.now [] order.now }
    ensures one_each { IfOk result (λ all. length all.items ≡ length rules.now) }
    ensures atoms { IfOk result (λ all. AreAtomsOf at_zero rules.now starts.now order.now all.items) }
{
    let mut all = none(alloc, rules.len())?;
    for step in order {
        let index = *step as usize;
        all[index] = atoms_of(
            alloc,
            &rules[index],
            EqId::new(*step),
            starts,
            &all,
            at_zero,
        )?;
    }
    Ok(all)
}
