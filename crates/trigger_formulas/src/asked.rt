// The questions that will be asked of a system.

use flat_core::equation::{Equation, Op};
use flat_core::flat::Flat;
use std::alloc::Global;
use trigger_starts::atoms::Atoms;
use tsl_value::ids::EqId;
use tsl_value::memory::NoMemory;

/// A question: whether `b` has an event wherever `a` has one.
#[derive(Clone, Copy, PartialEq, Eq, Debug)]
pub(crate) struct Question {
    pub a: EqId,
    pub b: EqId,
}

/// What is asked: whether merges' second arguments imply the first, and whether updates imply aggregates. It decides nothing but how long
/// answers take.
#[derive(Drop)]
pub(crate) struct Asked {
    pub questions: Vec<Question>,
    pub firsts: Vec<EqId>,
    pub seconds: Vec<EqId>,
}

/// Whether a question may have the atoms of an equation's formula.
fn has_few(atoms: &[Atoms], a: EqId) -> bool {
    match atoms.get(a.get() as usize) {
        Some(atoms) => atoms.are_few(),
        None => false,
    }
}

fn push_if(list: &mut Vec<EqId>, a: EqId, wanted: bool) -> Result<(), NoMemory> {
    if wanted {
        list.push(a)?;
    }
    Ok(())
}

/// The first argument of an equation and its second.
fn two(equation: &Equation) -> Option<(EqId, EqId)> {
    let (first, rest) = equation.args.ids().split_first()?;
    let (second, _) = rest.split_first()?;
    Some((*first, *second))
}

/// Whether it merges its arguments.
fn is_merge(op: &Op) -> bool {
    match op {
        Op::Merge => true,
        _ => false,
    }
}

impl Asked {
    /// Adds what is asked of an equation that runs.
    fn add(&mut self, equation: &Equation, own: EqId, atoms: &[Atoms]) -> Result<(), NoMemory> {
        let is_asked = equation.of.is_aggregate() && has_few(atoms, own);
        push_if(&mut self.seconds, own, is_asked)?;
        push_if(&mut self.firsts, own, is_asked && equation.op.is_update())?;
        let Some((first, second)) = two(equation) else {
            return Ok(());
        };
        if is_merge(&equation.op) && has_few(atoms, first) && has_few(atoms, second) {
            self.questions.push(Question {
                a: second,
                b: first,
            })?;
        }
        Ok(())
    }

    /// All that is asked of the equations that run.
    pub fn of(alloc: Global, flat: &Flat, atoms: &[Atoms]) -> Result<Asked, NoMemory> {
        let mut asked = Asked {
            questions: Vec::new(alloc),
            firsts: Vec::new(alloc),
            seconds: Vec::new(alloc),
        };
        for number in 0..flat.count() {
            let own = EqId::new(number);
            if flat.runs(own) {
                asked.add(flat.equation(own), own, atoms)?;
            }
        }
        Ok(asked)
    }
}
