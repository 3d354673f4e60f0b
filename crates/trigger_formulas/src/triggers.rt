// The questions about trigger formulas.

ghost use Rattle.std.specs.Prelude.{◌≡◌, ℕ, ◌<◌, ◌≤◌, ◌↔◌, length, None, IfOk, IfSome, IsTrue};
ghost use Rattle.flat_core.specs.inner.Dependency.{IsRunOrder};
ghost use Rattle.flat_core.specs.System.{System};
ghost use Rattle.trigger_rules.specs.declared.limit.TheConstants.{ATOMS};
ghost use Rattle.trigger_rules.specs.Question.{AreFew, AreMet, Implies, Starts, Together};
ghost use Rattle.trigger_starts.specs.inner.AtomLists.{AreDifferent, IsInEither, atoms_at};
ghost use Rattle.trigger_formulas.specs.inner.Kept.{both, AreTriggersOf, Follows};

use crate::asked::{Asked, Question};
use crate::nodes::Nodes;
use crate::side::Side;
use flat_core::flat::Flat;
use std::alloc::Global;
use std::marker::Model;
use translation_order::steps::Steps;
use trigger_starts::atoms::Atoms;
use trigger_starts::gather::gather;
use trigger_starts::listed::rules;
use trigger_starts::rules::Rule;
use trigger_starts::starts::starts;
use tsl_value::ids::EqId;
use tsl_value::memory::NoMemory;

/// The trigger formulas of a flat system. Contracts see the rules of its equations.
#[derive(Drop)]
pub struct Triggers {
    rules: Vec<Rule>,
    starts: Vec<bool>,
    atoms: Vec<Atoms>,
    at_zero: Side,
    later: Side,
    /// The nodes of what the circuits leave open.
    nodes: Nodes,
}

impl Model for Triggers {
    ghost use Rattle.std.specs.Prelude.{◌≡◌, List};
    ghost use Rattle.trigger_starts.specs.declared.rules.Rule.{Rule};
    ghost use Rattle.trigger_formulas.specs.inner.Kept.{IsKept};

    ghost Value = { List Rule };

    ghost view = { λ t. t.rules.items };

    ghost invariant = { λ t. IsKept t.rules.items t.starts.items t.atoms.items t.at_zero t.later × (t.nodes.rules ≡ t.rules.items) };
}

/// What is refuted.
fn if_refuted(answer: Option<bool>) -> Option<bool>
    ensures { result ≡ both None answer }
{
    match answer {
        Some(false) => Some(false),
        Some(true) => None,
        None => None,
    }
}

/// Whether a question may have the atoms of both equations' formulas.
fn are_few(atoms: &[Atoms], a: EqId, b: EqId) -> bool
    requires first { a < length atoms.now }
    requires second { b < length atoms.now }
    requires different { (x : ℕ) → x < length atoms.now → AreDifferent (atoms_at atoms.now x) }
    ensures { IsTrue result ↔ AreFew (IsInEither (atoms_at atoms.now a) (atoms_at atoms.now b)) }
{
    let first = &atoms[a.get() as usize];
    first.are_few_with(&atoms[b.get() as usize])
}

/// Whether a question may have the atoms of each alone.
fn are_few_each(atoms: &[Atoms], a: EqId, b: EqId) -> bool
    requires first { a < length atoms.now }
    requires second { b < length atoms.now }
    ensures { IsTrue result ↔ ((length (atoms_at atoms.now a) ≤ ATOMS) × (length (atoms_at atoms.now b) ≤ ATOMS)) }
{
    atoms[a.get() as usize].are_few() && atoms[b.get() as usize].are_few()
}

impl Triggers {
    /// Keeps the trigger formulas of a system that has this order to run it in.
    pub fn of(alloc: Global, flat: &Flat, order: &Steps) -> Result<Triggers, NoMemory>
        requires { IsRunOrder flat.now order.now }
        ensures { IfOk result (λ t. AreTriggersOf t flat.now) }
    {
        let nodes = Nodes::new(alloc, flat, order)?;
        let order = order.as_slice();
        let rules = rules(alloc, flat)?;
        let starts = starts(alloc, &rules, order)?;
        let atoms = gather(alloc, &rules, &starts, order, false)?;
        let asked = Asked::of(alloc, flat, &atoms)?;
        let at_zero = Side::of(alloc, &rules, &starts, order, &asked, true)?;
        let later = Side::of(alloc, &rules, &starts, order, &asked, false)?;
        let mut triggers = Triggers {
            rules,
            starts,
            atoms,
            at_zero,
            later,
            nodes,
        };
        triggers.make_questions(&asked.questions)?;
        triggers.make_all(&asked.firsts, &asked.seconds)?;
        Ok(triggers)
    }

    /// Makes the nodes of a question that the circuits leave open.
    fn make_if_open(&mut self, a: EqId, b: EqId) -> Result<(), NoMemory>
        ensures { self.new ≡ self.old }
    {
        let count = self.rules.len();
        if a.get() as usize >= count || b.get() as usize >= count {
            return Ok(());
        }
        if self.found(a, b).is_some() || !are_few(&self.atoms, a, b) {
            return Ok(());
        }
        self.nodes.make(a)?;
        self.nodes.make(b)?;
        Ok(())
    }

    fn make_questions(&mut self, questions: &[Question]) -> Result<(), NoMemory>
        ensures { self.new ≡ self.old }
    {
        'questions: for question in questions {
            self.make_if_open(question.a, question.b)?;
        }
        Ok(())
    }

    fn make_each(&mut self, first: EqId, seconds: &[EqId]) -> Result<(), NoMemory>
        ensures { self.new ≡ self.old }
    {
        'seconds: for second in seconds {
            self.make_if_open(first, *second)?;
        }
        Ok(())
    }

    fn make_all(&mut self, firsts: &[EqId], seconds: &[EqId]) -> Result<(), NoMemory>
        ensures { self.new ≡ self.old }
    {
        'firsts: for first in firsts {
            self.make_each(*first, seconds)?;
        }
        Ok(())
    }

    /// Whether each assignment with the formula of `a` has that of `b`, if it was found in the circuits.
    fn found(&self, a: EqId, b: EqId) -> Option<bool>
        requires first { a < length self.now }
        requires second { b < length self.now }
        ensures { IfSome result (λ r. (s : System) → AreTriggersOf self.now s → IsTrue r ↔ Follows s a b) }
    {
        match self.later.found(a, b) {
            Some(false) => Some(false),
            Some(true) => self.at_zero.found(a, b),
            None => if_refuted(self.at_zero.found(a, b)),
        }
    }

    /// The same for what was not found: by nodes, if both have one, and else by a search in the circuits, however long it takes.
    fn searched(&self, alloc: Global, a: EqId, b: EqId) -> Result<bool, NoMemory>
        requires first { a < length self.now }
        requires second { b < length self.now }
        ensures { IfOk result (λ r. (s : System) → AreTriggersOf self.now s → IsTrue r ↔ Follows s a b) }
    {
        if let Some(told) = self.nodes.implies(alloc, a, b)? {
            return Ok(told);
        }
        let later = self.later.implies(alloc, a, b)?;
        if !later {
            return Ok(false);
        }
        self.at_zero.implies(alloc, a, b)
    }

    /// Whether `b` has an event wherever `a` has one, as far as few atoms show. Atoms are counted last, since it is mostly refuted.
    pub fn implies(&self, alloc: Global, a: EqId, b: EqId) -> Result<bool, NoMemory>
        requires first { a < length self.now }
        requires second { b < length self.now }
        ensures { IfOk result (λ r. (s : System) → AreTriggersOf self.now s → IsTrue r ↔ Implies s a b) }
    {
        if a == b {
            return Ok(true);
        }
        if !are_few_each(&self.atoms, a, b) {
            return Ok(false);
        }
        if let Some(found) = self.found(a, b) {
            return Ok(found && are_few(&self.atoms, a, b));
        }
        if !are_few(&self.atoms, a, b) {
            return Ok(false);
        }
        self.searched(alloc, a, b)
    }

    /// Whether some assignment has the formulas of both. Formulas deny the start alone, so it is enough to look where all else is true.
    fn are_met(&self, a: EqId, b: EqId) -> bool
        requires first { a < length self.now }
        requires second { b < length self.now }
        ensures { (s : System) → AreTriggersOf self.now s → IsTrue result ↔ AreMet s a b }
    {
        self.at_zero.are_met(a, b) || self.later.are_met(a, b)
    }

    /// Whether `a` and `b` may have events at one time, as far as few atoms do not show that they cannot.
    pub fn together(&self, _alloc: Global, a: EqId, b: EqId) -> Result<bool, NoMemory>
        requires first { a < length self.now }
        requires second { b < length self.now }
        ensures { IfOk result (λ r. (s : System) → AreTriggersOf self.now s → IsTrue r ↔ Together s a b) }
    {
        Ok(self.are_met(a, b) || !are_few(&self.atoms, a, b))
    }

    /// Whether `a` has an event at 0, as far as few atoms show.
    pub fn starts(&self, _alloc: Global, a: EqId) -> Result<bool, NoMemory>
        requires { a < length self.now }
        ensures { IfOk result (λ r. (s : System) → AreTriggersOf self.now s → IsTrue r ↔ Starts s a) }
    {
        Ok(self.starts[a.get() as usize])
    }
}
