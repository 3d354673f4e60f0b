// The atoms that stand in a formula.

ghost use Rattle.std.specs.Prelude.{◌≡◌, ◌≤◌, ◌↔◌, [], length, IsTrue, OnOk};
ghost use Rattle.std.specs.List.{Contains};
ghost use Rattle.trigger_rules.specs.Question.{AreFew};
ghost use Rattle.trigger_starts.specs.inner.AtomLists.{Adds, AddsSome, AreDifferent, IsInEither};

use std::alloc::Global;
use std::marker::Model;
use trigger_rules::atom::Atom;
use trigger_rules::limit::ATOMS;
use tsl_value::memory::NoMemory;

/// Different atoms, at most one more than a question may have. Where there are that many, some may be missing.
#[derive(Drop)]
pub struct Atoms {
    list: Vec<Atom>,
}

impl Model for Atoms {
    ghost use Rattle.std.specs.Prelude.{List};
    ghost use Rattle.trigger_rules.specs.declared.atom.Atom.{Atom};

    ghost Value = { List Atom };

    ghost view = { λ a. a.list.items };
}

impl Atoms {
    /// No atom.
    pub fn new(alloc: Global) -> Atoms
        ensures { result ≡ [] }
    {
        Atoms {
            list: Vec::new(alloc),
        }
    }

    /// All of them, in the order in which they came.
    pub fn list(&self) -> &[Atom]
        ensures { result.now ≡ self.now }
    {
        &self.list
    }

    /// Whether a question may have them.
    pub fn are_few(&self) -> bool
        ensures { IsTrue result ↔ (length self.now ≤ ATOMS) }
    {
        self.list.len() <= ATOMS as usize
    }

    /// Whether an atom is there.
    fn has(&self, atom: &Atom) -> bool
        ensures { IsTrue result ↔ Contains self.now atom.now }
    {
        self.list.contains(atom)
    }

    /// Adds an atom, unless it is there or there are too many.
    pub(crate) fn add(&mut self, atom: Atom) -> Result<(), NoMemory>
        ensures { OnOk result (Adds self.old (λ a. a ≡ atom) self.new) }
    {
        if self.are_few() && !self.has(&atom) {
            self.list.push(atom)?;
        }
        Ok(())
    }

    /// Adds each atom of a list.
    pub(crate) fn add_all(&mut self, atoms: &[Atom]) -> Result<(), NoMemory>
        ensures { OnOk result (Adds self.old (Contains atoms.now) self.new) }
    {
        for atom in atoms {
            self.add(*atom)?;
        }
        Ok(())
    }

    /// How many atoms of another list are not in this one.
    fn others(&self, other: &Atoms) -> usize
        requires { AreDifferent other.now }
        ensures { AddsSome self.now (Contains other.now) result }
    {
        let mut others = 0;
        for atom in other.list() {
            if !self.has(atom) {
                others += 1;
            }
        }
        others
    }

    /// Whether a question may have the atoms of both lists.
    pub fn are_few_with(&self, other: &Atoms) -> bool
        requires first { AreDifferent self.now }
        requires second { AreDifferent other.now }
        ensures { IsTrue result ↔ AreFew (IsInEither self.now other.now) }
    {
        let most = ATOMS as usize;
        let count = self.list.len();
        count <= most && self.others(other) <= most - count
    }
}
