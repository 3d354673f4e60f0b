// The decision diagrams of trigger formulas.

ghost use Rattle.std.specs.Prelude.{◌≡◌, ℕ, ◌<◌, ◌↔◌, length, IfOk, IsTrue};
ghost use Rattle.flat_core.specs.inner.Dependency.{IsRunOrder};
ghost use Rattle.flat_core.specs.System.{System};
ghost use Rattle.trigger_rules.specs.Question.{Starts};
ghost use Rattle.trigger_starts.specs.inner.AtomLists.{AreDifferent, atoms_at};
ghost use Rattle.trigger_starts.specs.inner.Truth.{assignment_of};
ghost use Rattle.trigger_diagram.specs.inner.Kept.{AreAlike, AreDiagramsOf, AreFiringIn, AreMetIn, Follows, HaveAtoms, IsNodeIn, IsNodeOf, Keeps};

use crate::formula::node_at;
use crate::made::make_all;
use decision_diagrams::arena::Arena;
use decision_diagrams::join::Pair;
use flat_core::flat::Flat;
use std::alloc::Global;
use std::marker::Model;
use translation_order::steps::Steps;
use trigger_starts::atoms::Atoms;
use trigger_starts::gather::gather;
use trigger_starts::listed::rules;
use trigger_starts::needed::needed;
use trigger_starts::rules::Rule;
use trigger_starts::starts::{Given, firing, starts};
use tsl_value::ids::EqId;
use tsl_value::memory::NoMemory;

/// A formula in diagrams. Equal nodes are true in the same assignments, and others are not.
#[derive(Clone, Copy, PartialEq, Eq, Debug)]
pub struct Node {
    number: u64,
}

impl Model for Node {
    ghost use Rattle.std.specs.Prelude.{ℕ};

    ghost Value = { ℕ };

    ghost view = { λ n. n.number };

    ghost inverse = { λ n. record { number = n } };
}

/// The trigger formulas of a flat system as decision diagrams over their atoms: the start first, then the atoms of each equation by its
/// number. There may be as many atoms as there are, and no recursion is deeper than their number. Contracts see the rules of the equations,
/// and the branches that are made.
#[derive(Drop)]
pub struct Diagrams {
    alloc: Global,
    rules: Vec<Rule>,
    order: Vec<u32>,
    starts: Vec<bool>,
    arena: Arena,
    nodes: Vec<Option<u64>>,
}

impl Model for Diagrams {
    ghost use Rattle.trigger_diagram.specs.inner.Kept.{AreKept, Kept};

    ghost Value = { Kept };

    ghost view = { λ d. record { rules = d.rules.items; branches = d.arena } };

    ghost invariant = { λ d. AreKept d.rules.items d.order.items d.starts.items d.arena d.nodes.items };
}

impl Diagrams {
    /// Those of a system, by an order to run it in. No node is made yet.
    pub fn new(alloc: Global, flat: &Flat, order: &Steps) -> Result<Diagrams, NoMemory>
        requires { IsRunOrder flat.now order.now }
        ensures { IfOk result (λ d. AreDiagramsOf d flat.now) }
    {
        let rules = rules(alloc, flat)?;
        let order = Vec::from_slice(alloc, order.as_slice())?;
        let starts = starts(alloc, &rules, order.as_slice())?;
        let nodes = vec![in alloc; None; rules.len()]?;
        Ok(Diagrams {
            alloc,
            rules,
            order,
            starts,
            arena: Arena::new(alloc),
            nodes,
        })
    }

    /// The node of an equation's formula. Nodes that were there keep their formulas, whatever is answered; after `NoMemory` there may be
    /// more of them.
    pub fn of_formula(&mut self, a: EqId) -> Result<Node, NoMemory>
        requires { a < length self.old.rules }
        ensures keeps { Keeps self.old self.new }
        ensures there { IfOk result (λ n. IsNodeIn self.new n) }
        ensures exact { IfOk result (λ n. IsNodeOf self.new a n) }
        ensures once { IfOk result (λ n. (m : ℕ) → IsNodeIn self.new m → (m ≡ n) ↔ AreAlike self.new m n) }
    {
        let steps = needed(self.alloc, &self.rules, self.order.as_slice(), a)?;
        make_all(
            self.alloc,
            &self.rules,
            &self.starts,
            steps.as_slice(),
            &mut self.arena,
            &mut self.nodes,
        )?;
        self.arena.canonical();
        Ok(Node {
            number: node_at(&self.nodes, a),
        })
    }

    /// The atoms that stand in the formula of each equation.
    pub fn atoms(&self, alloc: Global) -> Result<Vec<Atoms>, NoMemory>
        ensures one_each { IfOk result (λ all. length all.items ≡ length self.now.rules) }
        ensures different { IfOk result (λ all. (x : ℕ) → x < length self.now.rules → AreDifferent (atoms_at all.items x)) }
        ensures exact { IfOk result (λ all. HaveAtoms self.now all.items) }
    {
        gather(
            alloc,
            &self.rules,
            &self.starts,
            self.order.as_slice(),
            false,
        )
    }

    /// Whether an equation has an event at 0, as far as few atoms show.
    pub fn starts(&self, a: EqId) -> bool
        requires { a < length self.now.rules }
        ensures { (s : System) → AreDiagramsOf self.now s → IsTrue result ↔ Starts s a }
    {
        self.starts[a.get() as usize]
    }

    /// Which equations' formulas are true in an assignment.
    pub fn firing(&self, alloc: Global, given: Given) -> Result<Vec<bool>, NoMemory>
        ensures one_each { IfOk result (λ marks. length marks.items ≡ length self.now.rules) }
        ensures exact { IfOk result (λ marks. AreFiringIn self.now (assignment_of given) marks.items) }
    {
        firing(
            alloc,
            &self.rules,
            &self.starts,
            self.order.as_slice(),
            given,
        )
    }

    /// Whether each assignment with the first formula has the second.
    pub fn implies(&self, alloc: Global, a: Node, b: Node) -> Result<bool, NoMemory>
        requires first { IsNodeIn self.now a }
        requires second { IsNodeIn self.now b }
        ensures { IfOk result (λ r. IsTrue r ↔ Follows self.now a b) }
    {
        let pair = Pair {
            first: a.number,
            second: b.number,
        };
        self.arena.implies(alloc, pair)
    }

    /// Whether some assignment has both formulas.
    pub fn together(&self, alloc: Global, a: Node, b: Node) -> Result<bool, NoMemory>
        requires first { IsNodeIn self.now a }
        requires second { IsNodeIn self.now b }
        ensures { IfOk result (λ r. IsTrue r ↔ AreMetIn self.now a b) }
    {
        let pair = Pair {
            first: a.number,
            second: b.number,
        };
        self.arena.together(alloc, pair)
    }
}
