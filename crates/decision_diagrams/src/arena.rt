// Nodes of decision diagrams: each branch stands once.

ghost use Rattle.std.specs.Prelude.{◌≡◌, ℕ, ◌<◌, ◌≤◌, [], if◌then◌else◌, IfOk};
ghost use Rattle.decision_diagrams.specs.inner.Arena.{tree_at, AreCanonical, Grows, IsNode, IsSound};
ghost use Rattle.decision_diagrams.specs.inner.DecisionTree.{IsAfter, Valuation, value};

use indexmap::IndexSet;
use std::alloc::Global;
use std::marker::Model;
use tsl_value::memory::NoMemory;

/// A choice by a variable: `low` is the node where it is false, and `high` where it is true.
#[derive(Clone, Copy, PartialEq, Eq, Hash, Debug)]
pub struct Branch {
    pub variable: u64,
    pub low: u64,
    pub high: u64,
}

/// The nodes of diagrams. Node 0 is false, node 1 is true, and the others are branches. Contracts see the tree of each node.
#[derive(Drop)]
pub struct Arena {
    branches: IndexSet<Branch>,
}

impl Model for Arena {
    ghost use Rattle.std.specs.Prelude.{List};
    ghost use Rattle.decision_diagrams.specs.declared.arena.Branch.{Branch};
    ghost use Rattle.decision_diagrams.specs.inner.Arena.{IsArena};

    ghost Value = { List Branch };

    ghost view = { λ a. a.branches.keys };

    ghost invariant = { λ a. IsArena a.branches.keys };
}

impl Arena {
    /// The two nodes that are always there.
    pub fn new(alloc: Global) -> Arena
        ensures { result ≡ [] }
    {
        Arena {
            branches: IndexSet::new(alloc),
        }
    }

    /// Does nothing: each tree is canonical, and stands once.
    pub fn canonical(&self)
        ensures { AreCanonical self.now }
    {
        let _branches = &self.branches;
    }

    /// The branch of a node.
    pub fn branch(&self, node: u64) -> Branch
        requires other { 2 ≤ node }
        requires there { IsNode self.now node }
        ensures { IsSound self.now node result }
    {
        *self.branches.get_index((node - 2) as usize).unwrap()
    }

    /// The node of a choice by a variable that comes before all of both sides.
    pub fn fork(&mut self, variable: u64, low: u64, high: u64) -> Result<u64, NoMemory>
        requires low { IsNode self.old low }
        requires high { IsNode self.old high }
        requires low_after { IsAfter variable (tree_at self.old low) }
        requires high_after { IsAfter variable (tree_at self.old high) }
        ensures grows { Grows self.old self.new }
        ensures there { IfOk result (λ n. IsNode self.new n) }
        ensures exact { IfOk result (λ n. (v : Valuation) →
            value v (tree_at self.new n) ≡ (if v variable then value v (tree_at self.old high) else value v (tree_at self.old low))) }
        ensures deeper { IfOk result (λ n. (x : ℕ) → x < variable → IsAfter x (tree_at self.new n)) }
    {
        if low == high {
            return Ok(low);
        }
        let branch = Branch {
            variable,
            low,
            high,
        };
        let (index, _added) = self.branches.insert_full(branch)?;
        // so few fit that the sum does
        let _count = self.branches.len();
        Ok(index as u64 + 2)
    }
}
