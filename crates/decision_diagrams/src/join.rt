// Two nodes taken together.

ghost use Rattle.std.specs.Prelude.{◌≡◌, ◌≤◌, not, IfOk, OnOk};
ghost use Rattle.decision_diagrams.specs.inner.Arena.{tree_at, Grows, IsNode};
ghost use Rattle.decision_diagrams.specs.inner.Join.{settled, sides_of, AreJoined, AreNodes, IsJoin, IsSplit};
ghost use Rattle.decision_diagrams.specs.inner.DecisionTree.{Valuation, value};

use crate::arena::{Arena, Branch};
use indexmap::IndexMap;
use std::alloc::Global;
use tsl_value::memory::NoMemory;

/// How the values of two nodes make one.
#[derive(Clone, Copy, PartialEq, Eq, Debug)]
pub enum Connective {
    And,
    Or,
}

/// Two nodes.
#[derive(Clone, Copy, PartialEq, Eq, Hash, Debug)]
pub struct Pair {
    pub first: u64,
    pub second: u64,
}

/// Two nodes by their first variable: both where it is false, and both where it is true.
#[derive(Clone, Copy, PartialEq, Eq, Debug)]
pub struct Split {
    pub variable: u64,
    pub low: Pair,
    pub high: Pair,
}

/// The node, where no branch has to be looked at.
fn settled(connective: Connective, pair: Pair) -> Option<u64>
    ensures { result ≡ settled connective pair }
{
    match connective {
        Connective::And => {
            if pair.first == 0 || pair.second == 0 {
                Some(0)
            } else if pair.first == 1 {
                Some(pair.second)
            } else if pair.second == 1 {
                Some(pair.first)
            } else {
                None
            }
        }
        Connective::Or => {
            if pair.first == 1 || pair.second == 1 {
                Some(1)
            } else if pair.first == 0 {
                Some(pair.second)
            } else if pair.second == 0 {
                Some(pair.first)
            } else {
                None
            }
        }
    }
}

/// What is below a node where a variable is false and where it is true. The node's own variable is this one or comes after it.
fn sides(branch: Branch, node: u64, variable: u64) -> (u64, u64)
    ensures { result ≡ sides_of branch node variable }
{
    if branch.variable == variable {
        (branch.low, branch.high)
    } else {
        (node, node)
    }
}

impl Arena {
    /// Two branches by the first variable of both.
    pub fn split(&self, pair: Pair) -> Split
        requires first { 2 ≤ pair.first }
        requires second { 2 ≤ pair.second }
        requires there { AreNodes self.now pair }
        ensures { IsSplit self.now pair result }
    {
        let first = self.branch(pair.first);
        let second = self.branch(pair.second);
        let variable = if first.variable < second.variable {
            first.variable
        } else {
            second.variable
        };
        let (first_low, first_high) = sides(first, pair.first, variable);
        let (second_low, second_high) = sides(second, pair.second, variable);
        Split {
            variable,
            low: Pair {
                first: first_low,
                second: second_low,
            },
            high: Pair {
                first: first_high,
                second: second_high,
            },
        }
    }

    /// The node of two nodes. What is known of pairs is not found anew.
    fn joined(
        &mut self,
        connective: Connective,
        known: &mut IndexMap<Pair, u64>,
        pair: Pair,
    ) -> Result<u64, NoMemory>
        requires there { AreNodes self.old pair }
        requires known { AreJoined connective self.old known.old }
        ensures grows { Grows self.old self.new }
        ensures known { OnOk result (AreJoined connective self.new known.new) }
        ensures exact { IfOk result (λ n. IsJoin connective self.new pair n) }
    {
        if let Some(node) = settled(connective, pair) {
            return Ok(node);
        }
        if let Some(node) = known.get(&pair) {
            return Ok(*node);
        }
        let split = self.split(pair);
        let low = self.joined(connective, known, split.low)?;
        let high = self.joined(connective, known, split.high)?;
        let node = self.fork(split.variable, low, high)?;
        known.insert(pair, node)?;
        Ok(node)
    }

    /// The node that is true where both nodes are, or where one of them is.
    pub fn join(
        &mut self,
        alloc: Global,
        connective: Connective,
        pair: Pair,
    ) -> Result<u64, NoMemory>
        requires { AreNodes self.old pair }
        ensures grows { Grows self.old self.new }
        ensures exact { IfOk result (λ n. IsJoin connective self.new pair n) }
    {
        let mut known = IndexMap::new(alloc);
        self.joined(connective, &mut known, pair)
    }

    /// The node of a variable.
    pub fn variable(&mut self, variable: u64) -> Result<u64, NoMemory>
        ensures grows { Grows self.old self.new }
        ensures there { IfOk result (λ n. IsNode self.new n) }
        ensures exact { IfOk result (λ n. (v : Valuation) → value v (tree_at self.new n) ≡ v variable) }
    {
        self.canonical();
        self.fork(variable, 0, 1)
    }

    /// The node that is true where a variable is false.
    pub fn denied(&mut self, variable: u64) -> Result<u64, NoMemory>
        ensures grows { Grows self.old self.new }
        ensures there { IfOk result (λ n. IsNode self.new n) }
        ensures exact { IfOk result (λ n. (v : Valuation) → value v (tree_at self.new n) ≡ not (v variable)) }
    {
        self.canonical();
        self.fork(variable, 1, 0)
    }
}
