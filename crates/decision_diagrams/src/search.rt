// What some assignment has.

ghost use Rattle.std.specs.Prelude.{◌≡◌, ◌↔◌, IfOk, IsTrue, OnOk};
ghost use Rattle.decision_diagrams.specs.inner.Arena.{tree_at, AreCanonical};
ghost use Rattle.decision_diagrams.specs.inner.Join.{decided, AreNodes, AreRefuted, AreTogether, IsFound, IsImplied};
ghost use Rattle.decision_diagrams.specs.inner.DecisionTree.{Agree};

use crate::arena::Arena;
use crate::join::Pair;
use indexmap::IndexSet;
use std::alloc::Global;
use tsl_value::memory::NoMemory;

/// The answer, where no branch has to be looked at.
fn decided(both: bool, pair: Pair) -> Option<bool>
    ensures { result ≡ decided both pair }
{
    if pair.first == 0 {
        Some(false)
    } else if pair.second == 0 {
        Some(!both)
    } else if pair.second == 1 {
        Some(both)
    } else if pair.first == 1 {
        Some(true)
    } else {
        None
    }
}

impl Arena {
    /// Whether some valuation has the first of two nodes and the second, or else the first alone. Refuted pairs are not asked anew.
    fn found(&self, both: bool, refuted: &mut IndexSet<Pair>, pair: Pair) -> Result<bool, NoMemory>
        requires canonical { AreCanonical self.now }
        requires there { AreNodes self.now pair }
        requires refuted { AreRefuted both self.now refuted.old }
        ensures refuted { OnOk result (AreRefuted both self.now refuted.new) }
        ensures exact { IfOk result (λ r. IsTrue r ↔ IsFound both self.now pair) }
    {
        if let Some(answer) = decided(both, pair) {
            return Ok(answer);
        }
        if refuted.contains(&pair) {
            return Ok(false);
        }
        let split = self.split(pair);
        let low = self.found(both, refuted, split.low)?;
        if low {
            return Ok(true);
        }
        let high = self.found(both, refuted, split.high)?;
        if high {
            return Ok(true);
        }
        refuted.insert(pair)?;
        Ok(false)
    }

    /// Whether two nodes are true in the same valuations. Nodes that are have one number.
    #[tactic(auto, using(crate::proofs::Finding::agree_is))]
    pub fn agree(&self, pair: Pair) -> bool
        requires { AreNodes self.now pair }
        ensures { IsTrue result ↔ Agree (tree_at self.now pair.first) (tree_at self.now pair.second) }
    {
        self.canonical();
        pair.first == pair.second
    }

    /// Whether some valuation has both nodes of a pair.
    pub fn together(&self, alloc: Global, pair: Pair) -> Result<bool, NoMemory>
        requires { AreNodes self.now pair }
        ensures { IfOk result (λ r. IsTrue r ↔ AreTogether self.now pair) }
    {
        self.canonical();
        let mut refuted = IndexSet::new(alloc);
        let found = self.found(true, &mut refuted, pair)?;
        Ok(found)
    }

    /// Whether each valuation with the first node of a pair has the second.
    #[tactic(auto, using(crate::proofs::Finding::implied_is))]
    pub fn implies(&self, alloc: Global, pair: Pair) -> Result<bool, NoMemory>
        requires { AreNodes self.now pair }
        ensures { IfOk result (λ r. IsTrue r ↔ IsImplied self.now pair) }
    {
        self.canonical();
        let mut refuted = IndexSet::new(alloc);
        Ok(!self.found(false, &mut refuted, pair)?)
    }
}
