// Decision diagrams of some formulas.

ghost use Rattle.std.specs.Prelude.{◌≡◌, ◌<◌, ◌↔◌, length, slice_index_or, None, IfOk, IfSome, IsTrue};
ghost use Rattle.flat_core.specs.inner.Dependency.{IsRunOrder};
ghost use Rattle.flat_core.specs.System.{System};
ghost use Rattle.trigger_diagram.specs.inner.Kept.{AreDiagramsOf};
ghost use Rattle.trigger_formulas.specs.inner.Kept.{Follows};

use flat_core::flat::Flat;
use std::alloc::Global;
use std::marker::Model;
use translation_order::steps::Steps;
use trigger_diagram::diagrams::{Diagrams, Node};
use tsl_value::ids::EqId;
use tsl_value::memory::NoMemory;

/// The nodes of some equations' formulas. Contracts see the diagrams.
#[derive(Drop)]
pub(crate) struct Nodes {
    diagrams: Diagrams,
    nodes: Vec<Option<Node>>,
}

impl Model for Nodes {
    ghost use Rattle.trigger_diagram.specs.inner.Kept.{Kept};
    ghost use Rattle.trigger_formulas.specs.inner.Kept.{AreNodesIn};

    ghost Value = { Kept };

    ghost view = { λ n. n.diagrams };

    ghost invariant = { λ n. AreNodesIn n.diagrams n.nodes.items };
}

/// The node of an equation, if it has one.
fn node_of(nodes: &[Option<Node>], a: EqId) -> Option<Node>
    ensures { result ≡ slice_index_or nodes.now a None }
{
    match nodes.get(a.get() as usize) {
        Some(node) => *node,
        None => None,
    }
}

impl Nodes {
    /// No node yet, of a system that has this order to run it in.
    pub fn new(alloc: Global, flat: &Flat, order: &Steps) -> Result<Nodes, NoMemory>
        requires { IsRunOrder flat.now order.now }
        ensures { IfOk result (λ n. AreDiagramsOf n flat.now) }
    {
        let diagrams = Diagrams::new(alloc, flat, order)?;
        let nodes = vec![in alloc; None; flat.count() as usize]?;
        Ok(Nodes { diagrams, nodes })
    }

    /// Makes the node of an equation's formula, if it isn't there.
    pub fn make(&mut self, a: EqId) -> Result<(), NoMemory>
        requires { a < length self.old.rules }
        ensures { self.new.rules ≡ self.old.rules }
    {
        let index = a.get() as usize;
        if self.nodes[index].is_none() {
            let node = self.diagrams.of_formula(a)?;
            self.nodes[index] = Some(node);
        }
        Ok(())
    }

    /// Whether each assignment with the first formula has the second, if both have a node.
    pub fn implies(&self, alloc: Global, a: EqId, b: EqId) -> Result<Option<bool>, NoMemory>
        ensures { IfOk result (λ r. IfSome r (λ told. (s : System) → AreDiagramsOf self.now s → IsTrue told ↔ Follows s a b)) }
    {
        let Some(first) = node_of(&self.nodes, a) else {
            return Ok(None);
        };
        let Some(second) = node_of(&self.nodes, b) else {
            return Ok(None);
        };
        let told = self.diagrams.implies(alloc, first, second)?;
        Ok(Some(told))
    }
}
