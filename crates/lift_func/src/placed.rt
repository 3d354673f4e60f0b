// Bodies in the place of arguments.

ghost use Rattle.std.specs.Prelude.{◌≡◌, ◌≤◌, List, map, IfOk, IfSome, slice_index_or};
ghost use Rattle.std.specs.Option.{option_map};
ghost use Rattle.lift_func.specs.BodyTree.{BodyTree, Literal, node_count};
ghost use Rattle.lift_func.specs.inner.Placed.{placed, within, limited, one_within, two_within, choice_within, placed_within};

use crate::body::{Body, Node};
use crate::limits::MOST_NODES;
use std::alloc::Global;
use tsl_value::memory::NoMemory;
use tsl_value::operation::{Binary, Unary};
use tsl_value::scalar::Scalar;

/// The number, if a body may have so many nodes.
fn limited(nodes: u32) -> Option<u32>
    ensures { result ≡ limited nodes }
{
    if nodes <= MOST_NODES {
        Some(nodes)
    } else {
        None
    }
}

/// How many nodes an operand has, if it is there. Past the end stands unit.
fn operand_nodes(operands: &[Option<Body>], number: usize) -> Option<u32>
    ensures exact { result ≡ option_map node_count (slice_index_or operands.now number (Some (Literal Scalar.Unit))) }
    ensures few { IfSome result (λ n. n ≤ MOST_NODES) }
{
    match operands.get(number) {
        Some(Some(operand)) => Some(operand.nodes()),
        Some(None) => None,
        None => Some(1),
    }
}

/// How many nodes a body has with operands in the place of its arguments, if all that it uses are there and a body may have so
/// many.
fn placed_nodes(body: &Body, operands: &[Option<Body>]) -> Option<u32>
    ensures exact { result ≡ option_map node_count (placed_within operands.now body.now) }
    ensures few { IfSome result (λ n. n ≤ MOST_NODES) }
{
    match &body.node {
        Node::Literal(_) => Some(1),
        Node::Argument(number) => operand_nodes(operands, *number),
        Node::Absent(_) => Some(1),
        Node::One(_, a) => limited(1 + placed_nodes(a, operands)?),
        Node::Two(_, a, b) => {
            limited(1 + placed_nodes(a, operands)? + placed_nodes(b, operands)?)
        }
        Node::Choice(c, a, b) => {
            let condition = placed_nodes(c, operands)?;
            limited(1 + condition + placed_nodes(a, operands)? + placed_nodes(b, operands)?)
        }
    }
}

/// An operand, if it is there. Past the end stands unit.
fn operand_at(operands: &[Option<Body>], number: usize) -> Result<Option<Body>, NoMemory>
    ensures { IfOk result (λ b. b ≡ slice_index_or operands.now number (Some (Literal Scalar.Unit))) }
{
    match operands.get(number) {
        Some(Some(operand)) => Ok(Some(operand.copy()?)),
        Some(None) => Ok(None),
        None => Ok(Some(Body::literal(Scalar::Unit))),
    }
}

fn put(alloc: Global, body: &Body, operands: &[Option<Body>]) -> Result<Option<Body>, NoMemory>
    ensures { IfOk result (λ b. b ≡ placed_within operands.now body.now) }
{
    match &body.node {
        Node::Literal(s) => Ok(Some(Body::literal(s.copy()?))),
        Node::Argument(number) => operand_at(operands, *number),
        Node::Absent(of) => Ok(Some(Body::none(*of))),
        Node::One(o, a) => Body::one_within(alloc, *o, put(alloc, a, operands)?),
        Node::Two(o, a, b) => {
            let first = put(alloc, a, operands)?;
            let second = put(alloc, b, operands)?;
            Body::two_within(alloc, *o, first, second)
        }
        Node::Choice(c, a, b) => {
            let condition = put(alloc, c, operands)?;
            let first = put(alloc, a, operands)?;
            let second = put(alloc, b, operands)?;
            Body::choice_within(alloc, condition, first, second)
        }
    }
}

impl Body {
    /// An operation at one operand. None where the operand is, and where there are over 1,024 nodes.
    pub fn one_within(alloc: Global, o: Unary, a: Option<Body>) -> Result<Option<Body>, NoMemory>
        ensures { IfOk result (λ b. b ≡ one_within o a) }
    {
        let Some(a) = a else {
            return Ok(None);
        };
        if 1 + a.nodes() > MOST_NODES {
            return Ok(None);
        }
        Ok(Some(Body::one(alloc, o, a)?))
    }

    /// An operation at two operands. None where one of them is, and where there are over 1,024 nodes.
    pub fn two_within(
        alloc: Global,
        o: Binary,
        a: Option<Body>,
        b: Option<Body>,
    ) -> Result<Option<Body>, NoMemory>
        ensures { IfOk result (λ t. t ≡ two_within o a b) }
    {
        let (Some(a), Some(b)) = (a, b) else {
            return Ok(None);
        };
        if 1 + a.nodes() + b.nodes() > MOST_NODES {
            return Ok(None);
        }
        Ok(Some(Body::two(alloc, o, a, b)?))
    }

    /// `a` where the condition is true, and else `b`. None where one of the three is, and where there are over 1,024 nodes.
    pub fn choice_within(
        alloc: Global,
        condition: Option<Body>,
        a: Option<Body>,
        b: Option<Body>,
    ) -> Result<Option<Body>, NoMemory>
        ensures { IfOk result (λ t. t ≡ choice_within condition a b) }
    {
        let Some(condition) = condition else {
            return Ok(None);
        };
        let (Some(a), Some(b)) = (a, b) else {
            return Ok(None);
        };
        if 1 + condition.nodes() + a.nodes() + b.nodes() > MOST_NODES {
            return Ok(None);
        }
        Ok(Some(Body::choice(alloc, condition, a, b)?))
    }

    /// The body with operands in the place of its arguments. An operand that is None has too many nodes: so has the whole, if it
    /// uses it. Past the end of the operands stands unit.
    #[tactic(auto, using(crate::proofs::PlacedLemmas::placed_same))]
    pub fn placed(&self, alloc: Global, operands: &[Option<Body>]) -> Result<Option<Body>, NoMemory>
        ensures { IfOk result (λ b. (ts : List BodyTree) → operands.now ≡ map within ts → b ≡ within (placed ts self.now)) }
    {
        if placed_nodes(self, operands).is_none() {
            return Ok(None);
        }
        put(alloc, self, operands)
    }
}
