// The body of a value function.

ghost use Rattle.std.specs.Prelude.{◌≡◌, ◌+◌, ◌≤◌, IfOk};
ghost use Rattle.lift_func.specs.declared.limits.TheConstants.{MOST_NODES};

use std::alloc::Global;
use std::marker::Model;
use tsl_value::memory::NoMemory;
use tsl_value::operation::{Binary, Unary};
use tsl_value::scalar::{Scalar, ValueType};

/// The tree of a value function, of at most 1,024 nodes.
#[cycle(body)]
#[derive(Drop)]
pub struct Body {
    pub(crate) node: Node,
    nodes: u32,
}

/// What stands at the root of a body: a literal, an argument by its number, the absent value of a type, an operation at its
/// operands, or a choice.
#[cycle(body)]
#[derive(Drop)]
pub enum Node {
    Literal(Scalar),
    Argument(usize),
    Absent(ValueType),
    One(Unary, Box<Body>),
    Two(Binary, Box<Body>, Box<Body>),
    Choice(Box<Body>, Box<Body>, Box<Body>),
}

impl Model for Body {
    ghost use Rattle.lift_func.specs.BodyTree.{BodyTree, tree_code, node_count, IsCounted};

    ghost Value = { BodyTree };

    ghost coded = { tree_code };

    ghost use Rattle.lift_func.specs.inner.OneLevel.{tree_of};

    ghost view = { λ b. tree_of b.node };

    ghost invariant = { λ b. IsCounted b.nodes (tree_of b.node) };

    ghost size = { node_count };

    ghost use Rattle.std.proofs.Common.{arith};

    ghost size_decreases = { λ a h. Prim.grind arith };
}

impl Body {
    ghost use Rattle.lift_func.specs.BodyTree.{Absent, Argument, Choice, Literal, One, Two, node_count};
    ghost use Rattle.lift_func.specs.inner.OneLevel.{tree_of};

    /// A literal.
    pub fn literal(s: Scalar) -> Body
        ensures { result ≡ Literal s }
    {
        Body {
            node: Node::Literal(s),
            nodes: 1,
        }
    }

    /// The argument of this number, counted from 0.
    pub fn argument(n: usize) -> Body
        ensures { result ≡ Argument n }
    {
        Body {
            node: Node::Argument(n),
            nodes: 1,
        }
    }

    /// The absent value of a type's option.
    pub fn none(of: ValueType) -> Body
        ensures { result ≡ Absent of }
    {
        Body {
            node: Node::Absent(of),
            nodes: 1,
        }
    }

    /// An operation at one operand. Out of memory the operand is gone.
    pub fn one(alloc: Global, o: Unary, a: Body) -> Result<Body, NoMemory>
        requires { 1 + node_count a ≤ MOST_NODES }
        ensures { IfOk result (λ t. t ≡ One o a) }
    {
        let nodes = 1 + a.nodes();
        let a = Box::new(alloc, a)?;
        Ok(Body {
            node: Node::One(o, a),
            nodes,
        })
    }

    /// An operation at two operands. Out of memory the operands are gone.
    pub fn two(alloc: Global, o: Binary, a: Body, b: Body) -> Result<Body, NoMemory>
        requires { 1 + node_count a + node_count b ≤ MOST_NODES }
        ensures { IfOk result (λ t. t ≡ Two o a b) }
    {
        let nodes = 1 + a.nodes() + b.nodes();
        let a = Box::new(alloc, a)?;
        let b = Box::new(alloc, b)?;
        Ok(Body {
            node: Node::Two(o, a, b),
            nodes,
        })
    }

    /// `a` where the condition is true, and else `b`. Out of memory all three are gone.
    pub fn choice(alloc: Global, condition: Body, a: Body, b: Body) -> Result<Body, NoMemory>
        requires { 1 + node_count condition + node_count a + node_count b ≤ MOST_NODES }
        ensures { IfOk result (λ t. t ≡ Choice condition a b) }
    {
        let nodes = 1 + condition.nodes() + a.nodes() + b.nodes();
        let condition = Box::new(alloc, condition)?;
        let a = Box::new(alloc, a)?;
        let b = Box::new(alloc, b)?;
        Ok(Body {
            node: Node::Choice(condition, a, b),
            nodes,
        })
    }

    /// What stands at the root.
    #[inline(always)]
    pub fn node(&self) -> &Node
        ensures { tree_of result.now ≡ self.now }
    {
        &self.node
    }

    /// The number of nodes.
    pub fn nodes(&self) -> u32
        ensures exact { result ≡ node_count self.now }
        ensures few { result ≤ MOST_NODES }
    {
        self.nodes
    }

    /// An equal tree.
    #[cycle(copy)]
    pub fn copy(&self) -> Result<Body, NoMemory>
        ensures equal { IfOk result (λ b. b ≡ self.now) }
        ensures few { IfOk result (λ b. node_count b ≤ MOST_NODES) }
    {
        let node = match &self.node {
            Node::Literal(s) => Node::Literal(s.copy()?),
            Node::Argument(n) => Node::Argument(*n),
            Node::Absent(of) => Node::Absent(*of),
            Node::One(o, a) => Node::One(*o, boxed(a)?),
            Node::Two(o, a, b) => Node::Two(*o, boxed(a)?, boxed(b)?),
            Node::Choice(c, a, b) => Node::Choice(boxed(c)?, boxed(a)?, boxed(b)?),
        };
        Ok(Body {
            node,
            nodes: self.nodes,
        })
    }
}

#[cycle(copy)]
fn boxed(body: &Box<Body>) -> Result<Box<Body>, NoMemory>
    ensures { IfOk result (λ b. b.value ≡ body.now.value) }
{
    let copy = body.copy()?;
    Ok(Box::new(*Box::allocator(body), copy)?)
}
