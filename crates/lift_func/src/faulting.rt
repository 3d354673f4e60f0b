// Which bodies can fault.

ghost use Rattle.std.specs.Prelude.{◌≡◌};
ghost use Rattle.lift_func.specs.Operations.{can_fault_one, can_fault_two, is_arithmetic};
ghost use Rattle.lift_func.specs.Typing.{can_fault};

use crate::body::{Body, Node};
use tsl_value::operation::{Binary, Unary};

fn unary_can_fault(o: Unary) -> bool
    ensures { result ≡ can_fault_one o }
{
    matches!(o, Unary::Neg | Unary::Size | Unary::Front | Unary::GetSome)
}

/// Whether it is an operation of arithmetic.
pub fn is_arithmetic(o: Binary) -> bool
    ensures { result ≡ is_arithmetic o }
{
    matches!(
        o,
        Binary::Add | Binary::Sub | Binary::Mul | Binary::Div | Binary::Rem
    )
}

fn binary_can_fault(o: Binary) -> bool
    ensures { result ≡ can_fault_two o }
{
    matches!(o, Binary::Get | Binary::Concat) || is_arithmetic(o)
}

impl Body {
    /// Whether the body has an operation that can fault.
    pub fn can_fault(&self) -> bool
        ensures { result ≡ can_fault self.now }
    {
        match &self.node {
            Node::Literal(_) | Node::Argument(_) | Node::Absent(_) => false,
            Node::One(o, a) => unary_can_fault(*o) || a.can_fault(),
            Node::Two(o, a, b) => binary_can_fault(*o) || a.can_fault() || b.can_fault(),
            Node::Choice(c, a, b) => c.can_fault() || a.can_fault() || b.can_fault(),
        }
    }
}
