// Literals, which are no streams where they stand as operands.

ghost use Rattle.std.specs.Prelude.{◌≡◌, IfOk};
ghost use Rattle.spec_meaning.specs.Function.{literal};
ghost use Rattle.spec_meaning.specs.Shape.{is_part};
ghost use Rattle.syntax_tree.specs.inner.OneLevel.{expr_of};
ghost use Rattle.name_check.specs.inner.Shown.{nowhere};

use syntax_tree::tree::{Expr, Node};
use tsl_value::memory::NoMemory;
use tsl_value::scalar::Scalar;

/// The value of one level, if it is a literal.
pub(crate) fn literal_of(node: &Node) -> Result<Option<Scalar>, NoMemory>
    ensures { IfOk result (λ s. s ≡ literal (expr_of nowhere node.now)) }
{
    match node {
        Node::Number(number) => Ok(Some(Scalar::Int(number.to_int()))),
        Node::Negative(number) => Ok(Some(Scalar::Int(number.to_negative()))),
        Node::Text(text) => Ok(Some(Scalar::Text(text.copy()?))),
        Node::Boolean(value) => Ok(Some(Scalar::Bool(*value))),
        _ => Ok(None),
    }
}

/// The value of a literal: a number with or without a minus, a text or a truth value.
pub fn literal(expression: &Expr) -> Result<Option<Scalar>, NoMemory>
    ensures { IfOk result (λ s. s ≡ literal expression.now) }
{
    literal_of(expression.node())
}

/// An expression that is no literal.
pub(crate) fn varies(expression: &Expr) -> bool
    ensures { result ≡ is_part expression.now }
{
    match expression.node() {
        Node::Number(_) | Node::Negative(_) | Node::Text(_) | Node::Boolean(_) => false,
        _ => true,
    }
}
