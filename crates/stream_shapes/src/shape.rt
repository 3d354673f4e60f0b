// Which construct an expression of streams is.

ghost use Rattle.std.specs.Prelude.{IfOk};
ghost use Rattle.syntax_tree.specs.Tree as tree;
ghost use Rattle.syntax_tree.specs.inner.OneLevel.{expr_of};
ghost use Rattle.name_check.specs.inner.Shown.{nowhere};
ghost use Rattle.spec_meaning.specs.Shape.{expr_shape};
ghost use Rattle.stream_shapes.specs.inner.Shape.{IsShapeAt, IsShapeOf};

use crate::call::call;
use crate::construct::{Construct, Shape};
use crate::dotted::dotted;
use crate::leaf::{alone, empty_shape, literal_shape, nothing};
use crate::operation::{binary, choice, unary};
use function_bodies::functions::Functions;
use function_bodies::operation::comparison_of;
use name_check::builtin::is_unit;
use name_check::scope::Scope;
use std::alloc::Global;
use syntax_tree::tree::{Expr, Node};
use tsl_value::memory::NoMemory;
use tsl_value::operation::Unary;
use type_rules::written::aggregate_of;

/// A name. The language has one that is a construct.
fn name_shape<'a>(alloc: Global, name: &str) -> Shape<'a>
    ensures { IsShapeAt (λ items cs. expr_shape items cs (tree.Name nowhere name.now)) result }
{
    if is_unit(name) {
        alone(alloc, Construct::Unit)
    } else {
        nothing(alloc)
    }
}

fn node_shape<'a>(
    alloc: Global,
    functions: &Functions,
    scope: &Scope<'_>,
    node: &'a Node,
) -> Result<Shape<'a>, NoMemory>
    ensures { IfOk result (IsShapeOf functions.now scope.now (expr_of nowhere node.now)) }
{
    match node {
        Node::If(condition, yes, no) => choice(alloc, condition, yes, no),
        Node::Chain(_, _, _) => Ok(nothing(alloc)),
        Node::Compare(comparison, left, right) => {
            binary(alloc, comparison_of(*comparison), left, right)
        }
        Node::Negate(operand) => unary(alloc, Unary::Neg, operand),
        Node::Not(operand) => unary(alloc, Unary::Not, operand),
        Node::Number(_) => literal_shape(alloc, node),
        Node::Negative(_) => literal_shape(alloc, node),
        Node::Text(_) => literal_shape(alloc, node),
        Node::Boolean(_) => literal_shape(alloc, node),
        Node::Unit => Ok(alone(alloc, Construct::Unit)),
        Node::Name(name) => Ok(name_shape(alloc, name.as_str())),
        Node::Call(name, arguments) => call(alloc, functions, scope, name.as_str(), arguments),
        Node::CallDotted(function, arguments) => dotted(alloc, *function, arguments),
        Node::Nil(_) => Ok(alone(alloc, Construct::Nil)),
        Node::None(_) => Ok(nothing(alloc)),
        Node::Empty(of) => Ok(empty_shape(alloc, aggregate_of(of))),
    }
}

/// The construct that an expression of streams is, and the expressions of its parts, where these names are seen and value functions
/// have these bodies. Nothing is said of a name, a call of a macro, a chain of operators and an absent option.
pub fn shape<'a>(
    alloc: Global,
    functions: &Functions,
    scope: &Scope<'_>,
    expression: &'a Expr,
) -> Result<Shape<'a>, NoMemory>
    ensures { IfOk result (IsShapeOf functions.now scope.now expression.now) }
{
    node_shape(alloc, functions, scope, expression.node())
}
