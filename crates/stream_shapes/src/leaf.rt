// Expressions whose parts are all streams, and those without parts.

ghost use Rattle.std.specs.Prelude.{[], IfOk};
ghost use Rattle.spec_meaning.specs.Function.{literal};
ghost use Rattle.spec_meaning.specs.Shape.{literal_shape, empty_shape};
ghost use Rattle.syntax_tree.specs.inner.OneLevel.{expr_of};
ghost use Rattle.name_check.specs.inner.Shown.{nowhere};
ghost use Rattle.stream_shapes.specs.inner.Shape.{HasShape, IsShapeAt, construct_of};

use crate::construct::{Construct, Shape};
use crate::literal::literal_of;
use crate::operands::all;
use std::alloc::Global;
use syntax_tree::tree::{Expr, Node};
use tsl_value::memory::NoMemory;
use tsl_value::scalar::ValueType;

/// A construct without parts.
pub(crate) fn alone<'a>(alloc: Global, construct: Construct) -> Shape<'a>
    ensures { HasShape result (construct_of construct) [] }
{
    Shape {
        construct,
        parts: Vec::new(alloc),
    }
}

/// What stands for an expression that is no construct with equations of its own. Nobody asks for it.
pub(crate) fn nothing<'a>(alloc: Global) -> Shape<'a> {
    alone(alloc, Construct::Nil)
}

/// A construct of which all of these are parts.
pub(crate) fn over<'a>(
    alloc: Global,
    construct: Construct,
    parts: &'a [Expr],
) -> Result<Shape<'a>, NoMemory>
    ensures { IfOk result (λ s. HasShape s (construct_of construct) parts.now) }
{
    Ok(Shape {
        construct,
        parts: all(alloc, parts)?,
    })
}

/// A literal that stands alone.
pub(crate) fn literal_shape<'a>(alloc: Global, node: &Node) -> Result<Shape<'a>, NoMemory>
    ensures { IfOk result (IsShapeAt (λ items cs. literal_shape items cs (literal (expr_of nowhere node.now)))) }
{
    match literal_of(node)? {
        Some(s) => Ok(alone(alloc, Construct::Literal(s))),
        None => Ok(nothing(alloc)),
    }
}

/// A set or a map without elements, if its type may stand.
pub(crate) fn empty_shape<'a>(alloc: Global, of: Option<ValueType>) -> Shape<'a>
    ensures { IsShapeAt (λ items cs. empty_shape items cs of) result }
{
    match of {
        Some(of) => alone(alloc, Construct::Empty(of)),
        None => nothing(alloc),
    }
}
