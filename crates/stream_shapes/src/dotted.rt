// Calls of the functions whose names have a dot.

ghost use Rattle.std.specs.Prelude.{◌≡◌, List, filter, IfOk};
ghost use Rattle.vocabulary.specs.Table.{role_of};
ghost use Rattle.syntax_tree.specs.Tree.{Expr as ExprTree};
ghost use Rattle.spec_meaning.specs.Occurrence.{Call};
ghost use Rattle.spec_meaning.specs.Function.{dotted_tree, no_tree};
ghost use Rattle.spec_meaning.specs.Shape.{dotted_shape, role_shape, is_part, operands};
ghost use Rattle.stream_constructs.specs.Construct.{operand_trees};
ghost use Rattle.stream_constructs.specs.Construct as construct;
ghost use Rattle.stream_shapes.specs.inner.Shape.{HasShape, IsShapeAt, update_or};

use crate::construct::Shape;
use crate::operands::all;
use crate::operation::{binary, signal, unary, update};
use function_bodies::operation::{dotted_one, dotted_two};
use lift_func::body::Body;
use std::alloc::Global;
use syntax_tree::tree::Expr;
use tsl_value::memory::NoMemory;
use tsl_value::operation::Update;
use tsl_value::scalar::Scalar;
use vocabulary::dotted::Dotted;
use vocabulary::signature::Role;

fn update_in(role: Role) -> Option<Update>
    ensures { (cs : List Call) (es : List ExprTree) → role_shape cs role es ≡ update_or result role cs es }
{
    match role {
        Role::Unary(_) => None,
        Role::Binary(_) => None,
        Role::Update(op) => Some(op),
    }
}

/// The update that a function is, if it is one.
fn update_of(function: Dotted) -> Option<Update>
    ensures { (cs : List Call) (es : List ExprTree) → dotted_shape cs function es ≡ update_or result (role_of function) cs es }
{
    update_in(function.role())
}

/// What an operation is at a number of operands that it does not take.
fn misfit<'a>(alloc: Global, arguments: &'a [Expr]) -> Result<Shape<'a>, NoMemory>
    ensures { IfOk result (λ s. HasShape s (construct.Signal no_tree) (filter is_part arguments.now)) }
{
    let expressions = all(alloc, arguments)?;
    signal(alloc, Body::literal(Scalar::Unit), &expressions)
}

/// An operation on current values.
fn operation<'a>(
    alloc: Global,
    function: Dotted,
    arguments: &'a [Expr],
) -> Result<Shape<'a>, NoMemory>
    ensures { IfOk result (λ s. HasShape s (construct.Signal (dotted_tree function (operand_trees 0 (operands arguments.now))))
        (filter is_part arguments.now)) }
{
    let Some((first, rest)) = arguments.split_first() else {
        return misfit(alloc, arguments);
    };
    let Some((second, rest)) = rest.split_first() else {
        return match dotted_one(function) {
            Some(operation) => unary(alloc, operation, first),
            None => misfit(alloc, arguments),
        };
    };
    match (dotted_two(function), rest.split_first()) {
        (Some(operation), None) => binary(alloc, operation, first, second),
        (Some(_), Some(_)) => misfit(alloc, arguments),
        (None, _) => misfit(alloc, arguments),
    }
}

/// A call of a function with a dot.
pub(crate) fn dotted<'a>(
    alloc: Global,
    function: Dotted,
    arguments: &'a [Expr],
) -> Result<Shape<'a>, NoMemory>
    ensures { IfOk result (IsShapeAt (λ items cs. dotted_shape cs function arguments.now)) }
{
    match update_of(function) {
        Some(op) => update(alloc, op, arguments),
        None => operation(alloc, function, arguments),
    }
}
