// Operations on current values, and updates.

ghost use Rattle.std.specs.Prelude.{[], ◌∷◌, filter, IfOk};
ghost use Rattle.lift_func.specs.BodyTree.{One, Two};
ghost use Rattle.spec_meaning.specs.Shape.{is_part, operands, one_operand, two_operands};
ghost use Rattle.stream_constructs.specs.Construct.{operand_trees};
ghost use Rattle.stream_constructs.specs.Construct as construct;
ghost use Rattle.stream_constructs.specs.Equations as equations;
ghost use Rattle.stream_shapes.specs.inner.Shape.{HasShape, expressions_in};

use crate::body::{choice_body, one_body, two_body};
use crate::construct::{Construct, Shape};
use crate::literal::literal;
use crate::operands::{all, literals, varying};
use lift_func::body::Body;
use std::alloc::Global;
use syntax_tree::tree::Expr;
use tsl_value::memory::NoMemory;
use tsl_value::operation::{Binary, Unary, Update};

/// A body over expressions, of which those are parts that are no literals.
pub(crate) fn signal<'a>(
    alloc: Global,
    body: Body,
    expressions: &[&'a Expr],
) -> Result<Shape<'a>, NoMemory>
    ensures { IfOk result (λ s. HasShape s (construct.Signal body) (filter is_part (expressions_in expressions.now))) }
{
    Ok(Shape {
        construct: Construct::Signal(body),
        parts: varying(alloc, expressions)?,
    })
}

pub(crate) fn unary<'a>(
    alloc: Global,
    operation: Unary,
    operand: &'a Expr,
) -> Result<Shape<'a>, NoMemory>
    ensures { IfOk result (λ s. HasShape s (construct.Signal (one_operand (One operation) (operand_trees 0 (operands (operand.now ∷ [])))))
        (filter is_part (operand.now ∷ []))) }
{
    let body = one_body(alloc, operation, literal(operand)?)?;
    signal(alloc, body, &[operand])
}

pub(crate) fn binary<'a>(
    alloc: Global,
    operation: Binary,
    left: &'a Expr,
    right: &'a Expr,
) -> Result<Shape<'a>, NoMemory>
    ensures { IfOk result (λ s. HasShape s
        (construct.Signal (two_operands (Two operation) (operand_trees 0 (operands (left.now ∷ right.now ∷ [])))))
        (filter is_part (left.now ∷ right.now ∷ []))) }
{
    let body = two_body(alloc, operation, literal(left)?, literal(right)?)?;
    signal(alloc, body, &[left, right])
}

pub(crate) fn choice<'a>(
    alloc: Global,
    condition: &'a Expr,
    yes: &'a Expr,
    no: &'a Expr,
) -> Result<Shape<'a>, NoMemory>
    ensures { IfOk result (λ s. HasShape s
        (construct.Signal (equations.choice (operand_trees 0 (operands (condition.now ∷ yes.now ∷ no.now ∷ [])))))
        (filter is_part (condition.now ∷ yes.now ∷ no.now ∷ []))) }
{
    let body = choice_body(alloc, literal(condition)?, literal(yes)?, literal(no)?)?;
    signal(alloc, body, &[condition, yes, no])
}

pub(crate) fn update<'a>(
    alloc: Global,
    op: Update,
    arguments: &'a [Expr],
) -> Result<Shape<'a>, NoMemory>
    ensures { IfOk result (λ s. HasShape s (construct.Update op (operands arguments.now)) (filter is_part arguments.now)) }
{
    let operands = literals(alloc, arguments)?;
    let expressions = all(alloc, arguments)?;
    Ok(Shape {
        construct: Construct::Update(op, operands),
        parts: varying(alloc, &expressions)?,
    })
}
