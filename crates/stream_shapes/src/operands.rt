// Operands, of which some are literals.

ghost use Rattle.std.specs.Prelude.{◌≡◌, IfOk, filter, map};
ghost use Rattle.spec_meaning.specs.Shape.{is_part, operand, operands};
ghost use Rattle.stream_constructs.specs.Construct.{operand_trees};
ghost use Rattle.stream_shapes.specs.inner.Shape.{expressions_in};

use crate::literal::{literal, varies};
use lift_func::body::Body;
use std::alloc::Global;
use syntax_tree::tree::Expr;
use tsl_value::memory::NoMemory;
use tsl_value::scalar::Scalar;

/// References to expressions that stand side by side.
pub(crate) fn all<'a>(alloc: Global, expressions: &'a [Expr]) -> Result<Vec<&'a Expr>, NoMemory>
    ensures { IfOk result (λ found. expressions_in found.items ≡ expressions.now) }
{
    let mut found = Vec::new(alloc);
    for expression in expressions {
        found.push(expression)?;
    }
    Ok(found)
}

/// Those that are no literals.
pub(crate) fn varying<'a>(
    alloc: Global,
    expressions: &[&'a Expr],
) -> Result<Vec<&'a Expr>, NoMemory>
    ensures { IfOk result (λ found. expressions_in found.items ≡ filter is_part (expressions_in expressions.now)) }
{
    let mut found = Vec::new(alloc);
    for expression in expressions {
        if varies(expression) {
            found.push(*expression)?;
        }
    }
    Ok(found)
}

/// The literals among expressions, and None for each of the others.
pub(crate) fn literals(alloc: Global, expressions: &[Expr]) -> Result<Vec<Option<Scalar>>, NoMemory>
    ensures { IfOk result (λ found. map operand found.items ≡ operands expressions.now) }
{
    let mut found = Vec::new(alloc);
    for expression in expressions {
        found.push(literal(expression)?)?;
    }
    Ok(found)
}

/// What expressions are as operands in a body: a literal is itself, and the others are arguments.
pub(crate) fn operand_bodies(alloc: Global, expressions: &[Expr]) -> Result<Vec<Body>, NoMemory>
    ensures { IfOk result (λ bodies. bodies.items ≡ operand_trees 0 (operands expressions.now)) }
{
    let mut bodies = Vec::new(alloc);
    let mut number = 0;
    for expression in expressions {
        match literal(expression)? {
            Some(s) => bodies.push(Body::literal(s))?,
            None => {
                bodies.push(Body::argument(number))?;
                number += 1;
            }
        }
    }
    Ok(bodies)
}
