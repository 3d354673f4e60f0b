// Bodies of one operation, over operands of which some are literals.

ghost use Rattle.std.specs.Prelude.{◌≡◌, ◌≤◌, [], ◌∷◌, IfOk};
ghost use Rattle.lift_func.specs.BodyTree.{One, Two, node_count};
ghost use Rattle.spec_meaning.specs.Function.{operation_of};
ghost use Rattle.spec_meaning.specs.Shape.{operand, one_operand, two_operands};
ghost use Rattle.stream_constructs.specs.Construct.{operand_trees};
ghost use Rattle.stream_constructs.specs.Equations as equations;
ghost use Rattle.stream_shapes.specs.inner.Operands.{operand_tree, argument_count};

use function_bodies::operation::operation_of;
use lift_func::body::Body;
use std::alloc::Global;
use syntax_tree::tree::Operator;
use tsl_value::memory::NoMemory;
use tsl_value::operation::{Binary, Unary};
use tsl_value::scalar::Scalar;

/// A literal, or else the argument of this number.
fn operand_body(literal: Option<Scalar>, number: usize) -> Body
    ensures is { result ≡ operand_tree literal number }
    ensures single { node_count result ≡ 1 }
{
    match literal {
        Some(s) => Body::literal(s),
        None => Body::argument(number),
    }
}

/// How many arguments an operand takes: none if it is a literal, and else one.
fn argument_count(literal: &Option<Scalar>) -> usize
    ensures is { result ≡ argument_count literal.now }
    ensures few { result ≤ 1 }
{
    match literal {
        Some(_) => 0,
        None => 1,
    }
}

/// An operation at a literal or an argument.
pub(crate) fn one_body(
    alloc: Global,
    operation: Unary,
    literal: Option<Scalar>,
) -> Result<Body, NoMemory>
    ensures { IfOk result (λ b. b ≡ one_operand (One operation) (operand_trees 0 (operand literal ∷ []))) }
{
    Body::one(alloc, operation, operand_body(literal, 0))
}

/// An operation at two literals or arguments.
pub(crate) fn two_body(
    alloc: Global,
    operation: Binary,
    left: Option<Scalar>,
    right: Option<Scalar>,
) -> Result<Body, NoMemory>
    ensures { IfOk result (λ b. b ≡ two_operands (Two operation) (operand_trees 0 (operand left ∷ operand right ∷ []))) }
{
    let second = argument_count(&left);
    let left = operand_body(left, 0);
    let right = operand_body(right, second);
    Body::two(alloc, operation, left, right)
}

/// A choice by a condition between two others, each a literal or an argument.
pub(crate) fn choice_body(
    alloc: Global,
    condition: Option<Scalar>,
    yes: Option<Scalar>,
    no: Option<Scalar>,
) -> Result<Body, NoMemory>
    ensures { IfOk result (λ b. b ≡ equations.choice (operand_trees 0 (operand condition ∷ operand yes ∷ operand no ∷ []))) }
{
    let second = argument_count(&condition);
    let third = second + argument_count(&yes);
    let condition = operand_body(condition, 0);
    let yes = operand_body(yes, second);
    let no = operand_body(no, third);
    Body::choice(alloc, condition, yes, no)
}

/// The body of an operator of a chain over its two operands: a literal, or None for the next argument.
pub fn link_body(
    alloc: Global,
    operator: Operator,
    left: Option<Scalar>,
    right: Option<Scalar>,
) -> Result<Body, NoMemory>
    ensures { IfOk result (λ b. b ≡ two_operands (Two (operation_of operator)) (operand_trees 0 (operand left ∷ operand right ∷ []))) }
{
    two_body(alloc, operation_of(operator), left, right)
}
