// What expressions of value functions become.

ghost use Rattle.std.specs.Prelude.{◌≡◌, IfOk, map};
ghost use Rattle.lift_func.specs.BodyTree.{One, Two, Choice};
ghost use Rattle.lift_func.specs.inner.Placed.{within};
ghost use Rattle.name_check.specs.Scope.{meaning, seen};
ghost use Rattle.name_check.specs.inner.Shown.{nowhere};
ghost use Rattle.syntax_tree.specs.inner.OneLevel.{expr_of, exprs_of, links_in};
ghost use Rattle.spec_meaning.specs.Function.{call_tree, dotted_tree};
ghost use Rattle.function_bodies.specs.inner.Around.{args_at, call_of, chain_at, tree_at, trees_at};

use crate::around::{Around, absent, call_body, unit};
use crate::operation::{comparison_of, dotted_one, dotted_two, operation_of, option_operation};
use lift_func::body::Body;
use name_check::declaration::Declaration;
use std::alloc::Global;
use syntax_tree::tree::{Expr, Link, Node};
use tsl_value::memory::NoMemory;
use tsl_value::operation::{Binary, Unary};
use tsl_value::scalar::Scalar;
use vocabulary::dotted::Dotted;

/// The body that an expression becomes, if it has not too many nodes.
#[cycle(expression)]
#[tactic(auto, using(crate::proofs::WalkLemmas::tree_of_node))]
pub(crate) fn expression(
    alloc: Global,
    at: &Around<'_>,
    expression: &Expr,
) -> Result<Option<Body>, NoMemory>
    ensures { IfOk result (λ b. b ≡ within (tree_at at.now expression.now)) }
{
    inner(alloc, at, expression.node())
}

/// One level, and what is inside.
#[cycle(expression)]
fn inner(alloc: Global, at: &Around<'_>, node: &Node) -> Result<Option<Body>, NoMemory>
    ensures { IfOk result (λ b. b ≡ within (tree_at at.now (expr_of nowhere node.now))) }
{
    match node {
        Node::If(condition, yes, no) => choice(alloc, at, condition, yes, no),
        Node::Chain(_, first, links) => chain(alloc, at, first, links),
        Node::Compare(comparison, left, right) => {
            binary(alloc, at, comparison_of(*comparison), left, right)
        }
        Node::Negate(operand) => unary(alloc, at, Unary::Neg, operand),
        Node::Not(operand) => unary(alloc, at, Unary::Not, operand),
        Node::Number(number) => Ok(Some(Body::literal(Scalar::Int(number.to_int())))),
        Node::Negative(number) => Ok(Some(Body::literal(Scalar::Int(number.to_negative())))),
        Node::Text(text) => Ok(Some(Body::literal(Scalar::Text(text.copy()?)))),
        Node::Boolean(value) => Ok(Some(Body::literal(Scalar::Bool(*value)))),
        Node::Unit => Ok(unit()),
        Node::Name(name) => Ok(at.named(name.as_str())),
        Node::Call(name, arguments) => call(alloc, at, name.as_str(), arguments),
        Node::CallDotted(function, arguments) => dotted(alloc, at, *function, arguments),
        Node::Nil(_) => Ok(unit()),
        Node::None(of) => Ok(absent(of)),
        Node::Empty(_) => Ok(unit()),
    }
}

#[cycle(expression)]
#[tactic(auto, using(lift_func::proofs::PlacedLemmas::one_same))]
fn unary(
    alloc: Global,
    at: &Around<'_>,
    operation: Unary,
    operand: &Expr,
) -> Result<Option<Body>, NoMemory>
    ensures { IfOk result (λ b. b ≡ within (One operation (tree_at at.now operand.now))) }
{
    let operand = expression(alloc, at, operand)?;
    Body::one_within(alloc, operation, operand)
}

#[cycle(expression)]
#[tactic(auto, using(lift_func::proofs::PlacedLemmas::two_same))]
fn binary(
    alloc: Global,
    at: &Around<'_>,
    operation: Binary,
    left: &Expr,
    right: &Expr,
) -> Result<Option<Body>, NoMemory>
    ensures { IfOk result (λ b. b ≡ within (Two operation (tree_at at.now left.now) (tree_at at.now right.now))) }
{
    let left = expression(alloc, at, left)?;
    let right = expression(alloc, at, right)?;
    Body::two_within(alloc, operation, left, right)
}

#[cycle(expression)]
#[tactic(auto, using(lift_func::proofs::PlacedLemmas::choice_same))]
fn choice(
    alloc: Global,
    at: &Around<'_>,
    condition: &Expr,
    yes: &Expr,
    no: &Expr,
) -> Result<Option<Body>, NoMemory>
    ensures { IfOk result (λ b. b ≡ within (Choice (tree_at at.now condition.now) (tree_at at.now yes.now) (tree_at at.now no.now))) }
{
    let condition = expression(alloc, at, condition)?;
    let yes = expression(alloc, at, yes)?;
    let no = expression(alloc, at, no)?;
    Body::choice_within(alloc, condition, yes, no)
}

/// The operands of one level, which group to the left.
#[cycle(expression)]
fn chain(
    alloc: Global,
    at: &Around<'_>,
    first: &Expr,
    links: &[Link],
) -> Result<Option<Body>, NoMemory>
    ensures { IfOk result (λ b. b ≡ within (chain_at at.now (tree_at at.now first.now) (links_in links.now))) }
{
    let mut chained = expression(alloc, at, first)?;
    for link in links {
        let operand = expression(alloc, at, &link.operand)?;
        chained = Body::two_within(alloc, operation_of(link.operator), chained, operand)?;
    }
    Ok(chained)
}

#[cycle(expression)]
fn call(
    alloc: Global,
    at: &Around<'_>,
    name: &str,
    arguments: &[Expr],
) -> Result<Option<Body>, NoMemory>
    ensures { IfOk result (λ b. b ≡ within (call_tree (seen at.now.scope.now) (args_at at.now) (call_of at.now.functions.now)
        (meaning (seen at.now.scope.now) name.now) name.now (trees_at at.now (exprs_of arguments.now)))) }
{
    match at.scope.find(name) {
        Some(Declaration::Function(number)) => {
            let operands = operands(alloc, at, arguments)?;
            call_body(alloc, at.functions, number, &operands)
        }
        Some(Declaration::Input(_)) | Some(Declaration::Stream(_)) => Ok(unit()),
        Some(Declaration::Macro(_)) | Some(Declaration::Mixed(_)) => Ok(unit()),
        Some(Declaration::Parameter(_)) | Some(Declaration::Local(_)) => Ok(unit()),
        None => option_call(alloc, at, name, arguments),
    }
}

/// A call of a name that is not declared: an operation on an option.
#[cycle(expression)]
fn option_call(
    alloc: Global,
    at: &Around<'_>,
    name: &str,
    arguments: &[Expr],
) -> Result<Option<Body>, NoMemory>
    ensures { IfOk result (λ b. b ≡ within (call_tree (seen at.now.scope.now) (args_at at.now) (call_of at.now.functions.now) None name.now
        (trees_at at.now (exprs_of arguments.now)))) }
{
    let Some((operand, rest)) = arguments.split_first() else {
        return Ok(unit());
    };
    match (option_operation(name), rest.split_first()) {
        (Some(operation), None) => unary(alloc, at, operation, operand),
        (Some(_), Some(_)) => Ok(unit()),
        (None, _) => Ok(unit()),
    }
}

/// A call of a function with a dot.
#[cycle(expression)]
fn dotted(
    alloc: Global,
    at: &Around<'_>,
    function: Dotted,
    arguments: &[Expr],
) -> Result<Option<Body>, NoMemory>
    ensures { IfOk result (λ b. b ≡ within (dotted_tree function (trees_at at.now (exprs_of arguments.now)))) }
{
    let Some((first, rest)) = arguments.split_first() else {
        return Ok(unit());
    };
    let Some((second, rest)) = rest.split_first() else {
        return match dotted_one(function) {
            Some(operation) => unary(alloc, at, operation, first),
            None => Ok(unit()),
        };
    };
    match (dotted_two(function), rest.split_first()) {
        (Some(operation), None) => binary(alloc, at, operation, first, second),
        (Some(_), Some(_)) => Ok(unit()),
        (None, _) => Ok(unit()),
    }
}

/// The bodies that the arguments of a call become.
#[cycle(expression)]
fn operands(
    alloc: Global,
    at: &Around<'_>,
    arguments: &[Expr],
) -> Result<Vec<Option<Body>>, NoMemory>
    ensures { IfOk result (λ bodies. bodies.items ≡ map within (trees_at at.now (exprs_of arguments.now))) }
{
    let mut bodies = Vec::new(alloc);
    for argument in arguments {
        bodies.push(expression(alloc, at, argument)?)?;
    }
    Ok(bodies)
}
