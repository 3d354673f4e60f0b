// Calls.

ghost use Rattle.std.specs.Prelude.{◌≡◌, ℕ, List, [], ◌∷◌, MatchOption, filter, IfOk};
ghost use Rattle.syntax_tree.specs.Tree as tree;
ghost use Rattle.syntax_tree.specs.inner.OneLevel.{exprs_of};
ghost use Rattle.name_check.specs.Scope.{meaning, seen};
ghost use Rattle.spec_meaning.specs.Occurrence.{Call, scope_at};
ghost use Rattle.spec_meaning.specs.Function.{function_at, function_body};
ghost use Rattle.spec_meaning.specs.Shape.{call_shape, const_shape, declared_shape, filter_shape, lift_shape, function_named, plain_name};
ghost use Rattle.spec_meaning.specs.Shape.{is_part, operands};
ghost use Rattle.function_bodies.specs.Bodies.{AreBodies, too_large_bodies};
ghost use Rattle.function_bodies.specs.inner.Calls.{IsFunction};
ghost use Rattle.stream_constructs.specs.Construct.{operand_trees};
ghost use Rattle.stream_constructs.specs.Construct as construct;
ghost use Rattle.stream_shapes.specs.inner.Shape.{HasShape, IsShapeAt, IsShapeWhere, filter_by, plain_shape};

use crate::construct::{Construct, Shape};
use crate::leaf::{nothing, over};
use crate::literal::literal;
use crate::operands::{all, operand_bodies};
use crate::operation::signal;
use function_bodies::functions::Functions;
use name_check::declaration::Declaration;
use name_check::scope::Scope;
use std::alloc::Global;
use syntax_tree::tree::{Expr, Node};
use tsl_value::memory::NoMemory;
use vocabulary::plain::{Plain, plain_named};

/// A literal at each event of a stream. The literal is no part.
fn constant<'a>(alloc: Global, arguments: &'a [Expr]) -> Result<Shape<'a>, NoMemory>
    ensures { IfOk result (IsShapeAt (λ items cs. const_shape cs arguments.now)) }
{
    let Some((value, streams)) = arguments.split_first() else {
        return Ok(nothing(alloc));
    };
    if streams.len() != 1 {
        return Ok(nothing(alloc));
    }
    match literal(value)? {
        Some(s) => over(alloc, Construct::Const(s), streams),
        None => Ok(nothing(alloc)),
    }
}

/// The condition of a filter, if it is a literal.
fn condition_of(condition: &Expr) -> Option<bool>
    ensures { (cs : List Call) (e : tree.Expr) → filter_shape cs (e ∷ condition.now ∷ []) ≡ filter_by result cs e condition.now }
{
    match condition.node() {
        Node::Boolean(holds) => Some(*holds),
        _ => None,
    }
}

/// A filter. A condition that is a literal is no part.
fn filter<'a>(alloc: Global, arguments: &'a [Expr]) -> Result<Shape<'a>, NoMemory>
    ensures { IfOk result (IsShapeAt (λ items cs. filter_shape cs arguments.now)) }
{
    let Some((condition, streams)) = arguments.split_last() else {
        return Ok(nothing(alloc));
    };
    if streams.len() != 1 {
        return Ok(nothing(alloc));
    }
    match condition_of(condition) {
        Some(holds) => over(alloc, Construct::FilterBy(holds), streams),
        None => over(alloc, Construct::Filter, arguments),
    }
}

/// What the name of a function stands for, where it stands as the last argument of `lift`.
fn function_named(scope: &Scope<'_>, function: &Expr) -> Option<Declaration>
    ensures { (items : List tree.Item) → result ≡ function_named items (seen scope.now) function.now }
{
    match function.node() {
        Node::Name(name) => scope.find(name.as_str()),
        _ => None,
    }
}

/// The item of the value function that a name stands for, if it stands for one.
fn function_of(declaration: Option<Declaration>) -> Option<usize>
    ensures { MatchOption result ((i : ℕ) → declaration ≡ Some (Declaration.Function i) → ⊥)
        (λ i. declaration ≡ Some (Declaration.Function i)) }
{
    match declaration {
        Some(Declaration::Function(number)) => Some(number),
        Some(Declaration::Input(_)) | Some(Declaration::Stream(_)) => None,
        Some(Declaration::Macro(_)) | Some(Declaration::Mixed(_)) => None,
        Some(Declaration::Parameter(_)) | Some(Declaration::Local(_)) => None,
        None => None,
    }
}

/// Streams to which a value function is lifted. No body is too large.
fn function_lift<'a>(
    alloc: Global,
    functions: &Functions,
    number: usize,
    streams: &'a [Expr],
) -> Result<Shape<'a>, NoMemory>
    ensures { IfOk result (λ s. (items : List tree.Item)
        → AreBodies items functions.now
        → too_large_bodies items ≡ []
        → IsFunction items number
        → HasShape s (construct.Lift (function_body items number)) streams.now) }
{
    match functions.body(number) {
        Some(body) => over(alloc, Construct::Lift(body.copy()?), streams),
        None => Ok(nothing(alloc)),
    }
}

/// A `lift`, whose last argument names its function.
fn lift<'a>(
    alloc: Global,
    functions: &Functions,
    scope: &Scope<'_>,
    arguments: &'a [Expr],
) -> Result<Shape<'a>, NoMemory>
    ensures { IfOk result (IsShapeWhere functions.now scope.now (λ items cs. lift_shape items cs [] arguments.now)) }
{
    let Some((function, streams)) = arguments.split_last() else {
        return Ok(nothing(alloc));
    };
    match function_of(function_named(scope, function)) {
        Some(number) => function_lift(alloc, functions, number, streams),
        None => Ok(nothing(alloc)),
    }
}

/// A call of a value function: its body with literals and arguments in the place of its parameters. No body is too large.
fn function_call<'a>(
    alloc: Global,
    functions: &Functions,
    number: usize,
    arguments: &'a [Expr],
) -> Result<Shape<'a>, NoMemory>
    ensures { IfOk result (λ s. (items : List tree.Item)
        → AreBodies items functions.now
        → too_large_bodies items ≡ []
        → IsFunction items number
        → HasShape s (construct.Signal (function_at items number (operand_trees 0 (operands arguments.now))))
        (filter is_part arguments.now)) }
{
    let operands = operand_bodies(alloc, arguments)?;
    match functions.at(alloc, number, &operands)? {
        Some(body) => signal(alloc, body, &all(alloc, arguments)?),
        None => Ok(nothing(alloc)),
    }
}

/// A call of a name that the language does not have.
fn declared_call<'a>(
    alloc: Global,
    functions: &Functions,
    scope: &Scope<'_>,
    name: &str,
    arguments: &'a [Expr],
) -> Result<Shape<'a>, NoMemory>
    ensures { IfOk result (IsShapeWhere functions.now scope.now
        (λ items cs. declared_shape items cs (meaning (scope_at items cs) name.now) (exprs_of arguments.now))) }
{
    match function_of(scope.find(name)) {
        Some(number) => function_call(alloc, functions, number, arguments),
        None => Ok(nothing(alloc)),
    }
}

/// A call of a name of the language. An operation on an option is none of streams, and no name of the language is declared.
fn own_call<'a>(
    alloc: Global,
    functions: &Functions,
    scope: &Scope<'_>,
    plain: Plain,
    name: &str,
    arguments: &'a [Expr],
) -> Result<Shape<'a>, NoMemory>
    ensures { IfOk result (IsShapeWhere functions.now scope.now (λ items cs. plain_shape items cs name.now arguments.now (Some plain))) }
{
    match plain {
        Plain::Time => over(alloc, Construct::Time, arguments),
        Plain::Last => over(alloc, Construct::Last, arguments),
        Plain::Delay => over(alloc, Construct::Delay, arguments),
        Plain::Merge => over(alloc, Construct::Merge, arguments),
        Plain::Default => over(alloc, Construct::Merge, arguments),
        Plain::Lift => lift(alloc, functions, scope, arguments),
        Plain::Const => constant(alloc, arguments),
        Plain::Filter => filter(alloc, arguments),
        Plain::IsSome | Plain::IsNone | Plain::GetSome | Plain::Some => {
            declared_call(alloc, functions, scope, name, arguments)
        }
    }
}

/// A call of a name.
pub(crate) fn call<'a>(
    alloc: Global,
    functions: &Functions,
    scope: &Scope<'_>,
    name: &str,
    arguments: &'a [Expr],
) -> Result<Shape<'a>, NoMemory>
    ensures { IfOk result (IsShapeWhere functions.now scope.now
        (λ items cs. call_shape items cs name.now (exprs_of arguments.now) (plain_name name.now))) }
{
    match plain_named(name) {
        Some(plain) => own_call(alloc, functions, scope, plain, name, arguments),
        None => declared_call(alloc, functions, scope, name, arguments),
    }
}
