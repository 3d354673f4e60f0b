// What calls of names are made of.

ghost use Rattle.std.specs.Prelude.{◌≡◌, ◌≤◌, drop};
ghost use Rattle.name_check.specs.Scope.{seen};
ghost use Rattle.spec_meaning.specs.Function.{literal};
ghost use Rattle.equation_marks.specs.inner.Calls.{of_streams, call_parts, declared_parts, filter_parts, front, is_truth, plain_parts};
ghost use Rattle.equation_marks.specs.inner.CallsShown.{IsParts};

use crate::own::{ENOUGH, signal_over};
use name_check::declaration::Declaration;
use name_check::scope::Scope;
use syntax_tree::tree::{Expr, Node};
use vocabulary::plain::{Plain, plain_named};

/// What a call is made of.
#[derive(Drop)]
pub(crate) struct CallParts<'a> {
    /// The arguments that are made.
    pub streams: &'a [Expr],
    /// The arguments that are made where they are no literals.
    pub operands: &'a [Expr],
    /// How many equations are its own.
    pub own: u32,
    /// The macro that is called.
    pub callee: Option<usize>,
}

impl<'a> CallParts<'a> {
    /// Arguments that are all made, and so many equations.
    fn of_streams(streams: &'a [Expr], own: u32) -> CallParts<'a>
        requires { own ≤ ENOUGH }
        ensures { IsParts result (of_streams streams.now own) }
    {
        CallParts {
            streams,
            operands: &[],
            own,
            callee: None,
        }
    }
}

fn is_truth(condition: &Expr) -> bool
    ensures { result ≡ is_truth (literal condition.now) }
{
    match condition.node() {
        Node::Boolean(_) => true,
        _ => false,
    }
}

fn filter_parts(arguments: &[Expr]) -> CallParts<'_>
    ensures { IsParts result (filter_parts arguments.now) }
{
    match arguments {
        [_, condition] => {
            if is_truth(condition) {
                CallParts::of_streams(&arguments[..1], 2)
            } else {
                CallParts::of_streams(arguments, 3)
            }
        }
        [] => CallParts::of_streams(&[], 0),
        [_] => CallParts::of_streams(&[], 0),
        [_, _, _, ..] => CallParts::of_streams(&[], 0),
    }
}

/// The streams of a `lift`.
fn front(arguments: &[Expr]) -> &[Expr]
    ensures { result.now ≡ front arguments.now }
{
    match arguments.split_last() {
        Some((_, streams)) => streams,
        None => arguments,
    }
}

fn after_the_first(arguments: &[Expr]) -> &[Expr]
    ensures { result.now ≡ drop 1 arguments.now }
{
    match arguments.split_first() {
        Some((_, rest)) => rest,
        None => arguments,
    }
}

fn declared_parts(is: Option<Declaration>, arguments: &[Expr]) -> CallParts<'_>
    ensures { IsParts result (declared_parts is arguments.now) }
{
    match is {
        Some(Declaration::Macro(number)) => CallParts {
            streams: arguments,
            operands: &[],
            own: 0,
            callee: Some(number),
        },
        Some(Declaration::Function(_)) => CallParts {
            streams: &[],
            operands: arguments,
            own: signal_over(arguments),
            callee: None,
        },
        Some(Declaration::Input(_)) => CallParts::of_streams(&[], 0),
        Some(Declaration::Stream(_)) => CallParts::of_streams(&[], 0),
        Some(Declaration::Mixed(_)) => CallParts::of_streams(&[], 0),
        Some(Declaration::Parameter(_)) => CallParts::of_streams(&[], 0),
        Some(Declaration::Local(_)) => CallParts::of_streams(&[], 0),
        None => CallParts::of_streams(&[], 0),
    }
}

/// What a call is made of, by what its name is among the language's own.
fn plain_parts<'a>(
    scope: &Scope<'_>,
    plain: Option<Plain>,
    name: &str,
    arguments: &'a [Expr],
) -> CallParts<'a>
    ensures { IsParts result (plain_parts (seen scope.now) name.now arguments.now plain) }
{
    match plain {
        Some(Plain::Time) => CallParts::of_streams(arguments, 1),
        Some(Plain::Last) => CallParts::of_streams(arguments, 1),
        Some(Plain::Delay) => CallParts::of_streams(arguments, 1),
        Some(Plain::Merge) => CallParts::of_streams(arguments, 1),
        Some(Plain::Default) => CallParts::of_streams(arguments, 1),
        Some(Plain::Lift) => CallParts::of_streams(front(arguments), 1),
        Some(Plain::Const) => CallParts::of_streams(after_the_first(arguments), 1),
        Some(Plain::Filter) => filter_parts(arguments),
        Some(Plain::IsSome) => declared_parts(scope.find(name), arguments),
        Some(Plain::IsNone) => declared_parts(scope.find(name), arguments),
        Some(Plain::GetSome) => declared_parts(scope.find(name), arguments),
        Some(Plain::Some) => declared_parts(scope.find(name), arguments),
        None => declared_parts(scope.find(name), arguments),
    }
}

/// What a call is made of.
pub(crate) fn call_parts<'a>(scope: &Scope<'_>, name: &str, arguments: &'a [Expr]) -> CallParts<'a>
    ensures { IsParts result (call_parts (seen scope.now) name.now arguments.now) }
{
    plain_parts(scope, plain_named(name), name, arguments)
}
