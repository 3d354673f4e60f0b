// Calls, at arguments that may be nothing.

ghost use Rattle.std.specs.Prelude.{◌≡◌, IfOk};
ghost use Rattle.std.specs.Option.{option_map, option_and_then};
ghost use Rattle.syntax_tree.specs.inner.OneLevel.{exprs_of};
ghost use Rattle.name_check.specs.Scope.{meaning};
ghost use Rattle.expr_types.specs.Judge.{is_literal, rule_of, call_rule, lifted_by, const_call, own_call, named_call};
ghost use Rattle.expr_types.specs.inner.Shown.{around_of, callee_in};
ghost use Rattle.expr_types.specs.inner.Answers.{types_in};
ghost use Rattle.expr_types.specs.inner.Steps.{plain_call};

use crate::around::{Around, Callee};
use crate::judge::Verdict;
use name_check::declaration::Declaration;
use std::alloc::Global;
use syntax_tree::tree::{Expr, Node};
use tsl_value::memory::NoMemory;
use type_rules::call::{builtin_rule, const_rule, function_rule, lift_rule, macro_rule};
use type_rules::rule::{Builtin, ExprType};
use vocabulary::plain::{Plain, plain_named};

/// A literal, as `const` asks it: a number with or without a minus, a text or a truth value.
fn is_literal(expression: &Expr) -> bool
    ensures { result ≡ is_literal expression.now }
{
    match expression.node() {
        Node::Number(_) => true,
        Node::Negative(_) => true,
        Node::Text(_) => true,
        Node::Boolean(_) => true,
        _ => false,
    }
}

/// The rule of a name of the language. `lift` and `const` ask for more than types.
fn rule_of(plain: Plain) -> Option<Builtin>
    ensures { result ≡ rule_of plain }
{
    match plain {
        Plain::Time => Some(Builtin::Time),
        Plain::Last => Some(Builtin::Last),
        Plain::Delay => Some(Builtin::Delay),
        Plain::Merge | Plain::Default => Some(Builtin::Merge),
        Plain::Lift | Plain::Const => None,
        Plain::Filter => Some(Builtin::Filter),
        Plain::IsSome => Some(Builtin::IsSome),
        Plain::IsNone => Some(Builtin::IsNone),
        Plain::GetSome => Some(Builtin::GetSome),
        Plain::Some => Some(Builtin::Some),
    }
}

/// A `lift` of streams that may be nothing by a function that may be nothing.
pub(crate) fn lifted_by(streams: Option<Vec<ExprType>>, function: Option<Callee>) -> Option<Verdict>
    ensures { result ≡ lifted_by (types_in streams) (option_map callee_in function) }
{
    match (streams, function) {
        (Some(streams), Some(function)) => {
            Some(lift_rule(&streams, &function.params, function.of))
        }
        (Some(_), None) => None,
        (None, _) => None,
    }
}

fn const_call(arguments: &[Expr], types: &[ExprType]) -> Option<Verdict>
    ensures { result ≡ const_call (exprs_of arguments.now) (Some types.now) }
{
    match types {
        [a, b] => match arguments.first() {
            Some(value) => Some(const_rule(is_literal(value), *a, *b)),
            None => None,
        },
        [] => None,
        [_] => None,
        [_, _, _, ..] => None,
    }
}

/// A call of a declared name.
fn declared_call(
    alloc: Global,
    at: &Around<'_>,
    declaration: Declaration,
    types: &[ExprType],
) -> Result<Option<Verdict>, NoMemory>
    ensures { IfOk result (λ verdict. verdict ≡ call_rule (around_of at.now) declaration types.now) }
{
    match declaration {
        Declaration::Macro(number) => match at.callee_at(alloc, number)? {
            Some(callee) => Ok(Some(macro_rule(&callee.params, callee.of, types))),
            None => Ok(None),
        },
        Declaration::Function(number) => match at.callee_at(alloc, number)? {
            Some(callee) => Ok(Some(function_rule(at.setting, &callee.params, callee.of, types))),
            None => Ok(None),
        },
        Declaration::Input(_) => Ok(None),
        Declaration::Stream(_) => Ok(None),
        Declaration::Mixed(_) => Ok(None),
        Declaration::Parameter(_) => Ok(None),
        Declaration::Local(_) => Ok(None),
    }
}

/// A call of a name that has this rule, or of a declared one.
fn own_call(
    alloc: Global,
    at: &Around<'_>,
    rule: Option<Builtin>,
    name: &str,
    types: &[ExprType],
) -> Result<Option<Verdict>, NoMemory>
    ensures { IfOk result (λ verdict. verdict ≡ own_call rule (around_of at.now) name.now (Some types.now)) }
{
    match rule {
        Some(builtin) => Ok(Some(builtin_rule(builtin, types))),
        None => match at.scope.find(name) {
            Some(declaration) => declared_call(alloc, at, declaration, types),
            None => Ok(None),
        },
    }
}

/// A call of a name of the language other than `lift`.
fn plain_call(
    alloc: Global,
    at: &Around<'_>,
    plain: Plain,
    name: &str,
    arguments: &[Expr],
    types: &[ExprType],
) -> Result<Option<Verdict>, NoMemory>
    ensures { IfOk result (λ verdict. verdict ≡ plain_call (around_of at.now) plain name.now (exprs_of arguments.now) (Some types.now)) }
{
    match plain {
        Plain::Const => Ok(const_call(arguments, types)),
        _ => own_call(alloc, at, rule_of(plain), name, types),
    }
}

/// A call of a name other than `lift`, at arguments that are something.
fn judged_call(
    alloc: Global,
    at: &Around<'_>,
    name: &str,
    arguments: &[Expr],
    types: &[ExprType],
) -> Result<Option<Verdict>, NoMemory>
    ensures { IfOk result (λ verdict. verdict ≡ named_call (around_of at.now) name.now (exprs_of arguments.now) (Some types.now)) }
{
    match plain_named(name) {
        Some(plain) => plain_call(alloc, at, plain, name, arguments, types),
        None => own_call(alloc, at, None, name, types),
    }
}

/// A call of a name other than `lift`, at what its arguments are.
pub(crate) fn named_call(
    alloc: Global,
    at: &Around<'_>,
    name: &str,
    arguments: &[Expr],
    types: Option<Vec<ExprType>>,
) -> Result<Option<Verdict>, NoMemory>
    ensures { IfOk result (λ verdict. verdict ≡ named_call (around_of at.now) name.now (exprs_of arguments.now) (types_in types)) }
{
    match types {
        Some(types) => judged_call(alloc, at, name, arguments, &types),
        None => Ok(None),
    }
}
