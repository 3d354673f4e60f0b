// What expressions are.

ghost use Rattle.std.specs.Prelude.{◌≡◌, IfOk, ◌++◌};
ghost use Rattle.std.specs.Option.{option_map};
ghost use Rattle.syntax_tree.specs.inner.OneLevel.{exprs_of, links_in, expr_of};
ghost use Rattle.syntax_tree.specs.Tree as tree;
ghost use Rattle.name_check.specs.inner.Shown.{nowhere};
ghost use Rattle.type_rules.specs.Rules.{if_rule, compare_rule};
ghost use Rattle.expr_types.specs.Around.{cons};
ghost use Rattle.expr_types.specs.Judge.{judge, type_of, types_of, judge_links, streams_of, last_of, lifted_by, wrongs, with_two};
ghost use Rattle.expr_types.specs.Judge.{with_three};
ghost use Rattle.expr_types.specs.inner.Shown.{around_of, callee_in};
ghost use Rattle.expr_types.specs.inner.Steps.{argument_wrongs, stream_wrongs, link_wrongs, inner_wrongs, chain_verdict, one_more};
ghost use Rattle.expr_types.specs.inner.Answers.{types_in, IsFound, AreFound, IsJudged};

use crate::around::Around;
use crate::call::{lifted_by, named_call};
use crate::leaf::{
    allowed, chosen, clash_of, compared, dotted, empty, inverted, just, linked, mention, negated,
    nil, none,
};
use crate::stop::Stop;
use crate::wrong::Wrong;
use name_check::builtin::is_lift;
use std::alloc::Global;
use syntax_tree::tree::{Comparison, Expr, Level, Link, Node};
use tsl_value::memory::NoMemory;
use type_rules::asked::{BOOL, INT, TEXT, UNIT};
use type_rules::rule::{Clash, ExprType};

/// What a rule says of an expression: what it is, or its first part that does not fit.
pub type Verdict = Result<ExprType, Clash>;

/// What an expression is. It is nothing where it has a part that is nothing, as the mention of a name of which nothing is
/// known. The answer is the first that is wrong in the order of the source, exactly where something is.
#[cycle(judge)]
pub fn expression(
    alloc: Global,
    at: &Around<'_>,
    expression: &Expr,
) -> Result<Option<ExprType>, Stop>
    ensures { IsFound (wrongs (around_of at.now) expression.now) (type_of (around_of at.now) expression.now) result }
{
    let verdict = inner(alloc, at, expression.node())?;
    if let Some(clash) = clash_of(verdict) {
        let place = expression.place();
        return Err(Stop::Wrong(Wrong::Part { place, clash }));
    }
    Ok(allowed(verdict))
}

/// One level, and what is inside.
#[cycle(judge)]
fn inner(alloc: Global, at: &Around<'_>, node: &Node) -> Result<Option<Verdict>, Stop>
    ensures { IsJudged (inner_wrongs (around_of at.now) (expr_of nowhere node.now))
        (judge (around_of at.now) (expr_of nowhere node.now)) result }
{
    match node {
        Node::If(condition, yes, no) => choice(alloc, at, condition, yes, no),
        Node::Chain(level, first, links) => chain(alloc, at, *level, first, links),
        Node::Compare(comparison, left, right) => {
            comparison_of(alloc, at, *comparison, left, right)
        }
        Node::Negate(operand) => {
            let operand = expression(alloc, at, operand)?;
            Ok(negated(at.setting, operand))
        }
        Node::Not(operand) => {
            let operand = expression(alloc, at, operand)?;
            Ok(inverted(at.setting, operand))
        }
        Node::Number(_) => Ok(Some(Ok(at.setting.lifted(INT)))),
        Node::Negative(_) => Ok(Some(Ok(at.setting.lifted(INT)))),
        Node::Text(_) => Ok(Some(Ok(at.setting.lifted(TEXT)))),
        Node::Boolean(_) => Ok(Some(Ok(at.setting.lifted(BOOL)))),
        Node::Unit => Ok(Some(Ok(at.setting.lifted(UNIT)))),
        Node::Name(name) => Ok(mention(at, name.as_str())),
        Node::Call(name, parts) => call(alloc, at, name.as_str(), parts),
        Node::CallDotted(function, parts) => {
            let parts = arguments(alloc, at, parts)?;
            Ok(dotted(at.setting, *function, parts))
        }
        Node::Nil(of) => Ok(nil(of)),
        Node::None(of) => Ok(none(of)),
        Node::Empty(of) => Ok(empty(of)),
    }
}

#[cycle(judge)]
fn choice(
    alloc: Global,
    at: &Around<'_>,
    condition: &Expr,
    yes: &Expr,
    no: &Expr,
) -> Result<Option<Verdict>, Stop>
    ensures { IsJudged (wrongs (around_of at.now) condition.now ++ wrongs (around_of at.now) yes.now ++ wrongs (around_of at.now) no.now)
        (with_three (if_rule at.now.setting) (type_of (around_of at.now) condition.now) (type_of (around_of at.now) yes.now)
        (type_of (around_of at.now) no.now)) result }
{
    let condition = expression(alloc, at, condition)?;
    let yes = expression(alloc, at, yes)?;
    let no = expression(alloc, at, no)?;
    Ok(chosen(at.setting, condition, yes, no))
}

#[cycle(judge)]
fn comparison_of(
    alloc: Global,
    at: &Around<'_>,
    comparison: Comparison,
    left: &Expr,
    right: &Expr,
) -> Result<Option<Verdict>, Stop>
    ensures { IsJudged (wrongs (around_of at.now) left.now ++ wrongs (around_of at.now) right.now)
        (with_two (compare_rule at.now.setting comparison) (type_of (around_of at.now) left.now) (type_of (around_of at.now) right.now))
        result }
{
    let left = expression(alloc, at, left)?;
    let right = expression(alloc, at, right)?;
    Ok(compared(at.setting, comparison, left, right))
}

#[cycle(judge)]
fn chain(
    alloc: Global,
    at: &Around<'_>,
    level: Level,
    first: &Expr,
    rest: &[Link],
) -> Result<Option<Verdict>, Stop>
    ensures { IsJudged (wrongs (around_of at.now) first.now ++ link_wrongs (around_of at.now) (links_in rest.now))
        (chain_verdict (around_of at.now) level (type_of (around_of at.now) first.now) (links_in rest.now)) result }
{
    let first = expression(alloc, at, first)?;
    links(alloc, at, level, first, rest)
}

/// The links of a chain. Each is judged as soon as what stands on both its sides is something.
#[cycle(judge)]
fn links(
    alloc: Global,
    at: &Around<'_>,
    level: Level,
    first: Option<ExprType>,
    links: &[Link],
) -> Result<Option<Verdict>, Stop>
    ensures { IsJudged (link_wrongs (around_of at.now) (links_in links.now))
        (chain_verdict (around_of at.now) level first (links_in links.now)) result }
{
    let mut chained = first;
    for link in links {
        let operand = expression(alloc, at, &link.operand)?;
        let verdict = linked(at.setting, level, chained, operand);
        if let Some(clash) = clash_of(verdict) {
            return Ok(Some(Err(clash)));
        }
        chained = allowed(verdict);
    }
    Ok(just(chained))
}

#[cycle(judge)]
fn call(alloc: Global, at: &Around<'_>, name: &str, parts: &[Expr]) -> Result<Option<Verdict>, Stop>
    ensures { IsJudged (inner_wrongs (around_of at.now) (tree.Call nowhere name.now (exprs_of parts.now)))
        (judge (around_of at.now) (tree.Call nowhere name.now (exprs_of parts.now))) result }
{
    if is_lift(name) {
        lift(alloc, at, parts)
    } else {
        let types = arguments(alloc, at, parts)?;
        Ok(named_call(alloc, at, name, parts, types)?)
    }
}

#[cycle(judge)]
fn lift(alloc: Global, at: &Around<'_>, parts: &[Expr]) -> Result<Option<Verdict>, Stop>
    ensures { IsJudged (stream_wrongs (around_of at.now) (exprs_of parts.now))
        (lifted_by (streams_of (around_of at.now) (exprs_of parts.now)) (last_of (around_of at.now) (exprs_of parts.now))) result }
{
    match parts.split_last() {
        Some((function, streams)) => {
            let streams = arguments(alloc, at, streams)?;
            let function = at.function_of(alloc, function)?;
            Ok(lifted_by(streams, function))
        }
        None => Ok(None),
    }
}

/// Types, and one more of them.
fn with_one_more(
    types: Option<Vec<ExprType>>,
    of: Option<ExprType>,
) -> Result<Option<Vec<ExprType>>, NoMemory>
    ensures { IfOk result (λ more. types_in more ≡ one_more (types_in types) of) }
{
    match (types, of) {
        (Some(types), Some(of)) => {
            let mut types = types;
            types.push(of)?;
            Ok(Some(types))
        }
        (Some(_), None) => Ok(None),
        (None, _) => Ok(None),
    }
}

/// What the arguments of a call are, if each is something.
#[cycle(judge)]
fn arguments(alloc: Global, at: &Around<'_>, parts: &[Expr]) -> Result<Option<Vec<ExprType>>, Stop>
    ensures { AreFound (argument_wrongs (around_of at.now) (exprs_of parts.now)) (types_of (around_of at.now) (exprs_of parts.now)) result }
{
    let mut types = Some(Vec::new(alloc));
    for part in parts {
        let of = expression(alloc, at, part)?;
        types = with_one_more(types, of)?;
    }
    Ok(types)
}
