// Expressions without parts, and rules at parts that may be nothing.

ghost use Rattle.std.specs.Prelude.{◌≡◌, Ok, if◌then◌else◌};
ghost use Rattle.std.specs.Option.{option_map, option_and_then};
ghost use Rattle.syntax_tree.specs.inner.OneLevel.{aggregate_in};
ghost use Rattle.type_rules.specs.declared.rule.ExprType.TheVariants as expr_type;
ghost use Rattle.type_rules.specs.Asked.{unit};
ghost use Rattle.type_rules.specs.Rules.{if_rule, compare_rule, negate_rule, not_rule, link_rule, dotted_rule};
ghost use Rattle.type_rules.specs.Written.{value_of as value_that_is, aggregate_of as aggregate_that_is};
ghost use Rattle.name_check.specs.Builtin.{is_unit as is_unit_name};
ghost use Rattle.name_check.specs.Scope.{meaning};
ghost use Rattle.expr_types.specs.Around.{declared_type};
ghost use Rattle.expr_types.specs.Judge.{is_just, of_verdict, with_one, with_two, with_three};
ghost use Rattle.expr_types.specs.inner.Shown.{around_of};
ghost use Rattle.expr_types.specs.inner.Steps.{clash_in};
ghost use Rattle.expr_types.specs.inner.Answers.{types_in};

use crate::around::Around;
use crate::judge::Verdict;
use name_check::builtin::is_unit;
use syntax_tree::tree::{Aggregate, Comparison, Level, TypeName};
use type_rules::asked::UNIT;
use type_rules::operation::{compare_rule, dotted_rule, if_rule, link_rule, negate_rule, not_rule};
use type_rules::rule::{Clash, ExprType, Setting};
use type_rules::written::{aggregate_of, value_of};
use vocabulary::dotted::Dotted;

/// What an expression is that is judged so.
pub(crate) fn allowed(verdict: Option<Verdict>) -> Option<ExprType>
    ensures { result ≡ of_verdict verdict }
{
    match verdict {
        Some(Ok(of)) => Some(of),
        Some(Err(_)) => None,
        None => None,
    }
}

/// What is refused.
pub(crate) fn clash_of(verdict: Option<Verdict>) -> Option<Clash>
    ensures { result ≡ clash_in verdict }
{
    match verdict {
        Some(Err(clash)) => Some(clash),
        Some(Ok(_)) => None,
        None => None,
    }
}

/// What is something by itself.
pub(crate) fn just(of: Option<ExprType>) -> Option<Verdict>
    ensures { result ≡ is_just of }
{
    match of {
        Some(of) => Some(Ok(of)),
        None => None,
    }
}

/// What a name is that is mentioned.
pub(crate) fn mentioned(at: &Around<'_>, name: &str) -> Option<ExprType>
    ensures { result ≡ (if is_unit_name name.now then Some (expr_type.Stream unit)
        else option_and_then (declared_type (around_of at.now)) (meaning (around_of at.now).scope name.now)) }
{
    if is_unit(name) {
        return Some(ExprType::Stream(UNIT));
    }
    match at.scope.find(name) {
        Some(declaration) => at.declared_type(declaration),
        None => None,
    }
}

/// The mention of a name.
pub(crate) fn mention(at: &Around<'_>, name: &str) -> Option<Verdict>
    ensures { result ≡ (if is_unit_name name.now then Some (Ok (expr_type.Stream unit))
        else is_just (option_and_then (declared_type (around_of at.now)) (meaning (around_of at.now).scope name.now))) }
{
    just(mentioned(at, name))
}

pub(crate) fn nil(of: &TypeName) -> Option<Verdict>
    ensures { result ≡ is_just (option_map expr_type.Stream (value_that_is of.now)) }
{
    match value_of(of) {
        Some(of) => Some(Ok(ExprType::Stream(of))),
        None => None,
    }
}

pub(crate) fn none(of: &TypeName) -> Option<Verdict>
    ensures { result ≡ is_just (option_map expr_type.Optional (value_that_is of.now)) }
{
    match value_of(of) {
        Some(of) => Some(Ok(ExprType::Optional(of))),
        None => None,
    }
}

pub(crate) fn empty(of: &Aggregate) -> Option<Verdict>
    ensures { result ≡ is_just (option_map expr_type.Stream (aggregate_that_is (aggregate_in of.now))) }
{
    match aggregate_of(of) {
        Some(of) => Some(Ok(ExprType::Stream(of))),
        None => None,
    }
}

pub(crate) fn negated(at: Setting, a: Option<ExprType>) -> Option<Verdict>
    ensures { result ≡ with_one (negate_rule at) a }
{
    match a {
        Some(a) => Some(negate_rule(at, a)),
        None => None,
    }
}

pub(crate) fn inverted(at: Setting, a: Option<ExprType>) -> Option<Verdict>
    ensures { result ≡ with_one (not_rule at) a }
{
    match a {
        Some(a) => Some(not_rule(at, a)),
        None => None,
    }
}

pub(crate) fn compared(
    at: Setting,
    comparison: Comparison,
    a: Option<ExprType>,
    b: Option<ExprType>,
) -> Option<Verdict>
    ensures { result ≡ with_two (compare_rule at comparison) a b }
{
    match (a, b) {
        (Some(a), Some(b)) => Some(compare_rule(at, comparison, a, b)),
        (Some(_), None) => None,
        (None, _) => None,
    }
}

pub(crate) fn linked(
    at: Setting,
    level: Level,
    a: Option<ExprType>,
    b: Option<ExprType>,
) -> Option<Verdict>
    ensures { result ≡ with_two (link_rule at level) a b }
{
    match (a, b) {
        (Some(a), Some(b)) => Some(link_rule(at, level, a, b)),
        (Some(_), None) => None,
        (None, _) => None,
    }
}

pub(crate) fn chosen(
    at: Setting,
    condition: Option<ExprType>,
    a: Option<ExprType>,
    b: Option<ExprType>,
) -> Option<Verdict>
    ensures { result ≡ with_three (if_rule at) condition a b }
{
    match (condition, a, b) {
        (Some(condition), Some(a), Some(b)) => Some(if_rule(at, condition, a, b)),
        (Some(_), Some(_), None) => None,
        (Some(_), None, _) => None,
        (None, _, _) => None,
    }
}

pub(crate) fn dotted(at: Setting, function: Dotted, parts: Option<Vec<ExprType>>) -> Option<Verdict>
    ensures { result ≡ option_map (dotted_rule at function) (types_in parts) }
{
    match parts {
        Some(parts) => Some(dotted_rule(at, function, &parts)),
        None => None,
    }
}
