// Operators, choices, and functions whose names have a dot.

ghost use Rattle.std.specs.Prelude.{◌≡◌};
ghost use Rattle.type_rules.specs.Rules.{ask_both, ask_two, ask_compared, operand_type, link_rule, is_equality, compare_rule};
ghost use Rattle.type_rules.specs.Rules.{negate_rule, not_rule, chosen_from, if_rule, of_term, first_asked, ask_first, ask_other};
ghost use Rattle.type_rules.specs.Rules.{ask_terms};
ghost use Rattle.type_rules.specs.Rules.{rule_of_one, rule_of_two, rule_of_three, setting_of, dotted_one, dotted_two, dotted_three};
ghost use Rattle.type_rules.specs.Rules.{dotted_rule};

use crate::asked::{BOOL, INT, UNIT, ask, entry_of, key_of};
use crate::rule::{Asked, Clash, ExprType, Family, Setting};
use syntax_tree::tree::{Comparison, Level};
use tsl_value::scalar::ValueType;
use vocabulary::dotted::Dotted;
use vocabulary::signature::{Parameters, Role, Term};

/// Two parts of a type that is given.
fn ask_both(of: ExprType, a: ExprType, b: ExprType) -> Result<(), Clash>
    ensures { result ≡ ask_both of a b }
{
    ask(Asked::Exactly(of), a)?;
    ask(Asked::Exactly(of), b)
}

/// Two parts of one type, the first of which is asked for something.
pub fn ask_two(wanted: Asked, a: ExprType, b: ExprType) -> Result<(), Clash>
    ensures { result ≡ ask_two wanted a b }
{
    ask(wanted, a)?;
    ask(Asked::Exactly(a), b)
}

fn operand_type(level: Level) -> ValueType
    ensures { result ≡ operand_type level }
{
    match level {
        Level::Disjunction | Level::Conjunction => BOOL,
        Level::Sum | Level::Product => INT,
    }
}

/// One operator of a chain between two operands. That on the left may be the chain up to there.
pub fn link_rule(at: Setting, level: Level, a: ExprType, b: ExprType) -> Result<ExprType, Clash>
    ensures { result ≡ link_rule at level a b }
{
    let operand = at.lifted(operand_type(level));
    ask_both(operand, a, b)?;
    Ok(operand)
}

fn is_equality(comparison: Comparison) -> bool
    ensures { result ≡ is_equality comparison }
{
    matches!(comparison, Comparison::Same | Comparison::Differs)
}

fn ask_compared(at: Setting, comparison: Comparison, a: ExprType, b: ExprType) -> Result<(), Clash>
    ensures { result ≡ ask_compared at comparison a b }
{
    if is_equality(comparison) {
        ask_two(at.lifted_of(Family::Scalars), a, b)
    } else {
        ask_both(at.lifted(INT), a, b)
    }
}

/// Any two scalars of one type are compared by equality, and Ints by order.
pub fn compare_rule(
    at: Setting,
    comparison: Comparison,
    a: ExprType,
    b: ExprType,
) -> Result<ExprType, Clash>
    ensures { result ≡ compare_rule at comparison a b }
{
    ask_compared(at, comparison, a, b)?;
    Ok(at.lifted(BOOL))
}

pub fn negate_rule(at: Setting, a: ExprType) -> Result<ExprType, Clash>
    ensures { result ≡ negate_rule at a }
{
    let int = at.lifted(INT);
    ask(Asked::Exactly(int), a)?;
    Ok(int)
}

pub fn not_rule(at: Setting, a: ExprType) -> Result<ExprType, Clash>
    ensures { result ≡ not_rule at a }
{
    let bool = at.lifted(BOOL);
    ask(Asked::Exactly(bool), a)?;
    Ok(bool)
}

fn chosen_from(at: Setting) -> Asked
    ensures { result ≡ chosen_from at }
{
    match at {
        Setting::Streams => Asked::StreamOf(Family::Any),
        Setting::Values => Asked::NoStream,
    }
}

/// A choice between two of one type.
pub fn if_rule(
    at: Setting,
    condition: ExprType,
    a: ExprType,
    b: ExprType,
) -> Result<ExprType, Clash>
    ensures { result ≡ if_rule at condition a b }
{
    ask(Asked::Exactly(at.lifted(BOOL)), condition)?;
    ask_two(chosen_from(at), a, b)?;
    Ok(a)
}

/// What a function is of other parts than its own. No call that is checked has them.
const NOTHING: ExprType = ExprType::Stream(UNIT);

/// What a type of a signature is, where the first part is this.
fn of_term(at: Setting, first: ExprType, term: Term) -> ExprType
    ensures { result ≡ of_term at first term }
{
    match term {
        Term::Of(_) => first,
        Term::Key => at.lifted(key_of(first.inner())),
        Term::Entry => at.lifted(entry_of(first.inner())),
        Term::Scalar(of) => at.lifted(ValueType::Scalar(of)),
    }
}

/// The first part is an aggregate or a scalar.
fn first_asked(at: Setting, first: ExprType, term: Term) -> Asked
    ensures { result ≡ first_asked at first term }
{
    match term {
        Term::Of(kind) => at.lifted_of(Family::Of(kind)),
        Term::Key => Asked::Exactly(of_term(at, first, term)),
        Term::Entry => Asked::Exactly(of_term(at, first, term)),
        Term::Scalar(_) => Asked::Exactly(of_term(at, first, term)),
    }
}

fn ask_first(at: Setting, term: Term, first: ExprType) -> Result<(), Clash>
    ensures { result ≡ ask_first at term first }
{
    ask(first_asked(at, first, term), first)
}

/// Each other part is just what its type says.
fn ask_other(at: Setting, first: ExprType, term: Term, part: ExprType) -> Result<(), Clash>
    ensures { result ≡ ask_other at first term part }
{
    ask(Asked::Exactly(of_term(at, first, term)), part)
}

fn ask_terms(at: Setting, p: Term, q: Term, a: ExprType, b: ExprType) -> Result<(), Clash>
    ensures { result ≡ ask_terms at p q a b }
{
    ask_first(at, p, a)?;
    ask_other(at, a, q, b)
}

fn rule_of_one(at: Setting, takes: Parameters, gives: Term, a: ExprType) -> Result<ExprType, Clash>
    ensures { result ≡ rule_of_one at takes gives a }
{
    match takes {
        Parameters::One(p) => {
            ask_first(at, p, a)?;
            Ok(of_term(at, a, gives))
        }
        Parameters::Two(_, _) => Ok(NOTHING),
        Parameters::Three(_, _, _) => Ok(NOTHING),
    }
}

fn rule_of_two(
    at: Setting,
    takes: Parameters,
    gives: Term,
    a: ExprType,
    b: ExprType,
) -> Result<ExprType, Clash>
    ensures { result ≡ rule_of_two at takes gives a b }
{
    match takes {
        Parameters::Two(p, q) => {
            ask_terms(at, p, q, a, b)?;
            Ok(of_term(at, a, gives))
        }
        Parameters::One(_) => Ok(NOTHING),
        Parameters::Three(_, _, _) => Ok(NOTHING),
    }
}

fn rule_of_three(
    at: Setting,
    takes: Parameters,
    gives: Term,
    a: ExprType,
    b: ExprType,
    c: ExprType,
) -> Result<ExprType, Clash>
    ensures { result ≡ rule_of_three at takes gives a b c }
{
    match takes {
        Parameters::Three(p, q, r) => {
            ask_terms(at, p, q, a, b)?;
            ask_other(at, a, r, c)?;
            Ok(of_term(at, a, gives))
        }
        Parameters::One(_) => Ok(NOTHING),
        Parameters::Two(_, _) => Ok(NOTHING),
    }
}

/// Updates take streams everywhere.
fn setting_of(role: Role, at: Setting) -> Setting
    ensures { result ≡ setting_of role at }
{
    match role {
        Role::Update(_) => Setting::Streams,
        Role::Unary(_) => at,
        Role::Binary(_) => at,
    }
}

fn dotted_one(at: Setting, function: Dotted, a: ExprType) -> Result<ExprType, Clash>
    ensures { result ≡ dotted_one at function a }
{
    let setting = setting_of(function.role(), at);
    rule_of_one(setting, function.parameters(), function.gives(), a)
}

fn dotted_two(at: Setting, function: Dotted, a: ExprType, b: ExprType) -> Result<ExprType, Clash>
    ensures { result ≡ dotted_two at function a b }
{
    let setting = setting_of(function.role(), at);
    rule_of_two(setting, function.parameters(), function.gives(), a, b)
}

fn dotted_three(
    at: Setting,
    function: Dotted,
    a: ExprType,
    b: ExprType,
    c: ExprType,
) -> Result<ExprType, Clash>
    ensures { result ≡ dotted_three at function a b c }
{
    let setting = setting_of(function.role(), at);
    rule_of_three(setting, function.parameters(), function.gives(), a, b, c)
}

/// A function whose name has a dot, at its parts.
pub fn dotted_rule(at: Setting, function: Dotted, parts: &[ExprType]) -> Result<ExprType, Clash>
    ensures { result ≡ dotted_rule at function parts.now }
{
    match parts {
        [] => Ok(NOTHING),
        [a] => dotted_one(at, function, *a),
        [a, b] => dotted_two(at, function, *a, *b),
        [a, b, c] => dotted_three(at, function, *a, *b, *c),
        [_, _, _, _, ..] => Ok(NOTHING),
    }
}
