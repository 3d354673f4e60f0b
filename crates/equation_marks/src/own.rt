// How many equations constructs make besides those of their parts.

ghost use Rattle.std.specs.Prelude.{◌≡◌, ◌+◌, ◌≤◌, suc, min, [], ◌∷◌};
ghost use Rattle.spec_meaning.specs.Shape.{is_part};
ghost use Rattle.equation_marks.specs.Marks.{varying_count};
ghost use Rattle.equation_marks.specs.inner.Counted.{lifting_count, signal_count, fixed_count, choice_count, role_count, dotted_count};

use flat_core::limits::MOST_EQUATIONS;
use syntax_tree::tree::{Expr, Node};
use vocabulary::dotted::Dotted;
use vocabulary::signature::Role;

/// More than any system has. Nothing is counted beyond.
pub const ENOUGH: u32 = MOST_EQUATIONS + 1;

/// So many more, as far as is counted.
pub(crate) fn more(count: u32, equations: u32) -> u32
    ensures { result ≡ min (count + equations) ENOUGH }
{
    count.saturating_add(equations).min(ENOUGH)
}

/// Lifting so many operands.
fn lifting(operands: usize) -> u32
    ensures { result ≡ min (lifting_count operands) ENOUGH }
{
    match operands {
        0 | 1 => 0,
        2 => 4,
        _ => {
            if operands < ENOUGH as usize {
                more(1, 2 * operands as u32)
            } else {
                ENOUGH
            }
        }
    }
}

/// A signal lift of so many operands that are no literals.
pub(crate) fn signal(operands: usize) -> u32
    ensures { result ≡ min (signal_count operands) ENOUGH }
{
    if operands == 0 {
        2
    } else {
        more(lifting(operands), 1)
    }
}

/// An expression that is no literal.
pub(crate) fn varies(expression: &Expr) -> bool
    ensures { result ≡ is_part expression.now }
{
    match expression.node() {
        Node::Number(_) | Node::Negative(_) | Node::Text(_) | Node::Boolean(_) => false,
        _ => true,
    }
}

/// The operands that are no literals.
fn varying(operands: &[Expr]) -> usize
    ensures { result ≡ varying_count operands.now }
{
    operands.iter().filter(|operand| varies(operand)).count()
}

/// The operands that are literals.
fn fixed(operands: &[Expr]) -> usize
    ensures { result ≡ fixed_count operands.now }
{
    operands.iter().filter(|operand| !varies(operand)).count()
}

/// A signal lift of these operands.
pub(crate) fn signal_over(operands: &[Expr]) -> u32
    ensures { result ≡ min (signal_count (varying_count operands.now)) ENOUGH }
{
    signal(varying(operands))
}

/// An operation on all operands, of which so many are no literals, with an equation for each literal.
pub(crate) fn operation(varying: usize, fixed: usize) -> u32
    ensures { result ≡ min (lifting_count varying + fixed + 1) ENOUGH }
{
    let literals = fixed.min(ENOUGH as usize) as u32;
    more(lifting(varying), literals + 1)
}

pub(crate) fn operation_over(operands: &[Expr]) -> u32
    ensures { result ≡ min (lifting_count (varying_count operands.now) + fixed_count operands.now + 1) ENOUGH }
{
    operation(varying(operands), fixed(operands))
}

fn varying_one(operand: &Expr) -> usize
    ensures count { result ≡ varying_count (operand.now ∷ []) }
    ensures few { result ≤ 1 }
{
    if varies(operand) { 1 } else { 0 }
}

/// A signal lift of one operand.
pub(crate) fn signal_of_one(operand: &Expr) -> u32
    ensures { result ≡ min (signal_count (varying_count (operand.now ∷ []))) ENOUGH }
{
    signal(varying_one(operand))
}

#[tactic(auto, using(crate::proofs::Counts::varying_two))]
fn varying_two(left: &Expr, right: &Expr) -> usize
    ensures { result ≡ varying_count (left.now ∷ right.now ∷ []) }
{
    varying_one(left) + varying_one(right)
}

/// A signal lift of a stream and an operand.
pub(crate) fn signal_after(operand: &Expr) -> u32
    ensures { result ≡ min (signal_count (suc (varying_count (operand.now ∷ [])))) ENOUGH }
{
    signal(varying_one(operand) + 1)
}

/// A signal lift of two operands.
pub(crate) fn signal_of_two(left: &Expr, right: &Expr) -> u32
    ensures { result ≡ min (signal_count (varying_count (left.now ∷ right.now ∷ []))) ENOUGH }
{
    signal(varying_two(left, right))
}

#[tactic(auto, using(crate::proofs::Counts::varying_three))]
fn varying_three(condition: &Expr, yes: &Expr, no: &Expr) -> usize
    ensures count { result ≡ varying_count (condition.now ∷ yes.now ∷ no.now ∷ []) }
    ensures few { result ≤ 3 }
{
    varying_one(condition) + varying_one(yes) + varying_one(no)
}

/// A choice, which is an operation of its own between sets or maps.
#[tactic(auto, using(crate::proofs::Counts::fixed_three))]
pub(crate) fn choice(aggregate: bool, condition: &Expr, yes: &Expr, no: &Expr) -> u32
    ensures { result ≡ min (choice_count aggregate (condition.now ∷ yes.now ∷ no.now ∷ [])) ENOUGH }
{
    let varying = varying_three(condition, yes, no);
    if aggregate {
        operation(varying, 3 - varying)
    } else {
        signal(varying)
    }
}

fn role_over(role: Role, operands: &[Expr]) -> u32
    ensures { result ≡ min (role_count role operands.now) ENOUGH }
{
    match role {
        Role::Update(_) => operation_over(operands),
        Role::Unary(_) => signal_over(operands),
        Role::Binary(_) => signal_over(operands),
    }
}

/// A function with a dot, besides its operands.
pub(crate) fn dotted_over(function: Dotted, operands: &[Expr]) -> u32
    ensures { result ≡ min (dotted_count function operands.now) ENOUGH }
{
    role_over(function.role(), operands)
}
