// The operations that operators, comparisons and functions of the language stand for.

ghost use Rattle.std.specs.Prelude.{◌≡◌, [], ◌∷◌};
ghost use Rattle.std.specs.Option.{option_and_then};
ghost use Rattle.lift_func.specs.BodyTree.{BodyTree};
ghost use Rattle.vocabulary.specs.PlainTable.{plain_of, plain_role};
ghost use Rattle.spec_meaning.specs.Function.{comparison_of, dotted_tree, operation_of, option_tree, role_tree};
ghost use Rattle.function_bodies.specs.inner.Around.{one_or, two_or};

use syntax_tree::tree::{Comparison, Operator};
use tsl_value::operation::{Binary, Unary};
use vocabulary::dotted::Dotted;
use vocabulary::plain::plain_named;
use vocabulary::signature::Role;

pub fn operation_of(operator: Operator) -> Binary
    ensures { result ≡ operation_of operator }
{
    match operator {
        Operator::Or => Binary::Or,
        Operator::And => Binary::And,
        Operator::Add => Binary::Add,
        Operator::Subtract => Binary::Sub,
        Operator::Multiply => Binary::Mul,
        Operator::Divide => Binary::Div,
        Operator::Remainder => Binary::Rem,
    }
}

pub fn comparison_of(comparison: Comparison) -> Binary
    ensures { result ≡ comparison_of comparison }
{
    match comparison {
        Comparison::Same => Binary::Eq,
        Comparison::Differs => Binary::Ne,
        Comparison::AtMost => Binary::Le,
        Comparison::AtLeast => Binary::Ge,
        Comparison::Below => Binary::Lt,
        Comparison::Above => Binary::Gt,
    }
}

fn one_of(role: Role) -> Option<Unary>
    ensures { (a : BodyTree) → role_tree role (a ∷ []) ≡ one_or result a }
{
    match role {
        Role::Unary(operation) => Some(operation),
        Role::Binary(_) => None,
        Role::Update(_) => None,
    }
}

fn two_of(role: Role) -> Option<Binary>
    ensures { (a b : BodyTree) → role_tree role (a ∷ b ∷ []) ≡ two_or result a b }
{
    match role {
        Role::Unary(_) => None,
        Role::Binary(operation) => Some(operation),
        Role::Update(_) => None,
    }
}

fn role_named(name: &str) -> Option<Role>
    ensures { result ≡ option_and_then plain_role (plain_of name.now) }
{
    plain_named(name)?.role()
}

/// The operation on an option of this name.
pub fn option_operation(name: &str) -> Option<Unary>
    ensures { (a : BodyTree) → option_tree name.now a ≡ one_or result a }
{
    match role_named(name) {
        Some(role) => one_of(role),
        None => None,
    }
}

/// The operation of a function with a dot that has one operand, if a value function has it.
pub fn dotted_one(function: Dotted) -> Option<Unary>
    ensures { (a : BodyTree) → dotted_tree function (a ∷ []) ≡ one_or result a }
{
    one_of(function.role())
}

/// The operation of a function with a dot that has two operands, if a value function has it.
pub fn dotted_two(function: Dotted) -> Option<Binary>
    ensures { (a b : BodyTree) → dotted_tree function (a ∷ b ∷ []) ≡ two_or result a b }
{
    two_of(function.role())
}
