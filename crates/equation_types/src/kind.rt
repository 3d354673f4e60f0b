// What bodies are, and their operations make.

ghost use Rattle.std.specs.Prelude.{◌≡◌};
ghost use Rattle.lift_func.specs.Typing.{scalar_of};
ghost use Rattle.equation_types.specs.inner.Rules.{kind_at, of_both, of_choice, of_entry, of_equals};
ghost use Rattle.equation_types.specs.inner.Rules.{of_member, of_one, of_two, plain, where_so};

use crate::same::{is_kind, is_type};
use tsl_value::operation::{Binary, Unary};
use tsl_value::scalar::{KeyType, ScalarType, ValueType};

/// What a body is: a value of a type, or an option of one.
#[derive(Clone, Copy)]
pub enum Kind {
    Value(ValueType),
    Optional(ValueType),
}

pub(crate) const UNIT: ValueType = ValueType::Scalar(ScalarType::Unit);

pub(crate) const INT: ValueType = ValueType::Scalar(ScalarType::Int);

pub(crate) const BOOL: ValueType = ValueType::Scalar(ScalarType::Bool);

const TEXT: ValueType = ValueType::Scalar(ScalarType::Text);

pub(crate) fn plain(of: ScalarType) -> Kind
    ensures { result ≡ plain of }
{
    Kind::Value(ValueType::Scalar(of))
}

/// What a type is to a lift: a value where it is strict, and else an option.
pub(crate) fn kind_at(strict: bool, of: ValueType) -> Kind
    ensures { result ≡ kind_at strict of }
{
    if strict {
        Kind::Value(of)
    } else {
        Kind::Optional(of)
    }
}

/// The type of the scalars that are keys of a type.
pub(crate) fn scalar_of(key: KeyType) -> ScalarType
    ensures { result ≡ scalar_of key }
{
    match key {
        KeyType::Int => ScalarType::Int,
        KeyType::Bool => ScalarType::Bool,
        KeyType::Text => ScalarType::Text,
    }
}

fn where_so(holds: bool, kind: Kind) -> Option<Kind>
    ensures { result ≡ where_so holds kind }
{
    if holds { Some(kind) } else { None }
}

/// What an operation makes of an operand, if it takes it.
pub(crate) fn of_one(operation: Unary, a: Kind) -> Option<Kind>
    ensures { result ≡ of_one operation a }
{
    match (operation, a) {
        (Unary::Neg, Kind::Value(of)) => where_so(is_type(of, INT), plain(ScalarType::Int)),
        (Unary::Not, Kind::Value(of)) => where_so(is_type(of, BOOL), plain(ScalarType::Bool)),
        (Unary::Size, Kind::Value(of)) => where_so(of.is_aggregate(), plain(ScalarType::Int)),
        (Unary::Front, Kind::Value(ValueType::Queue(value))) => Some(plain(value)),
        (Unary::Length, Kind::Value(of)) => where_so(is_type(of, TEXT), plain(ScalarType::Int)),
        (Unary::Some, Kind::Value(of)) => Some(Kind::Optional(of)),
        (Unary::IsSome, Kind::Optional(_)) => Some(plain(ScalarType::Bool)),
        (Unary::IsNone, Kind::Optional(_)) => Some(plain(ScalarType::Bool)),
        (Unary::GetSome, Kind::Optional(of)) => Some(Kind::Value(of)),
        _ => None,
    }
}

/// What is made of two scalars of a type.
fn of_both(asked: ScalarType, made: ScalarType, a: Kind, b: Kind) -> Option<Kind>
    ensures { result ≡ of_both asked made a b }
{
    let asked = plain(asked);
    where_so(is_kind(a, asked) && is_kind(b, asked), plain(made))
}

/// What is made of two scalars of one type that are compared for equality.
fn of_equals(a: Kind, b: Kind) -> Option<Kind>
    ensures { result ≡ of_equals a b }
{
    match a {
        Kind::Value(ValueType::Scalar(of)) => {
            where_so(is_kind(b, plain(of)), plain(ScalarType::Bool))
        }
        _ => None,
    }
}

/// What is made of a set or a map, and a key.
fn of_member(a: Kind, b: Kind) -> Option<Kind>
    ensures { result ≡ of_member a b }
{
    match a {
        Kind::Value(ValueType::Set(key)) => {
            where_so(is_kind(b, plain(scalar_of(key))), plain(ScalarType::Bool))
        }
        Kind::Value(ValueType::Map(key, _)) => {
            where_so(is_kind(b, plain(scalar_of(key))), plain(ScalarType::Bool))
        }
        _ => None,
    }
}

/// What is made of a map and a key.
fn of_entry(a: Kind, b: Kind) -> Option<Kind>
    ensures { result ≡ of_entry a b }
{
    match a {
        Kind::Value(ValueType::Map(key, value)) => {
            where_so(is_kind(b, plain(scalar_of(key))), plain(value))
        }
        _ => None,
    }
}

/// What an operation makes of two operands, if it takes them.
pub(crate) fn of_two(operation: Binary, a: Kind, b: Kind) -> Option<Kind>
    ensures { result ≡ of_two operation a b }
{
    match operation {
        Binary::Add | Binary::Sub | Binary::Mul | Binary::Div | Binary::Rem => {
            of_both(ScalarType::Int, ScalarType::Int, a, b)
        }
        Binary::Eq | Binary::Ne => of_equals(a, b),
        Binary::Lt | Binary::Le | Binary::Gt | Binary::Ge => {
            of_both(ScalarType::Int, ScalarType::Bool, a, b)
        }
        Binary::And | Binary::Or => of_both(ScalarType::Bool, ScalarType::Bool, a, b),
        Binary::Contains => of_member(a, b),
        Binary::Get => of_entry(a, b),
        Binary::Concat => of_both(ScalarType::Text, ScalarType::Text, a, b),
    }
}

/// What a choice between two of one kind is.
pub(crate) fn of_choice(condition: Kind, a: Kind, b: Kind) -> Option<Kind>
    ensures { result ≡ of_choice condition a b }
{
    where_so(
        is_kind(condition, plain(ScalarType::Bool)) && is_kind(b, a),
        a,
    )
}
