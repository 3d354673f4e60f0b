// Equal types.

ghost use Rattle.std.specs.Prelude.{◌≡◌};
ghost use Rattle.type_rules.specs.Asked.{same_scalar, same_key, same_value, same_type};

use crate::rule::ExprType;
use tsl_value::scalar::{KeyType, ScalarType, ValueType};

fn is_scalar(a: ScalarType, b: ScalarType) -> bool
    ensures { result ≡ same_scalar a b }
{
    match (a, b) {
        (ScalarType::Unit, ScalarType::Unit) => true,
        (ScalarType::Int, ScalarType::Int) => true,
        (ScalarType::Bool, ScalarType::Bool) => true,
        (ScalarType::Text, ScalarType::Text) => true,
        _ => false,
    }
}

fn is_key(a: KeyType, b: KeyType) -> bool
    ensures { result ≡ same_key a b }
{
    match (a, b) {
        (KeyType::Int, KeyType::Int) => true,
        (KeyType::Bool, KeyType::Bool) => true,
        (KeyType::Text, KeyType::Text) => true,
        _ => false,
    }
}

fn is_value(a: ValueType, b: ValueType) -> bool
    ensures { result ≡ same_value a b }
{
    match (a, b) {
        (ValueType::Scalar(a), ValueType::Scalar(b)) => is_scalar(a, b),
        (ValueType::Set(a), ValueType::Set(b)) => is_key(a, b),
        (ValueType::Map(a, x), ValueType::Map(b, y)) => is_key(a, b) && is_scalar(x, y),
        (ValueType::Queue(x), ValueType::Queue(y)) => is_scalar(x, y),
        _ => false,
    }
}

impl ExprType {
    /// Both are streams, values or options, of one type.
    pub fn is(self, other: ExprType) -> bool
        ensures { result ≡ same_type self other }
    {
        match (self, other) {
            (ExprType::Stream(a), ExprType::Stream(b)) => is_value(a, b),
            (ExprType::Value(a), ExprType::Value(b)) => is_value(a, b),
            (ExprType::Optional(a), ExprType::Optional(b)) => is_value(a, b),
            _ => false,
        }
    }
}
