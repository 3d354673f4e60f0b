// Equal types.

ghost use Rattle.std.specs.Prelude.{◌≡◌};
ghost use Rattle.equation_types.specs.inner.Rules.{is_key, is_kind, is_scalar, is_type};

use crate::kind::Kind;
use tsl_value::scalar::{KeyType, ScalarType, ValueType};

fn is_scalar(a: ScalarType, b: ScalarType) -> bool
    ensures { result ≡ is_scalar a b }
{
    match (a, b) {
        (ScalarType::Unit, ScalarType::Unit) => true,
        (ScalarType::Int, ScalarType::Int) => true,
        (ScalarType::Bool, ScalarType::Bool) => true,
        (ScalarType::Text, ScalarType::Text) => true,
        _ => false,
    }
}

fn is_key(a: KeyType, b: KeyType) -> bool
    ensures { result ≡ is_key a b }
{
    match (a, b) {
        (KeyType::Int, KeyType::Int) => true,
        (KeyType::Bool, KeyType::Bool) => true,
        (KeyType::Text, KeyType::Text) => true,
        _ => false,
    }
}

/// Both are one type: not only sets, but of one type of keys, and so on.
pub(crate) fn is_type(a: ValueType, b: ValueType) -> bool
    ensures { result ≡ is_type a b }
{
    match (a, b) {
        (ValueType::Scalar(a), ValueType::Scalar(b)) => is_scalar(a, b),
        (ValueType::Set(a), ValueType::Set(b)) => is_key(a, b),
        (ValueType::Map(a, x), ValueType::Map(b, y)) => is_key(a, b) && is_scalar(x, y),
        (ValueType::Queue(x), ValueType::Queue(y)) => is_scalar(x, y),
        _ => false,
    }
}

pub(crate) fn is_kind(a: Kind, b: Kind) -> bool
    ensures { result ≡ is_kind a b }
{
    match (a, b) {
        (Kind::Value(a), Kind::Value(b)) => is_type(a, b),
        (Kind::Optional(a), Kind::Optional(b)) => is_type(a, b),
        _ => false,
    }
}
