// Written types.

ghost use Rattle.std.specs.Prelude.{◌≡◌, slice_get};
ghost use Rattle.std.specs.Option.{option_map};
ghost use Rattle.type_rules.specs.declared.rule.ExprType.TheVariants as expr_type;
ghost use Rattle.syntax_tree.specs.inner.OneLevel.{aggregate_in};
ghost use Rattle.type_rules.specs.Written.{scalar_of, key_of, aggregate_of, value_of, as_written, as_stream, bad_key, bad_scalar, bad_in};
ghost use Rattle.type_rules.specs.Written.{bad_inside, bad_as_written, bad_as_stream};

use crate::rule::ExprType;
use syntax_tree::tree::{Aggregate, TypeName, TypeShape};
use tsl_value::place::Place;
use tsl_value::scalar::{KeyType, ScalarType, ValueType};

/// The scalar type that is written, if one is.
pub fn scalar_of(written: &TypeName) -> Option<ScalarType>
    ensures { result ≡ scalar_of written.now }
{
    match written.shape() {
        TypeShape::Unit => Some(ScalarType::Unit),
        TypeShape::Int => Some(ScalarType::Int),
        TypeShape::Bool => Some(ScalarType::Bool),
        TypeShape::Text => Some(ScalarType::Text),
        TypeShape::Aggregate(_) => None,
        TypeShape::Option(_) => None,
        TypeShape::Events(_) => None,
    }
}

/// The type of keys that is written, if one is.
pub fn key_of(written: &TypeName) -> Option<KeyType>
    ensures { result ≡ key_of written.now }
{
    match written.shape() {
        TypeShape::Int => Some(KeyType::Int),
        TypeShape::Bool => Some(KeyType::Bool),
        TypeShape::Text => Some(KeyType::Text),
        TypeShape::Unit => None,
        TypeShape::Aggregate(_) => None,
        TypeShape::Option(_) => None,
        TypeShape::Events(_) => None,
    }
}

/// The type of aggregates of what stands in the brackets, if there is one.
pub fn aggregate_of(written: &Aggregate) -> Option<ValueType>
    ensures { result ≡ aggregate_of (aggregate_in written.now) }
{
    match written {
        Aggregate::Set(key) => match key_of(key) {
            Some(key) => Some(ValueType::Set(key)),
            None => None,
        },
        Aggregate::Map(key, of) => match key_of(key) {
            None => None,
            Some(key) => match scalar_of(of) {
                Some(of) => Some(ValueType::Map(key, of)),
                None => None,
            },
        },
        Aggregate::Queue(of) => match scalar_of(of) {
            Some(of) => Some(ValueType::Queue(of)),
            None => None,
        },
    }
}

/// The type of values that is written, if one is: no option and no stream.
pub fn value_of(written: &TypeName) -> Option<ValueType>
    ensures { result ≡ value_of written.now }
{
    match written.shape() {
        TypeShape::Unit => Some(ValueType::Scalar(ScalarType::Unit)),
        TypeShape::Int => Some(ValueType::Scalar(ScalarType::Int)),
        TypeShape::Bool => Some(ValueType::Scalar(ScalarType::Bool)),
        TypeShape::Text => Some(ValueType::Scalar(ScalarType::Text)),
        TypeShape::Aggregate(of) => aggregate_of(of),
        TypeShape::Option(_) => None,
        TypeShape::Events(_) => None,
    }
}

fn stream(of: Option<ValueType>) -> Option<ExprType>
    ensures { result ≡ option_map expr_type.Stream of }
{
    match of {
        Some(of) => Some(ExprType::Stream(of)),
        None => None,
    }
}

/// What a parameter, a macro or a value function is: just what is written, if that may stand at all.
pub fn as_written(written: &TypeName) -> Option<ExprType>
    ensures { result ≡ as_written written.now }
{
    match written.shape() {
        TypeShape::Events(of) => stream(value_of(of)),
        TypeShape::Option(of) => match value_of(of) {
            Some(of) => Some(ExprType::Optional(of)),
            None => None,
        },
        TypeShape::Unit
        | TypeShape::Int
        | TypeShape::Bool
        | TypeShape::Text
        | TypeShape::Aggregate(_) => match value_of(written) {
            Some(of) => Some(ExprType::Value(of)),
            None => None,
        },
    }
}

/// What an input or a definition without parameters is: a stream, whether `Events` is written or left out.
pub fn as_stream(written: &TypeName) -> Option<ExprType>
    ensures { result ≡ as_stream written.now }
{
    match written.shape() {
        TypeShape::Events(of) => stream(value_of(of)),
        TypeShape::Unit
        | TypeShape::Int
        | TypeShape::Bool
        | TypeShape::Text
        | TypeShape::Aggregate(_)
        | TypeShape::Option(_) => stream(value_of(written)),
    }
}

/// Where a type that is no key stands as one.
pub fn bad_key(written: &TypeName) -> Option<Place>
    ensures { result ≡ slice_get (bad_key written.now) 0 }
{
    match key_of(written) {
        Some(_) => None,
        None => Some(written.place()),
    }
}

/// Where a type that is no scalar stands as the type of a map's values or of a queue's elements.
pub fn bad_scalar(written: &TypeName) -> Option<Place>
    ensures { result ≡ slice_get (bad_scalar written.now) 0 }
{
    match scalar_of(written) {
        Some(_) => None,
        None => Some(written.place()),
    }
}

/// Where the first type in an aggregate's brackets stands that may not.
pub fn bad_in(written: &Aggregate) -> Option<Place>
    ensures { result ≡ slice_get (bad_in (aggregate_in written.now)) 0 }
{
    match written {
        Aggregate::Set(key) => bad_key(key),
        Aggregate::Map(key, of) => match bad_key(key) {
            Some(place) => Some(place),
            None => bad_scalar(of),
        },
        Aggregate::Queue(of) => bad_scalar(of),
    }
}

/// Where the first type in another one stands that may not, of a type that stands inside another one itself.
pub fn bad_inside(written: &TypeName) -> Option<Place>
    ensures { result ≡ slice_get (bad_inside written.now) 0 }
{
    match written.shape() {
        TypeShape::Aggregate(of) => bad_in(of),
        TypeShape::Option(_) | TypeShape::Events(_) => Some(written.place()),
        TypeShape::Unit | TypeShape::Int | TypeShape::Bool | TypeShape::Text => None,
    }
}

/// Where the first type stands that may not, in the type of a parameter, a macro or a value function.
pub fn bad_as_written(written: &TypeName) -> Option<Place>
    ensures { result ≡ slice_get (bad_as_written written.now) 0 }
{
    match written.shape() {
        TypeShape::Events(of) | TypeShape::Option(of) => bad_inside(of),
        TypeShape::Unit
        | TypeShape::Int
        | TypeShape::Bool
        | TypeShape::Text
        | TypeShape::Aggregate(_) => bad_inside(written),
    }
}

/// Where the first type stands that may not, in the type of an input or of a definition without parameters.
pub fn bad_as_stream(written: &TypeName) -> Option<Place>
    ensures { result ≡ slice_get (bad_as_stream written.now) 0 }
{
    match written.shape() {
        TypeShape::Events(of) => bad_inside(of),
        TypeShape::Unit
        | TypeShape::Int
        | TypeShape::Bool
        | TypeShape::Text
        | TypeShape::Aggregate(_)
        | TypeShape::Option(_) => bad_inside(written),
    }
}
