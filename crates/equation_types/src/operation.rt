// Which types an operation takes and gives.

ghost use Rattle.std.specs.Prelude.{◌≡◌};
ghost use Rattle.equation_types.specs.inner.Rules.{are_several, has_kind, is_element, is_map_key};
ghost use Rattle.equation_types.specs.inner.Rules.{is_map_value, is_member, is_queue, is_typed_op};
ghost use Rattle.equation_types.specs.inner.Rules.{lifts, takes, takes_none, takes_one, takes_three, takes_two};

use crate::body::kind_in;
use crate::kind::{BOOL, INT, Kind, UNIT, kind_at, scalar_of};
use crate::same::{is_kind, is_type};
use flat_core::equation::Op;
use lift_func::body::Body;
use tsl_value::scalar::ValueType;

fn is_queue(of: ValueType) -> bool
    ensures { result ≡ is_queue of }
{
    matches!(of, ValueType::Queue(_))
}

/// Of the keys of a set.
fn is_member(of: ValueType, a: ValueType) -> bool
    ensures { result ≡ is_member of a }
{
    match of {
        ValueType::Set(key) => is_type(a, ValueType::Scalar(scalar_of(key))),
        _ => false,
    }
}

/// Of the keys of a map.
fn is_map_key(of: ValueType, a: ValueType) -> bool
    ensures { result ≡ is_map_key of a }
{
    match of {
        ValueType::Map(key, _) => is_type(a, ValueType::Scalar(scalar_of(key))),
        _ => false,
    }
}

/// Of the values of a map.
fn is_map_value(of: ValueType, a: ValueType) -> bool
    ensures { result ≡ is_map_value of a }
{
    match of {
        ValueType::Map(_, value) => is_type(a, ValueType::Scalar(value)),
        _ => false,
    }
}

/// Of the values of a queue.
fn is_element(of: ValueType, a: ValueType) -> bool
    ensures { result ≡ is_element of a }
{
    match of {
        ValueType::Queue(value) => is_type(a, ValueType::Scalar(value)),
        _ => false,
    }
}

fn takes_none(op: &Op, of: ValueType) -> bool
    ensures { result ≡ takes_none op.now of }
{
    match op {
        Op::Input => !of.is_aggregate(),
        Op::Nil => true,
        Op::Unit => is_type(of, UNIT),
        Op::Empty => of.is_aggregate(),
        _ => false,
    }
}

fn takes_one(op: &Op, a: ValueType, of: ValueType) -> bool
    ensures { result ≡ takes_one op.now a of }
{
    match op {
        Op::Time => is_type(of, INT),
        Op::QueueTake => is_queue(of) && is_type(a, of),
        _ => false,
    }
}

fn takes_two(op: &Op, a: ValueType, b: ValueType, of: ValueType) -> bool
    ensures { result ≡ takes_two op.now a b of }
{
    match op {
        Op::Last => is_type(a, of),
        Op::Delay => is_type(a, INT) && is_type(of, UNIT),
        Op::Merge => is_type(a, of) && is_type(b, of),
        Op::Filter => is_type(a, of) && is_type(b, BOOL),
        Op::SetAdd | Op::SetRemove => is_type(a, of) && is_member(of, b),
        Op::MapRemove => is_type(a, of) && is_map_key(of, b),
        Op::QueueAdd => is_type(a, of) && is_element(of, b),
        _ => false,
    }
}

fn takes_three(op: &Op, a: ValueType, b: ValueType, c: ValueType, of: ValueType) -> bool
    ensures { result ≡ takes_three op.now a b c of }
{
    match op {
        Op::Pick => is_type(a, BOOL) && is_type(b, of) && is_type(c, of) && of.is_aggregate(),
        Op::MapAdd => is_type(a, of) && is_map_key(of, b) && is_map_value(of, c),
        _ => false,
    }
}

/// An operation of which the number of arguments is fixed.
fn takes(op: &Op, types: &[ValueType], of: ValueType) -> bool
    ensures { result ≡ takes op.now types.now of }
{
    match types {
        [] => takes_none(op, of),
        [a] => takes_one(op, *a, of),
        [a, b] => takes_two(op, *a, *b, of),
        [a, b, c] => takes_three(op, *a, *b, *c, of),
        [_, _, _, _, ..] => false,
    }
}

/// At least so many, and at most eight.
fn are_several(least: usize, types: &[ValueType]) -> bool
    ensures { result ≡ are_several least types.now }
{
    least <= types.len() && types.len() <= 8
}

fn has_kind(found: Option<Kind>, wanted: Kind) -> bool
    ensures { result ≡ has_kind found wanted }
{
    match found {
        Some(kind) => is_kind(kind, wanted),
        None => false,
    }
}

fn lifts(body: &Body, strict: bool, types: &[ValueType], of: ValueType) -> bool
    ensures { result ≡ lifts body.now strict types.now of }
{
    !of.is_aggregate()
        && are_several(1, types)
        && has_kind(kind_in(types, strict, body), kind_at(strict, of))
}

/// Whether an operation takes arguments of these types, and gives this one.
pub(crate) fn is_typed_op(op: &Op, types: &[ValueType], of: ValueType) -> bool
    ensures { result ≡ is_typed_op op.now types.now of }
{
    match op {
        Op::Any => are_several(3, types) && is_type(of, UNIT),
        Op::Lift { body, strict } => lifts(body, *strict, types, of),
        _ => takes(op, types, of),
    }
}
