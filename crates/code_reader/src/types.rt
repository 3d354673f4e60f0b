// Types and operations, read.

ghost use Rattle.std.specs.Prelude.{◌≡◌};
ghost use Rattle.code_file.specs.inner.Reading as reading;
ghost use Rattle.code_file.specs.inner.Reading.{byte_at, type_after, type_at};
ghost use Rattle.code_reader.specs.inner.Gives.{Gives};

use crate::fields::Read;
use code_file::fault::CodeFault;
use code_file::types::Operation;
use flat_core::equation::Op;
use tsl_value::operation::{Binary, Unary};
use tsl_value::scalar::{KeyType, ScalarType, ValueType};

#[tactic(auto, unfolding(code_file::specs::inner::Reading::scalar_type_of))]
fn scalar_type_of(byte: u8) -> Option<ScalarType>
    ensures { result ≡ reading.scalar_type_of byte }
{
    match byte {
        0 => Some(ScalarType::Unit),
        1 => Some(ScalarType::Int),
        2 => Some(ScalarType::Bool),
        3 => Some(ScalarType::Text),
        _ => None,
    }
}

#[tactic(auto, unfolding(code_file::specs::inner::Reading::key_type_of))]
fn key_type_of(byte: u8) -> Option<KeyType>
    ensures { result ≡ reading.key_type_of byte }
{
    match byte {
        1 => Some(KeyType::Int),
        2 => Some(KeyType::Bool),
        3 => Some(KeyType::Text),
        _ => None,
    }
}

pub(crate) fn read_scalar_type(bytes: &[u8]) -> Read<'_, ScalarType>
    ensures { Gives (λ x. (x.0, x.1.now)) result (byte_at reading.scalar_type_of bytes.now) }
{
    let Some((byte, rest)) = bytes.split_first() else {
        return Err(CodeFault::WrongForm);
    };
    match scalar_type_of(*byte) {
        Some(of) => Ok((of, rest)),
        None => Err(CodeFault::WrongForm),
    }
}

fn read_key_type(bytes: &[u8]) -> Read<'_, KeyType>
    ensures { Gives (λ x. (x.0, x.1.now)) result (byte_at reading.key_type_of bytes.now) }
{
    let Some((byte, rest)) = bytes.split_first() else {
        return Err(CodeFault::WrongForm);
    };
    match key_type_of(*byte) {
        Some(of) => Ok((of, rest)),
        None => Err(CodeFault::WrongForm),
    }
}

/// The type that begins with a byte.
fn type_after(byte: u8, bytes: &[u8]) -> Read<'_, ValueType>
    ensures { Gives (λ x. (x.0, x.1.now)) result (type_after byte bytes.now) }
{
    match byte {
        4 => {
            let (key, rest) = read_key_type(bytes)?;
            Ok((ValueType::Set(key), rest))
        }
        5 => {
            let (key, rest) = read_key_type(bytes)?;
            let (value, rest) = read_scalar_type(rest)?;
            Ok((ValueType::Map(key, value), rest))
        }
        6 => {
            let (value, rest) = read_scalar_type(bytes)?;
            Ok((ValueType::Queue(value), rest))
        }
        _ => match scalar_type_of(byte) {
            Some(of) => Ok((ValueType::Scalar(of), bytes)),
            None => Err(CodeFault::WrongForm),
        },
    }
}

#[tactic(auto, unfolding(code_file::specs::inner::Reading::type_at))]
pub(crate) fn read_type(bytes: &[u8]) -> Read<'_, ValueType>
    ensures { Gives (λ x. (x.0, x.1.now)) result (type_at bytes.now) }
{
    match bytes.split_first() {
        Some((byte, rest)) => type_after(*byte, rest),
        None => Err(CodeFault::WrongForm),
    }
}

#[tactic(auto, unfolding(code_file::specs::inner::Reading::operation_of))]
fn operation_of(byte: u8) -> Option<Operation>
    ensures { result ≡ reading.operation_of byte }
{
    match byte {
        0 => Some(Operation::Two(Binary::Add)),
        1 => Some(Operation::Two(Binary::Sub)),
        2 => Some(Operation::Two(Binary::Mul)),
        3 => Some(Operation::One(Unary::Neg)),
        4 => Some(Operation::Two(Binary::Div)),
        5 => Some(Operation::Two(Binary::Rem)),
        6 => Some(Operation::Two(Binary::Eq)),
        7 => Some(Operation::Two(Binary::Ne)),
        8 => Some(Operation::Two(Binary::Lt)),
        9 => Some(Operation::Two(Binary::Le)),
        10 => Some(Operation::Two(Binary::Gt)),
        11 => Some(Operation::Two(Binary::Ge)),
        12 => Some(Operation::One(Unary::Not)),
        13 => Some(Operation::Two(Binary::And)),
        14 => Some(Operation::Two(Binary::Or)),
        15 => Some(Operation::If),
        16 => Some(Operation::Two(Binary::Contains)),
        17 => Some(Operation::One(Unary::Size)),
        18 => Some(Operation::Two(Binary::Get)),
        19 => Some(Operation::Two(Binary::Concat)),
        20 => Some(Operation::One(Unary::Length)),
        21 => Some(Operation::One(Unary::Some)),
        22 => Some(Operation::Absent),
        23 => Some(Operation::One(Unary::IsSome)),
        24 => Some(Operation::One(Unary::IsNone)),
        25 => Some(Operation::One(Unary::GetSome)),
        26 => Some(Operation::One(Unary::Front)),
        _ => None,
    }
}

pub(crate) fn read_operation(bytes: &[u8]) -> Read<'_, Operation>
    ensures { Gives (λ x. (x.0, x.1.now)) result (byte_at reading.operation_of bytes.now) }
{
    let Some((byte, rest)) = bytes.split_first() else {
        return Err(CodeFault::WrongForm);
    };
    match operation_of(*byte) {
        Some(operation) => Ok((operation, rest)),
        None => Err(CodeFault::WrongForm),
    }
}

/// The operation of a byte that has no body.
#[tactic(auto, unfolding(code_file::specs::inner::Reading::plain_op_of))]
pub(crate) fn plain_op_of(byte: u8) -> Option<Op>
    ensures { result ≡ reading.plain_op_of byte }
{
    match byte {
        0 => Some(Op::Input),
        1 => Some(Op::Nil),
        2 => Some(Op::Unit),
        4 => Some(Op::Any),
        5 => Some(Op::Time),
        6 => Some(Op::Last),
        7 => Some(Op::Delay),
        8 => Some(Op::Merge),
        9 => Some(Op::Filter),
        10 => Some(Op::Pick),
        11 => Some(Op::Empty),
        12 => Some(Op::MapAdd),
        13 => Some(Op::MapRemove),
        14 => Some(Op::SetAdd),
        15 => Some(Op::SetRemove),
        16 => Some(Op::QueueAdd),
        17 => Some(Op::QueueTake),
        _ => None,
    }
}
