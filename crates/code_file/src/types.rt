// Types and operations by their places, and types written.

ghost use Rattle.std.specs.Prelude.{◌≡◌, ◌++◌, length, take, OnErr, OnOk};
ghost use Rattle.trace_reader.specs.Reading as reading;
ghost use Rattle.code_file.specs.Spelling as seen;

use flat_core::equation::Op;
use tsl_value::bytes::Bytes;
use tsl_value::memory::NoMemory;
use tsl_value::operation::{Binary, Unary};
use tsl_value::scalar::{KeyType, ScalarType, ValueType};

/// What stands at the root of a body that is no literal and no argument.
#[derive(Clone, Copy, PartialEq, Eq, Debug)]
pub enum Operation {
    If,
    Absent,
    One(Unary),
    Two(Binary),
}

pub(crate) fn scalar_place(of: ScalarType) -> u8
    ensures { result ≡ seen.scalar_place of }
{
    match of {
        ScalarType::Unit => 0,
        ScalarType::Int => 1,
        ScalarType::Bool => 2,
        ScalarType::Text => 3,
    }
}

fn key_place(of: KeyType) -> u8
    ensures { result ≡ seen.key_place of }
{
    match of {
        KeyType::Int => 1,
        KeyType::Bool => 2,
        KeyType::Text => 3,
    }
}

pub(crate) fn put_type(of: ValueType, out: &mut Bytes) -> Result<(), NoMemory>
    ensures ok { OnOk result (out.new ≡ out.old ++ seen.type_bytes of) }
    ensures err { OnErr result (take (length out.old) out.new ≡ out.old) }
{
    match of {
        ValueType::Scalar(of) => out.push(scalar_place(of)),
        ValueType::Set(key) => out.append(&[4, key_place(key)]),
        ValueType::Map(key, value) => out.append(&[5, key_place(key), scalar_place(value)]),
        ValueType::Queue(value) => out.append(&[6, scalar_place(value)]),
    }
}

fn binary_place(operation: Binary) -> u8
    ensures { result ≡ seen.binary_place operation }
{
    match operation {
        Binary::Add => 0,
        Binary::Sub => 1,
        Binary::Mul => 2,
        Binary::Div => 4,
        Binary::Rem => 5,
        Binary::Eq => 6,
        Binary::Ne => 7,
        Binary::Lt => 8,
        Binary::Le => 9,
        Binary::Gt => 10,
        Binary::Ge => 11,
        Binary::And => 13,
        Binary::Or => 14,
        Binary::Contains => 16,
        Binary::Get => 18,
        Binary::Concat => 19,
    }
}

fn unary_place(operation: Unary) -> u8
    ensures { result ≡ seen.unary_place operation }
{
    match operation {
        Unary::Neg => 3,
        Unary::Not => 12,
        Unary::Size => 17,
        Unary::Length => 20,
        Unary::Some => 21,
        Unary::IsSome => 23,
        Unary::IsNone => 24,
        Unary::GetSome => 25,
        Unary::Front => 26,
    }
}

pub(crate) fn operation_place(operation: Operation) -> u8
    ensures { result ≡ seen.operation_place operation }
{
    match operation {
        Operation::If => 15,
        Operation::Absent => 22,
        Operation::One(operation) => unary_place(operation),
        Operation::Two(operation) => binary_place(operation),
    }
}

pub(crate) fn op_place(operation: &Op) -> u8
    ensures { result ≡ seen.op_place operation.now }
{
    match operation {
        Op::Input => 0,
        Op::Nil => 1,
        Op::Unit => 2,
        Op::Lift { .. } => 3,
        Op::Any => 4,
        Op::Time => 5,
        Op::Last => 6,
        Op::Delay => 7,
        Op::Merge => 8,
        Op::Filter => 9,
        Op::Pick => 10,
        Op::Empty => 11,
        Op::MapAdd => 12,
        Op::MapRemove => 13,
        Op::SetAdd => 14,
        Op::SetRemove => 15,
        Op::QueueAdd => 16,
        Op::QueueTake => 17,
    }
}

/// Whether it is an input.
pub fn is_input(operation: &Op) -> bool
    ensures { result ≡ reading.is_input operation.now }
{
    matches!(operation, Op::Input)
}
