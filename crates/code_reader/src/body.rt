// Bodies, read.

ghost use Rattle.std.specs.Prelude.{◌&&◌, ◌∷◌, None, Some, if◌then◌else◌, length, nat_le};
ghost use Rattle.std.specs.Str.{is_utf8};
ghost use Rattle.tsl_value.specs.declared.limits.TheConstants.{MOST_TEXT_BYTES};
ghost use Rattle.tsl_value.specs.declared.scalar.Scalar.TheVariants as scalar;
ghost use Rattle.lift_func.specs.BodyTree.{Choice, One, Two};
ghost use Rattle.code_file.specs.inner.Reading.{argument_at, body_at, flag_at, if_few, literal_at, node_at, parts_at, scalar_at, text_at};
ghost use Rattle.code_reader.specs.inner.Gives.{Gives};

use crate::fields::{Read, read_bytes, read_number, read_wide};
use crate::types::{read_operation, read_scalar_type, read_type};
use code_file::fault::CodeFault;
use code_file::types::Operation;
use lift_func::body::Body;
use lift_func::limits::MOST_NODES;
use std::alloc::Global;
use tsl_value::bytes::Bytes;
use tsl_value::limits::MOST_TEXT_BYTES;
use tsl_value::operation::{Binary, Unary};
use tsl_value::scalar::{Scalar, ScalarType};
use tsl_value::text::Text;

pub(crate) fn read_flag(bytes: &[u8]) -> Read<'_, bool>
    ensures { Gives (λ x. (x.0, x.1.now)) result (flag_at bytes.now) }
{
    match bytes {
        [0, rest @ ..] => Ok((false, rest)),
        [1, rest @ ..] => Ok((true, rest)),
        _ => Err(CodeFault::WrongForm),
    }
}

/// A text of these bytes, which is in UTF-8 and not too long.
fn scalar_of_text(alloc: Global, bytes: &[u8]) -> Result<Scalar, CodeFault>
    ensures { Gives (λ s. s) result
        (if is_utf8 bytes.now && nat_le (length bytes.now) MOST_TEXT_BYTES then Some (scalar.Text bytes.now) else None) }
{
    if bytes.len() > MOST_TEXT_BYTES {
        return Err(CodeFault::WrongForm);
    }
    match Text::from_utf8(Bytes::from_slice(alloc, bytes)?) {
        Some(text) => Ok(Scalar::Text(text)),
        None => Err(CodeFault::WrongForm),
    }
}

#[tactic(auto, unfolding(code_file::specs::inner::Reading::text_at))]
fn read_text(alloc: Global, bytes: &[u8]) -> Read<'_, Scalar>
    ensures { Gives (λ x. (x.0, x.1.now)) result (text_at bytes.now) }
{
    let (count, rest) = read_wide(bytes)?;
    let (text, rest) = read_bytes(count as usize, rest)?;
    Ok((scalar_of_text(alloc, text)?, rest))
}

/// A scalar of a type.
#[tactic(auto, unfolding(code_file::specs::inner::Reading::scalar_at))]
fn read_scalar(alloc: Global, of: ScalarType, bytes: &[u8]) -> Read<'_, Scalar>
    ensures { Gives (λ x. (x.0, x.1.now)) result (scalar_at of bytes.now) }
{
    match of {
        ScalarType::Unit => Ok((Scalar::Unit, bytes)),
        ScalarType::Int => {
            let (number, rest) = read_wide(bytes)?;
            Ok((Scalar::Int(number.cast_signed()), rest))
        }
        ScalarType::Bool => {
            let (value, rest) = read_flag(bytes)?;
            Ok((Scalar::Bool(value), rest))
        }
        ScalarType::Text => read_text(alloc, bytes),
    }
}

/// The number of an argument, after the byte that says that it is one.
fn read_argument(bytes: &[u8]) -> Read<'_, Body>
    ensures { Gives (λ x. (x.0, x.1.now)) result (argument_at bytes.now) }
{
    let (number, rest) = read_number(bytes)?;
    Ok((Body::argument(number as usize), rest))
}

/// A literal, after the byte that says that it is one.
fn read_literal(alloc: Global, bytes: &[u8]) -> Read<'_, Body>
    ensures { Gives (λ x. (x.0, x.1.now)) result (literal_at bytes.now) }
{
    let (of, rest) = read_scalar_type(bytes)?;
    let (value, rest) = read_scalar(alloc, of, rest)?;
    Ok((Body::literal(value), rest))
}

// ---- operations at bodies of few nodes

fn one_of(alloc: Global, operation: Unary, a: Body) -> Result<Body, CodeFault>
    ensures { Gives (λ t. t) result (if_few (One operation a)) }
{
    if 1 + a.nodes() > MOST_NODES {
        return Err(CodeFault::WrongForm);
    }
    Ok(Body::one(alloc, operation, a)?)
}

fn two_of(alloc: Global, operation: Binary, a: Body, b: Body) -> Result<Body, CodeFault>
    ensures { Gives (λ t. t) result (if_few (Two operation a b)) }
{
    if 1 + a.nodes() + b.nodes() > MOST_NODES {
        return Err(CodeFault::WrongForm);
    }
    Ok(Body::two(alloc, operation, a, b)?)
}

fn choice_of(alloc: Global, condition: Body, a: Body, b: Body) -> Result<Body, CodeFault>
    ensures { Gives (λ t. t) result (if_few (Choice condition a b)) }
{
    if 1 + condition.nodes() + a.nodes() + b.nodes() > MOST_NODES {
        return Err(CodeFault::WrongForm);
    }
    Ok(Body::choice(alloc, condition, a, b)?)
}

#[cycle(read_body)]
#[tactic(auto, unfolding(code_file::specs::inner::Reading::parts_at))]
fn read_parts(alloc: Global, room: u32, operation: Operation, bytes: &[u8]) -> Read<'_, Body>
    ensures { Gives (λ x. (x.0, x.1.now)) result (parts_at (body_at room) operation bytes.now) }
{
    match operation {
        Operation::Absent => {
            let (of, rest) = read_type(bytes)?;
            Ok((Body::none(of), rest))
        }
        Operation::One(operation) => {
            let (a, rest) = read_body(alloc, room, bytes)?;
            Ok((one_of(alloc, operation, a)?, rest))
        }
        Operation::Two(operation) => {
            let (a, rest) = read_body(alloc, room, bytes)?;
            let (b, rest) = read_body(alloc, room, rest)?;
            Ok((two_of(alloc, operation, a, b)?, rest))
        }
        Operation::If => {
            let (condition, rest) = read_body(alloc, room, bytes)?;
            let (a, rest) = read_body(alloc, room, rest)?;
            let (b, rest) = read_body(alloc, room, rest)?;
            Ok((choice_of(alloc, condition, a, b)?, rest))
        }
    }
}

/// A body after its first byte, whose parts are no deeper than there is room.
#[cycle(read_body)]
fn read_node(alloc: Global, room: u32, byte: u8, bytes: &[u8]) -> Read<'_, Body>
    ensures { Gives (λ x. (x.0, x.1.now)) result (node_at (body_at room) (byte ∷ bytes.now)) }
{
    match byte {
        0 => read_argument(bytes),
        1 => read_literal(alloc, bytes),
        2 => {
            let (operation, rest) = read_operation(bytes)?;
            read_parts(alloc, room, operation, rest)
        }
        _ => Err(CodeFault::WrongForm),
    }
}

/// A body that is no deeper than there is room.
#[cycle(read_body)]
pub(crate) fn read_body(alloc: Global, room: u32, bytes: &[u8]) -> Read<'_, Body>
    ensures { Gives (λ x. (x.0, x.1.now)) result (body_at room bytes.now) }
{
    if room == 0 {
        return Err(CodeFault::WrongForm);
    }
    match bytes.split_first() {
        Some((byte, rest)) => read_node(alloc, room - 1, *byte, rest),
        None => Err(CodeFault::WrongForm),
    }
}
