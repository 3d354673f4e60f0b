// Equations and outputs, read.

ghost use Rattle.std.specs.Prelude.{◌≡◌, false};
ghost use Rattle.code_file.specs.Form as form;
ghost use Rattle.code_file.specs.inner.Reading.{entry_read, fields_after, fields_at, idle_at, items_at, lift_at, list_at, number_at};
ghost use Rattle.code_file.specs.inner.Reading.{op_at, output_at, place_at};
ghost use Rattle.code_reader.specs.inner.Gives.{Gives};

use crate::body::{read_body, read_flag};
use crate::fields::{Read, read_name, read_number, read_optional_name};
use crate::types::{plain_op_of, read_type};
use code_file::fault::CodeFault;
use code_file::types::is_input;
use flat_core::equation::{Equation, Op, Output};
use flat_core::lists::Args;
use lift_func::limits::MOST_NODES;
use std::alloc::Global;
use tsl_value::ids::EqId;
use tsl_value::place::Place;
use tsl_value::scalar::{ScalarType, ValueType};

/// So many arguments.
fn read_ids(alloc: Global, count: u32, bytes: &[u8]) -> Read<'_, Args>
    ensures { Gives (λ x. (x.0, x.1.now)) result (items_at number_at count bytes.now) }
{
    let mut args = Args::new(alloc);
    let mut rest = bytes;
    for _ in 0..count {
        let (number, after) = read_number(rest)?;
        args.push(EqId::new(number))?;
        rest = after;
    }
    Ok((args, rest))
}

#[tactic(auto, unfolding(code_file::specs::inner::Reading::list_at))]
fn read_args(alloc: Global, bytes: &[u8]) -> Read<'_, Args>
    ensures { Gives (λ x. (x.0, x.1.now)) result (list_at bytes.now) }
{
    let (count, rest) = read_number(bytes)?;
    read_ids(alloc, count, rest)
}

#[tactic(auto, unfolding(code_file::specs::inner::Reading::place_at))]
fn read_place(bytes: &[u8]) -> Read<'_, Place>
    ensures { Gives (λ x. (x.0, x.1.now)) result (place_at bytes.now) }
{
    let (line, rest) = read_number(bytes)?;
    let (column, rest) = read_number(rest)?;
    Ok((Place { line, column }, rest))
}

/// The body of a lift, after its arguments.
fn read_lift(alloc: Global, bytes: &[u8]) -> Read<'_, Op>
    ensures { Gives (λ x. (x.0, x.1.now)) result (lift_at bytes.now) }
{
    let (strict, rest) = read_flag(bytes)?;
    let (body, rest) = read_body(alloc, MOST_NODES, rest)?;
    Ok((Op::Lift { body, strict }, rest))
}

/// The operation of a byte, with what stands after the arguments.
#[tactic(auto, unfolding(code_file::specs::inner::Reading::op_at))]
fn read_op(alloc: Global, byte: u8, bytes: &[u8]) -> Read<'_, Op>
    ensures { Gives (λ x. (x.0, x.1.now)) result (op_at byte bytes.now) }
{
    if byte == 3 {
        return read_lift(alloc, bytes);
    }
    match plain_op_of(byte) {
        Some(operation) => Ok((operation, bytes)),
        None => Err(CodeFault::WrongForm),
    }
}

/// An equation after the byte of its operation.
#[tactic(auto, unfolding(code_file::specs::inner::Reading::fields_after))]
fn read_after(alloc: Global, byte: u8, bytes: &[u8]) -> Read<'_, Equation>
    ensures { Gives (λ x. (x.0, x.1.now)) result (fields_after byte bytes.now) }
{
    let (of, rest) = read_type(bytes)?;
    let (place, rest) = read_place(rest)?;
    let (name, rest) = read_optional_name(alloc, rest)?;
    let (args, rest) = read_args(alloc, rest)?;
    let (op, rest) = read_op(alloc, byte, rest)?;
    let equation = Equation {
        op,
        args,
        of,
        place,
        name,
    };
    Ok((equation, rest))
}

fn read_fields(alloc: Global, bytes: &[u8]) -> Read<'_, Equation>
    ensures { Gives (λ x. (x.0, x.1.now)) result (fields_at bytes.now) }
{
    match bytes.split_first() {
        Some((byte, rest)) => read_after(alloc, *byte, rest),
        None => Err(CodeFault::WrongForm),
    }
}

/// What stands for an equation that does not run.
fn nothing(alloc: Global) -> Equation
    ensures { result ≡ form.nothing }
{
    Equation {
        op: Op::Nil,
        args: Args::new(alloc),
        of: ValueType::Scalar(ScalarType::Unit),
        place: Place { line: 1, column: 1 },
        name: None,
    }
}

/// An input that does not run.
fn read_idle(alloc: Global, bytes: &[u8]) -> Read<'_, Equation>
    ensures { Gives (λ x. ((false, x.0), x.1.now)) result (idle_at bytes.now) }
{
    let (equation, rest) = read_fields(alloc, bytes)?;
    if is_input(&equation.op) {
        Ok((equation, rest))
    } else {
        Err(CodeFault::WrongForm)
    }
}

/// An equation, and whether it runs.
#[tactic(auto, unfolding(code_file::specs::inner::Reading::entry_read))]
pub(crate) fn read_entry(alloc: Global, bytes: &[u8]) -> Read<'_, (bool, Equation)>
    ensures { Gives (λ x. (x.0, x.1.now)) result (entry_read bytes.now) }
{
    match bytes {
        [0, rest @ ..] => Ok(((false, nothing(alloc)), rest)),
        [1, rest @ ..] => {
            let (equation, rest) = read_fields(alloc, rest)?;
            Ok(((true, equation), rest))
        }
        [2, rest @ ..] => {
            let (equation, rest) = read_idle(alloc, rest)?;
            Ok(((false, equation), rest))
        }
        _ => Err(CodeFault::WrongForm),
    }
}

#[tactic(auto, unfolding(code_file::specs::inner::Reading::output_at))]
pub(crate) fn read_output(alloc: Global, bytes: &[u8]) -> Read<'_, Output>
    ensures { Gives (λ x. (x.0, x.1.now)) result (output_at bytes.now) }
{
    let (name, rest) = read_name(alloc, bytes)?;
    let (number, rest) = read_number(rest)?;
    let equation = EqId::new(number);
    Ok((Output { name, equation }, rest))
}
