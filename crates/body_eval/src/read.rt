// The operations at registers. Those on aggregates read their cells.

ghost use Rattle.std.specs.Prelude.{◌≡◌, Some, pos};
ghost use Rattle.std.specs.Option.{option_map};
ghost use Rattle.tsl_value.specs.View.{Plain};
ghost use Rattle.tsl_value.specs.declared.operation.Unary.TheVariants as unary;
ghost use Rattle.body_eval.specs.inner.Answered.{IsInt};
ghost use Rattle.lift_func.specs.Apply.{int, found, of_one, of_two};
ghost use Rattle.cell_reader.specs.inner.Cells.{Cells, FitsKey, IsLive, IsMap, IsQueue, has_key};
ghost use Rattle.body_eval.specs.inner.Registers.{HoldsLive, held, register_of, scalar_in};
ghost use Rattle.cell_reader.specs.inner.Cells.{value_at, view_at};
ghost use Rattle.body_eval.specs.inner.Evaluable.{CanRead, FitsOperand, IsHeldAnswer, IsHeldValue, is_read};
ghost use Rattle.body_eval.specs.inner.Textless.{IsAnswered, IsNoText};

use crate::eval::EvalFault;
use crate::operation::apply_unary;
use crate::register::Register;
use cell_reader::reader::Reader;
use lift_func::fault::FaultKind;
use tsl_value::ids::Handle;
use tsl_value::operation::{Binary, Unary};
use tsl_value::scalar::Scalar;

/// The scalar of a register. An aggregate has none.
pub(crate) fn scalar_of(register: Register) -> Option<Scalar>
    ensures { result ≡ scalar_in register }
{
    match register {
        Register::Empty => None,
        Register::Scalar(value) => Some(value),
        Register::Aggregate(_) => None,
    }
}

/// The register of a scalar that may be absent.
pub(crate) fn register_of(value: Option<Scalar>) -> Register
    ensures { result ≡ register_of value }
{
    match value {
        Some(value) => Register::Scalar(value),
        None => Register::Empty,
    }
}

/// The operation reads an aggregate at a key.
pub(crate) fn is_read(o: Binary) -> bool
    ensures { result ≡ is_read o }
{
    match o {
        Binary::Contains | Binary::Get => true,
        _ => false,
    }
}

/// A number as an Int, or why it is none.
pub(crate) fn int_of(n: u64) -> Result<i64, FaultKind>
    ensures { IsInt result (int (pos n)) }
{
    if n <= 0x7fff_ffff_ffff_ffff {
        Ok(n as i64)
    } else {
        Err(FaultKind::Overflow)
    }
}

/// The number of elements of an aggregate.
fn size<R: Reader>(a: &Register, reader: &R) -> Result<Register, FaultKind>
    requires { HoldsLive (R.cells reader.now) a.now }
    ensures { IsHeldAnswer (R.cells reader.now) result (of_one unary.Size (held (R.cells reader.now) a.now)) }
{
    match a {
        Register::Empty => Ok(Register::Empty),
        Register::Scalar(_) => Ok(Register::Empty),
        Register::Aggregate(cell) => match int_of(reader.size(*cell)) {
            Ok(n) => Ok(Register::Scalar(Scalar::Int(n))),
            Err(kind) => Err(kind),
        },
    }
}

/// The value of an operation at a scalar, or its fault.
fn unary_at_scalar(o: Unary, a: Register) -> Result<Register, FaultKind>
    ensures { (cells : Cells) → IsHeldAnswer cells result (of_one o (option_map Plain (scalar_in a))) }
{
    Ok(register_of(apply_unary(o, scalar_of(a))?))
}

/// The element in front of a queue, or its fault. Only a text takes memory.
fn front<R: Reader>(cell: Handle, reader: &R) -> Result<Register, EvalFault>
    requires live { IsLive (R.cells reader.now) cell }
    requires queue { IsQueue (view_at (R.cells reader.now) cell) }
    ensures value { IsHeldValue (R.cells reader.now) result (of_one unary.Front (Some (view_at (R.cells reader.now) cell))) }
    ensures spare { IsNoText (of_one unary.Front (Some (view_at (R.cells reader.now) cell))) → IsAnswered result }
{
    match reader.front(cell) {
        Some(element) => Ok(Register::Scalar(element.copy()?)),
        None => Err(EvalFault::Fault(FaultKind::EmptyQueue)),
    }
}

/// The element in front of what a register holds, or its fault.
fn front_at<R: Reader>(a: &Register, reader: &R) -> Result<Register, EvalFault>
    requires live { HoldsLive (R.cells reader.now) a.now }
    requires typed { FitsOperand unary.Front (held (R.cells reader.now) a.now) }
    ensures value { IsHeldValue (R.cells reader.now) result (of_one unary.Front (held (R.cells reader.now) a.now)) }
    ensures spare { IsNoText (of_one unary.Front (held (R.cells reader.now) a.now)) → IsAnswered result }
{
    match a {
        Register::Empty => Ok(Register::Empty),
        Register::Scalar(_) => Ok(Register::Empty),
        Register::Aggregate(cell) => front(*cell, reader),
    }
}

/// What an option holds, or its fault.
fn some_of(a: Register) -> Result<Register, FaultKind>
    ensures { (cells : Cells) → HoldsLive cells a → IsHeldAnswer cells result (of_one unary.GetSome (held cells a)) }
{
    if a.is_empty() {
        Err(FaultKind::NoValue)
    } else {
        Ok(a)
    }
}

/// The value of an operation of one operand, or its fault. Only a text in front of a queue takes memory.
pub(crate) fn unary_at<R: Reader>(o: Unary, a: Register, reader: &R) -> Result<Register, EvalFault>
    requires live { HoldsLive (R.cells reader.now) a }
    requires typed { FitsOperand o (held (R.cells reader.now) a) }
    ensures value { IsHeldValue (R.cells reader.now) result (of_one o (held (R.cells reader.now) a)) }
    ensures spare { IsNoText (of_one o (held (R.cells reader.now) a)) → IsAnswered result }
{
    match o {
        Unary::Neg => Ok(unary_at_scalar(o, a)?),
        Unary::Not => Ok(unary_at_scalar(o, a)?),
        Unary::Length => Ok(unary_at_scalar(o, a)?),
        Unary::Size => Ok(size(&a, reader)?),
        Unary::Front => front_at(&a, reader),
        Unary::Some => Ok(a),
        Unary::IsSome => Ok(Register::Scalar(Scalar::Bool(!a.is_empty()))),
        Unary::IsNone => Ok(Register::Scalar(Scalar::Bool(a.is_empty()))),
        Unary::GetSome => Ok(some_of(a)?),
    }
}

/// The value at a key of a map, or its fault. Only a text takes memory.
fn value_at_key<R: Reader>(cell: Handle, key: &Scalar, reader: &R) -> Result<Register, EvalFault>
    requires live { IsLive (R.cells reader.now) cell }
    requires map { IsMap (view_at (R.cells reader.now) cell) }
    requires typed { FitsKey (view_at (R.cells reader.now) cell) key.now }
    ensures value { IsHeldValue (R.cells reader.now) result
        (found (option_map Plain (value_at (view_at (R.cells reader.now) cell) key.now))) }
    ensures spare { IsNoText (found (option_map Plain (value_at (view_at (R.cells reader.now) cell) key.now))) → IsAnswered result }
{
    match reader.get(cell, key) {
        Some(value) => Ok(Register::Scalar(value.copy()?)),
        None => Err(EvalFault::Fault(FaultKind::MissingKey)),
    }
}

/// The value of an operation that reads an aggregate at a key, or its fault. Only a text takes memory.
pub(crate) fn read<R: Reader>(
    o: Binary,
    a: &Register,
    key: &Register,
    reader: &R,
) -> Result<Register, EvalFault>
    requires live { HoldsLive (R.cells reader.now) a.now }
    requires typed { CanRead (R.cells reader.now) o a.now key.now }
    ensures value { IsHeldValue (R.cells reader.now) result
        (of_two o (Ok (held (R.cells reader.now) a.now)) (Ok (held (R.cells reader.now) key.now))) }
    ensures spare { IsNoText (of_two o (Ok (held (R.cells reader.now) a.now)) (Ok (held (R.cells reader.now) key.now)))
        → IsAnswered result }
{
    match (a, key) {
        (Register::Aggregate(cell), Register::Scalar(key)) => match o {
            Binary::Contains => Ok(Register::Scalar(Scalar::Bool(reader.contains(*cell, key)))),
            Binary::Get => value_at_key(*cell, key, reader),
            _ => Ok(Register::Empty),
        },
        _ => Ok(Register::Empty),
    }
}
