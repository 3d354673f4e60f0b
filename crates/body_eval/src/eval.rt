// The value of a body.

ghost use Rattle.std.specs.Prelude.{◌≡◌, All, IfOk, OnErr, None, slice_index_or};
ghost use Rattle.std.specs.Option.{option_map};
ghost use Rattle.tsl_value.specs.View.{Plain};
ghost use Rattle.lift_func.specs.Apply.{apply};
ghost use Rattle.cell_reader.specs.inner.Cells.{Cells};
ghost use Rattle.body_eval.specs.inner.Registers.{HoldsLive, arguments, held};
ghost use Rattle.body_eval.specs.inner.Evaluable.{IsEvaluable, IsHeldValue, IsTypedAt};
ghost use Rattle.body_eval.specs.inner.Answered.{IsValue, views};
ghost use Rattle.body_eval.specs.inner.Textless.{HasNoText, IsAnswered, IsText};

use crate::operation::{apply_binary, apply_unary, decided};
use crate::quick::at_hand;
use crate::read::{is_read, read, register_of, scalar_of, unary_at};
use crate::register::Register;
use cell_reader::reader::Reader;
use lift_func::body::{Body, Node};
use lift_func::fault::FaultKind;
use std::alloc::Global;
use tsl_value::ids::EqId;
use tsl_value::memory::NoMemory;
use tsl_value::scalar::Scalar;

/// Why a body has no value.
#[derive(Clone, Copy, PartialEq, Eq, Debug)]
pub enum EvalFault {
    Fault(FaultKind),
    Memory,
}

impl From<FaultKind> for EvalFault {
    ghost use Rattle.body_eval.specs.declared.eval.EvalFault.TheVariants.{Fault};

    ghost from_gives = { λ kind e. e ≡ Fault kind };

    fn from(kind: FaultKind) -> EvalFault {
        EvalFault::Fault(kind)
    }
}

impl From<NoMemory> for EvalFault {
    ghost use Rattle.body_eval.specs.declared.eval.EvalFault.TheVariants.{Memory};

    ghost from_gives = { λ _ e. e ≡ Memory };

    fn from(_none: NoMemory) -> EvalFault {
        EvalFault::Memory
    }
}

fn copied(value: &Option<Scalar>) -> Result<Option<Scalar>, NoMemory>
    ensures { IfOk result (λ v. v ≡ value.now) }
{
    match value {
        Some(v) => Ok(Some(v.copy()?)),
        None => Ok(None),
    }
}

/// The value of an argument. One that is not there is absent.
fn argument_at(args: &[Option<Scalar>], k: usize) -> Result<Option<Scalar>, NoMemory>
    ensures { IfOk result (λ v. slice_index_or (views args.now) k None ≡ option_map Plain v) }
{
    match args.get(k) {
        Some(value) => copied(value),
        None => Ok(None),
    }
}

/// The value of a body at scalars that may be absent. `Fault` comes exactly where the body's
/// operations have that fault, and is the first of them, operands taken from left to right.
///
/// An operand of another type than its operation's, and an argument that is not there, count as
/// absent.
pub fn eval_scalars(
    alloc: Global,
    body: &Body,
    args: &[Option<Scalar>],
) -> Result<Option<Scalar>, EvalFault>
    ensures { IsValue result (apply body.now (views args.now)) }
{
    match body.node() {
        Node::Literal(s) => Ok(Some(s.copy()?)),
        Node::Argument(k) => Ok(argument_at(args, *k)?),
        Node::Absent(_) => Ok(None),
        Node::One(o, a) => Ok(apply_unary(*o, eval_scalars(alloc, a, args)?)?),
        Node::Two(o, a, b) => {
            let x = eval_scalars(alloc, a, args)?;
            if let Some(v) = decided(*o, &x) {
                return Ok(v);
            }
            let y = eval_scalars(alloc, b, args)?;
            apply_binary(alloc, *o, &x, y)
        }
        Node::Choice(c, a, b) => match eval_scalars(alloc, c, args)? {
            Some(Scalar::Bool(holds)) => {
                if holds {
                    eval_scalars(alloc, a, args)
                } else {
                    eval_scalars(alloc, b, args)
                }
            }
            _ => Ok(None),
        },
    }
}

/// The register of a number. One that is not there holds nothing.
fn register_at(registers: &[Register], a: EqId) -> Result<Register, NoMemory>
    ensures value { IfOk result (λ r. r ≡ slice_index_or registers.now a Register.Empty) }
    ensures text { OnErr result ((cells : Cells) → IsText (held cells (slice_index_or registers.now a Register.Empty))) }
{
    match registers.get(a.get() as usize) {
        Some(register) => register.copy(),
        None => Ok(Register::Empty),
    }
}

/// The register that an argument names. One that is not there holds nothing.
fn named_at(registers: &[Register], args: &[EqId], k: usize) -> Result<Register, NoMemory>
    ensures held { IfOk result (λ r. (cells : Cells) → slice_index_or (arguments cells registers.now args.now) k None ≡ held cells r) }
    ensures live { IfOk result (λ r. (cells : Cells)
        → All (λ a. HoldsLive cells (slice_index_or registers.now a Register.Empty)) args.now
        → HoldsLive cells r) }
    ensures text { OnErr result ((cells : Cells) → IsText (slice_index_or (arguments cells registers.now args.now) k None)) }
{
    match args.get(k) {
        Some(a) => register_at(registers, *a),
        None => Ok(Register::Empty),
    }
}

/// The register of a body's value, or the first fault. Without a text it takes no memory.
fn eval_register<R: Reader>(
    alloc: Global,
    body: &Body,
    registers: &[Register],
    args: &[EqId],
    reader: &R,
) -> Result<Register, EvalFault>
    requires { IsTypedAt (R.cells reader.now) registers.now args.now body.now }
    ensures value { IsHeldValue (R.cells reader.now) result (apply body.now (arguments (R.cells reader.now) registers.now args.now)) }
    ensures spare { HasNoText body.now (arguments (R.cells reader.now) registers.now args.now) → IsAnswered result }
{
    match body.node() {
        Node::Literal(s) => Ok(Register::Scalar(s.copy()?)),
        Node::Argument(k) => Ok(named_at(registers, args, *k)?),
        Node::Absent(_) => Ok(Register::Empty),
        Node::One(o, a) => {
            let x = eval_register(alloc, a, registers, args, reader)?;
            unary_at(*o, x, reader)
        }
        Node::Two(o, a, b) => {
            let x = eval_register(alloc, a, registers, args, reader)?;
            if is_read(*o) {
                let key = eval_register(alloc, b, registers, args, reader)?;
                return read(*o, &x, &key, reader);
            }
            let x = scalar_of(x);
            if let Some(v) = decided(*o, &x) {
                return Ok(register_of(v));
            }
            let y = scalar_of(eval_register(alloc, b, registers, args, reader)?);
            Ok(register_of(apply_binary(alloc, *o, &x, y)?))
        }
        Node::Choice(c, a, b) => match scalar_of(eval_register(
            alloc, c, registers, args, reader,
        )?) {
            Some(Scalar::Bool(is_first)) => {
                if is_first {
                    eval_register(alloc, a, registers, args, reader)
                } else {
                    eval_register(alloc, b, registers, args, reader)
                }
            }
            _ => Ok(Register::Empty),
        },
    }
}

/// The value of a body at the registers that the arguments name. `Fault` comes exactly where the
/// body's operations have that fault, and is the first of them, operands taken from left to right.
/// `None` is the absent value of a body whose value is optional. Where no literal, argument or
/// operation of the body is a text, no memory is taken.
pub fn eval<R: Reader>(
    alloc: Global,
    body: &Body,
    registers: &[Register],
    args: &[EqId],
    reader: &R,
) -> Result<Option<Scalar>, EvalFault>
    requires { IsEvaluable (R.cells reader.now) registers.now args.now body.now }
    ensures value { IsValue result (apply body.now (arguments (R.cells reader.now) registers.now args.now)) }
    ensures spare { HasNoText body.now (arguments (R.cells reader.now) registers.now args.now) → IsAnswered result }
{
    if let Some(value) = at_hand(body, registers, args, reader) {
        return Ok(Some(value));
    }
    Ok(scalar_of(eval_register(alloc, body, registers, args, reader)?))
}
