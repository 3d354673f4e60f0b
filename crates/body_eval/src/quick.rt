// The value of a body where it is at hand.
//
// What a body reads stays where it lies, in a register, a cell or the body, and no memory is taken. `None` says nothing: where a value
// is not at hand, as where there may be a fault, the evaluation tells what it is.

ghost use Rattle.std.specs.Prelude.{◌≡◌, All, IfSome, IsTrue, is_some, slice_index_or};
ghost use Rattle.tsl_value.specs.View.{Plain};
ghost use Rattle.lift_func.specs.Apply.{apply, of_two};
ghost use Rattle.lift_func.specs.BodyTree.{One, Two};
ghost use Rattle.cell_reader.specs.inner.Cells.{Cells};
ghost use Rattle.body_eval.specs.inner.Registers.{HoldsLive, arguments, held};
ghost use Rattle.body_eval.specs.inner.Evaluable.{IsTypedAt};

use crate::operation::{is_same, quotient, rest};
use crate::read::int_of;
use crate::register::Register;
use cell_reader::reader::Reader;
use lift_func::body::{Body, Node};
use lift_func::faulting::is_arithmetic;
use tsl_value::ids::EqId;
use tsl_value::operation::{Binary, Unary};
use tsl_value::scalar::Scalar;

/// The register that a body names, if it is an argument.
#[inline(always)]
fn named<'a>(body: &Body, registers: &'a [Register], args: &[EqId]) -> Option<&'a Register>
    ensures value { IfSome result (λ r. (cells : Cells)
        → apply body.now (arguments cells registers.now args.now) ≡ Ok (held cells r.now)) }
    ensures live { IfSome result (λ r. (cells : Cells)
        → All (λ a. HoldsLive cells (slice_index_or registers.now a Register.Empty)) args.now
        → HoldsLive cells r.now) }
{
    match body.node() {
        Node::Argument(k) => registers.get(args.get(*k)?.get() as usize),
        _ => None,
    }
}

/// The scalar that a body names or is.
fn scalar<'a>(body: &'a Body, registers: &'a [Register], args: &[EqId]) -> Option<&'a Scalar>
    ensures { IfSome result (λ s. (cells : Cells)
        → apply body.now (arguments cells registers.now args.now) ≡ Ok (Some (Plain s.now))) }
{
    match body.node() {
        Node::Literal(literal) => Some(literal),
        _ => match named(body, registers, args)? {
            Register::Scalar(scalar) => Some(scalar),
            _ => None,
        },
    }
}

/// The Int that a scalar is.
#[inline(always)]
fn number_in(scalar: &Scalar) -> Option<i64>
    ensures { IfSome result (λ n. scalar.now ≡ Scalar.Int n) }
{
    match scalar {
        Scalar::Int(number) => Some(*number),
        _ => None,
    }
}

/// The Bool that a scalar is.
#[inline(always)]
fn truth_in(scalar: &Scalar) -> Option<bool>
    ensures { IfSome result (λ b. scalar.now ≡ Scalar.Bool b) }
{
    match scalar {
        Scalar::Bool(truth) => Some(*truth),
        _ => None,
    }
}

/// The same scalar, but for a text, whose copy takes memory.
fn without_memory(scalar: &Scalar) -> Option<Scalar>
    ensures { IfSome result (λ s. s ≡ scalar.now) }
{
    match scalar {
        Scalar::Unit => Some(Scalar::Unit),
        Scalar::Int(number) => Some(Scalar::Int(*number)),
        Scalar::Bool(truth) => Some(Scalar::Bool(*truth)),
        Scalar::Text(_) => None,
    }
}

/// Whether a key is in an aggregate.
fn is_there<R: Reader>(
    aggregate: &Body,
    key: &Body,
    registers: &[Register],
    args: &[EqId],
    reader: &R,
) -> Option<bool>
    requires { IsTypedAt (R.cells reader.now) registers.now args.now (Two Binary.Contains aggregate.now key.now) }
    ensures { IfSome result (λ b. apply (Two Binary.Contains aggregate.now key.now) (arguments (R.cells reader.now) registers.now args.now)
        ≡ Ok (Some (Plain (Scalar.Bool b)))) }
{
    match (
        named(aggregate, registers, args)?,
        scalar(key, registers, args)?,
    ) {
        (Register::Aggregate(cell), key) => Some(reader.contains(*cell, key)),
        _ => None,
    }
}

/// What a map has at a key, where both are at hand.
fn look_up<'a, R: Reader>(
    map: &Body,
    key: &Body,
    registers: &[Register],
    args: &[EqId],
    reader: &'a R,
) -> Option<Option<&'a Scalar>>
    requires { IsTypedAt (R.cells reader.now) registers.now args.now (Two Binary.Get map.now key.now) }
    ensures there { IfSome result (λ found. apply (Two Binary.Contains map.now key.now)
        (arguments (R.cells reader.now) registers.now args.now) ≡ Ok (Some (Plain (Scalar.Bool (is_some found))))) }
    ensures value { IfSome result (λ found. IfSome found (λ s. apply (Two Binary.Get map.now key.now)
        (arguments (R.cells reader.now) registers.now args.now) ≡ Ok (Some (Plain s.now)))) }
{
    match (named(map, registers, args)?, scalar(key, registers, args)?) {
        (Register::Aggregate(cell), key) => Some(reader.get(*cell, key)),
        _ => None,
    }
}

/// The value at a key of a map.
#[inline(always)]
fn found<'a, R: Reader>(
    map: &Body,
    key: &Body,
    registers: &[Register],
    args: &[EqId],
    reader: &'a R,
) -> Option<&'a Scalar>
    requires { IsTypedAt (R.cells reader.now) registers.now args.now (Two Binary.Get map.now key.now) }
    ensures { IfSome result (λ s. apply (Two Binary.Get map.now key.now) (arguments (R.cells reader.now) registers.now args.now)
        ≡ Ok (Some (Plain s.now))) }
{
    look_up(map, key, registers, args, reader)?
}

/// Both bodies are the same argument.
#[inline(always)]
fn are_one(a: &Body, b: &Body) -> bool
    ensures { IsTrue result → a.now ≡ b.now }
{
    match (a.node(), b.node()) {
        (Node::Argument(j), Node::Argument(k)) => *j == *k,
        _ => false,
    }
}

/// A body asks whether a map has a key, both of them arguments.
#[inline(always)]
fn asks(condition: &Body, map: &Body, key: &Body) -> bool
    ensures { IsTrue result → condition.now ≡ Two Binary.Contains map.now key.now }
{
    match condition.node() {
        Node::Two(Binary::Contains, asked, at) => are_one(asked, map) && are_one(at, key),
        _ => false,
    }
}

/// What a map has at a key, where a choice asks for the key and then takes what is there. One search tells both.
#[inline(always)]
fn taken<'a, R: Reader>(
    condition: &Body,
    first: &Body,
    registers: &[Register],
    args: &[EqId],
    reader: &'a R,
) -> Option<Option<&'a Scalar>>
    requires { IsTypedAt (R.cells reader.now) registers.now args.now first.now }
    ensures there { IfSome result (λ found. apply condition.now (arguments (R.cells reader.now) registers.now args.now)
        ≡ Ok (Some (Plain (Scalar.Bool (is_some found))))) }
    ensures value { IfSome result (λ found. IfSome found (λ s. apply first.now (arguments (R.cells reader.now) registers.now args.now)
        ≡ Ok (Some (Plain s.now)))) }
{
    let Node::Two(Binary::Get, map, key) = first.node() else {
        return None;
    };
    if asks(condition, map, key) {
        look_up(map, key, registers, args, reader)
    } else {
        None
    }
}

/// The same, where a map has an Int there.
#[inline(always)]
fn number_taken<R: Reader>(
    condition: &Body,
    first: &Body,
    registers: &[Register],
    args: &[EqId],
    reader: &R,
) -> Option<Option<i64>>
    requires { IsTypedAt (R.cells reader.now) registers.now args.now first.now }
    ensures there { IfSome result (λ found. apply condition.now (arguments (R.cells reader.now) registers.now args.now)
        ≡ Ok (Some (Plain (Scalar.Bool (is_some found))))) }
    ensures value { IfSome result (λ found. IfSome found (λ n. apply first.now (arguments (R.cells reader.now) registers.now args.now)
        ≡ Ok (Some (Plain (Scalar.Int n))))) }
{
    match taken(condition, first, registers, args, reader) {
        Some(Some(found)) => Some(Some(number_in(found)?)),
        Some(None) => Some(None),
        None => None,
    }
}

/// The number of elements of an aggregate.
fn size<R: Reader>(
    aggregate: &Body,
    registers: &[Register],
    args: &[EqId],
    reader: &R,
) -> Option<i64>
    requires { IsTypedAt (R.cells reader.now) registers.now args.now aggregate.now }
    ensures { IfSome result (λ n. apply (One Unary.Size aggregate.now) (arguments (R.cells reader.now) registers.now args.now)
        ≡ Ok (Some (Plain (Scalar.Int n)))) }
{
    match named(aggregate, registers, args)? {
        Register::Aggregate(cell) => int_of(reader.size(*cell)).ok(),
        _ => None,
    }
}

/// What an operation makes of two Ints, where that is an Int.
#[inline(always)]
fn calculated(o: Binary, a: i64, b: i64) -> Option<i64>
    ensures { IfSome result (λ n. of_two o (Ok (Some (Plain (Scalar.Int a)))) (Ok (Some (Plain (Scalar.Int b))))
        ≡ Ok (Some (Plain (Scalar.Int n)))) }
{
    match o {
        Binary::Add => a.checked_add(b),
        Binary::Sub => a.checked_sub(b),
        Binary::Mul => a.checked_mul(b),
        Binary::Div => quotient(a, b).ok(),
        Binary::Rem => rest(a, b).ok(),
        _ => None,
    }
}

/// What an operation finds of two Ints, where that is a Bool.
#[inline(always)]
fn compared(o: Binary, a: i64, b: i64) -> Option<bool>
    ensures { IfSome result (λ t. of_two o (Ok (Some (Plain (Scalar.Int a)))) (Ok (Some (Plain (Scalar.Int b))))
        ≡ Ok (Some (Plain (Scalar.Bool t)))) }
{
    match o {
        Binary::Eq => Some(a == b),
        Binary::Ne => Some(a != b),
        Binary::Lt => Some(a < b),
        Binary::Le => Some(a <= b),
        Binary::Gt => Some(a > b),
        Binary::Ge => Some(a >= b),
        _ => None,
    }
}

/// Whether two scalars are equal, or different, where a body asks that.
fn equality(o: Binary, a: &Body, b: &Body, registers: &[Register], args: &[EqId]) -> Option<bool>
    ensures { IfSome result (λ t. (cells : Cells)
        → apply (Two o a.now b.now) (arguments cells registers.now args.now) ≡ Ok (Some (Plain (Scalar.Bool t)))) }
{
    match o {
        Binary::Eq => {
            let a = scalar(a, registers, args)?;
            let b = scalar(b, registers, args)?;
            Some(is_same(a, b))
        }
        Binary::Ne => {
            let a = scalar(a, registers, args)?;
            let b = scalar(b, registers, args)?;
            Some(!is_same(a, b))
        }
        _ => None,
    }
}

/// The Int that a body's value is, where it is at hand.
#[cycle(quick)]
#[inline(always)]
pub fn number<R: Reader>(
    body: &Body,
    registers: &[Register],
    args: &[EqId],
    reader: &R,
) -> Option<i64>
    requires { IsTypedAt (R.cells reader.now) registers.now args.now body.now }
    ensures { IfSome result (λ n. apply body.now (arguments (R.cells reader.now) registers.now args.now)
        ≡ Ok (Some (Plain (Scalar.Int n)))) }
{
    match scalar(body, registers, args) {
        Some(scalar) => number_in(scalar),
        None => number_of(body, registers, args, reader),
    }
}

/// The Int that is the value of a body with operands.
#[cycle(quick)]
#[inline(never)]
fn number_of<R: Reader>(
    body: &Body,
    registers: &[Register],
    args: &[EqId],
    reader: &R,
) -> Option<i64>
    requires { IsTypedAt (R.cells reader.now) registers.now args.now body.now }
    ensures { IfSome result (λ n. apply body.now (arguments (R.cells reader.now) registers.now args.now)
        ≡ Ok (Some (Plain (Scalar.Int n)))) }
{
    match body.node() {
        Node::Two(Binary::Get, map, key) => number_in(found(map, key, registers, args, reader)?),
        Node::Two(o, a, b) => {
            let a = number(a, registers, args, reader)?;
            let b = number(b, registers, args, reader)?;
            calculated(*o, a, b)
        }
        Node::Choice(_, _, _) => number_chosen(body, registers, args, reader),
        Node::One(Unary::Size, aggregate) => size(aggregate, registers, args, reader),
        _ => None,
    }
}

/// The Int of a choice's first body, where the choice asks for the key of a map that the body's first operand takes.
#[cycle(quick)]
#[inline(always)]
fn number_before<R: Reader>(
    first: &Body,
    condition: &Body,
    registers: &[Register],
    args: &[EqId],
    reader: &R,
) -> Option<Option<i64>>
    requires { IsTypedAt (R.cells reader.now) registers.now args.now first.now }
    ensures there { IfSome result (λ found. apply condition.now (arguments (R.cells reader.now) registers.now args.now)
        ≡ Ok (Some (Plain (Scalar.Bool (is_some found))))) }
    ensures value { IfSome result (λ found. IfSome found (λ n. apply first.now (arguments (R.cells reader.now) registers.now args.now)
        ≡ Ok (Some (Plain (Scalar.Int n))))) }
{
    match first.node() {
        Node::Two(o, a, b) => match number_taken(condition, a, registers, args, reader) {
            Some(Some(a)) => {
                let b = number(b, registers, args, reader)?;
                Some(Some(calculated(*o, a, b)?))
            }
            Some(None) => Some(None),
            None => None,
        },
        _ => None,
    }
}

/// The Int of a choice's first body, where the choice asks for the key of a map that this body or an operand of it takes. Within, `None`
/// says that the key is not there.
#[cycle(quick)]
#[inline(always)]
fn number_first<R: Reader>(
    first: &Body,
    condition: &Body,
    registers: &[Register],
    args: &[EqId],
    reader: &R,
) -> Option<Option<i64>>
    requires { IsTypedAt (R.cells reader.now) registers.now args.now first.now }
    ensures there { IfSome result (λ found. apply condition.now (arguments (R.cells reader.now) registers.now args.now)
        ≡ Ok (Some (Plain (Scalar.Bool (is_some found))))) }
    ensures value { IfSome result (λ found. IfSome found (λ n. apply first.now (arguments (R.cells reader.now) registers.now args.now)
        ≡ Ok (Some (Plain (Scalar.Int n))))) }
{
    match first.node() {
        Node::Two(Binary::Get, _, _) => number_taken(condition, first, registers, args, reader),
        Node::Two(o, a, b) => match number_taken(condition, b, registers, args, reader) {
            Some(Some(b)) => {
                let a = number(a, registers, args, reader)?;
                Some(Some(calculated(*o, a, b)?))
            }
            Some(None) => Some(None),
            None => number_before(first, condition, registers, args, reader),
        },
        _ => None,
    }
}

/// The Int that is the value of a choice.
#[cycle(quick)]
#[inline(always)]
fn number_chosen<R: Reader>(
    body: &Body,
    registers: &[Register],
    args: &[EqId],
    reader: &R,
) -> Option<i64>
    requires { IsTypedAt (R.cells reader.now) registers.now args.now body.now }
    ensures { IfSome result (λ n. apply body.now (arguments (R.cells reader.now) registers.now args.now)
        ≡ Ok (Some (Plain (Scalar.Int n)))) }
{
    let Node::Choice(c, a, b) = body.node() else {
        return None;
    };
    match number_first(a, c, registers, args, reader) {
        Some(Some(number)) => Some(number),
        Some(None) => number(b, registers, args, reader),
        None => {
            if truth(c, registers, args, reader)? {
                number(a, registers, args, reader)
            } else {
                number(b, registers, args, reader)
            }
        }
    }
}

/// The Bool that a body's value is, where it is at hand.
#[cycle(quick)]
#[inline(always)]
pub fn truth<R: Reader>(
    body: &Body,
    registers: &[Register],
    args: &[EqId],
    reader: &R,
) -> Option<bool>
    requires { IsTypedAt (R.cells reader.now) registers.now args.now body.now }
    ensures { IfSome result (λ b. apply body.now (arguments (R.cells reader.now) registers.now args.now)
        ≡ Ok (Some (Plain (Scalar.Bool b)))) }
{
    match scalar(body, registers, args) {
        Some(scalar) => truth_in(scalar),
        None => truth_of(body, registers, args, reader),
    }
}

/// The Bool that is the value of a body with operands.
#[cycle(quick)]
#[inline(never)]
fn truth_of<R: Reader>(
    body: &Body,
    registers: &[Register],
    args: &[EqId],
    reader: &R,
) -> Option<bool>
    requires { IsTypedAt (R.cells reader.now) registers.now args.now body.now }
    ensures { IfSome result (λ b. apply body.now (arguments (R.cells reader.now) registers.now args.now)
        ≡ Ok (Some (Plain (Scalar.Bool b)))) }
{
    match body.node() {
        Node::Two(Binary::Contains, aggregate, key) => {
            is_there(aggregate, key, registers, args, reader)
        }
        Node::Two(Binary::Get, map, key) => truth_in(found(map, key, registers, args, reader)?),
        Node::Two(Binary::And, a, b) => {
            if truth(a, registers, args, reader)? {
                truth(b, registers, args, reader)
            } else {
                Some(false)
            }
        }
        Node::Two(Binary::Or, a, b) => {
            if truth(a, registers, args, reader)? {
                Some(true)
            } else {
                truth(b, registers, args, reader)
            }
        }
        Node::Two(o, a, b) => {
            if let Some(truth) = equality(*o, a, b, registers, args) {
                return Some(truth);
            }
            let a = number(a, registers, args, reader)?;
            let b = number(b, registers, args, reader)?;
            compared(*o, a, b)
        }
        Node::Choice(c, a, b) => {
            if truth(c, registers, args, reader)? {
                truth(a, registers, args, reader)
            } else {
                truth(b, registers, args, reader)
            }
        }
        Node::One(Unary::Not, a) => Some(!truth(a, registers, args, reader)?),
        _ => None,
    }
}

/// The value of a choice that does not just take what it asks for.
#[cycle(choice)]
#[inline(always)]
fn one_of<R: Reader>(
    body: &Body,
    registers: &[Register],
    args: &[EqId],
    reader: &R,
) -> Option<Scalar>
    requires { IsTypedAt (R.cells reader.now) registers.now args.now body.now }
    ensures { IfSome result (λ s. apply body.now (arguments (R.cells reader.now) registers.now args.now) ≡ Ok (Some (Plain s))) }
{
    let Node::Choice(c, a, b) = body.node() else {
        return None;
    };
    match number_first(a, c, registers, args, reader) {
        Some(Some(number)) => Some(Scalar::Int(number)),
        Some(None) => at_hand(b, registers, args, reader),
        None => {
            if truth(c, registers, args, reader)? {
                at_hand(a, registers, args, reader)
            } else {
                at_hand(b, registers, args, reader)
            }
        }
    }
}

/// The value of a choice, where it is no text and at hand.
#[cycle(choice)]
#[inline(never)]
fn chosen<R: Reader>(
    body: &Body,
    registers: &[Register],
    args: &[EqId],
    reader: &R,
) -> Option<Scalar>
    requires { IsTypedAt (R.cells reader.now) registers.now args.now body.now }
    ensures { IfSome result (λ s. apply body.now (arguments (R.cells reader.now) registers.now args.now) ≡ Ok (Some (Plain s))) }
{
    let Node::Choice(c, a, b) = body.node() else {
        return None;
    };
    match taken(c, a, registers, args, reader) {
        Some(Some(found)) => without_memory(found),
        Some(None) => at_hand(b, registers, args, reader),
        None => one_of(body, registers, args, reader),
    }
}

/// The value of a body, where it is no text and at hand.
#[cycle(choice)]
#[inline(always)]
pub(crate) fn at_hand<R: Reader>(
    body: &Body,
    registers: &[Register],
    args: &[EqId],
    reader: &R,
) -> Option<Scalar>
    requires { IsTypedAt (R.cells reader.now) registers.now args.now body.now }
    ensures { IfSome result (λ s. apply body.now (arguments (R.cells reader.now) registers.now args.now) ≡ Ok (Some (Plain s))) }
{
    match body.node() {
        Node::Two(Binary::Get, map, key) => without_memory(found(
            map, key, registers, args, reader,
        )?),
        Node::Two(o, _, _) => {
            if is_arithmetic(*o) {
                Some(Scalar::Int(number_of(body, registers, args, reader)?))
            } else {
                Some(Scalar::Bool(truth_of(body, registers, args, reader)?))
            }
        }
        Node::Choice(_, _, _) => chosen(body, registers, args, reader),
        Node::One(Unary::Size, _) => Some(Scalar::Int(number_of(body, registers, args, reader)?)),
        Node::One(Unary::Not, _) => Some(Scalar::Bool(truth_of(body, registers, args, reader)?)),
        Node::One(_, _) => None,
        _ => without_memory(scalar(body, registers, args)?),
    }
}
