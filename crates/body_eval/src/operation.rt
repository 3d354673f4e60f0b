// The operations at scalars.
//
// An operand that is absent or of another type, which no well typed body has, makes the value absent.

ghost use Rattle.std.specs.Prelude.{◌≡◌, ◌++◌, not, ◌+ℤ◌, ◌-ℤ◌, ◌*ℤ◌, int_div, int_lt, int_le, MatchOption, IfOk};
ghost use Rattle.std.specs.Option.{option_map};
ghost use Rattle.std.specs.Ordering.{is_eq};
ghost use Rattle.tsl_value.specs.View.{Plain, scalar_cmp};
ghost use Rattle.lift_func.specs.Apply.{int, bool, text, apply, divided, remainder, on_ints, on_scalars, on_texts, of_one, of_two};
ghost use Rattle.tsl_value.specs.declared.operation.Unary.TheVariants as unary;
ghost use Rattle.body_eval.specs.inner.Answered.{Decides, IsAnswer, IsInt, IsValue, NeedsSecond};
ghost use Rattle.body_eval.specs.inner.Textless.{IsAnswered, IsText};

use crate::eval::EvalFault;
use lift_func::fault::FaultKind;
use std::alloc::Global;
use tsl_value::limits::MOST_TEXT_BYTES;
use tsl_value::memory::NoMemory;
use tsl_value::operation::{Binary, Unary};
use tsl_value::scalar::Scalar;
use tsl_value::text::Text;

fn negated(a: &Option<Scalar>) -> Result<Option<Scalar>, FaultKind>
    ensures { IsAnswer result (of_one unary.Neg (option_map Plain a.now)) }
{
    match a {
        Some(Scalar::Int(a)) => match a.checked_neg() {
            Some(n) => Ok(Some(Scalar::Int(n))),
            None => Err(FaultKind::Overflow),
        },
        _ => Ok(None),
    }
}

fn inverted(a: &Option<Scalar>) -> Option<Scalar>
    ensures { of_one unary.Not (option_map Plain a.now) ≡ Ok (option_map Plain result) }
{
    match a {
        Some(Scalar::Bool(a)) => Some(Scalar::Bool(!*a)),
        _ => None,
    }
}

/// The number of bytes.
fn length_of(a: &Option<Scalar>) -> Option<Scalar>
    ensures { of_one unary.Length (option_map Plain a.now) ≡ Ok (option_map Plain result) }
{
    match a {
        Some(Scalar::Text(a)) => Some(Scalar::Int(a.as_str().len() as i64)),
        _ => None,
    }
}

/// The value of an operation of one operand, or its fault.
pub(crate) fn apply_unary(o: Unary, a: Option<Scalar>) -> Result<Option<Scalar>, FaultKind>
    ensures { IsAnswer result (of_one o (option_map Plain a)) }
{
    match o {
        Unary::Neg => negated(&a),
        Unary::Not => Ok(inverted(&a)),
        Unary::Size => Ok(None),
        Unary::Front => Ok(None),
        Unary::Length => Ok(length_of(&a)),
        Unary::Some => Ok(a),
        Unary::IsSome => Ok(Some(Scalar::Bool(a.is_some()))),
        Unary::IsNone => Ok(Some(Scalar::Bool(a.is_none()))),
        Unary::GetSome => match a {
            Some(a) => Ok(Some(a)),
            None => Err(FaultKind::NoValue),
        },
    }
}

fn added(a: &Option<Scalar>, b: &Option<Scalar>) -> Result<Option<Scalar>, FaultKind>
    ensures { IsAnswer result (on_ints (λ x y. int (x +ℤ y)) (option_map Plain a.now) (option_map Plain b.now)) }
{
    match (a, b) {
        (Some(Scalar::Int(a)), Some(Scalar::Int(b))) => match a.checked_add(*b) {
            Some(n) => Ok(Some(Scalar::Int(n))),
            None => Err(FaultKind::Overflow),
        },
        _ => Ok(None),
    }
}

fn subtracted(a: &Option<Scalar>, b: &Option<Scalar>) -> Result<Option<Scalar>, FaultKind>
    ensures { IsAnswer result (on_ints (λ x y. int (x -ℤ y)) (option_map Plain a.now) (option_map Plain b.now)) }
{
    match (a, b) {
        (Some(Scalar::Int(a)), Some(Scalar::Int(b))) => match a.checked_sub(*b) {
            Some(n) => Ok(Some(Scalar::Int(n))),
            None => Err(FaultKind::Overflow),
        },
        _ => Ok(None),
    }
}

fn multiplied(a: &Option<Scalar>, b: &Option<Scalar>) -> Result<Option<Scalar>, FaultKind>
    ensures { IsAnswer result (on_ints (λ x y. int (x *ℤ y)) (option_map Plain a.now) (option_map Plain b.now)) }
{
    match (a, b) {
        (Some(Scalar::Int(a)), Some(Scalar::Int(b))) => match a.checked_mul(*b) {
            Some(n) => Ok(Some(Scalar::Int(n))),
            None => Err(FaultKind::Overflow),
        },
        _ => Ok(None),
    }
}

/// The quotient of two Ints, or why there is none.
pub(crate) fn quotient(a: i64, b: i64) -> Result<i64, FaultKind>
    ensures { IsInt result (divided b (int (int_div a b))) }
{
    if b == 0 {
        return Err(FaultKind::DivideByZero);
    }
    match a.checked_div(b) {
        Some(n) => Ok(n),
        None => Err(FaultKind::Overflow),
    }
}

/// The remainder of two Ints, or why there is none.
pub(crate) fn rest(a: i64, b: i64) -> Result<i64, FaultKind>
    ensures { IsInt result (divided b (remainder a b)) }
{
    if b == 0 {
        return Err(FaultKind::DivideByZero);
    }
    match a.checked_rem(b) {
        Some(n) => Ok(n),
        None => Err(FaultKind::Overflow),
    }
}

fn divided_by(a: &Option<Scalar>, b: &Option<Scalar>) -> Result<Option<Scalar>, FaultKind>
    ensures { IsAnswer result (on_ints (λ x y. divided y (int (int_div x y))) (option_map Plain a.now) (option_map Plain b.now)) }
{
    match (a, b) {
        (Some(Scalar::Int(a)), Some(Scalar::Int(b))) => match quotient(*a, *b) {
            Ok(n) => Ok(Some(Scalar::Int(n))),
            Err(kind) => Err(kind),
        },
        _ => Ok(None),
    }
}

fn rest_of(a: &Option<Scalar>, b: &Option<Scalar>) -> Result<Option<Scalar>, FaultKind>
    ensures { IsAnswer result (on_ints (λ x y. divided y (remainder x y)) (option_map Plain a.now) (option_map Plain b.now)) }
{
    match (a, b) {
        (Some(Scalar::Int(a)), Some(Scalar::Int(b))) => match rest(*a, *b) {
            Ok(n) => Ok(Some(Scalar::Int(n))),
            Err(kind) => Err(kind),
        },
        _ => Ok(None),
    }
}

fn is_less(a: &Option<Scalar>, b: &Option<Scalar>) -> Option<Scalar>
    ensures { on_ints (λ x y. bool (int_lt x y)) (option_map Plain a.now) (option_map Plain b.now) ≡ Ok (option_map Plain result) }
{
    match (a, b) {
        (Some(Scalar::Int(a)), Some(Scalar::Int(b))) => Some(Scalar::Bool(*a < *b)),
        _ => None,
    }
}

fn is_at_most(a: &Option<Scalar>, b: &Option<Scalar>) -> Option<Scalar>
    ensures { on_ints (λ x y. bool (int_le x y)) (option_map Plain a.now) (option_map Plain b.now) ≡ Ok (option_map Plain result) }
{
    match (a, b) {
        (Some(Scalar::Int(a)), Some(Scalar::Int(b))) => Some(Scalar::Bool(*a <= *b)),
        _ => None,
    }
}

fn is_greater(a: &Option<Scalar>, b: &Option<Scalar>) -> Option<Scalar>
    ensures { on_ints (λ x y. bool (int_lt y x)) (option_map Plain a.now) (option_map Plain b.now) ≡ Ok (option_map Plain result) }
{
    match (a, b) {
        (Some(Scalar::Int(a)), Some(Scalar::Int(b))) => Some(Scalar::Bool(*a > *b)),
        _ => None,
    }
}

fn is_at_least(a: &Option<Scalar>, b: &Option<Scalar>) -> Option<Scalar>
    ensures { on_ints (λ x y. bool (int_le y x)) (option_map Plain a.now) (option_map Plain b.now) ≡ Ok (option_map Plain result) }
{
    match (a, b) {
        (Some(Scalar::Int(a)), Some(Scalar::Int(b))) => Some(Scalar::Bool(*a >= *b)),
        _ => None,
    }
}

/// Whether two scalars are equal.
#[tactic(auto, using(crate::proofs::Same::same_texts))]
pub(crate) fn is_same(a: &Scalar, b: &Scalar) -> bool
    ensures { result ≡ is_eq (scalar_cmp a.now b.now) }
{
    match (a, b) {
        (Scalar::Unit, Scalar::Unit) => true,
        (Scalar::Int(a), Scalar::Int(b)) => *a == *b,
        (Scalar::Bool(a), Scalar::Bool(b)) => *a == *b,
        (Scalar::Text(a), Scalar::Text(b)) => a.as_str() == b.as_str(),
        _ => false,
    }
}

fn is_equal(a: &Option<Scalar>, b: &Option<Scalar>) -> Option<Scalar>
    ensures { on_scalars (λ x y. bool (is_eq (scalar_cmp x y))) (option_map Plain a.now) (option_map Plain b.now)
        ≡ Ok (option_map Plain result) }
{
    match (a, b) {
        (Some(a), Some(b)) => Some(Scalar::Bool(is_same(a, b))),
        _ => None,
    }
}

fn is_different(a: &Option<Scalar>, b: &Option<Scalar>) -> Option<Scalar>
    ensures { on_scalars (λ x y. bool (not (is_eq (scalar_cmp x y)))) (option_map Plain a.now) (option_map Plain b.now)
        ≡ Ok (option_map Plain result) }
{
    match (a, b) {
        (Some(a), Some(b)) => Some(Scalar::Bool(!is_same(a, b))),
        _ => None,
    }
}

/// One text after another.
fn concatenated(alloc: Global, a: &str, b: &str) -> Result<Text, NoMemory>
    ensures { IfOk result (λ t. t ≡ a.now ++ b.now) }
{
    let mut text = String::from_str(alloc, a)?;
    text.push_str(b)?;
    Text::from_str(alloc, text.as_str())
}

/// One text after another, or why there is none. Only two texts take memory.
fn joined(
    alloc: Global,
    a: &Option<Scalar>,
    b: &Option<Scalar>,
) -> Result<Option<Scalar>, EvalFault>
    ensures value { IsValue result (on_texts (λ x y. text (x ++ y)) (option_map Plain a.now) (option_map Plain b.now)) }
    ensures spare { (IsText (option_map Plain a.now) → ⊥) → IsAnswered result }
{
    match (a, b) {
        (Some(Scalar::Text(a)), Some(Scalar::Text(b))) => {
            let a = a.as_str();
            let b = b.as_str();
            if a.len() + b.len() > MOST_TEXT_BYTES {
                Err(EvalFault::Fault(FaultKind::TextTooLong))
            } else {
                Ok(Some(Scalar::Text(concatenated(alloc, a, b)?)))
            }
        }
        _ => Ok(None),
    }
}

/// The second value where the first is true, no fault, and `false` where it is false.
fn conjoined(a: &Option<Scalar>, b: Option<Scalar>) -> Option<Scalar>
    ensures { of_two Binary.And (Ok (option_map Plain a.now)) (Ok (option_map Plain b)) ≡ Ok (option_map Plain result) }
{
    match a {
        Some(Scalar::Bool(a)) => { if *a { b } else { Some(Scalar::Bool(false)) } }
        _ => None,
    }
}

/// `true` where the first value is true, and the second where it is false.
fn disjoined(a: &Option<Scalar>, b: Option<Scalar>) -> Option<Scalar>
    ensures { of_two Binary.Or (Ok (option_map Plain a.now)) (Ok (option_map Plain b)) ≡ Ok (option_map Plain result) }
{
    match a {
        Some(Scalar::Bool(a)) => { if *a { Some(Scalar::Bool(true)) } else { b } }
        _ => None,
    }
}

/// The value of an operation of two operands where the first alone decides it.
pub(crate) fn decided(o: Binary, a: &Option<Scalar>) -> Option<Option<Scalar>>
    ensures { MatchOption result (NeedsSecond o (option_map Plain a.now)) (λ v. Decides o (option_map Plain a.now) (option_map Plain v)) }
{
    match o {
        Binary::And => match a {
            Some(Scalar::Bool(a)) => {
                if *a {
                    None
                } else {
                    Some(Some(Scalar::Bool(false)))
                }
            }
            _ => Some(None),
        },
        Binary::Or => match a {
            Some(Scalar::Bool(a)) => {
                if *a {
                    Some(Some(Scalar::Bool(true)))
                } else {
                    None
                }
            }
            _ => Some(None),
        },
        _ => None,
    }
}

/// The value of an operation at two operands, or its fault. Only with a text it takes memory.
pub(crate) fn apply_binary(
    alloc: Global,
    o: Binary,
    a: &Option<Scalar>,
    b: Option<Scalar>,
) -> Result<Option<Scalar>, EvalFault>
    ensures value { IsValue result (of_two o (Ok (option_map Plain a.now)) (Ok (option_map Plain b))) }
    ensures spare { (IsText (option_map Plain a.now) → ⊥) → IsAnswered result }
{
    match o {
        Binary::Add => Ok(added(a, &b)?),
        Binary::Sub => Ok(subtracted(a, &b)?),
        Binary::Mul => Ok(multiplied(a, &b)?),
        Binary::Div => Ok(divided_by(a, &b)?),
        Binary::Rem => Ok(rest_of(a, &b)?),
        Binary::Eq => Ok(is_equal(a, &b)),
        Binary::Ne => Ok(is_different(a, &b)),
        Binary::Lt => Ok(is_less(a, &b)),
        Binary::Le => Ok(is_at_most(a, &b)),
        Binary::Gt => Ok(is_greater(a, &b)),
        Binary::Ge => Ok(is_at_least(a, &b)),
        Binary::And => Ok(conjoined(a, b)),
        Binary::Or => Ok(disjoined(a, b)),
        Binary::Contains => Ok(None),
        Binary::Get => Ok(None),
        Binary::Concat => joined(alloc, a, &b),
    }
}
