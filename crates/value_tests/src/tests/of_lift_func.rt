// Values and faults of a body without arguments.

ghost use Rattle.std.specs.Prelude.{◌≡◌};
ghost use Rattle.lift_func.specs.BodyTree.{Literal};

use body_eval::eval::{EvalFault, eval_scalars};
use lift_func::body::Body;
use lift_func::fault::FaultKind;
use std::alloc::Global;
use tsl_value::operation::{Binary, Unary};
use tsl_value::scalar::Scalar;

fn int(n: i64) -> Body
    ensures { result ≡ Literal (Scalar.Int n) }
{
    Body::literal(Scalar::Int(n))
}

/// `-(12 / divisor)`.
fn quotient_by(alloc: Global, divisor: i64) -> Result<i64, EvalFault> {
    let quotient = Body::two(alloc, Binary::Div, int(12), int(divisor))?;
    let body = Body::one(alloc, Unary::Neg, quotient)?;
    match eval_scalars(alloc, &body, &[])? {
        Some(Scalar::Int(number)) => Ok(number),
        _ => Ok(0),
    }
}

#[test]
fn quotients_are_evaluated(rt: HostRuntime) {
    assert_eq!(rt; quotient_by(rt.alloc(), 5), Ok(-2));
    let fault = EvalFault::Fault(FaultKind::DivideByZero);
    assert_eq!(rt; quotient_by(rt.alloc(), 0), Err(fault));
}
