// Integers of 63 bits and a sign, which most are.

ghost use Rattle.std.specs.Prelude.{◌≡◌, Ok, pos, IfSome, IsTrue};
ghost use Rattle.std.specs.Str.Parse.{digits_value};
ghost use Rattle.tsl_value.specs.Literal.{are_digits, int_literal};

use crate::form::{are_digits, number_of};
use tsl_value::scalar::Scalar;

/// The number that digits spell, with a minus or nothing before them. `None` says nothing of them.
pub(crate) fn small_int(bytes: &[u8]) -> Option<Scalar>
    ensures { IfSome result (λ v. int_literal bytes.now ≡ Ok v) }
{
    match bytes {
        [b'-', digits @ ..] => Some(Scalar::Int(-small_number(digits)?)),
        _ => Some(Scalar::Int(small_number(bytes)?)),
    }
}

/// The number that digits spell. `None` says nothing of them.
fn small_number(bytes: &[u8]) -> Option<i64>
    ensures digits { IfSome result (λ _. IsTrue (are_digits bytes.now)) }
    ensures number { IfSome result (λ n. n ≡ pos (digits_value 10 bytes.now)) }
{
    if !are_digits(bytes) {
        return None;
    }
    let number = number_of(bytes)?;
    if number < 1 << 63 {
        Some(number as i64)
    } else {
        None
    }
}
