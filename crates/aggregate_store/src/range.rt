// What each scalar has by its type.

ghost use Rattle.aggregate_store.specs.Content.{IsInRange};

use tsl_value::scalar::Scalar;

/// Asserts that an Int has 64 bits and a text is in UTF-8, as each is. Nothing is done. A caller whose proof needs this of a scalar says so
/// here.
pub fn assert_in_range(scalar: &Scalar)
    ensures { IsInRange scalar.now }
{
    match scalar {
        Scalar::Unit => {}
        Scalar::Int(n) => {
            let _n = *n;
        }
        Scalar::Bool(_) => {}
        Scalar::Text(text) => {
            let _text = text.as_str();
        }
    }
}
