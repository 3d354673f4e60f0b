// The text of a value.

ghost use Rattle.std.specs.Prelude.{◌≡◌, ◌++◌, OnOk, OnErr};
ghost use Rattle.tsl_value.specs.Print.{view_text};

use crate::value::{Held, Value};
use aggregate_store::print::print_cell;
use tsl_value::bytes::Bytes;
use tsl_value::memory::NoMemory;
use tsl_value::print::print_scalar;

/// Appends the text of a value as it stands in an output line, or leaves `out` as it was.
pub fn print_value(value: &Value, out: &mut Bytes) -> Result<(), NoMemory>
    ensures ok { OnOk result (out.new ≡ out.old ++ view_text value.now) }
    ensures err { OnErr result (out.new ≡ out.old) }
{
    match value.held() {
        Held::Scalar(scalar) => print_scalar(scalar, out),
        Held::Aggregate(cell) => print_cell(cell, out),
    }
}
