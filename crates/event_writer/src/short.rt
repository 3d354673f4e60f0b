// The lines of scalars that are no texts, under short names. Each is made on the stack, from its end to its front, and appended at once.

ghost use Rattle.std.specs.Prelude.{◌≡◌, ◌≤◌, ◌+◌, ◌++◌, ◌∷◌, [], codes, drop, length, true, OnOk, OnErr};
ghost use Rattle.std.specs.Fmt.{decimal, signed_decimal};
ghost use Rattle.tsl_value.specs.Print.{scalar_text};
ghost use Rattle.event_writer.specs.inner.Short.{is_no_text, is_short};

use itoa::write_digits;
use tsl_value::bytes::Bytes;
use tsl_value::memory::NoMemory;
use tsl_value::scalar::Scalar;
use tsl_value::time::Time;

/// The most bytes of a name that is short.
const MAX_NAME: usize = 40;

/// A time of 19 bytes, `: `, a name, ` = `, a number of 20 bytes and the line's end.
const ROOM: usize = 85;

/// Whether a line is made on the stack.
pub(crate) fn is_short(name: &[u8], value: &Scalar) -> bool
    ensures { result ≡ is_short name.now value.now }
{
    name.len() <= MAX_NAME && is_no_text(value)
}

fn is_no_text(value: &Scalar) -> bool
    ensures { result ≡ is_no_text value.now }
{
    match value {
        Scalar::Text(_) => false,
        _ => true,
    }
}

/// Appends the line of an event, or leaves `out` as it was.
pub(crate) fn append_short(
    time: Time,
    name: &[u8],
    value: &Scalar,
    out: &mut Bytes,
) -> Result<(), NoMemory>
    requires { is_short name.now value.now ≡ true }
    ensures ok { OnOk result (out.new ≡ out.old
        ++ (decimal time ++ (codes ": " ++ (name.now ++ (codes " = " ++ (scalar_text value.now ++ 10 ∷ [])))))) }
    ensures err { OnErr result (out.new ≡ out.old) }
{
    let mut text = [b'\n'; ROOM];
    let value = write_scalar(value, &mut text, ROOM - 1);
    let equals = write_before(b" = ", &mut text, value);
    let from_name = write_before(name, &mut text, equals);
    let colon = write_before(b": ", &mut text, from_name);
    let start = write_digits(time.get(), &mut text, colon);
    out.append(&text[start..])
}

/// Writes a scalar so that it ends at a place, and answers where it starts.
fn write_scalar(value: &Scalar, text: &mut [u8], end: usize) -> usize
    requires no_text { is_no_text value.now ≡ true }
    requires room { 20 ≤ end }
    requires within { end ≤ length text.old }
    ensures short { end ≤ result + 20 }
    ensures before { result ≤ end }
    ensures written { drop result text.new ≡ scalar_text value.now ++ drop end text.old }
{
    match value {
        Scalar::Int(number) => write_int(*number, text, end),
        Scalar::Bool(true) => write_before(b"true", text, end),
        Scalar::Bool(false) => write_before(b"false", text, end),
        Scalar::Unit => write_before(b"()", text, end),
        Scalar::Text(_) => unreachable!(),
    }
}

/// Writes bytes so that they end at a place, and answers where they start.
fn write_before(bytes: &[u8], text: &mut [u8], end: usize) -> usize
    requires room { length bytes.now ≤ end }
    requires within { end ≤ length text.old }
    ensures start { result + length bytes.now ≡ end }
    ensures written { drop result text.new ≡ bytes.now ++ drop end text.old }
{
    let start = end - bytes.len();
    text[start..end].copy_from_slice(bytes);
    start
}

/// Writes a number so that it ends at a place, and answers where it starts.
fn write_int(number: i64, text: &mut [u8], end: usize) -> usize
    requires room { 20 ≤ end }
    requires within { end ≤ length text.old }
    ensures short { end ≤ result + 20 }
    ensures before { result ≤ end }
    ensures written { drop result text.new ≡ signed_decimal number ++ drop end text.old }
{
    let start = write_digits(number.unsigned_abs(), text, end);
    if number >= 0 {
        return start;
    }
    text[start - 1] = b'-';
    start - 1
}
