// The text of values and of types.

ghost use Rattle.std.specs.Prelude.{◌≡◌, ◌++◌, length, take, OnOk, OnErr};
ghost use Rattle.std.specs.Fmt.{decimal, signed_decimal};
ghost use Rattle.std.specs.List.{flat_map};
ghost use Rattle.tsl_value.specs.Print.{escaped, key_type_text, quoted_text, scalar_text, scalar_type_text, type_text};

use crate::bytes::Bytes;
use crate::memory::NoMemory;
use crate::scalar::{KeyType, Scalar, ScalarType, ValueType};

/// Appends a number in decimal.
pub fn print_number(number: u64, out: &mut Bytes) -> Result<(), NoMemory>
    ensures ok { OnOk result (out.new ≡ out.old ++ decimal number) }
    ensures err { OnErr result (out.new ≡ out.old) }
{
    let digits = number.to_string(out.allocator())?;
    out.append(digits.as_bytes())
}

/// Appends the text of a scalar, as it stands in an output line and in a printed program.
pub fn print_scalar(value: &Scalar, out: &mut Bytes) -> Result<(), NoMemory>
    ensures ok { OnOk result (out.new ≡ out.old ++ scalar_text value.now) }
    ensures err { OnErr result (out.new ≡ out.old) }
{
    match value {
        Scalar::Unit => out.append(b"()"),
        Scalar::Int(number) => print_int(*number, out),
        Scalar::Bool(true) => out.append(b"true"),
        Scalar::Bool(false) => out.append(b"false"),
        Scalar::Text(text) => print_text(text.as_str().as_bytes(), out),
    }
}

fn print_int(number: i64, out: &mut Bytes) -> Result<(), NoMemory>
    ensures ok { OnOk result (out.new ≡ out.old ++ signed_decimal number) }
    ensures err { OnErr result (out.new ≡ out.old) }
{
    let digits = number.to_string(out.allocator())?;
    out.append(digits.as_bytes())
}

/// Appends a text between quotes, or leaves `out` as it was.
fn print_text(text: &[u8], out: &mut Bytes) -> Result<(), NoMemory>
    ensures ok { OnOk result (out.new ≡ out.old ++ quoted_text text.now) }
    ensures err { OnErr result (out.new ≡ out.old) }
{
    let before = out.len();
    match append_quoted(text, out) {
        Ok(()) => Ok(()),
        Err(none) => {
            out.truncate(before);
            Err(none)
        }
    }
}

fn append_quoted(text: &[u8], out: &mut Bytes) -> Result<(), NoMemory>
    ensures ok { OnOk result (out.new ≡ out.old ++ quoted_text text.now) }
    ensures err { OnErr result (take (length out.old) out.new ≡ out.old) }
{
    out.push(b'"')?;
    append_escaped(text, out)?;
    out.push(b'"')
}

fn append_escaped(text: &[u8], out: &mut Bytes) -> Result<(), NoMemory>
    ensures ok { OnOk result (out.new ≡ out.old ++ flat_map escaped text.now) }
    ensures err { OnErr result (take (length out.old) out.new ≡ out.old) }
{
    for byte in text {
        append_byte(*byte, out)?;
    }
    Ok(())
}

/// Appends a byte of a text, with its escape where it has one.
fn append_byte(byte: u8, out: &mut Bytes) -> Result<(), NoMemory>
    ensures ok { OnOk result (out.new ≡ out.old ++ escaped byte) }
    ensures err { OnErr result (out.new ≡ out.old) }
{
    match byte {
        b'"' => out.append(b"\\\""),
        b'\\' => out.append(b"\\\\"),
        b'\n' => out.append(b"\\n"),
        b'\t' => out.append(b"\\t"),
        b'\r' => out.append(b"\\r"),
        _ => out.push(byte),
    }
}

/// Appends a type as it is written in a specification, or leaves `out` as it was.
pub fn print_type(of: ValueType, out: &mut Bytes) -> Result<(), NoMemory>
    ensures ok { OnOk result (out.new ≡ out.old ++ type_text of) }
    ensures err { OnErr result (out.new ≡ out.old) }
{
    let before = out.len();
    match append_type(of, out) {
        Ok(()) => Ok(()),
        Err(none) => {
            out.truncate(before);
            Err(none)
        }
    }
}

fn append_type(of: ValueType, out: &mut Bytes) -> Result<(), NoMemory>
    ensures ok { OnOk result (out.new ≡ out.old ++ type_text of) }
    ensures err { OnErr result (take (length out.old) out.new ≡ out.old) }
{
    match of {
        ValueType::Scalar(scalar) => out.append(scalar_name(scalar)),
        ValueType::Set(key) => {
            out.append(b"Set[")?;
            out.append(key_name(key))?;
            out.append(b"]")
        }
        ValueType::Map(key, value) => {
            out.append(b"Map[")?;
            out.append(key_name(key))?;
            out.append(b", ")?;
            out.append(scalar_name(value))?;
            out.append(b"]")
        }
        ValueType::Queue(element) => {
            out.append(b"Queue[")?;
            out.append(scalar_name(element))?;
            out.append(b"]")
        }
    }
}

fn scalar_name(of: ScalarType) -> &'static [u8]
    ensures { result.now ≡ scalar_type_text of }
{
    match of {
        ScalarType::Unit => b"Unit",
        ScalarType::Int => b"Int",
        ScalarType::Bool => b"Bool",
        ScalarType::Text => b"String",
    }
}

fn key_name(of: KeyType) -> &'static [u8]
    ensures { result.now ≡ key_type_text of }
{
    match of {
        KeyType::Int => b"Int",
        KeyType::Bool => b"Bool",
        KeyType::Text => b"String",
    }
}
