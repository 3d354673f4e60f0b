// The text of equations, and of a flat system.

ghost use Rattle.std.specs.Prelude.{◌≡◌, ◌<◌, [], ◌++◌, codes, if◌then◌else◌, length, take, OnOk, OnErr};
ghost use Rattle.std.specs.List.{flat_map};
ghost use Rattle.flat_core.specs.System.{runs};
ghost use Rattle.program_text.specs.Text.{args_text, after_op_text, definition_text, equation_line, text_of, flat_text, name_text};
ghost use Rattle.program_text.specs.Text.{label_text, name_or_number, number_text, op_text, output_line, running};

use crate::body::put_body;
use crate::names::op_name;
use flat_core::equation::{Equation, Op, Output};
use flat_core::flat::Flat;
use tsl_value::bytes::Bytes;
use tsl_value::ids::EqId;
use tsl_value::memory::NoMemory;
use tsl_value::print::{print_number, print_type};
use tsl_value::text::Text;

/// Appends the number of an equation, as `%8`, or leaves `out` as it was.
pub fn print_id(id: EqId, out: &mut Bytes) -> Result<(), NoMemory>
    ensures ok { OnOk result (out.new ≡ out.old ++ number_text id) }
    ensures err { OnErr result (out.new ≡ out.old) }
{
    let before = out.len();
    out.push(b'%')?;
    match print_number(u64::from(id.get()), out) {
        Ok(()) => Ok(()),
        Err(none) => {
            out.truncate(before);
            Err(none)
        }
    }
}

/// Appends a name, or the number of its equation where there is none, or leaves `out` as it was.
pub fn print_name_or_id(id: EqId, name: &Option<Text>, out: &mut Bytes) -> Result<(), NoMemory>
    ensures ok { OnOk result (out.new ≡ out.old ++ name_or_number id name.now) }
    ensures err { OnErr result (out.new ≡ out.old) }
{
    match name {
        Some(name) => out.append(name.as_str().as_bytes()),
        None => print_id(id, out),
    }
}

/// Appends what an equation is called, its name or else its number, or leaves `out` as it was.
pub fn print_label(flat: &Flat, id: EqId, out: &mut Bytes) -> Result<(), NoMemory>
    ensures ok { OnOk result (out.new ≡ out.old ++ label_text flat.now id) }
    ensures err { OnErr result (out.new ≡ out.old) }
{
    if id.get() < flat.count() {
        print_name_or_id(id, &flat.equation(id).name, out)
    } else {
        print_id(id, out)
    }
}

/// Appends a name and a blank, where there is one.
fn put_name(name: &Option<Text>, out: &mut Bytes) -> Result<(), NoMemory>
    ensures ok { OnOk result (out.new ≡ out.old ++ name_text name.now) }
    ensures err { OnErr result (take (length out.old) out.new ≡ out.old) }
{
    match name {
        Some(name) => {
            out.append(name.as_str().as_bytes())?;
            out.push(b' ')
        }
        None => Ok(()),
    }
}

/// Appends the type or the body that is written after some operations.
fn put_after_op(equation: &Equation, out: &mut Bytes) -> Result<(), NoMemory>
    ensures ok { OnOk result (out.new ≡ out.old ++ after_op_text equation.now.op equation.now.of) }
    ensures err { OnErr result (take (length out.old) out.new ≡ out.old) }
{
    match &equation.op {
        Op::Input | Op::Nil | Op::Empty => {
            out.push(b' ')?;
            print_type(equation.of, out)
        }
        Op::Lift { body, strict: _ } => {
            out.push(b' ')?;
            put_body(body, out)
        }
        _ => Ok(()),
    }
}

/// Appends the arguments, each with a blank before it.
fn put_args(args: &[EqId], out: &mut Bytes) -> Result<(), NoMemory>
    ensures ok { OnOk result (out.new ≡ out.old ++ args_text args.now) }
    ensures err { OnErr result (take (length out.old) out.new ≡ out.old) }
{
    for id in args {
        out.push(b' ')?;
        print_id(*id, out)?;
    }
    Ok(())
}

/// Appends what stands after `:=`.
fn put_operation(equation: &Equation, out: &mut Bytes) -> Result<(), NoMemory>
    ensures ok { OnOk result (out.new ≡ out.old ++ (op_text equation.now.op equation.now.of ++ args_text equation.now.args)) }
    ensures err { OnErr result (take (length out.old) out.new ≡ out.old) }
{
    out.append(op_name(&equation.op))?;
    put_after_op(equation, out)?;
    put_args(equation.args.ids(), out)
}

/// Appends what stands before `:=`.
fn put_label(id: EqId, name: &Option<Text>, out: &mut Bytes) -> Result<(), NoMemory>
    ensures ok { OnOk result (out.new ≡ out.old ++ (number_text id ++ (codes " " ++ name_text name.now))) }
    ensures err { OnErr result (take (length out.old) out.new ≡ out.old) }
{
    print_id(id, out)?;
    out.push(b' ')?;
    put_name(name, out)
}

fn put_definition(id: EqId, equation: &Equation, out: &mut Bytes) -> Result<(), NoMemory>
    ensures ok { OnOk result (out.new ≡ out.old ++ text_of id equation.now) }
    ensures err { OnErr result (take (length out.old) out.new ≡ out.old) }
{
    put_label(id, &equation.name, out)?;
    out.append(b":= ")?;
    put_operation(equation, out)
}

fn put_line(flat: &Flat, id: EqId, out: &mut Bytes) -> Result<(), NoMemory>
    requires { id < length flat.now.equations }
    ensures ok { OnOk result (out.new ≡ out.old ++ equation_line flat.now id) }
    ensures err { OnErr result (take (length out.old) out.new ≡ out.old) }
{
    put_definition(id, flat.equation(id), out)?;
    out.push(b'\n')
}

fn put_output(output: &Output, out: &mut Bytes) -> Result<(), NoMemory>
    ensures ok { OnOk result (out.new ≡ out.old ++ output_line output.now) }
    ensures err { OnErr result (take (length out.old) out.new ≡ out.old) }
{
    out.append(b"out ")?;
    out.append(output.name.as_str().as_bytes())?;
    out.push(b' ')?;
    print_id(output.equation, out)?;
    out.push(b'\n')
}

/// Appends the line of an equation, if it runs.
fn put_if_running(flat: &Flat, id: EqId, out: &mut Bytes) -> Result<(), NoMemory>
    requires { id < length flat.now.equations }
    ensures ok { OnOk result (out.new ≡ out.old ++ (if runs flat.now id then equation_line flat.now id else [])) }
    ensures err { OnErr result (take (length out.old) out.new ≡ out.old) }
{
    if flat.runs(id) {
        put_line(flat, id, out)
    } else {
        Ok(())
    }
}

/// Appends the lines of the running equations by number.
fn put_running(flat: &Flat, out: &mut Bytes) -> Result<(), NoMemory>
    ensures ok { OnOk result (out.new ≡ out.old ++ flat_map (equation_line flat.now) (running flat.now)) }
    ensures err { OnErr result (take (length out.old) out.new ≡ out.old) }
{
    for number in 0..flat.count() {
        put_if_running(flat, EqId::new(number), out)?;
    }
    Ok(())
}

fn put_outputs(outputs: &[Output], out: &mut Bytes) -> Result<(), NoMemory>
    ensures ok { OnOk result (out.new ≡ out.old ++ flat_map output_line outputs.now) }
    ensures err { OnErr result (take (length out.old) out.new ≡ out.old) }
{
    for output in outputs {
        put_output(output, out)?;
    }
    Ok(())
}

fn put_flat(flat: &Flat, out: &mut Bytes) -> Result<(), NoMemory>
    ensures ok { OnOk result (out.new ≡ out.old ++ flat_text flat.now) }
    ensures err { OnErr result (take (length out.old) out.new ≡ out.old) }
{
    put_running(flat, out)?;
    put_outputs(flat.outputs(), out)
}

/// Appends an equation as it stands in a printed program, without the end of its line, or leaves `out` as it was: its number, its
/// name where it has one, its operation and its arguments, as `%3 yl := Last %2 %0`.
pub fn print_definition(flat: &Flat, id: EqId, out: &mut Bytes) -> Result<(), NoMemory>
    requires { id < length flat.now.equations }
    ensures ok { OnOk result (out.new ≡ out.old ++ definition_text flat.now id) }
    ensures err { OnErr result (out.new ≡ out.old) }
{
    let before = out.len();
    match put_definition(id, flat.equation(id), out) {
        Ok(()) => Ok(()),
        Err(none) => {
            out.truncate(before);
            Err(none)
        }
    }
}

/// Appends the line of an equation, or leaves `out` as it was.
///
/// A type follows `Input`, `Nil` and `Empty`, and a body follows `Lift`, or `OptLift` where the lift is not strict.
pub fn print_equation(flat: &Flat, id: EqId, out: &mut Bytes) -> Result<(), NoMemory>
    requires { id < length flat.now.equations }
    ensures ok { OnOk result (out.new ≡ out.old ++ equation_line flat.now id) }
    ensures err { OnErr result (out.new ≡ out.old) }
{
    let before = out.len();
    match put_line(flat, id, out) {
        Ok(()) => Ok(()),
        Err(none) => {
            out.truncate(before);
            Err(none)
        }
    }
}

/// Appends the lines of the running equations by number, and then `out NAME %N` for each output, or leaves `out` as it was.
pub fn print_flat(flat: &Flat, out: &mut Bytes) -> Result<(), NoMemory>
    ensures ok { OnOk result (out.new ≡ out.old ++ flat_text flat.now) }
    ensures err { OnErr result (out.new ≡ out.old) }
{
    let before = out.len();
    match put_flat(flat, out) {
        Ok(()) => Ok(()),
        Err(none) => {
            out.truncate(before);
            Err(none)
        }
    }
}
