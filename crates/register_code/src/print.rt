// The text of code.

ghost use Rattle.std.specs.Prelude.{slice_get, ◌≡◌, ◌<◌, ◌++◌, Some, codes, length, take, OnOk, OnErr};
ghost use Rattle.std.specs.List.{flat_map};
ghost use Rattle.flat_core.specs.Members.{is_in};
ghost use Rattle.program_text.specs.Text.{definition_text};
ghost use Rattle.register_code.specs.Text.{code_text, keep_text, place_text, print_text, step_text, timer_text};

use crate::code::Code;
use flat_core::equation::Output;
use program_text::print::{print_definition, print_id};
use tsl_value::bytes::Bytes;
use tsl_value::ids::EqId;
use tsl_value::memory::NoMemory;

/// Appends an equation's line, with ` in place` after it where it happens in place.
fn put_equation(code: &Code, id: EqId, out: &mut Bytes) -> Result<(), NoMemory>
    requires { id < length code.now.system.equations }
    ensures ok { OnOk result (out.new
        ≡ out.old ++ (definition_text code.now.system id ++ (place_text (is_in code.now.in_place id) ++ codes "\n"))) }
    ensures err { OnErr result (take (length out.old) out.new ≡ out.old) }
{
    print_definition(code.flat(), id, out)?;
    if code.plan().in_place.contains(id) {
        out.append(b" in place\n")
    } else {
        out.push(b'\n')
    }
}

fn put_print(output: &Output, out: &mut Bytes) -> Result<(), NoMemory>
    ensures ok { OnOk result (out.new ≡ out.old ++ print_text (Some output.now)) }
    ensures err { OnErr result (take (length out.old) out.new ≡ out.old) }
{
    out.append(b"print ")?;
    out.append(output.name.as_str().as_bytes())?;
    out.push(b' ')?;
    print_id(output.equation, out)?;
    out.push(b'\n')
}

/// The line of the output at a place counted from 0, if there is one.
fn put_output(code: &Code, place: usize, out: &mut Bytes) -> Result<(), NoMemory>
    ensures ok { OnOk result (out.new ≡ out.old ++ print_text (slice_get code.now.system.outputs place)) }
    ensures err { OnErr result (take (length out.old) out.new ≡ out.old) }
{
    match code.flat().outputs().get(place) {
        Some(output) => put_print(output, out),
        None => Ok(()),
    }
}

fn put_step(code: &Code, step: u32, out: &mut Bytes) -> Result<(), NoMemory>
    ensures ok { OnOk result (out.new ≡ out.old ++ step_text code.now step) }
    ensures err { OnErr result (take (length out.old) out.new ≡ out.old) }
{
    let count = code.flat().count();
    if step < count {
        put_equation(code, EqId::new(step), out)
    } else {
        put_output(code, (step - count) as usize, out)
    }
}

fn put_steps(code: &Code, steps: &[u32], out: &mut Bytes) -> Result<(), NoMemory>
    ensures ok { OnOk result (out.new ≡ out.old ++ flat_map (step_text code.now) steps.now) }
    ensures err { OnErr result (take (length out.old) out.new ≡ out.old) }
{
    for step in steps {
        put_step(code, *step, out)?;
    }
    Ok(())
}

fn put_keeps(ids: &[EqId], out: &mut Bytes) -> Result<(), NoMemory>
    ensures ok { OnOk result (out.new ≡ out.old ++ flat_map keep_text ids.now) }
    ensures err { OnErr result (take (length out.old) out.new ≡ out.old) }
{
    for id in ids {
        out.append(b"keep ")?;
        print_id(*id, out)?;
        out.push(b'\n')?;
    }
    Ok(())
}

fn put_timers(ids: &[EqId], out: &mut Bytes) -> Result<(), NoMemory>
    ensures ok { OnOk result (out.new ≡ out.old ++ flat_map timer_text ids.now) }
    ensures err { OnErr result (take (length out.old) out.new ≡ out.old) }
{
    for id in ids {
        out.append(b"timer ")?;
        print_id(*id, out)?;
        out.push(b'\n')?;
    }
    Ok(())
}

fn put_code(code: &Code, out: &mut Bytes) -> Result<(), NoMemory>
    ensures ok { OnOk result (out.new ≡ out.old ++ code_text code.now) }
    ensures err { OnErr result (take (length out.old) out.new ≡ out.old) }
{
    put_steps(code, code.plan().order.as_slice(), out)?;
    put_keeps(code.keeps(), out)?;
    put_timers(code.timers(), out)
}

/// Appends the text of code, or leaves `out` as it was.
///
/// The steps of the plan come in their order: an equation as its line, with ` in place` after it where it is in the plan's set, and a
/// print as `print NAME %N`. Then comes `keep %N` for each first argument of a running `Last`, and `timer %N` for each running `Delay`.
pub fn print_code(code: &Code, out: &mut Bytes) -> Result<(), NoMemory>
    ensures ok { OnOk result (out.new ≡ out.old ++ code_text code.now) }
    ensures err { OnErr result (out.new ≡ out.old) }
{
    let before = out.len();
    match put_code(code, out) {
        Ok(()) => Ok(()),
        Err(none) => {
            out.truncate(before);
            Err(none)
        }
    }
}
