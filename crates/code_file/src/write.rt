// Code, written.

ghost use Rattle.std.specs.Prelude.{◌≡◌, ◌<◌, ◌≤◌, ◌+◌, ◌^◌, ◌++◌, All, length, take, IfErr, OnErr, OnOk};
ghost use Rattle.std.specs.List.{flat_map};
ghost use Rattle.code_file.specs.declared.limits.TheConstants.{MOST_CODE_BYTES};
ghost use Rattle.code_file.specs.Form.{HasSpelling, IsForm, IsWriteFault};
ghost use Rattle.code_file.specs.Spelling.{list_bytes, output_bytes, outputs_bytes, spelling};

use crate::equations::put_equations;
use crate::fault::CodeFault;
use crate::limits::MOST_CODE_BYTES;
use crate::numbers::{put_count, put_name, put_number, put_set, put_steps};
use flat_core::equation::Output;
use register_code::code::Code;
use register_code::plan::Plan;
use tsl_value::bytes::Bytes;
use tsl_value::memory::NoMemory;

/// The first bytes of each code file.
pub const MARK: &[u8] = b"TSLCOD1\n";

fn put_output(output: &Output, out: &mut Bytes) -> Result<(), NoMemory>
    requires { length output.now.name < 2 ^ 32 }
    ensures ok { OnOk result (out.new ≡ out.old ++ output_bytes output.now) }
    ensures err { OnErr result (take (length out.old) out.new ≡ out.old) }
{
    put_name(&output.name, out)?;
    put_number(output.equation.get(), out)
}

fn put_each_output(outputs: &[Output], out: &mut Bytes) -> Result<(), NoMemory>
    requires { All (λ o. length o.name < 2 ^ 32) outputs.now }
    ensures ok { OnOk result (out.new ≡ out.old ++ flat_map output_bytes outputs.now) }
    ensures err { OnErr result (take (length out.old) out.new ≡ out.old) }
{
    for output in outputs {
        put_output(output, out)?;
    }
    Ok(())
}

fn put_outputs(outputs: &[Output], out: &mut Bytes) -> Result<(), NoMemory>
    requires few { length outputs.now < 2 ^ 32 }
    requires named { All (λ o. length o.name < 2 ^ 32) outputs.now }
    ensures ok { OnOk result (out.new ≡ out.old ++ outputs_bytes outputs.now) }
    ensures err { OnErr result (take (length out.old) out.new ≡ out.old) }
{
    put_count(outputs.len(), out)?;
    put_each_output(outputs, out)
}

fn put_plan(plan: &Plan, out: &mut Bytes) -> Result<(), NoMemory>
    requires few_updates { length plan.now.in_place < 2 ^ 32 }
    requires few_steps { length plan.now.order < 2 ^ 32 }
    ensures ok { OnOk result (out.new ≡ out.old ++ (list_bytes plan.now.in_place ++ list_bytes plan.now.order)) }
    ensures err { OnErr result (take (length out.old) out.new ≡ out.old) }
{
    put_set(&plan.in_place, out)?;
    put_steps(plan.order.as_slice(), out)
}

fn put_code(code: &Code, out: &mut Bytes) -> Result<(), NoMemory>
    requires { HasSpelling code.now.system }
    ensures ok { OnOk result (out.new ≡ out.old ++ spelling code.now) }
    ensures err { OnErr result (take (length out.old) out.new ≡ out.old) }
    ensures form { OnOk result (IsForm code.now) }
{
    code.assert_whole();
    code.plan().in_place.assert_ascending();
    out.append(MARK)?;
    put_equations(code.flat(), out)?;
    put_outputs(code.flat().outputs(), out)?;
    put_plan(code.plan(), out)
}

/// Keeps what was appended where it is not too long, or else drops it.
fn keep_short(before: usize, out: &mut Bytes) -> Result<(), CodeFault>
    requires { before ≤ length out.old }
    ensures ok { OnOk result ((out.new ≡ out.old) × (length out.old ≤ before + MOST_CODE_BYTES)) }
    ensures err { OnErr result (out.new ≡ take before out.old) }
    ensures fault { IfErr result (λ fault. (fault ≡ CodeFault.TooLong) × (before + MOST_CODE_BYTES < length out.old)) }
{
    if out.len() - before > MOST_CODE_BYTES {
        out.truncate(before);
        return Err(CodeFault::TooLong);
    }
    Ok(())
}

/// Appends the spelling of code, or leaves `out` as it was.
///
/// The code has a spelling where its names are names of the language, all inputs have one, no two inputs have the same, and no more
/// than 256 updates run. `TooLong` comes exactly where the spelling has more than 2^30 bytes.
pub fn write_code(code: &Code, out: &mut Bytes) -> Result<(), CodeFault>
    requires { HasSpelling code.now.system }
    ensures ok { OnOk result (out.new ≡ out.old ++ spelling code.now) }
    ensures short { OnOk result (length (spelling code.now) ≤ MOST_CODE_BYTES) }
    ensures form { OnOk result (IsForm code.now) }
    ensures err { OnErr result (out.new ≡ out.old) }
    ensures fault { IfErr result (IsWriteFault (spelling code.now)) }
{
    let before = out.len();
    match put_code(code, out) {
        Ok(()) => keep_short(before, out),
        Err(NoMemory) => {
            out.truncate(before);
            Err(CodeFault::Memory)
        }
    }
}
