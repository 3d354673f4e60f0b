// Equations, written.

ghost use Rattle.std.specs.Prelude.{◌≡◌, ◌<◌, ◌^◌, ◌++◌, ℕ, length, take, IfSome, IsTrue, OnErr, OnOk};
ghost use Rattle.std.specs.List.{flat_map, range_with_len};
ghost use Rattle.flat_core.specs.Complete.{HasShortBody};
ghost use Rattle.code_file.specs.Form.{HasSpelling, IsEquationForm, IsOpForm, IsPlaceForm, is_spelled};
ghost use Rattle.code_file.specs.Spelling.{entry_at, entry_bytes, equations_bytes, fields, head_bytes, lift_bytes, optional_name};
ghost use Rattle.code_file.specs.Spelling.{place_bytes};
ghost use Rattle.code_file.specs.inner.Writing.{CanSpell, HasFewArguments, IsFormAt};

use crate::body::{put_body, put_flag};
use crate::numbers::{put_args, put_number, put_optional_name};
use crate::types::{is_input, op_place, put_type};
use flat_core::equation::{Equation, Op};
use flat_core::flat::Flat;
use tsl_value::bytes::Bytes;
use tsl_value::ids::EqId;
use tsl_value::memory::NoMemory;
use tsl_value::place::Place;

fn put_place(place: Place, out: &mut Bytes) -> Result<(), NoMemory>
    ensures ok { OnOk result (out.new ≡ out.old ++ place_bytes place) }
    ensures err { OnErr result (take (length out.old) out.new ≡ out.old) }
    ensures form { IsPlaceForm place }
{
    put_number(place.line, out)?;
    put_number(place.column, out)
}

/// Appends where an equation stands in the source, and its name there.
fn put_source(equation: &Equation, out: &mut Bytes) -> Result<(), NoMemory>
    requires { IfSome equation.now.name (λ name. length name < 2 ^ 32) }
    ensures ok { OnOk result (out.new ≡ out.old ++ (place_bytes equation.now.place ++ optional_name equation.now.name)) }
    ensures err { OnErr result (take (length out.old) out.new ≡ out.old) }
    ensures form { IsPlaceForm equation.now.place }
{
    put_place(equation.place, out)?;
    put_optional_name(&equation.name, out)
}

/// Appends what stands before the arguments.
fn put_head(equation: &Equation, out: &mut Bytes) -> Result<(), NoMemory>
    requires { IfSome equation.now.name (λ name. length name < 2 ^ 32) }
    ensures ok { OnOk result (out.new ≡ out.old ++ head_bytes equation.now) }
    ensures err { OnErr result (take (length out.old) out.new ≡ out.old) }
    ensures form { OnOk result (IsPlaceForm equation.now.place) }
{
    out.push(op_place(&equation.op))?;
    put_type(equation.of, out)?;
    put_source(equation, out)
}

/// Appends what stands after the arguments.
fn put_lift(operation: &Op, out: &mut Bytes) -> Result<(), NoMemory>
    requires short { HasShortBody operation.now }
    requires few { HasFewArguments operation.now }
    ensures ok { OnOk result (out.new ≡ out.old ++ lift_bytes operation.now) }
    ensures err { OnErr result (take (length out.old) out.new ≡ out.old) }
    ensures form { OnOk result (IsOpForm operation.now) }
{
    match operation {
        Op::Lift { body, strict } => {
            // It tells that the nodes are few.
            let _ = body.nodes();
            put_flag(*strict, out)?;
            put_body(body, out)
        }
        _ => Ok(()),
    }
}

fn put_fields(equation: &Equation, out: &mut Bytes) -> Result<(), NoMemory>
    requires { CanSpell equation.now }
    ensures ok { OnOk result (out.new ≡ out.old ++ fields equation.now) }
    ensures err { OnErr result (take (length out.old) out.new ≡ out.old) }
    ensures form { OnOk result (IsEquationForm equation.now) }
{
    put_head(equation, out)?;
    put_args(equation.args.ids(), out)?;
    put_lift(&equation.op, out)
}

/// Appends an equation that runs, an input that does not, or that there is another.
fn put_entry(runs: bool, equation: &Equation, out: &mut Bytes) -> Result<(), NoMemory>
    requires { IsTrue (is_spelled runs equation.now.op) → CanSpell equation.now }
    ensures ok { OnOk result (out.new ≡ out.old ++ entry_bytes runs equation.now) }
    ensures err { OnErr result (take (length out.old) out.new ≡ out.old) }
    ensures form { OnOk result (IsTrue (is_spelled runs equation.now.op) → IsEquationForm equation.now) }
{
    if runs {
        out.push(1)?;
        put_fields(equation, out)
    } else if is_input(&equation.op) {
        out.push(2)?;
        put_fields(equation, out)
    } else {
        out.push(0)
    }
}

fn put_equation(flat: &Flat, id: EqId, out: &mut Bytes) -> Result<(), NoMemory>
    requires there { id < length flat.now.equations }
    requires spelled { HasSpelling flat.now }
    ensures ok { OnOk result (out.new ≡ out.old ++ entry_at flat.now id) }
    ensures err { OnErr result (take (length out.old) out.new ≡ out.old) }
    ensures form { OnOk result (IsFormAt flat.now id) }
{
    flat.assert_whole();
    put_entry(flat.runs(id), flat.equation(id), out)
}

fn put_entries(flat: &Flat, out: &mut Bytes) -> Result<(), NoMemory>
    requires { HasSpelling flat.now }
    ensures ok { OnOk result (out.new ≡ out.old ++ flat_map (entry_at flat.now) (range_with_len 0 (length flat.now.equations))) }
    ensures err { OnErr result (take (length out.old) out.new ≡ out.old) }
    ensures form { OnOk result ((i : ℕ) → i < length flat.now.equations → IsFormAt flat.now i) }
{
    for number in 0..flat.count() {
        put_equation(flat, EqId::new(number), out)?;
    }
    Ok(())
}

pub(crate) fn put_equations(flat: &Flat, out: &mut Bytes) -> Result<(), NoMemory>
    requires { HasSpelling flat.now }
    ensures ok { OnOk result (out.new ≡ out.old ++ equations_bytes flat.now) }
    ensures err { OnErr result (take (length out.old) out.new ≡ out.old) }
    ensures form { OnOk result ((i : ℕ) → i < length flat.now.equations → IsFormAt flat.now i) }
{
    put_number(flat.count(), out)?;
    put_entries(flat, out)
}
