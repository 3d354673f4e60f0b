// The lines of a slice.

ghost use Rattle.std.specs.Prelude.{◌≡◌, ◌<◌, [], ◌++◌, length, slice_index, IfNone, IfOk, IfSome, OnOk};
ghost use Rattle.std.specs.List.{All, flat_map};
ghost use Rattle.flat_core.specs.WellFormed.{IsWellFormed};
ghost use Rattle.program_text.specs.Text.{equation_line, output_line};
ghost use Rattle.slice_text.specs.Text.{HasOutput, HasSliceText, IsSliceText};

use crate::number::number_of;
use flat_core::equation::Output;
use flat_core::flat::Flat;
use flat_core::lists::EqSet;
use flat_slice::slice::slice_of;
use program_text::print::{print_equation, print_id};
use std::alloc::Global;
use tsl_value::bytes::Bytes;
use tsl_value::ids::EqId;
use tsl_value::memory::NoMemory;

/// The equation at a place of a set.
fn member_at(set: &EqSet, place: usize) -> EqId
    requires { place < length set.now }
    ensures { result ≡ slice_index set.now place }
{
    match set.get(place) {
        Some(id) => *id,
        None => unreachable!(),
    }
}

/// Appends the lines of the equations of a set.
fn put_members(flat: &Flat, set: &EqSet, out: &mut Bytes) -> Result<(), NoMemory>
    requires { All (λ i. i < length flat.now.equations) set.now }
    ensures { OnOk result (out.new ≡ out.old ++ flat_map (equation_line flat.now) set.now) }
{
    for place in 0..set.len() {
        print_equation(flat, member_at(set, place), out)?;
    }
    Ok(())
}

/// Appends the line of an output.
fn put_output(output: &Output, out: &mut Bytes) -> Result<(), NoMemory>
    ensures { OnOk result (out.new ≡ out.old ++ output_line output.now) }
{
    out.append(b"out ")?;
    out.append(output.name.as_str().as_bytes())?;
    out.push(b' ')?;
    print_id(output.equation, out)?;
    out.push(b'\n')
}

/// The text of the slice of the output of a number, counted from 0.
fn text_of(alloc: Global, flat: &Flat, number: u32) -> Result<Bytes, NoMemory>
    requires there { number < length flat.now.outputs }
    requires well_formed { IsWellFormed flat.now }
    ensures { IfOk result (IsSliceText flat.now number) }
{
    flat.assert_whole();
    let slice = slice_of(alloc, flat, number)?;
    let mut text = Bytes::new(alloc);
    put_members(flat, &slice, &mut text)?;
    put_output(&flat.outputs()[number as usize], &mut text)?;
    Ok(text)
}

/// The lines of the equations that the output of a name can depend on, by number, and then the line of that output. `None` exactly where no
/// output is printed under the name.
pub fn slice_text(alloc: Global, flat: &Flat, name: &str) -> Result<Option<Bytes>, NoMemory>
    requires { IsWellFormed flat.now }
    ensures some { IfOk result (λ found. IfSome found (HasSliceText flat.now name.now)) }
    ensures none { IfOk result (λ found. IfNone found (HasOutput flat.now name.now → ⊥)) }
{
    match number_of(flat, name) {
        Some(number) => Ok(Some(text_of(alloc, flat, number)?)),
        None => Ok(None),
    }
}
