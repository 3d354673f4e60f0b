// Last registers, read.

ghost use Rattle.std.specs.Prelude.{◌≡◌};
ghost use Rattle.tsl_value.specs.Aggregate.{is_aggregate};
ghost use Rattle.state_snapshot.specs.inner.Reading.{Gives, bare_at, cell_at, is_type, named, register_at};

use crate::fault::StateFault;
use crate::fields::{Read, read_number, read_scalar};
use monitor_state::state::SavedRegister;
use std::alloc::Global;
use tsl_value::scalar::ValueType;

/// Whether two types are one.
fn is_type(a: ValueType, b: ValueType) -> bool
    ensures { result ≡ is_type a b }
{
    a == b
}

/// A cell of this type by its number: one that was named before, with the same type, or the next.
fn name_cell(
    types: &mut Vec<ValueType>,
    of: ValueType,
    number: u64,
) -> Result<SavedRegister, StateFault>
    ensures { Gives (λ r. (r, types.new.items)) result (named types.old.items of number) }
{
    if number == types.len() as u64 {
        types.push(of)?;
        return Ok(SavedRegister::Cell(number));
    }
    match types.get(number as usize) {
        Some(other) if is_type(of, *other) => Ok(SavedRegister::Cell(number)),
        _ => Err(StateFault::WrongForm),
    }
}

/// A scalar that an equation of this type holds.
#[tactic(auto, unfolding(crate::specs::inner::Reading::bare_at))]
fn read_bare(alloc: Global, of: ValueType, bytes: &[u8]) -> Read<'_, SavedRegister>
    ensures { Gives (λ x. (x.0, x.1.now)) result (bare_at of bytes.now) }
{
    match of {
        ValueType::Scalar(of) => {
            let (value, rest) = read_scalar(alloc, of, bytes)?;
            Ok((SavedRegister::Scalar(value), rest))
        }
        _ => Err(StateFault::WrongForm),
    }
}

/// The number of a cell that an equation of this type holds.
#[tactic(auto, unfolding(crate::specs::inner::Reading::cell_at))]
fn read_cell<'b>(
    types: &mut Vec<ValueType>,
    of: ValueType,
    bytes: &'b [u8],
) -> Read<'b, SavedRegister>
    ensures { Gives (λ x. ((x.0, types.new.items), x.1.now)) result (cell_at types.old.items of bytes.now) }
{
    if !of.is_aggregate() {
        return Err(StateFault::WrongForm);
    }
    let (number, rest) = read_number(bytes)?;
    let register = name_cell(types, of, number)?;
    Ok((register, rest))
}

/// A register of an equation of this type, with the types of the cells that are named so far.
#[tactic(auto, unfolding(crate::specs::inner::Reading::register_at))]
pub(crate) fn read_register<'b>(
    alloc: Global,
    types: &mut Vec<ValueType>,
    of: ValueType,
    bytes: &'b [u8],
) -> Read<'b, SavedRegister>
    ensures { Gives (λ x. ((x.0, types.new.items), x.1.now)) result (register_at types.old.items of bytes.now) }
{
    match bytes {
        [0, rest @ ..] => Ok((SavedRegister::Empty, rest)),
        [1, rest @ ..] => read_bare(alloc, of, rest),
        [2, rest @ ..] => read_cell(types, of, rest),
        _ => Err(StateFault::WrongForm),
    }
}
