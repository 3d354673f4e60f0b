// The slice of an output.

ghost use Rattle.std.specs.Prelude.{◌<◌, length, IfOk};
ghost use Rattle.std.specs.List.Sorted.{IsStrictlyIncreasing};
ghost use Rattle.flat_core.specs.WellFormed.{IsWellFormed};
ghost use Rattle.flat_slice.specs.Slice.{Decides, IsSliceOf};

use flat_core::flat::Flat;
use flat_core::lists::EqSet;
use std::alloc::Global;
use tsl_value::memory::NoMemory;

/// The equations that the output of a number, counted from 0, can depend on: its own, and each argument of each of them, the first arguments of
/// `last` and of `delay` as well.
///
/// What happens at them up to a time follows from the events of the inputs among them up to that time, whatever else there is.
pub fn slice_of(alloc: Global, flat: &Flat, output: u32) -> Result<EqSet, NoMemory>
    requires there { output < length flat.now.outputs }
    requires well_formed { IsWellFormed flat.now }
    ensures ascending { IfOk result (λ s. IsStrictlyIncreasing s) }
    ensures members { IfOk result (IsSliceOf flat.now output) }
    ensures decides { IfOk result (Decides flat.now) }
{
    flat.assert_whole();
    let start = flat.outputs()[output as usize].equation;
    flat.leading_to(alloc, &[start])
}
