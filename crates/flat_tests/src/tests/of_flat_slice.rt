// The slices of both outputs.

use crate::tests::small_system::small_system;
use flat_core::flat::Flat;
use flat_core::lists::EqSet;
use flat_slice::slice::slice_of;
use recursion_check::check::check_cycles;
use std::alloc::Global;
use std::test::Fail;
use tsl_value::ids::EqId;

/// The slice of an output has its equation and both inputs, and nothing else.
fn has_just_inputs_and(alloc: Global, flat: &Flat, output: u32, id: u32) -> Result<bool, Fail> {
    let Ok(()) = check_cycles(alloc, flat) else {
        return Err(Fail::from("a cycle"));
    };
    if output as usize >= flat.outputs().len() {
        return Err(Fail::from("no such output"));
    }
    let slice = slice_of(alloc, flat, output)?;
    Ok(slice.len() == 3 && [0, 1, id].iter().all(|id| slice.contains(EqId::new(*id))))
}

// The first arguments of the last and of the delay are among them, and nothing of the other output.
#[test]
fn slices_of_outputs(rt: HostRuntime) -> Result<(), Fail> {
    let flat = small_system(rt.alloc())?;
    assert!(rt; has_just_inputs_and(rt.alloc(), &flat, 0, 2)?);
    assert!(rt; has_just_inputs_and(rt.alloc(), &flat, 1, 3)?);
    Ok(())
}
