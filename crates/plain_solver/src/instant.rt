// One instant.

ghost use Rattle.std.specs.Prelude.{◌≡◌, ◌<◌, length, slice_index_or, map, [], OnOk, IfOk, IsTrue};
ghost use Rattle.flat_core.specs.Complete.{IsFlat};
ghost use Rattle.flat_core.specs.inner.Dependency.{IsRunOrder};
ghost use Rattle.flat_core.specs.Line.{IsSorted, inputs_of};
ghost use Rattle.flat_core.specs.System.{runs};
ghost use Rattle.plain_solver.specs.inner.Moments.{AllBefore};
ghost use Rattle.plain_solver.specs.inner.Instant.{AreBefore, IsFirstRoot, IsOneMore, IsRun};
ghost use Rattle.plain_solver.specs.inner.Streams.{streams_of};
ghost use Rattle.flat_core.specs.inner.TypedLines.{AreTypedLines};
ghost use Rattle.plain_solver.specs.inner.Typed.{AreTyped};
ghost use Rattle.flat_core.specs.inner.Kept.{AreKept};

use crate::events::Events;
use crate::outcome::{outcome_of, root_of};
use flat_core::flat::Flat;
use flat_core::line::TraceLine;
use lift_func::fault::FaultKind;
use std::alloc::Global;
use translation_order::steps::Steps;
use tsl_value::ids::EqId;
use tsl_value::memory::NoMemory;
use tsl_value::time::Time;

/// What happens at an equation at a time, after what happened before it.
pub(crate) fn run_one(
    alloc: Global,
    flat: &Flat,
    streams: &mut [Events],
    lines: &[TraceLine],
    i: EqId,
    t: Time,
) -> Result<(), NoMemory>
    requires whole { IsFlat flat.now }
    requires known { i < length flat.now.equations }
    requires running { IsTrue (runs flat.now i) }
    requires one_each { length streams.old ≡ length flat.now.equations }
    requires before { AllBefore t (slice_index_or streams.old i []) }
    requires kept { AreKept flat.now (streams_of streams.old) t }
    requires typed { AreTyped flat.now (streams_of streams.old) }
    requires sorted { IsSorted lines.now }
    ensures { OnOk result (IsOneMore flat.now (inputs_of lines.now) i t streams.old streams.new) }
{
    match outcome_of(alloc, flat.equation(i), i, streams, lines, t)? {
        Some(o) => {
            streams[i.get() as usize].push(t, o)?;
            Ok(())
        }
        None => Ok(()),
    }
}

/// What happens at a time, after what happened before it.
pub(crate) fn run_instant(
    alloc: Global,
    flat: &Flat,
    order: &Steps,
    streams: &mut [Events],
    lines: &[TraceLine],
    t: Time,
) -> Result<(), NoMemory>
    requires ordered { IsRunOrder flat.now order.now }
    requires whole { IsFlat flat.now }
    requires one_each { length streams.old ≡ length flat.now.equations }
    requires before { AreBefore t streams.old }
    requires kept { AreKept flat.now (streams_of streams.old) t }
    requires typed { AreTyped flat.now (streams_of streams.old) }
    requires typed_lines { AreTypedLines flat.now lines.now }
    requires sorted { IsSorted lines.now }
    ensures { OnOk result (IsRun flat.now (inputs_of lines.now) t streams.old streams.new) }
{
    for number in order.as_slice() {
        let i = EqId::new(*number);
        if flat.runs(i) {
            run_one(alloc, flat, streams, lines, i, t)?;
        }
    }
    Ok(())
}

/// The first equation with a root fault at a time, and why.
pub fn first_root(
    alloc: Global,
    flat: &Flat,
    streams: &[Events],
    lines: &[TraceLine],
    t: Time,
) -> Result<Option<(EqId, FaultKind)>, NoMemory>
    requires one_each { length streams.now ≡ length flat.now.equations }
    requires kept { AreKept flat.now (streams_of streams.now) t }
    requires typed { AreTyped flat.now (streams_of streams.now) }
    requires sorted { IsSorted lines.now }
    ensures { IfOk result (λ r. IsFirstRoot flat.now (inputs_of lines.now) (streams_of streams.now) t r) }
{
    for n in 0..flat.count() {
        let i = EqId::new(n);
        if flat.runs(i) {
            if let Some(kind) = root_of(alloc, flat.equation(i), i, streams, lines, t)? {
                return Ok(Some((i, kind)));
            }
        }
    }
    Ok(None)
}
