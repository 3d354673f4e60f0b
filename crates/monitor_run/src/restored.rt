// What a monitor has when it goes on from a state.

ghost use Rattle.std.specs.Prelude.{◌≡◌, ◌==◌, ◌<◌, ◌^◌, ℕ, All, IfOk, IsTrue, OnOk, length, map};
ghost use Rattle.std.specs.Prelude.{if◌then◌else◌, slice_index};
ghost use Rattle.std.specs.FinMap as finite_map;
ghost use Rattle.std.specs.List.{AllByRecursion};
ghost use Rattle.aggregate_store.specs.Content.{AreInOrder, is_of_aggregate};
ghost use Rattle.flat_core.specs.Updates.{running_updates};
ghost use Rattle.monitor_state.specs.Fits.{FitsMonitor, named_by};
ghost use Rattle.monitor_run.specs.inner.Given.{line_of};
ghost use Rattle.monitor_run.specs.inner.Machine.{AreUnmarked, HasRoom};
ghost use Rattle.monitor_run.specs.inner.Registers.{register_at};
ghost use Rattle.monitor_run.specs.inner.Resuming.{HasCells, IsOnce, IsRestored, placed, register_with};
ghost use Rattle.monitor_run.specs.inner.Visits.{IsAtRest};

use crate::machine::{Machine, put};
use aggregate_store::content::Content;
use aggregate_store::store::Store;
use body_eval::register::Register;
use delay_timers::timers::Timers;
use flat_core::flat::Flat;
use flat_core::line::TraceLine;
use monitor_state::state::{MonitorState, OpenEvent, SavedRegister};
use register_code::code::Code;
use std::alloc::Global;
use tsl_value::ids::{EqId, Handle};
use tsl_value::memory::NoMemory;
use tsl_value::time::Time;

/// Makes a cell for each content. The answer has their handles in the same order.
fn fill_cells(
    alloc: Global,
    contents: &[Content],
    store: &mut Store,
) -> Result<Vec<Handle>, NoMemory>
    requires aggregates { AllByRecursion (λ c. IsTrue (is_of_aggregate c) × AreInOrder c) contents.now }
    requires none { store.old.cells ≡ finite_map.empty }
    ensures cells { IfOk result (λ handles. HasCells contents.now handles.items store.new.cells) }
    ensures ledger { OnOk result (store.new.ledger ≡ store.old.ledger) }
{
    let mut handles = Vec::new(alloc);
    for content in contents {
        let handle = store.filled(content)?;
        handles.push(handle)?;
    }
    Ok(handles)
}

/// The running updates by number.
fn updates_of(alloc: Global, flat: &Flat) -> Result<Vec<EqId>, NoMemory>
    ensures { IfOk result (λ ids. ids.items ≡ running_updates flat.now) }
{
    let mut ids = Vec::new(alloc);
    for number in 0..flat.count() {
        let id = EqId::new(number);
        if flat.is_running_update(id) {
            ids.push(id)?;
        }
    }
    Ok(ids)
}

/// Lets updates have copied so many elements.
fn set_counts(updates: &[EqId], counts: &[u64], store: &mut Store)
    requires known { All (λ u. u < length store.old.ledger) updates.now }
    requires once { IsOnce updates.now }
    ensures cells { store.new.cells ≡ store.old.cells }
    ensures length { length store.new.ledger ≡ length store.old.ledger }
    ensures set { (u : ℕ) → slice_index store.new.ledger u ≡ placed updates.now counts.now u (slice_index store.old.ledger u) }
{
    for (id, count) in updates.iter().zip(counts) {
        store.set_ledger(id.get(), *count);
    }
}

/// The register of a saved one, where cells have these handles.
fn register_of(saved: &SavedRegister, handles: &[Handle]) -> Result<Register, NoMemory>
    requires { AllByRecursion (λ k. k < length handles.now) (named_by saved.now) }
    ensures { IfOk result (λ r. r ≡ register_with handles.now saved.now) }
{
    match saved {
        SavedRegister::Empty => Ok(Register::Empty),
        SavedRegister::Scalar(value) => Ok(Register::Scalar(value.copy()?)),
        SavedRegister::Cell(number) => Ok(Register::Aggregate(handles[*number as usize])),
    }
}

/// Puts saved registers into the last registers of what is kept.
fn set_registers(
    keeps: &[EqId],
    saved: &[SavedRegister],
    handles: &[Handle],
    last: &mut [Register],
) -> Result<(), NoMemory>
    requires known { All (λ i. i < length last.old) keeps.now }
    requires once { IsOnce keeps.now }
    requires named { AllByRecursion (λ r. AllByRecursion (λ k. k < length handles.now) (named_by r)) saved.now }
    ensures length { length last.new ≡ length last.old }
    ensures set { OnOk result ((v : ℕ) → register_at last.new v
        ≡ placed keeps.now (map (register_with handles.now) saved.now) v (register_at last.old v)) }
{
    for (id, register) in keeps.iter().zip(saved) {
        put(register_of(register, handles)?, id.get() as usize, last);
    }
    Ok(())
}

/// Lets a delay be due at a time, or not be pending.
fn set_timer(delay: EqId, time: Option<Time>, timers: &mut Timers)
    requires { delay < timers.old.capacity }
    ensures capacity { timers.new.capacity ≡ timers.old.capacity }
    ensures times { (d : ℕ) → finite_map.get timers.new.times d ≡ (if delay == d then time else finite_map.get timers.old.times d) }
{
    match time {
        Some(time) => timers.set(delay.get(), time),
        None => timers.cancel(delay.get()),
    }
}

/// Lets delays be due at times, or not be pending.
fn set_timers(delays: &[EqId], times: &[Option<Time>], timers: &mut Timers)
    requires known { All (λ i. i < timers.old.capacity) delays.now }
    requires once { IsOnce delays.now }
    ensures capacity { timers.new.capacity ≡ timers.old.capacity }
    ensures set { (d : ℕ) → finite_map.get timers.new.times d ≡ placed delays.now times.now d (finite_map.get timers.old.times d) }
{
    for (id, time) in delays.iter().zip(times) {
        set_timer(*id, *time, timers);
    }
}

/// What an instant works on, where it goes on from a state.
pub(crate) fn restored(
    alloc: Global,
    code: &Code,
    state: &MonitorState,
) -> Result<Machine, NoMemory>
    requires { (limit : ℕ) × FitsMonitor code.now.system limit state.now }
    ensures restored { IfOk result (λ m.
        IsRestored code.now.system state.now m.store.cells m.store.ledger m.last.items m.timers.times) }
    ensures room { IfOk result (HasRoom code.now.system) }
    ensures unmarked { IfOk result (AreUnmarked code.now.system) }
    ensures rest { IfOk result IsAtRest }
{
    let flat = code.flat();
    let mut machine = Machine::new(alloc, flat.count(), flat.outputs().len())?;
    let handles = fill_cells(alloc, state.cells.as_slice(), &mut machine.store)?;
    let updates = updates_of(alloc, flat)?;
    set_counts(&updates, state.ledger.as_slice(), &mut machine.store);
    set_registers(
        code.keeps(),
        state.registers.as_slice(),
        &handles,
        &mut machine.last,
    )?;
    set_timers(code.timers(), state.pending.as_slice(), &mut machine.timers);
    Ok(machine)
}

/// The lines of open events at a time.
fn given_of(alloc: Global, time: Time, events: &[OpenEvent]) -> Result<Vec<TraceLine>, NoMemory>
    ensures { IfOk result (λ given. given.items ≡ map (λ e. line_of time e.equation e.value) events.now) }
{
    let mut given = Vec::new(alloc);
    for event in events {
        given.push(TraceLine {
            time,
            event: Some((event.equation, event.value.copy()?)),
        })?;
    }
    Ok(given)
}

/// The lines of open events at a bound, which is a time where there are any.
pub(crate) fn given_at(
    alloc: Global,
    bound: u64,
    events: &[OpenEvent],
) -> Result<Vec<TraceLine>, NoMemory>
    requires { 0 < length events.now → bound < 2 ^ 63 }
    ensures { IfOk result (λ given. given.items ≡ map (λ e. line_of bound e.equation e.value) events.now) }
{
    match Time::new(bound) {
        Some(time) => given_of(alloc, time, events),
        None => Ok(Vec::new(alloc)),
    }
}
