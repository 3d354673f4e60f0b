// What a monitor keeps, as a state apart from it.

ghost use Rattle.std.specs.Prelude.{◌≡◌, ◌<◌, ◌^◌, ◌++◌, ℕ, All, IfOk, OnOk, length, map, nat_eq};
ghost use Rattle.std.specs.Prelude.{position, slice_index, unwrap_or};
ghost use Rattle.std.specs.FinMap as finite_map;
ghost use Rattle.std.specs.List.{AllByRecursion, flat_map};
ghost use Rattle.std.specs.Option.{option_copied};
ghost use Rattle.cell_reader.specs.inner.Cells.{IsLive, view_at};
ghost use Rattle.aggregate_store.specs.Content.{AllIn, IsInRange, content_of, content_size};
ghost use Rattle.flat_core.specs.Updates.{running_updates};
ghost use Rattle.monitor_run.specs.inner.Given.{AreAt};
ghost use Rattle.monitor_run.specs.inner.Saved.{cell_held, saved_of};
ghost use Rattle.monitor_state.specs.Firsts.{firsts};
ghost use Rattle.monitor_run.specs.inner.Shown.{held_at, held_by};
ghost use Rattle.monitor_run.specs.inner.Taking.{InRegister, event_for, firsts_with, found_for, opened, opened_below};

use aggregate_store::range::assert_in_range;
use aggregate_store::store::Store;
use body_eval::register::Register;
use delay_timers::timers::Timers;
use flat_core::flat::Flat;
use flat_core::line::TraceLine;
use monitor_state::state::{
    Cells, Numbers, OpenEvent, OpenEvents, PendingTimes, SavedRegister, SavedRegisters,
};
use std::alloc::Global;
use tsl_value::ids::{EqId, Handle};
use tsl_value::memory::NoMemory;
use tsl_value::scalar::Scalar;

/// Appends a cell, unless it is listed.
fn push_first(cell: Handle, cells: &mut Vec<Handle>) -> Result<(), NoMemory>
    ensures { OnOk result (cells.new.items ≡ firsts_with cells.old.items cell) }
{
    if !cells.contains(&cell) {
        cells.push(cell)?;
    }
    Ok(())
}

/// The cells that last registers hold, each where it is held first.
pub(crate) fn held_cells(
    alloc: Global,
    keeps: &[EqId],
    last: &[Register],
) -> Result<Vec<Handle>, NoMemory>
    requires { All (λ i. i < length last.now) keeps.now }
    ensures { IfOk result (λ cells. cells.items ≡ firsts (flat_map (λ v. cell_held (held_at last.now v)) keeps.now)) }
{
    let mut cells = Vec::new(alloc);
    for id in keeps {
        if let Register::Aggregate(cell) = &last[id.get() as usize] {
            push_first(*cell, &mut cells)?;
        }
    }
    Ok(cells)
}

/// The place of a cell among those that are listed.
fn place_of(cell: Handle, cells: &[Handle]) -> Option<usize>
    ensures { result ≡ position (λ h. nat_eq h cell) cells.now }
{
    cells.iter().position(|other| *other == cell)
}

/// The number of a cell among those that are listed, each of which is listed once.
fn number_of(cell: Handle, cells: &[Handle]) -> u64
    ensures { result ≡ unwrap_or (position (λ h. nat_eq h cell) cells.now) 0 }
{
    match place_of(cell, cells) {
        Some(place) => place as u64,
        None => 0,
    }
}

/// A register, with the number of its cell in place of the handle.
fn saved_register(register: &Register, cells: &[Handle]) -> Result<SavedRegister, NoMemory>
    ensures same { IfOk result (λ r. r ≡ saved_of cells.now (held_by register.now)) }
    ensures range { IfOk result (InRegister IsInRange) }
{
    match register {
        Register::Empty => Ok(SavedRegister::Empty),
        Register::Scalar(value) => {
            assert_in_range(value);
            Ok(SavedRegister::Scalar(value.copy()?))
        }
        Register::Aggregate(cell) => Ok(SavedRegister::Cell(number_of(*cell, cells))),
    }
}

/// The last registers of what is kept, by equation.
pub(crate) fn saved_registers(
    alloc: Global,
    keeps: &[EqId],
    last: &[Register],
    cells: &[Handle],
) -> Result<SavedRegisters, NoMemory>
    requires { All (λ i. i < length last.now) keeps.now }
    ensures same { IfOk result (λ r. r ≡ map (λ v. saved_of cells.now (held_at last.now v)) keeps.now) }
    ensures range { IfOk result (AllByRecursion (InRegister IsInRange)) }
{
    let mut registers = SavedRegisters::new(alloc);
    for id in keeps {
        registers.push(saved_register(&last[id.get() as usize], cells)?)?;
    }
    Ok(registers)
}

/// What the listed cells have, in their order.
pub(crate) fn contents(alloc: Global, cells: &[Handle], store: &Store) -> Result<Cells, NoMemory>
    requires { All (λ h. IsLive store.now.cells h) cells.now }
    ensures same { IfOk result (λ list. list ≡ map (λ h. content_of (view_at store.now.cells h)) cells.now) }
    ensures range { IfOk result (AllByRecursion (AllIn IsInRange)) }
    ensures sized { IfOk result (AllByRecursion (λ c. content_size c < 2 ^ 64)) }
{
    let mut list = Cells::new(alloc);
    for cell in cells {
        list.push(store.content(*cell)?)?;
    }
    Ok(list)
}

/// The value that a line has for an input.
fn value_for(id: EqId, line: &TraceLine) -> Option<&Scalar>
    ensures { option_copied result ≡ event_for id line.now.event }
{
    match &line.event {
        Some((input, value)) => { if *input == id { Some(value) } else { None } }
        None => None,
    }
}

/// The value that given lines have for an input.
fn value_among(id: EqId, given: &[TraceLine]) -> Option<&Scalar>
    ensures { option_copied result ≡ found_for given.now id }
{
    for line in given {
        if let Some(value) = value_for(id, line) {
            return Some(value);
        }
    }
    None
}

/// Appends the event of an equation, if there is one.
fn push_open(id: EqId, given: &[TraceLine], events: &mut OpenEvents) -> Result<(), NoMemory>
    ensures events { OnOk result (events.new ≡ events.old ++ opened id (found_for given.now id)) }
    ensures range { OnOk result (AllByRecursion (λ e. IsInRange e.value) events.old
        → AllByRecursion (λ e. IsInRange e.value) events.new) }
{
    match value_among(id, given) {
        Some(value) => {
            assert_in_range(value);
            events.push(OpenEvent {
                equation: id,
                value: value.copy()?,
            })
        }
        None => Ok(()),
    }
}

/// Asserts that lines at one time are at a time, if there are any, as they are. Nothing is done.
pub(crate) fn assert_in_time(given: &[TraceLine])
    ensures { (at : ℕ) → AreAt at given.now → 0 < length given.now → at < 2 ^ 63 }
{
    if let Some(line) = given.first() {
        let _time = line.time.get();
    }
}

/// The given events of the first so many equations, by equation.
pub(crate) fn open_events(
    alloc: Global,
    count: u32,
    given: &[TraceLine],
) -> Result<OpenEvents, NoMemory>
    ensures events { IfOk result (λ events. events ≡ opened_below given.now count) }
    ensures range { IfOk result (AllByRecursion (λ e. IsInRange e.value)) }
{
    let mut events = OpenEvents::new(alloc);
    for number in 0..count {
        push_open(EqId::new(number), given, &mut events)?;
    }
    Ok(events)
}

/// How many elements each running update has copied, by equation.
pub(crate) fn ledger_of(alloc: Global, flat: &Flat, store: &Store) -> Result<Numbers, NoMemory>
    requires { length store.now.ledger ≡ length flat.now.equations }
    ensures same { IfOk result (λ counts. counts ≡ map (slice_index store.now.ledger) (running_updates flat.now)) }
    ensures range { IfOk result (AllByRecursion (λ n. n < 2 ^ 64)) }
{
    let mut counts = Numbers::new(alloc);
    for number in 0..flat.count() {
        if flat.is_running_update(EqId::new(number)) {
            counts.push(store.ledger(number))?;
        }
    }
    Ok(counts)
}

/// When the delays are due, in their order.
pub(crate) fn pending_times(
    alloc: Global,
    delays: &[EqId],
    timers: &Timers,
) -> Result<PendingTimes, NoMemory>
    requires { All (λ i. i < timers.now.capacity) delays.now }
    ensures { IfOk result (λ times. times ≡ map (finite_map.get timers.now.times) delays.now) }
{
    let mut times = PendingTimes::new(alloc);
    for id in delays {
        times.push(timers.at(id.get()))?;
    }
    Ok(times)
}
