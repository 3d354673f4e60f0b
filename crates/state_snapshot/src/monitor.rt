// What a monitor keeps, read.

ghost use Rattle.std.specs.Prelude.{◌≡◌, ◌<◌, All, Some, if◌then◌else◌, length};
ghost use Rattle.flat_core.specs.System.{equation};
ghost use Rattle.flat_core.specs.Updates.{running_updates};
ghost use Rattle.state_snapshot.specs.inner.Reading.{Gives, event_at, events_at, input_type, is_event_below, items_at, kept_types};
ghost use Rattle.state_snapshot.specs.inner.Reading.{cells_at, monitor_at, number_at, optional_at, registers_at, rise_by};

use crate::cells::read_content;
use crate::fault::StateFault;
use crate::fields::{Read, read_number, read_optional, read_scalar};
use crate::registers::read_register;
use flat_core::equation::{Equation, Op};
use flat_core::flat::Flat;
use monitor_state::state::{
    Cells, MonitorState, Numbers, OpenEvent, OpenEvents, PendingTimes, SavedRegisters,
};
use register_code::code::Code;
use std::alloc::Global;
use tsl_value::ids::EqId;
use tsl_value::scalar::{ScalarType, ValueType};

// ---- open events

/// The type of an input.
fn input_type(equation: &Equation) -> Option<ScalarType>
    ensures { result ≡ input_type (Some equation.now) }
{
    match (&equation.op, equation.of) {
        (Op::Input, ValueType::Scalar(of)) => Some(of),
        _ => None,
    }
}

/// The type of the input of a number, if there is one.
fn type_at(flat: &Flat, number: u64) -> Option<ScalarType>
    ensures { result ≡ input_type (equation flat.now number) }
{
    if number < u64::from(flat.count()) {
        input_type(flat.equation(EqId::new(number as u32)))
    } else {
        None
    }
}

#[tactic(auto, unfolding(crate::specs::inner::Reading::event_at))]
fn read_event<'b>(alloc: Global, flat: &Flat, bytes: &'b [u8]) -> Read<'b, OpenEvent>
    ensures { Gives (λ x. (x.0, x.1.now)) result (event_at flat.now bytes.now) }
{
    let (number, rest) = read_number(bytes)?;
    let Some(of) = type_at(flat, number) else {
        return Err(StateFault::WrongForm);
    };
    let (value, rest) = read_scalar(alloc, of, rest)?;
    flat.assert_whole();
    let equation = EqId::new(number as u32);
    Ok((OpenEvent { equation, value }, rest))
}

/// So many open events.
fn read_some_events<'b>(
    alloc: Global,
    flat: &Flat,
    count: u64,
    bytes: &'b [u8],
) -> Read<'b, OpenEvents>
    ensures { Gives (λ x. (x.0, x.1.now)) result (items_at (event_at flat.now) count bytes.now) }
{
    let mut events = OpenEvents::new(alloc);
    let mut rest = bytes;
    for _ in 0..count {
        let (event, after) = read_event(alloc, flat, rest)?;
        events.push(event)?;
        rest = after;
    }
    Ok((events, rest))
}

fn is_below(a: &OpenEvent, b: &OpenEvent) -> bool
    ensures { result ≡ is_event_below a.now b.now }
{
    a.equation.get() < b.equation.get()
}

/// Whether each event's equation is below the next one's.
fn are_rising(events: &[OpenEvent]) -> bool
    ensures { result ≡ rise_by is_event_below events.now }
{
    let Some((first, others)) = events.split_first() else {
        return true;
    };
    let mut last = first;
    for event in others {
        if !is_below(last, event) {
            return false;
        }
        last = event;
    }
    true
}

/// Their number, and the open events by equation.
#[tactic(auto, unfolding(crate::specs::inner::Reading::events_at))]
fn read_events<'b>(alloc: Global, flat: &Flat, bytes: &'b [u8]) -> Read<'b, OpenEvents>
    ensures { Gives (λ x. (x.0, x.1.now)) result (events_at flat.now bytes.now) }
{
    let (count, rest) = read_number(bytes)?;
    let (events, rest) = read_some_events(alloc, flat, count, rest)?;
    if !are_rising(events.as_slice()) {
        return Err(StateFault::WrongForm);
    }
    Ok((events, rest))
}

// ---- what is kept

/// So many numbers.
fn read_numbers(alloc: Global, count: u64, bytes: &[u8]) -> Read<'_, Numbers>
    ensures { Gives (λ x. (x.0, x.1.now)) result (items_at number_at count bytes.now) }
{
    let mut numbers = Numbers::new(alloc);
    let mut rest = bytes;
    for _ in 0..count {
        let (number, after) = read_number(rest)?;
        numbers.push(number)?;
        rest = after;
    }
    Ok((numbers, rest))
}

/// The registers of what is kept, with the types of the cells that they name.
fn read_registers<'b>(
    alloc: Global,
    flat: &Flat,
    keeps: &[EqId],
    types: &mut Vec<ValueType>,
    bytes: &'b [u8],
) -> Read<'b, SavedRegisters>
    requires { All (λ i. i < length flat.now.equations) keeps.now }
    ensures { Gives (λ x. ((x.0, types.new.items), x.1.now)) result
        (registers_at types.old.items (kept_types flat.now keeps.now) bytes.now) }
{
    let mut registers = SavedRegisters::new(alloc);
    let mut rest = bytes;
    for id in keeps {
        let (register, after) = read_register(alloc, types, flat.equation(*id).of, rest)?;
        registers.push(register)?;
        rest = after;
    }
    Ok((registers, rest))
}

/// An aggregate of each type.
fn read_cells<'b>(alloc: Global, types: &[ValueType], bytes: &'b [u8]) -> Read<'b, Cells>
    ensures { Gives (λ x. (x.0, x.1.now)) result (cells_at types.now bytes.now) }
{
    let mut cells = Cells::new(alloc);
    let mut rest = bytes;
    for of in types {
        let (content, after) = read_content(alloc, *of, rest)?;
        cells.push(content)?;
        rest = after;
    }
    Ok((cells, rest))
}

/// So many times of delays.
fn read_pending(alloc: Global, count: usize, bytes: &[u8]) -> Read<'_, PendingTimes>
    ensures { Gives (λ x. (x.0, x.1.now)) result (items_at optional_at count bytes.now) }
{
    let mut times = PendingTimes::new(alloc);
    let mut rest = bytes;
    for _ in 0..count {
        // Where a reference comes with an `Option<Time>`, `?` has no rule of borrowing.
        match read_optional(rest) {
            Ok((time, after)) => {
                times.push(time)?;
                rest = after;
            }
            Err(fault) => return Err(fault),
        }
    }
    Ok((times, rest))
}

fn one_if(is: bool) -> u64
    ensures { result ≡ (if is then 1 else 0) }
{
    if is { 1 } else { 0 }
}

/// The number of updates that run.
fn count_updates(flat: &Flat) -> u64
    ensures { result ≡ length (running_updates flat.now) }
{
    let mut count = 0;
    for number in 0..flat.count() {
        count += one_if(flat.is_running_update(EqId::new(number)));
    }
    count
}

/// What a monitor keeps, whose bound this is.
#[tactic(auto, unfolding(crate::specs::inner::Reading::monitor_at))]
pub(crate) fn read_monitor<'b>(
    alloc: Global,
    code: &Code,
    bound: u64,
    bytes: &'b [u8],
) -> Read<'b, MonitorState>
    ensures { Gives (λ x. (x.0, x.1.now)) result (monitor_at code.now.system bound bytes.now) }
{
    let flat = code.flat();
    let (instants, rest) = read_number(bytes)?;
    let (open_events, rest) = read_events(alloc, flat, rest)?;
    let (ledger, rest) = read_numbers(alloc, count_updates(flat), rest)?;
    let mut types = Vec::new(alloc);
    let (registers, rest) = read_registers(alloc, flat, code.keeps(), &mut types, rest)?;
    let (cells, rest) = read_cells(alloc, &types, rest)?;
    let (pending, rest) = read_pending(alloc, code.timers().len(), rest)?;
    let state = MonitorState {
        bound,
        instants,
        open_events,
        ledger,
        registers,
        cells,
        pending,
    };
    Ok((state, rest))
}
