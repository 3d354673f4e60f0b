// What operations on aggregates make of values.

ghost use Rattle.std.specs.Prelude.{◌≡◌, IfOk, Ok, [], ◌∷◌};
ghost use Rattle.std.specs.Option.{option_copied};
ghost use Rattle.lift_func.specs.Update.{update_answer, updated};
ghost use Rattle.aggregate_store.specs.inner.CellView as cell_view;
ghost use Rattle.aggregate_store.specs.inner.Stored.{with_added, with_last, without_front, without_key};
ghost use Rattle.flat_core.specs.Events.{at_zero, picked};
ghost use Rattle.tsl_value.specs.Aggregate.{empty_of};
ghost use Rattle.plain_solver.specs.inner.ValueView.{IsAnswer, IsUpdate};

use crate::value::{Held, Value};
use aggregate_store::cell::Cell;
use body_eval::eval::EvalFault;
use lift_func::fault::FaultKind;
use std::alloc::Global;
use tsl_value::memory::NoMemory;
use tsl_value::operation::Update;
use tsl_value::scalar::{Scalar, ValueType};
use tsl_value::time::Time;

/// The aggregate of a type that has no element.
fn empty(alloc: Global, of: ValueType) -> Result<Value, NoMemory>
    ensures { IfOk result (λ v. v ≡ empty_of of) }
{
    match of {
        ValueType::Scalar(_) => Ok(Value::of_scalar(Scalar::Unit)),
        ValueType::Set(key) => Value::of_cell(alloc, Cell::empty(alloc, ValueType::Set(key))),
        ValueType::Map(key, value) => Value::of_cell(
            alloc,
            Cell::empty(alloc, ValueType::Map(key, value)),
        ),
        ValueType::Queue(element) => Value::of_cell(
            alloc,
            Cell::empty(alloc, ValueType::Queue(element)),
        ),
    }
}

/// It at time 0.
pub(crate) fn empty_at(alloc: Global, of: ValueType, t: Time) -> Result<Option<Value>, NoMemory>
    ensures { IfOk result (λ v. v ≡ at_zero t (empty_of of)) }
{
    if t.get() == 0 {
        Ok(Some(empty(alloc, of)?))
    } else {
        Ok(None)
    }
}

/// The first of two values where a condition is true, and the second where it is false, if all three are there.
pub(crate) fn picked<'a>(
    condition: Option<&Value>,
    a: Option<&'a Value>,
    b: Option<&'a Value>,
) -> Option<&'a Value>
    ensures { (option_copied result)
        ≡ picked (option_copied condition.entry) (option_copied a.entry) (option_copied b.entry) }
{
    match (condition, a, b) {
        (Some(condition), Some(_), Some(_)) => match condition.held() {
            Held::Scalar(Scalar::Bool(is_first)) => { if *is_first { a } else { b } }
            _ => None,
        },
        _ => None,
    }
}

/// A cell with a key added, or with another value at it.
fn added(alloc: Global, cell: &Cell, key: &Scalar, value: &Scalar) -> Result<Value, NoMemory>
    ensures { IfOk result (λ v. v ≡ with_added (cell_view.view_of cell.now) key.now value.now) }
{
    let mut copy = cell.copy()?;
    copy.add(key.copy()?, value.copy()?)?;
    Value::of_cell(alloc, copy)
}

/// A cell without a key.
fn removed(alloc: Global, cell: &Cell, key: &Scalar) -> Result<Value, NoMemory>
    ensures { IfOk result (λ v. v ≡ without_key (cell_view.view_of cell.now) key.now) }
{
    let mut copy = cell.copy()?;
    copy.remove(key);
    Value::of_cell(alloc, copy)
}

/// A cell with a value after the last element of its queue.
fn enqueued(alloc: Global, cell: &Cell, value: &Scalar) -> Result<Value, NoMemory>
    ensures { IfOk result (λ v. v ≡ with_last (cell_view.view_of cell.now) value.now) }
{
    let mut copy = cell.copy()?;
    copy.enqueue(value)?;
    Value::of_cell(alloc, copy)
}

/// A cell without the first element of its queue.
fn dequeued(alloc: Global, cell: &Cell) -> Result<Value, NoMemory>
    ensures { IfOk result (λ v. v ≡ without_front (cell_view.view_of cell.now)) }
{
    let mut copy = cell.copy()?;
    copy.dequeue();
    Value::of_cell(alloc, copy)
}

/// A set with a key.
fn set_with(alloc: Global, set: &Value, key: &Value) -> Result<Value, NoMemory>
    ensures { IfOk result (λ v. updated Update.SetAdd set.now (key.now ∷ []) ≡ Ok v) }
{
    match (set.held(), key.held()) {
        (Held::Aggregate(cell), Held::Scalar(key)) => match &**cell {
            Cell::Set(_) => added(alloc, cell, key, &Scalar::Unit),
            Cell::Map(_) => set.copy(),
            Cell::Queue(_) => set.copy(),
        },
        _ => set.copy(),
    }
}

/// A set without a key.
fn set_without(alloc: Global, set: &Value, key: &Value) -> Result<Value, NoMemory>
    ensures { IfOk result (λ v. updated Update.SetRemove set.now (key.now ∷ []) ≡ Ok v) }
{
    match (set.held(), key.held()) {
        (Held::Aggregate(cell), Held::Scalar(key)) => match &**cell {
            Cell::Set(_) => removed(alloc, cell, key),
            Cell::Map(_) => set.copy(),
            Cell::Queue(_) => set.copy(),
        },
        _ => set.copy(),
    }
}

/// A map with a key and its value.
fn map_with(alloc: Global, map: &Value, key: &Value, value: &Value) -> Result<Value, NoMemory>
    ensures { IfOk result (λ v. updated Update.MapAdd map.now (key.now ∷ value.now ∷ []) ≡ Ok v) }
{
    match (map.held(), key.held(), value.held()) {
        (Held::Aggregate(cell), Held::Scalar(key), Held::Scalar(value)) => match &**cell {
            Cell::Set(_) => map.copy(),
            Cell::Map(_) => added(alloc, cell, key, value),
            Cell::Queue(_) => map.copy(),
        },
        _ => map.copy(),
    }
}

/// A map without a key.
fn map_without(alloc: Global, map: &Value, key: &Value) -> Result<Value, NoMemory>
    ensures { IfOk result (λ v. updated Update.MapRemove map.now (key.now ∷ []) ≡ Ok v) }
{
    match (map.held(), key.held()) {
        (Held::Aggregate(cell), Held::Scalar(key)) => match &**cell {
            Cell::Set(_) => map.copy(),
            Cell::Map(_) => removed(alloc, cell, key),
            Cell::Queue(_) => map.copy(),
        },
        _ => map.copy(),
    }
}

/// A queue with a value after its last element.
fn queue_with(alloc: Global, queue: &Value, value: &Value) -> Result<Value, NoMemory>
    ensures { IfOk result (λ v. updated Update.QueueAdd queue.now (value.now ∷ []) ≡ Ok v) }
{
    match (queue.held(), value.held()) {
        (Held::Aggregate(cell), Held::Scalar(value)) => match &**cell {
            Cell::Set(_) => queue.copy(),
            Cell::Map(_) => queue.copy(),
            Cell::Queue(_) => enqueued(alloc, cell, value),
        },
        _ => queue.copy(),
    }
}

/// A queue without its first element, or its fault.
fn queue_without(alloc: Global, queue: &Value) -> Result<Value, EvalFault>
    ensures { IsUpdate result (updated Update.QueueTake queue.now []) }
{
    match queue.held() {
        Held::Aggregate(cell) => match &**cell {
            Cell::Set(_) => Ok(queue.copy()?),
            Cell::Map(_) => Ok(queue.copy()?),
            Cell::Queue(elements) => {
                if elements.is_empty() {
                    return Err(EvalFault::Fault(FaultKind::EmptyQueue));
                }
                Ok(dequeued(alloc, cell)?)
            }
        },
        Held::Scalar(_) => Ok(queue.copy()?),
    }
}

/// A set with a key, where both are there.
pub(crate) fn key_added(
    alloc: Global,
    set: Option<&Value>,
    key: Option<&Value>,
) -> Result<Option<Value>, NoMemory>
    ensures { IfOk result (λ v. update_answer Update.SetAdd
        (option_copied set.entry ∷ option_copied key.entry ∷ []) ≡ Ok v) }
{
    match (set, key) {
        (Some(set), Some(key)) => Ok(Some(set_with(alloc, set, key)?)),
        _ => Ok(None),
    }
}

/// A set without a key, where both are there.
pub(crate) fn key_removed(
    alloc: Global,
    set: Option<&Value>,
    key: Option<&Value>,
) -> Result<Option<Value>, NoMemory>
    ensures { IfOk result (λ v. update_answer Update.SetRemove
        (option_copied set.entry ∷ option_copied key.entry ∷ []) ≡ Ok v) }
{
    match (set, key) {
        (Some(set), Some(key)) => Ok(Some(set_without(alloc, set, key)?)),
        _ => Ok(None),
    }
}

/// A map with a key and its value, where all three are there.
pub(crate) fn entry_added(
    alloc: Global,
    map: Option<&Value>,
    key: Option<&Value>,
    value: Option<&Value>,
) -> Result<Option<Value>, NoMemory>
    ensures { IfOk result (λ v. update_answer Update.MapAdd
        (option_copied map.entry ∷ option_copied key.entry ∷ option_copied value.entry ∷ []) ≡ Ok v) }
{
    match (map, key, value) {
        (Some(map), Some(key), Some(value)) => Ok(Some(map_with(alloc, map, key, value)?)),
        _ => Ok(None),
    }
}

/// A map without a key, where both are there.
pub(crate) fn entry_removed(
    alloc: Global,
    map: Option<&Value>,
    key: Option<&Value>,
) -> Result<Option<Value>, NoMemory>
    ensures { IfOk result (λ v. update_answer Update.MapRemove
        (option_copied map.entry ∷ option_copied key.entry ∷ []) ≡ Ok v) }
{
    match (map, key) {
        (Some(map), Some(key)) => Ok(Some(map_without(alloc, map, key)?)),
        _ => Ok(None),
    }
}

/// A queue with a value after its last element, where both are there.
pub(crate) fn element_added(
    alloc: Global,
    queue: Option<&Value>,
    value: Option<&Value>,
) -> Result<Option<Value>, NoMemory>
    ensures { IfOk result (λ v. update_answer Update.QueueAdd
        (option_copied queue.entry ∷ option_copied value.entry ∷ []) ≡ Ok v) }
{
    match (queue, value) {
        (Some(queue), Some(value)) => Ok(Some(queue_with(alloc, queue, value)?)),
        _ => Ok(None),
    }
}

/// A queue without its first element, where it is there, or its fault.
pub(crate) fn element_taken(
    alloc: Global,
    queue: Option<&Value>,
) -> Result<Option<Value>, EvalFault>
    ensures { IsAnswer result (update_answer Update.QueueTake (option_copied queue.entry ∷ [])) }
{
    match queue {
        Some(queue) => Ok(Some(queue_without(alloc, queue)?)),
        None => Ok(None),
    }
}
