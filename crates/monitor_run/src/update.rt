// Updates of aggregates: each makes a copy, or changes the aggregate where it lies.

ghost use Rattle.std.specs.Prelude.{◌≡◌, ◌<◌, All, Some, Ok, [], ◌∷◌, suc, IfOk, OnErr, length, map};
ghost use Rattle.std.specs.Option.{option_copied};
ghost use Rattle.cell_reader.specs.inner.Cells.{FitsKey, IsLive, IsQueue, view_at};
ghost use Rattle.body_eval.specs.inner.Registers.{held};
ghost use Rattle.body_eval.specs.inner.Registers as cell_registers;
ghost use Rattle.lift_func.specs.Update.{beside, update_answer};
ghost use Rattle.aggregate_store.specs.inner.Stored.{FitsValue, HasFront, with_added, with_last, without_front, without_key};
ghost use Rattle.monitor_run.specs.inner.Here.{HasAnswer, HasUpdated, HoldsNoScalar, IsBare, IsRemoval, TakesUpdate, made_of};
ghost use Rattle.monitor_run.specs.inner.Here.{register_of, source_of};
ghost use Rattle.monitor_run.specs.inner.Registers.{register_at, value_at};

use crate::case::argument;
use aggregate_store::store::Store;
use body_eval::eval::EvalFault;
use body_eval::register::Register;
use cell_reader::reader::Reader;
use flat_core::lists::Args;
use lift_func::fault::FaultKind;
use tsl_value::ids::{EqId, Handle};
use tsl_value::memory::NoMemory;
use tsl_value::operation::Update;
use tsl_value::scalar::Scalar;

/// How an update runs: the number of its equation, and whether it happens in place.
#[derive(Clone, Copy)]
pub(crate) struct UpdateRun {
    pub id: EqId,
    pub in_place: bool,
}

/// Adds a key with its value: to the cell itself, or to a copy.
#[inline(always)]
fn add(
    run: UpdateRun,
    source: Handle,
    key: &Scalar,
    value: &Scalar,
    store: &mut Store,
) -> Result<Option<Handle>, NoMemory>
    requires live { IsLive store.old.cells source }
    requires key { FitsKey (view_at store.old.cells source) key.now }
    requires value { FitsValue (view_at store.old.cells source) value.now }
    requires update { run.id < length store.old.ledger }
    ensures updated { IfOk result (λ h. HasUpdated run.in_place run.id (Register.Aggregate source) store.old store.new (register_of h)
        (Some (with_added (view_at store.old.cells source) key.now value.now))) }
    ensures err { OnErr result (store.new ≡ store.old) }
{
    let handle = if run.in_place {
        store.add_in_place(source, key, value)?;
        source
    } else {
        store.copy_add(run.id.get(), source, key, value)?
    };
    Ok(Some(handle))
}

/// Takes a key out: of the cell itself, or of a copy.
fn remove(
    run: UpdateRun,
    source: Handle,
    key: &Scalar,
    store: &mut Store,
) -> Result<Option<Handle>, NoMemory>
    requires live { IsLive store.old.cells source }
    requires key { FitsKey (view_at store.old.cells source) key.now }
    requires update { run.id < length store.old.ledger }
    ensures updated { IfOk result (λ h. HasUpdated run.in_place run.id (Register.Aggregate source) store.old store.new (register_of h)
        (Some (without_key (view_at store.old.cells source) key.now))) }
    ensures err { OnErr result (store.new ≡ store.old) }
{
    let handle = if run.in_place {
        store.remove_in_place(source, key);
        source
    } else {
        store.copy_remove(run.id.get(), source, key)?
    };
    Ok(Some(handle))
}

/// Puts a value after the last element: of the cell itself, or of a copy.
fn enqueue(
    run: UpdateRun,
    source: Handle,
    value: &Scalar,
    store: &mut Store,
) -> Result<Option<Handle>, NoMemory>
    requires live { IsLive store.old.cells source }
    requires queue { IsQueue (view_at store.old.cells source) }
    requires update { run.id < length store.old.ledger }
    ensures updated { IfOk result (λ h. HasUpdated run.in_place run.id (Register.Aggregate source) store.old store.new (register_of h)
        (Some (with_last (view_at store.old.cells source) value.now))) }
    ensures err { OnErr result (store.new ≡ store.old) }
{
    let handle = if run.in_place {
        store.enqueue_in_place(source, value)?;
        source
    } else {
        store.copy_enqueue(run.id.get(), source, value)?
    };
    Ok(Some(handle))
}

/// Takes the first element: of the cell itself, or of a copy.
fn dequeue(run: UpdateRun, source: Handle, store: &mut Store) -> Result<Option<Handle>, NoMemory>
    requires live { IsLive store.old.cells source }
    requires front { HasFront (view_at store.old.cells source) }
    requires update { run.id < length store.old.ledger }
    ensures updated { IfOk result (λ h. HasUpdated run.in_place run.id (Register.Aggregate source) store.old store.new (register_of h)
        (Some (without_front (view_at store.old.cells source)))) }
    ensures err { OnErr result (store.new ≡ store.old) }
{
    let handle = if run.in_place {
        store.dequeue_in_place(source);
        source
    } else {
        store.copy_dequeue(run.id.get(), source)?
    };
    Ok(Some(handle))
}

/// The cell that a register holds, if any.
fn cell_of(register: &Register) -> Option<Handle>
    requires { HoldsNoScalar register.now }
    ensures { register_of result ≡ register.now }
{
    match register {
        Register::Empty => None,
        Register::Scalar(_) => unreachable!(),
        Register::Aggregate(cell) => Some(*cell),
    }
}

/// The scalar that a register holds, if any.
fn scalar_of(register: &Register) -> Option<&Scalar>
    requires { IsBare register.now }
    ensures { cell_registers.register_of (option_copied result) ≡ register.now }
{
    match register {
        Register::Empty => None,
        Register::Scalar(scalar) => Some(scalar),
        Register::Aggregate(_) => unreachable!(),
    }
}

/// A set with a key, where both have events.
fn key_added(
    run: UpdateRun,
    set: &Register,
    key: &Register,
    store: &mut Store,
) -> Result<Option<Handle>, NoMemory>
    requires typed { TakesUpdate store.old.cells Update.SetAdd (set.now ∷ key.now ∷ []) }
    requires update { run.id < length store.old.ledger }
    ensures updated { IfOk result (λ h. HasAnswer run.in_place run.id set.now store.old store.new (Ok (register_of h))
        (update_answer Update.SetAdd (held store.old.cells set.now ∷ held store.old.cells key.now ∷ []))) }
    ensures err { OnErr result (store.new ≡ store.old) }
{
    let Some(set) = cell_of(set) else {
        return Ok(None);
    };
    let Some(key) = scalar_of(key) else {
        return Ok(None);
    };
    add(run, set, key, &Scalar::Unit, store)
}

/// An aggregate without a key, where both have events: the update is one of sets or one of maps.
fn key_removed(
    update: Update,
    run: UpdateRun,
    aggregate: &Register,
    key: &Register,
    store: &mut Store,
) -> Result<Option<Handle>, NoMemory>
    requires removes { IsRemoval update }
    requires typed { TakesUpdate store.old.cells update (aggregate.now ∷ key.now ∷ []) }
    requires update { run.id < length store.old.ledger }
    ensures updated { IfOk result (λ h. HasAnswer run.in_place run.id aggregate.now store.old store.new (Ok (register_of h))
        (update_answer update (held store.old.cells aggregate.now ∷ held store.old.cells key.now ∷ []))) }
    ensures err { OnErr result (store.new ≡ store.old) }
{
    let Some(aggregate) = cell_of(aggregate) else {
        return Ok(None);
    };
    let Some(key) = scalar_of(key) else {
        return Ok(None);
    };
    remove(run, aggregate, key, store)
}

/// A map with a key and its value, where all three have events.
fn entry_added(
    run: UpdateRun,
    map: &Register,
    key: &Register,
    value: &Register,
    store: &mut Store,
) -> Result<Option<Handle>, NoMemory>
    requires typed { TakesUpdate store.old.cells Update.MapAdd (map.now ∷ key.now ∷ value.now ∷ []) }
    requires update { run.id < length store.old.ledger }
    ensures updated { IfOk result (λ h. HasAnswer run.in_place run.id map.now store.old store.new (Ok (register_of h))
        (update_answer Update.MapAdd
        (held store.old.cells map.now ∷ held store.old.cells key.now ∷ held store.old.cells value.now ∷ []))) }
    ensures err { OnErr result (store.new ≡ store.old) }
{
    let Some(map) = cell_of(map) else {
        return Ok(None);
    };
    let Some(key) = scalar_of(key) else {
        return Ok(None);
    };
    let Some(value) = scalar_of(value) else {
        return Ok(None);
    };
    add(run, map, key, value, store)
}

/// A queue with a value after its last element, where both have events.
fn element_added(
    run: UpdateRun,
    queue: &Register,
    value: &Register,
    store: &mut Store,
) -> Result<Option<Handle>, NoMemory>
    requires typed { TakesUpdate store.old.cells Update.QueueAdd (queue.now ∷ value.now ∷ []) }
    requires update { run.id < length store.old.ledger }
    ensures updated { IfOk result (λ h. HasAnswer run.in_place run.id queue.now store.old store.new (Ok (register_of h))
        (update_answer Update.QueueAdd (held store.old.cells queue.now ∷ held store.old.cells value.now ∷ []))) }
    ensures err { OnErr result (store.new ≡ store.old) }
{
    let Some(queue) = cell_of(queue) else {
        return Ok(None);
    };
    let Some(value) = scalar_of(value) else {
        return Ok(None);
    };
    enqueue(run, queue, value, store)
}

/// A queue without its first element, where it has an event, or its fault, which changes nothing: no copy is made of an empty queue.
fn element_taken(
    run: UpdateRun,
    queue: &Register,
    store: &mut Store,
) -> Result<Option<Handle>, EvalFault>
    requires typed { TakesUpdate store.old.cells Update.QueueTake (queue.now ∷ []) }
    requires update { run.id < length store.old.ledger }
    ensures updated { HasAnswer run.in_place run.id queue.now store.old store.new (made_of result)
        (update_answer Update.QueueTake (held store.old.cells queue.now ∷ [])) }
    ensures err { OnErr result (store.new ≡ store.old) }
{
    let Some(queue) = cell_of(queue) else {
        return Ok(None);
    };
    if store.size(queue) == 0 {
        return Err(EvalFault::Fault(FaultKind::EmptyQueue));
    }
    Ok(dequeue(run, queue, store)?)
}

/// The aggregate that an update makes of the one of its first argument, or its fault, which changes nothing.
pub(crate) fn updated(
    update: Update,
    args: &Args,
    run: UpdateRun,
    registers: &[Register],
    store: &mut Store,
) -> Result<Option<Handle>, EvalFault>
    requires many { length args.now ≡ suc (beside update) }
    requires known { All (λ a. a < length registers.now) args.now }
    requires typed { TakesUpdate store.old.cells update (map (register_at registers.now) args.now) }
    requires number { run.id < length store.old.ledger }
    ensures updated { HasAnswer run.in_place run.id (source_of registers.now args.now) store.old store.new (made_of result)
        (update_answer update (map (value_at store.old.cells registers.now) args.now)) }
    ensures err { OnErr result (store.new ≡ store.old) }
{
    let aggregate = argument(registers, args, 0);
    match update {
        Update::SetAdd => Ok(key_added(run, aggregate, argument(registers, args, 1), store)?),
        Update::SetRemove | Update::MapRemove => Ok(key_removed(
            update,
            run,
            aggregate,
            argument(registers, args, 1),
            store,
        )?),
        Update::MapAdd => Ok(entry_added(
            run,
            aggregate,
            argument(registers, args, 1),
            argument(registers, args, 2),
            store,
        )?),
        Update::QueueAdd => Ok(element_added(run, aggregate, argument(registers, args, 1), store)?),
        Update::QueueTake => element_taken(run, aggregate, store),
    }
}
