// What is kept of an instant.

ghost use Rattle.std.specs.Prelude.{◌≡◌, ◌<◌, ◌&&◌, ◌||◌, ℕ, All, false, if◌then◌else◌, length, map, slice_index_or, slice_set, OnOk, OnErr};
ghost use Rattle.std.specs.Prelude.{IsFalse, IsTrue};
ghost use Rattle.std.specs.FinMap as finite_map;
ghost use Rattle.cell_reader.specs.inner.Cells.{IsLive};
ghost use Rattle.aggregate_store.specs.inner.Stored.{is_listed};
ghost use Rattle.flat_core.specs.Members.{is_in};
ghost use Rattle.monitor_run.specs.inner.Here.{IsBare};
ghost use Rattle.monitor_run.specs.inner.Instant.{AreBare, cells_in, kept_in, kept_register};
ghost use Rattle.monitor_run.specs.inner.Registers.{register_at};

use crate::machine::put;
use aggregate_store::store::Store;
use body_eval::register::Register;
use std::mem;
use tsl_value::ids::{EqId, Handle};
use tsl_value::memory::NoMemory;

/// Empties the registers that were filled. Those that are kept are moved into the last registers. It is answered whether one of them held
/// a cell.
fn keep(kept: &[bool], filled: &[EqId], registers: &mut [Register], last: &mut [Register]) -> bool
    requires known { All (λ i. i < length registers.old) filled.now }
    requires one_each { length last.old ≡ length registers.old }
    requires kept_each { length kept.now ≡ length registers.old }
    ensures last { (i : ℕ) → register_at last.new i
        ≡ (if is_in filled.now i && slice_index_or kept.now i false then kept_register (register_at registers.old i) (register_at last.old i)
        else register_at last.old i) }
    ensures registers { (i : ℕ) → register_at registers.new i
        ≡ (if is_in filled.now i then Register.Empty else register_at registers.old i) }
    ensures bare { IsFalse result → (i : ℕ) → IsTrue (is_in filled.now i) → IsBare (register_at registers.old i) }
{
    let mut touched = false;
    for id in filled {
        let place = id.get() as usize;
        touched = touched | keep_one(kept[place], place, registers, last);
    }
    touched
}

/// A register holds a cell.
fn holds_cell(register: &Register) -> bool
    ensures { IsFalse result → IsBare register.now }
{
    match register {
        Register::Aggregate(_) => true,
        _ => false,
    }
}

/// Empties a register. Nothing is written where it is empty already. It is answered whether it held a cell.
fn clear(register: &mut Register) -> bool
    ensures emptied { register.new ≡ Register.Empty }
    ensures bare { IsFalse result → IsBare register.old }
{
    match register {
        Register::Empty => false,
        Register::Scalar(_) => {
            *register = Register::Empty;
            false
        }
        Register::Aggregate(_) => {
            *register = Register::Empty;
            true
        }
    }
}

/// Empties all registers. It is answered whether one of them held a cell.
fn empty_all(registers: &mut [Register]) -> bool
    ensures emptied { registers.new ≡ map (λ _. Register.Empty) registers.old }
    ensures bare { IsFalse result → AreBare registers.old }
{
    let mut touched = false;
    for register in registers.iter_mut() {
        touched = touched | clear(register);
    }
    touched
}

/// Empties the registers that may be filled: all where all steps ran, which needs no list of them, or else those that were filled. Those
/// that are kept are moved into the last registers. It is answered whether one of them held a cell.
pub(crate) fn keep_filled(
    all: bool,
    kept: &[bool],
    keeps: &[EqId],
    filled: &[EqId],
    registers: &mut [Register],
    last: &mut [Register],
) -> bool
    requires keeps_known { All (λ i. i < length registers.old) keeps.now }
    requires known { IsFalse all → All (λ i. i < length registers.old) filled.now }
    requires one_each { length last.old ≡ length registers.old }
    requires kept_each { length kept.now ≡ length registers.old }
    requires kept { (i : ℕ) → IsTrue (is_in keeps.now i) → IsTrue (slice_index_or kept.now i false) }
    ensures last { (i : ℕ) → register_at last.new i
        ≡ (if (if all then is_in keeps.now i else is_in filled.now i && slice_index_or kept.now i false)
        then kept_register (register_at registers.old i) (register_at last.old i) else register_at last.old i) }
    ensures registers { (i : ℕ) → register_at registers.new i
        ≡ (if all || is_in filled.now i then Register.Empty else register_at registers.old i) }
    ensures bare { IsFalse result → (i : ℕ) → IsTrue (all || is_in filled.now i) → IsBare (register_at registers.old i) }
{
    if !all {
        return keep(kept, filled, registers, last);
    }
    let moved = keep(kept, keeps, registers, last);
    let emptied = empty_all(registers);
    moved | emptied
}

/// Empties the register of an equation. If it is kept, it is moved. It is answered whether it held a cell.
fn keep_one(is_kept: bool, place: usize, registers: &mut [Register], last: &mut [Register]) -> bool
    requires there { place < length registers.old }
    requires place { place < length last.old }
    ensures moved { registers.new ≡ slice_set registers.old place Register.Empty }
    ensures kept { last.new ≡ (if is_kept then kept_in (register_at registers.old place) place last.old else last.old) }
    ensures bare { IsFalse result → IsBare (register_at registers.old place) }
{
    if !is_kept {
        return clear(&mut registers[place]);
    }
    let register = mem::replace(&mut registers[place], Register::Empty);
    let touched = holds_cell(&register);
    if !register.is_empty() {
        put(register, place, last);
    }
    touched
}

/// Puts the cells that the last registers hold in the place of what was listed.
fn list_kept(keeps: &[EqId], last: &[Register], cells: &mut Vec<Handle>) -> Result<(), NoMemory>
    requires { All (λ i. i < length last.now) keeps.now }
    ensures { OnOk result (cells.new.items ≡ cells_in last.now keeps.now) }
{
    cells.clear();
    for id in keeps {
        if let Register::Aggregate(cell) = &last[id.get() as usize] {
            cells.push(*cell)?;
        }
    }
    Ok(())
}

/// There is one cell, and one is listed.
fn is_sole(count: u64, cells: &[Handle]) -> bool
    ensures { IsTrue result → (count ≡ 1) × (0 < length cells.now) }
{
    if count != 1 {
        return false;
    }
    !cells.is_empty()
}

/// Drops the cells that no last register holds. Where no register of the instant held a cell there is none to drop, and none is listed.
/// Else the list has the others afterwards; its room is used again. Where there is one cell and one is held, none has to be looked for.
pub(crate) fn drop_others(
    touched: bool,
    keeps: &[EqId],
    last: &[Register],
    cells: &mut Vec<Handle>,
    store: &mut Store,
) -> Result<(), NoMemory>
    requires known { All (λ i. i < length last.now) keeps.now }
    requires live { (h : ℕ) → IsTrue (is_listed (cells_in last.now keeps.now) h) → IsLive store.old.cells h }
    requires all_held { IsFalse touched → (h : ℕ) → IsLive store.old.cells h → IsTrue (is_listed (cells_in last.now keeps.now) h) }
    ensures ok { OnOk result
        (store.new ≡ record store.old { cells = finite_map.retain_keys store.old.cells (is_listed (cells_in last.now keeps.now)) }) }
    ensures err { OnErr result (store.new ≡ store.old) }
{
    if !touched {
        return Ok(());
    }
    let count = store.count();
    if count == 0 {
        return Ok(());
    }
    list_kept(keeps, last, cells)?;
    if is_sole(count, cells) {
        return Ok(());
    }
    store.keep_only(cells);
    Ok(())
}
