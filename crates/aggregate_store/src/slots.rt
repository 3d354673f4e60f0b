// Slots, each of which has a cell or is free.

ghost use Rattle.std.specs.Prelude.{◌≡◌, ◌<◌, ◌≤◌, None, OnOk, length, slice_index_or};
ghost use Rattle.std.specs.FinMap as finite_map;
ghost use Rattle.aggregate_store.specs.inner.CellView.{cells_of};
ghost use Rattle.aggregate_store.specs.inner.Slots.{AreNoted};
ghost use Rattle.aggregate_store.specs.inner.Stored.{is_listed};

use crate::cell::Cell;
use tsl_value::ids::Handle;
use tsl_value::memory::NoMemory;

/// The first free slot from a place on, or the place after the last.
pub(crate) fn free_from(start: usize, slots: &[Option<Cell>]) -> usize
    ensures free { slice_index_or slots.now result None ≡ None }
    ensures within { result ≤ length slots.now }
{
    for place in start..slots.len() {
        if slots[place].is_none() {
            return place;
        }
    }
    slots.len()
}

/// Makes a note for a slot, if it is the first that has none.
pub(crate) fn add_note(slot: usize, notes: &mut Vec<usize>) -> Result<(), NoMemory>
    ensures { OnOk result (slot ≤ length notes.old.items → slot < length notes.new.items) }
{
    if slot == notes.len() {
        notes.push(0)?;
    }
    Ok(())
}

/// Notes for each handle in a list of cells where it stands there. Other notes stay as they are.
fn note_places(cells: &[Handle], notes: &mut [usize])
    ensures { AreNoted cells.now notes.new }
{
    for (place, cell) in cells.iter().enumerate() {
        let slot = cell.get() as usize;
        if slot < notes.len() {
            notes[slot] = place;
        }
    }
}

/// Whether a handle is listed. Its note says where it stands, if it does; a slot without a note is looked for in the whole list.
fn is_noted(slot: usize, cells: &[Handle], notes: &[usize]) -> bool
    requires { AreNoted cells.now notes.now }
    ensures { result ≡ is_listed cells.now slot }
{
    let handle = Handle::new(slot as u64);
    if slot >= notes.len() {
        return cells.contains(&handle);
    }
    match cells.get(notes[slot]) {
        Some(cell) => *cell == handle,
        None => false,
    }
}

/// Drops the cells whose handles are not listed. A note for each slot lets it look at each cell of the list once; what the notes say before
/// does not matter.
pub(crate) fn drop_others(cells: &[Handle], notes: &mut [usize], slots: &mut Vec<Option<Cell>>)
    ensures { cells_of slots.new.items ≡ finite_map.retain_keys (cells_of slots.old.items) (is_listed cells.now) }
{
    note_places(cells, notes);
    for place in 0..slots.len() {
        if !is_noted(place, cells, notes) {
            slots[place] = None;
        }
    }
}

/// How many have a cell.
pub(crate) fn count(slots: &[Option<Cell>]) -> u64
    ensures { result ≡ finite_map.len (cells_of slots.now) }
{
    let mut count = 0;
    for slot in slots {
        if slot.is_some() {
            count += 1;
        }
    }
    count
}
