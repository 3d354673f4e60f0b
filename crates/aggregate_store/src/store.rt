// The store, which contracts see as a finite map from handles to views and a list of numbers.

ghost use Rattle.std.specs.Prelude.{◌≡◌, ◌<◌, ◌^◌, None, IfOk, IsTrue, OnOk, OnErr, length, replicate, slice_index, slice_set};
ghost use Rattle.std.specs.FinMap as finite_map;
ghost use Rattle.cell_reader.specs.inner.Cells.{FitsKey, IsLive, IsQueue, view_at};
ghost use Rattle.tsl_value.specs.Aggregate.{empty_of, is_aggregate, size_of};
ghost use Rattle.aggregate_store.specs.Content.{AllIn, AreInOrder, IsInRange, content_of, content_size, is_of_aggregate, view_in};
ghost use Rattle.aggregate_store.specs.inner.Stored.{FitsValue, HasFront, counted, is_listed, with_added, with_last};
ghost use Rattle.aggregate_store.specs.inner.Stored.{without_front, without_key};

use crate::cell::Cell;
use crate::content::{Content, cell_with, content_of};
use crate::print::print_cell;
use crate::slots::{add_note, count, drop_others, free_from};
use cell_reader::reader::Reader;
use std::alloc::Global;
use std::marker::Model;
use tsl_value::bytes::Bytes;
use tsl_value::ids::Handle;
use tsl_value::memory::NoMemory;
use tsl_value::scalar::{Scalar, ValueType};

/// Sets, maps and queues in cells behind handles, and a ledger: for each update, how many elements it has copied. Updates are
/// numbers below a bound. Several registers may hold one handle.
#[derive(Drop)]
pub struct Store {
    alloc: Global,
    // By their handles. A slot without a cell is free.
    slots: Vec<Option<Cell>>,
    // Where the next free slot is looked for. Those before it may be free too.
    start: usize,
    // For each slot where its handle stood in the list of cells that were kept last, if it did.
    notes: Vec<usize>,
    ledger: Vec<u64>,
}

impl Model for Store {
    ghost use Rattle.aggregate_store.specs.inner.Stored.{Stored, stored_code};

    ghost Value = { Stored };

    ghost coded = { stored_code };

    ghost use Rattle.aggregate_store.specs.inner.CellView.{cells_of};

    ghost view = { λ s. record { cells = cells_of s.slots.items; ledger = s.ledger.items } };
}

impl Store {
    ghost use Rattle.aggregate_store.specs.inner.CellView.{view_of};

    /// No cell, and 0 for each update.
    pub fn new(alloc: Global, updates: u32) -> Result<Store, NoMemory>
        ensures { IfOk result (λ store. store ≡ record { cells = finite_map.empty; ledger = replicate updates 0 }) }
    {
        let ledger = vec![in alloc; 0; updates as usize]?;
        Ok(Store {
            alloc,
            slots: Vec::new(alloc),
            start: 0,
            notes: Vec::new(alloc),
            ledger,
        })
    }

    /// Makes an empty cell of a type of sets, maps or queues. The handle was not live. After `NoMemory` all is as it was.
    pub fn empty(&mut self, of: ValueType) -> Result<Handle, NoMemory>
        requires { IsTrue (is_aggregate of) }
        ensures fresh { IfOk result (λ handle. ¬ (IsLive self.old.cells handle)) }
        ensures made { IfOk result (λ handle.
            self.new ≡ record self.old { cells = finite_map.insert self.old.cells handle (empty_of of) }) }
        ensures err { OnErr result (self.new ≡ self.old) }
    {
        self.place(Cell::empty(self.alloc, of))
    }

    /// Makes a cell with this content, which is that of a set, a map or a queue. The handle was not live. After `NoMemory` all is as it was.
    pub fn filled(&mut self, content: &Content) -> Result<Handle, NoMemory>
        requires aggregate { IsTrue (is_of_aggregate content.now) }
        requires in_order { AreInOrder content.now }
        ensures fresh { IfOk result (λ handle. ¬ (IsLive self.old.cells handle)) }
        ensures made { IfOk result (λ handle.
            self.new ≡ record self.old { cells = finite_map.insert self.old.cells handle (view_in content.now) }) }
        ensures err { OnErr result (self.new ≡ self.old) }
    {
        let cell = cell_with(self.alloc, content)?;
        self.place(cell)
    }

    /// Makes a cell with the source's elements and a key, which is added, or whose value is replaced. A set's value is
    /// `Unit`. The update's number grows by the source's size, and stands once it is 2^64 - 1. After `NoMemory` all is as
    /// it was.
    #[inline(never)]
    pub fn copy_add(
        &mut self,
        update: u32,
        source: Handle,
        key: &Scalar,
        value: &Scalar,
    ) -> Result<Handle, NoMemory>
        requires live { IsLive self.old.cells source }
        requires key { FitsKey (view_at self.old.cells source) key.now }
        requires value { FitsValue (view_at self.old.cells source) value.now }
        requires update { update < length self.old.ledger }
        ensures fresh { IfOk result (λ handle. ¬ (IsLive self.old.cells handle)) }
        ensures made { IfOk result (λ handle.
            self.new.cells ≡ finite_map.insert self.old.cells handle (with_added (view_at self.old.cells source) key.now value.now)) }
        ensures ledger { OnOk result
            (self.new.ledger ≡ counted self.old.ledger update (size_of (view_at self.old.cells source))) }
        ensures err { OnErr result (self.new ≡ self.old) }
    {
        let cell = self.cell(source);
        let size = cell.size();
        let mut copy = cell.copy()?;
        copy.add(key.copy()?, value.copy()?)?;
        let handle = self.place(copy)?;
        self.count_copied(update, size);
        Ok(handle)
    }

    /// Makes a cell with the source's elements without a key, which may be there or not. The update's number grows as by
    /// `copy_add`. After `NoMemory` all is as it was.
    #[inline(never)]
    pub fn copy_remove(
        &mut self,
        update: u32,
        source: Handle,
        key: &Scalar,
    ) -> Result<Handle, NoMemory>
        requires live { IsLive self.old.cells source }
        requires key { FitsKey (view_at self.old.cells source) key.now }
        requires update { update < length self.old.ledger }
        ensures fresh { IfOk result (λ handle. ¬ (IsLive self.old.cells handle)) }
        ensures made { IfOk result (λ handle.
            self.new.cells ≡ finite_map.insert self.old.cells handle (without_key (view_at self.old.cells source) key.now)) }
        ensures ledger { OnOk result
            (self.new.ledger ≡ counted self.old.ledger update (size_of (view_at self.old.cells source))) }
        ensures err { OnErr result (self.new ≡ self.old) }
    {
        let cell = self.cell(source);
        let size = cell.size();
        let mut copy = cell.copy()?;
        copy.remove(key);
        let handle = self.place(copy)?;
        self.count_copied(update, size);
        Ok(handle)
    }

    /// Makes a cell with the source's elements and a value after the last of them. The update's number grows as by `copy_add`. After
    /// `NoMemory` all is as it was.
    #[inline(never)]
    pub fn copy_enqueue(
        &mut self,
        update: u32,
        source: Handle,
        value: &Scalar,
    ) -> Result<Handle, NoMemory>
        requires live { IsLive self.old.cells source }
        requires queue { IsQueue (view_at self.old.cells source) }
        requires update { update < length self.old.ledger }
        ensures fresh { IfOk result (λ handle. ¬ (IsLive self.old.cells handle)) }
        ensures made { IfOk result (λ handle.
            self.new.cells ≡ finite_map.insert self.old.cells handle (with_last (view_at self.old.cells source) value.now)) }
        ensures ledger { OnOk result
            (self.new.ledger ≡ counted self.old.ledger update (size_of (view_at self.old.cells source))) }
        ensures err { OnErr result (self.new ≡ self.old) }
    {
        let cell = self.cell(source);
        let size = cell.size();
        let mut copy = cell.copy()?;
        copy.enqueue(value)?;
        let handle = self.place(copy)?;
        self.count_copied(update, size);
        Ok(handle)
    }

    /// Makes a cell with the source's elements but the first. The update's number grows by the source's size, as by `copy_add`. After
    /// `NoMemory` all is as it was.
    #[inline(never)]
    pub fn copy_dequeue(&mut self, update: u32, source: Handle) -> Result<Handle, NoMemory>
        requires live { IsLive self.old.cells source }
        requires front { HasFront (view_at self.old.cells source) }
        requires update { update < length self.old.ledger }
        ensures fresh { IfOk result (λ handle. ¬ (IsLive self.old.cells handle)) }
        ensures made { IfOk result (λ handle.
            self.new.cells ≡ finite_map.insert self.old.cells handle (without_front (view_at self.old.cells source))) }
        ensures ledger { OnOk result
            (self.new.ledger ≡ counted self.old.ledger update (size_of (view_at self.old.cells source))) }
        ensures err { OnErr result (self.new ≡ self.old) }
    {
        let cell = self.cell(source);
        let size = cell.size();
        let mut copy = cell.copy()?;
        copy.dequeue();
        let handle = self.place(copy)?;
        self.count_copied(update, size);
        Ok(handle)
    }

    /// Adds a key to a cell, or replaces its value. A set's value is `Unit`. The handle stays, and no update's number grows. After
    /// `NoMemory` all is as it was.
    #[inline(always)]
    pub fn add_in_place(
        &mut self,
        cell: Handle,
        key: &Scalar,
        value: &Scalar,
    ) -> Result<(), NoMemory>
        requires live { IsLive self.old.cells cell }
        requires key { FitsKey (view_at self.old.cells cell) key.now }
        requires value { FitsValue (view_at self.old.cells cell) value.now }
        ensures changed { OnOk result (self.new ≡ record self.old {
          cells = finite_map.insert self.old.cells cell (with_added (view_at self.old.cells cell) key.now value.now);
        }) }
        ensures err { OnErr result (self.new ≡ self.old) }
    {
        match &mut self.slots[cell.get() as usize] {
            Some(cell) => cell.add_copied(key, value),
            None => unreachable!(),
        }
    }

    /// Takes a key out of a cell, present or not. The cell stays, and no update's number grows. It takes no memory.
    pub fn remove_in_place(&mut self, cell: Handle, key: &Scalar)
        requires live { IsLive self.old.cells cell }
        requires key { FitsKey (view_at self.old.cells cell) key.now }
        ensures { self.new ≡ record self.old {
          cells = finite_map.insert self.old.cells cell (without_key (view_at self.old.cells cell) key.now);
        } }
    {
        match &mut self.slots[cell.get() as usize] {
            Some(cell) => cell.remove(key),
            None => unreachable!(),
        }
    }

    /// Puts a value after the last element of a queue. The handle stays, and no update's number grows. After `NoMemory` all is as it was.
    pub fn enqueue_in_place(&mut self, cell: Handle, value: &Scalar) -> Result<(), NoMemory>
        requires live { IsLive self.old.cells cell }
        requires queue { IsQueue (view_at self.old.cells cell) }
        ensures changed { OnOk result (self.new ≡ record self.old {
          cells = finite_map.insert self.old.cells cell (with_last (view_at self.old.cells cell) value.now);
        }) }
        ensures err { OnErr result (self.new ≡ self.old) }
    {
        match &mut self.slots[cell.get() as usize] {
            Some(cell) => cell.enqueue(value),
            None => unreachable!(),
        }
    }

    /// Drops the element in front of a queue. The handle stays, and no update's number grows. It takes no memory.
    pub fn dequeue_in_place(&mut self, cell: Handle)
        requires live { IsLive self.old.cells cell }
        requires front { HasFront (view_at self.old.cells cell) }
        ensures { self.new ≡ record self.old {
          cells = finite_map.insert self.old.cells cell (without_front (view_at self.old.cells cell));
        } }
    {
        match &mut self.slots[cell.get() as usize] {
            Some(cell) => cell.dequeue(),
            None => unreachable!(),
        }
    }

    /// Drops all cells that are not listed. It takes no memory.
    pub fn keep_only(&mut self, cells: &[Handle])
        ensures { self.new ≡ record self.old { cells = finite_map.retain_keys self.old.cells (is_listed cells.now) } }
    {
        drop_others(cells, &mut self.notes, &mut self.slots);
        self.start = 0;
    }

    /// How many elements an update has copied, or 2^64 - 1 where there were more.
    pub fn ledger(&self, update: u32) -> u64
        requires { update < length self.now.ledger }
        ensures { result ≡ slice_index self.now.ledger update }
    {
        self.ledger[update as usize]
    }

    /// Lets an update have copied so many elements. All else stays.
    pub fn set_ledger(&mut self, update: u32, number: u64)
        requires { update < length self.old.ledger }
        ensures { self.new ≡ record self.old { ledger = slice_set self.old.ledger update number } }
    {
        self.ledger[update as usize] = number;
    }

    /// What a cell has: the keys of a set or a map in their order, each of a map's with its value, or a queue's elements from the front.
    ///
    /// Its last clauses give callers what all scalars and all cells have.
    pub fn content(&self, cell: Handle) -> Result<Content, NoMemory>
        requires { IsLive self.now.cells cell }
        ensures content { IfOk result (λ content. content ≡ content_of (view_at self.now.cells cell)) }
        ensures range { IfOk result (AllIn IsInRange) }
        ensures sized { IfOk result (λ content. content_size content < 2 ^ 64) }
    {
        let cell = self.cell(cell);
        // What it answers is not needed: that it is a number of 64 bits says how large a cell can be.
        cell.size();
        content_of(self.alloc, cell)
    }

    /// The number of cells.
    pub fn count(&self) -> u64
        ensures { result ≡ finite_map.len self.now.cells }
    {
        count(&self.slots)
    }

    fn cell(&self, handle: Handle) -> &Cell
        requires { IsLive self.now.cells handle }
        ensures { view_of result.now ≡ view_at self.now.cells handle }
    {
        match &self.slots[handle.get() as usize] {
            Some(cell) => cell,
            None => unreachable!(),
        }
    }

    /// Puts a cell behind a handle that was not live.
    fn place(&mut self, cell: Cell) -> Result<Handle, NoMemory>
        ensures fresh { IfOk result (λ handle. ¬ (IsLive self.old.cells handle)) }
        ensures made { IfOk result (λ handle.
            self.new ≡ record self.old { cells = finite_map.insert self.old.cells handle (view_of cell) }) }
        ensures err { OnErr result (self.new ≡ self.old) }
    {
        let place = free_from(self.start, &self.slots);
        add_note(place, &mut self.notes)?;
        if place < self.slots.len() {
            self.slots[place] = Some(cell);
        } else {
            self.slots.push(Some(cell))?;
        }
        self.start = place + 1;
        Ok(Handle::new(place as u64))
    }

    fn count_copied(&mut self, update: u32, copied: u64)
        requires { update < length self.old.ledger }
        ensures { self.new ≡ record self.old { ledger = counted self.old.ledger update copied } }
    {
        let number = &mut self.ledger[update as usize];
        *number = number.saturating_add(copied);
    }
}

impl Reader for Store {
    ghost cells = { λ store. store.cells };

    fn size(&self, cell: Handle) -> u64 {
        self.cell(cell).size()
    }

    #[inline(always)]
    fn contains(&self, cell: Handle, key: &Scalar) -> bool {
        self.cell(cell).contains(key)
    }

    fn get(&self, cell: Handle, key: &Scalar) -> Option<&Scalar> {
        self.cell(cell).get(key)
    }

    fn front(&self, cell: Handle) -> Option<&Scalar> {
        self.cell(cell).front()
    }

    fn print(&self, cell: Handle, out: &mut Bytes) -> Result<(), NoMemory> {
        print_cell(self.cell(cell), out)
    }
}
