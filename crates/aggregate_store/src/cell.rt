// Cells, each with a set, a map or a queue.

ghost use Rattle.std.specs.Prelude.{◌≡◌, [], ◌∷◌, ◌++◌, IfOk, IsTrue, OnOk, OnErr, drop};
ghost use Rattle.std.specs.Option.{option_copied};
ghost use Rattle.cell_reader.specs.inner.Cells.{front_of, has_key, value_at};
ghost use Rattle.tsl_value.specs.Aggregate.{empty_of, is_aggregate, size_of};
ghost use Rattle.aggregate_store.specs.inner.Stored.{with_added, with_last, without_front, without_key};

use crate::entry_tree::EntryTree;
use crate::keys::KeySet;
use std::alloc::Global;
use std::collections::VecDeque;
use tsl_value::memory::NoMemory;
use tsl_value::scalar::{Scalar, ValueType};

/// A queue has room for at least this many elements before it gives room back.
const ROOM: usize = 64;

/// A set of keys, a map from keys to scalars, or a queue of scalars.
#[derive(Drop)]
pub enum Cell {
    Set(KeySet),
    Map(EntryTree),
    Queue(VecDeque<Scalar>),
}

/// Halves the room of a queue that fills no more than a quarter of it. A dequeue gives none back, since it takes no memory.
fn give_back(elements: &mut VecDeque<Scalar>)
    ensures { elements.new.items ≡ elements.old.items }
{
    let room = elements.capacity();
    if ROOM < room && elements.len() <= room / 4 {
        elements.shrink_to(room / 2);
    }
}

/// Puts a copy of a value after the last element.
fn push_last(value: &Scalar, elements: &mut VecDeque<Scalar>) -> Result<(), NoMemory>
    ensures ok { OnOk result (elements.new.items ≡ elements.old.items ++ value.now ∷ []) }
    ensures err { OnErr result (elements.new.items ≡ elements.old.items) }
{
    give_back(elements);
    elements.push_back(value.copy()?)?;
    Ok(())
}

/// Drops the first element, if there is one.
fn drop_first(elements: &mut VecDeque<Scalar>)
    ensures { elements.new.items ≡ drop 1 elements.old.items }
{
    elements.pop_front();
}

impl Cell {
    ghost use Rattle.aggregate_store.specs.inner.CellView.{view_of};

    /// The cell of a type that has no element.
    pub fn empty(alloc: Global, of: ValueType) -> Cell
        requires { IsTrue (is_aggregate of) }
        ensures { view_of result ≡ empty_of of }
    {
        match of {
            ValueType::Scalar(_) => unreachable!(),
            ValueType::Set(_) => Cell::Set(KeySet::new(alloc)),
            ValueType::Map(_, _) => Cell::Map(EntryTree::new(alloc)),
            ValueType::Queue(_) => Cell::Queue(VecDeque::new(alloc)),
        }
    }

    /// The number of elements.
    pub fn size(&self) -> u64
        ensures { result ≡ size_of (view_of self.now) }
    {
        match self {
            Cell::Set(keys) => keys.len() as u64,
            Cell::Map(entries) => entries.len() as u64,
            Cell::Queue(elements) => elements.len() as u64,
        }
    }

    /// Whether the key is there.
    #[inline(always)]
    pub fn contains(&self, key: &Scalar) -> bool
        ensures { result ≡ has_key (view_of self.now) key.now }
    {
        match self {
            Cell::Set(keys) => keys.contains(key),
            Cell::Map(entries) => entries.has(key),
            Cell::Queue(_) => false,
        }
    }

    /// What a map has at the key.
    pub fn get(&self, key: &Scalar) -> Option<&Scalar>
        ensures { option_copied result ≡ value_at (view_of self.now) key.now }
    {
        match self {
            Cell::Set(_) => None,
            Cell::Map(entries) => entries.value_at(key),
            Cell::Queue(_) => None,
        }
    }

    /// The element in front of a queue.
    pub fn front(&self) -> Option<&Scalar>
        ensures { option_copied result ≡ front_of (view_of self.now) }
    {
        match self {
            Cell::Set(_) => None,
            Cell::Map(_) => None,
            Cell::Queue(elements) => elements.front(),
        }
    }

    /// A cell with the same view.
    pub fn copy(&self) -> Result<Cell, NoMemory>
        ensures { IfOk result (λ cell. view_of cell ≡ view_of self.now) }
    {
        match self {
            Cell::Set(keys) => Ok(Cell::Set(keys.copy()?)),
            Cell::Map(entries) => Ok(Cell::Map(entries.copy()?)),
            Cell::Queue(elements) => Ok(Cell::Queue(elements.clone()?)),
        }
    }

    /// Adds a key, or puts another value at it; a queue stays as it is. After `NoMemory` the view is as it was.
    pub fn add(&mut self, key: Scalar, value: Scalar) -> Result<(), NoMemory>
        ensures ok { OnOk result (view_of self.new ≡ with_added (view_of self.old) key value) }
        ensures err { OnErr result (view_of self.new ≡ view_of self.old) }
    {
        match self {
            Cell::Set(keys) => {
                keys.insert(&key)?;
            }
            Cell::Map(entries) => {
                entries.put_copy(&key, &value)?;
            }
            Cell::Queue(_) => {}
        }
        Ok(())
    }

    /// Adds copies of a key and a value, or puts the value at the key. After `NoMemory` the view is as it was.
    #[inline(always)]
    pub fn add_copied(&mut self, key: &Scalar, value: &Scalar) -> Result<(), NoMemory>
        ensures ok { OnOk result (view_of self.new ≡ with_added (view_of self.old) key.now value.now) }
        ensures err { OnErr result (view_of self.new ≡ view_of self.old) }
    {
        match self {
            Cell::Set(keys) => keys.insert(key),
            Cell::Map(entries) => entries.put_copy(key, value),
            Cell::Queue(_) => Ok(()),
        }
    }

    /// Takes a key out, present or not.
    pub fn remove(&mut self, key: &Scalar)
        ensures { view_of self.new ≡ without_key (view_of self.old) key.now }
    {
        match self {
            Cell::Set(keys) => {
                keys.remove(key);
            }
            Cell::Map(entries) => {
                entries.remove(key);
            }
            Cell::Queue(_) => {}
        }
    }

    /// Puts a copy of a value after a queue's last element. After `NoMemory` the view is as it was.
    pub fn enqueue(&mut self, value: &Scalar) -> Result<(), NoMemory>
        ensures ok { OnOk result (view_of self.new ≡ with_last (view_of self.old) value.now) }
        ensures err { OnErr result (view_of self.new ≡ view_of self.old) }
    {
        match self {
            Cell::Set(_) => Ok(()),
            Cell::Map(_) => Ok(()),
            Cell::Queue(elements) => push_last(value, elements),
        }
    }

    /// Drops the element in front of a queue, if there is one.
    pub fn dequeue(&mut self)
        ensures { view_of self.new ≡ without_front (view_of self.old) }
    {
        match self {
            Cell::Set(_) => {}
            Cell::Map(_) => {}
            Cell::Queue(elements) => drop_first(elements),
        }
    }
}
