// What a value has, apart from where it is kept, and cells that are made of it.

ghost use Rattle.std.specs.Prelude.{◌≡◌, IfOk, IsTrue, map};
ghost use Rattle.std.specs.FinSet as set;
ghost use Rattle.std.specs.FinMap as finite_map;
ghost use Rattle.std.specs.List.{AllByRecursion};
ghost use Rattle.std.specs.List.Sorted.{IsStrictlySortedBy};
ghost use Rattle.aggregate_store.specs.Content.{AllIn, AreInOrder, IsInRange, content_of, is_of_aggregate, view_in};
ghost use Rattle.tsl_value.specs.Print.{in_order};
ghost use Rattle.tsl_value.specs.View.{scalar_cmp};
ghost use Rattle.aggregate_store.specs.inner.CellView.{view_of};
ghost use Rattle.aggregate_store.specs.inner.Entries.{table_of, table_of_numbers, table_of_scalars};
ghost use Rattle.aggregate_store.specs.inner.Keys.{set_of, set_of_numbers, set_of_scalars};

use crate::cell::Cell;
use crate::entry_tree::EntryTree;
use crate::key_tree::{KeyTree, key_of};
use crate::keys::KeySet;
use crate::lists::{Pairs, Scalars};
use crate::range::assert_in_range;
use std::alloc::Global;
use std::collections::{BTreeMap, BTreeSet, VecDeque};
use tsl_value::memory::NoMemory;
use tsl_value::scalar::Scalar;

/// What a scalar, a set, a map or a queue has. The keys of sets and maps stand in their order, and the front of a queue first.
#[derive(Drop)]
pub enum Content {
    Scalar(Scalar),
    Set(Scalars),
    Map(Pairs),
    Queue(Scalars),
}

/// Numbers in their order.
fn numbers_of(alloc: Global, numbers: &BTreeSet<i64>) -> Result<Scalars, NoMemory>
    ensures keys { IfOk result (λ list. list ≡ in_order (set_of_numbers numbers.now)) }
    ensures range { IfOk result (AllByRecursion IsInRange) }
{
    let mut list = Scalars::new(alloc);
    let rest = numbers.iter();
    for number in rest {
        let key = key_of(number);
        assert_in_range(&key);
        list.push(key)?;
    }
    Ok(list)
}

/// Scalars in their order.
fn scalars_of(alloc: Global, keys: &BTreeSet<Scalar>) -> Result<Scalars, NoMemory>
    ensures keys { IfOk result (λ list. list ≡ in_order (set_of_scalars keys.now)) }
    ensures range { IfOk result (AllByRecursion IsInRange) }
{
    let mut list = Scalars::new(alloc);
    let rest = keys.iter();
    for key in rest {
        assert_in_range(key);
        list.push(key.copy()?)?;
    }
    Ok(list)
}

/// The keys of a set in their order.
fn keys_of(alloc: Global, keys: &KeyTree) -> Result<Scalars, NoMemory>
    ensures keys { IfOk result (λ list. list ≡ in_order (set_of keys.now)) }
    ensures range { IfOk result (AllByRecursion IsInRange) }
{
    match keys {
        KeyTree::Numbers(numbers) => numbers_of(alloc, numbers),
        KeyTree::Scalars(scalars) => scalars_of(alloc, scalars),
    }
}

/// Entries with numbers as keys, in their order.
fn number_entries_of(alloc: Global, entries: &BTreeMap<i64, Scalar>) -> Result<Pairs, NoMemory>
    ensures entries { IfOk result (λ list. list ≡ finite_map.entries (table_of_numbers entries.now)) }
    ensures range { IfOk result (AllByRecursion (λ e. IsInRange e.0 × IsInRange e.1)) }
{
    let mut list = Pairs::new(alloc);
    let rest = entries.iter();
    for (number, value) in rest {
        let key = key_of(number);
        assert_in_range(&key);
        assert_in_range(value);
        list.push((key, value.copy()?))?;
    }
    Ok(list)
}

/// Entries in the order of their keys.
fn scalar_entries_of(alloc: Global, entries: &BTreeMap<Scalar, Scalar>) -> Result<Pairs, NoMemory>
    ensures entries { IfOk result (λ list. list ≡ finite_map.entries (table_of_scalars entries.now)) }
    ensures range { IfOk result (AllByRecursion (λ e. IsInRange e.0 × IsInRange e.1)) }
{
    let mut list = Pairs::new(alloc);
    let rest = entries.iter();
    for (key, value) in rest {
        assert_in_range(key);
        assert_in_range(value);
        list.push((key.copy()?, value.copy()?))?;
    }
    Ok(list)
}

/// The entries of a map in the order of their keys.
fn entries_of(alloc: Global, entries: &EntryTree) -> Result<Pairs, NoMemory>
    ensures entries { IfOk result (λ list. list ≡ finite_map.entries (table_of entries.now)) }
    ensures range { IfOk result (AllByRecursion (λ e. IsInRange e.0 × IsInRange e.1)) }
{
    match entries {
        EntryTree::Numbers(_, numbers) => number_entries_of(alloc, numbers),
        EntryTree::Scalars(scalars) => scalar_entries_of(alloc, scalars),
    }
}

/// The elements of a queue, the front first.
fn elements_of(alloc: Global, elements: &VecDeque<Scalar>) -> Result<Scalars, NoMemory>
    ensures elements { IfOk result (λ list. list ≡ elements.now.items) }
    ensures range { IfOk result (AllByRecursion IsInRange) }
{
    let mut list = Scalars::new(alloc);
    let rest = elements.iter();
    for element in rest {
        assert_in_range(element);
        list.push(element.copy()?)?;
    }
    Ok(list)
}

/// What a cell has: keys in their order, and the front of a queue first.
pub(crate) fn content_of(alloc: Global, cell: &Cell) -> Result<Content, NoMemory>
    ensures content { IfOk result (λ content. content ≡ content_of (view_of cell.now)) }
    ensures range { IfOk result (AllIn IsInRange) }
{
    match cell {
        Cell::Set(keys) => Ok(Content::Set(keys_of(alloc, keys.sorted())?)),
        Cell::Map(entries) => Ok(Content::Map(entries_of(alloc, entries)?)),
        Cell::Queue(elements) => Ok(Content::Queue(elements_of(alloc, elements)?)),
    }
}

/// The set of these keys.
fn set_with(alloc: Global, keys: &[Scalar]) -> Result<KeySet, NoMemory>
    ensures { IfOk result (λ s. s ≡ set.from_list keys.now) }
{
    let mut set = KeySet::new(alloc);
    for key in keys {
        set.insert(key)?;
    }
    Ok(set)
}

/// The map of these entries, whose keys rise.
fn map_with(alloc: Global, list: &[(Scalar, Scalar)]) -> Result<EntryTree, NoMemory>
    requires { IsStrictlySortedBy scalar_cmp (map (λ e. e.0) list.now) }
    ensures { IfOk result (λ m. table_of m ≡ finite_map.from_entries list.now) }
{
    let mut entries = EntryTree::new(alloc);
    for entry in list {
        entries.put_copy(&entry.0, &entry.1)?;
    }
    Ok(entries)
}

/// The queue of these elements, of which the first is its front.
fn queue_with(alloc: Global, list: &[Scalar]) -> Result<VecDeque<Scalar>, NoMemory>
    ensures { IfOk result (λ q. q.items ≡ list.now) }
{
    let mut elements = VecDeque::new(alloc);
    for element in list {
        elements.push_back(element.copy()?)?;
    }
    Ok(elements)
}

/// A cell with this content.
pub(crate) fn cell_with(alloc: Global, content: &Content) -> Result<Cell, NoMemory>
    requires aggregate { IsTrue (is_of_aggregate content.now) }
    requires in_order { AreInOrder content.now }
    ensures { IfOk result (λ cell. view_of cell ≡ view_in content.now) }
{
    match content {
        Content::Scalar(_) => unreachable!(),
        Content::Set(keys) => Ok(Cell::Set(set_with(alloc, keys.as_slice())?)),
        Content::Map(entries) => Ok(Cell::Map(map_with(alloc, entries.as_slice())?)),
        Content::Queue(elements) => Ok(Cell::Queue(queue_with(alloc, elements.as_slice())?)),
    }
}
