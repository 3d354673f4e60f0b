// Whether two cells have the same view.

ghost use Rattle.std.specs.Prelude.{◌≡◌, ◌↔◌, IsTrue, Some};
ghost use Rattle.std.specs.Option.{option_copied};
ghost use Rattle.tsl_value.specs.declared.scalar.Scalar.TheVariants as scalar;
ghost use Rattle.aggregate_store.specs.inner.CellView.{view_of};
ghost use Rattle.aggregate_store.specs.inner.Entries.{entry_of, table_of, table_of_numbers, table_of_scalars};
ghost use Rattle.aggregate_store.specs.inner.Keys.{set_of, set_of_numbers, set_of_scalars};

use crate::cell::Cell;
use crate::entry_tree::EntryTree;
use crate::key_tree::KeyTree;
use std::collections::{BTreeMap, BTreeSet, VecDeque};
use tsl_value::scalar::Scalar;

/// Whether two trees of numbers have the same.
fn is_same_numbers(a: &BTreeSet<i64>, b: &BTreeSet<i64>) -> bool
    ensures { IsTrue result ↔ set_of_numbers a.now ≡ set_of_numbers b.now }
{
    // That the numbers are in order is known where they are gone through.
    let _ = a.iter();
    let _ = b.iter();
    a == b
}

/// Whether two trees of scalars have the same.
fn is_same_scalars(a: &BTreeSet<Scalar>, b: &BTreeSet<Scalar>) -> bool
    ensures { IsTrue result ↔ set_of_scalars a.now ≡ set_of_scalars b.now }
{
    // That the keys are in order is known where they are gone through.
    let _ = a.iter();
    let _ = b.iter();
    a == b
}

/// Whether the key is this number.
fn is_number(key: Option<&Scalar>, number: &i64) -> bool
    ensures { IsTrue result ↔ option_copied key.entry ≡ Some (scalar.Int number.now) }
{
    match key {
        Some(Scalar::Int(n)) => *n == *number,
        _ => false,
    }
}

/// Whether the scalars are the numbers.
fn is_same_mixed(numbers: &BTreeSet<i64>, scalars: &BTreeSet<Scalar>) -> bool
    ensures { IsTrue result ↔ set_of_numbers numbers.now ≡ set_of_scalars scalars.now }
{
    let mut left = scalars.iter();
    let rest = numbers.iter();
    for number in rest {
        if !is_number(left.next(), number) {
            return false;
        }
    }
    left.next().is_none()
}

/// Whether two sets have the same keys. A set of numbers alone may be a tree of scalars, after others were taken out.
fn is_same_set(a: &KeyTree, b: &KeyTree) -> bool
    ensures { IsTrue result ↔ set_of a.now ≡ set_of b.now }
{
    match (a, b) {
        (KeyTree::Numbers(a), KeyTree::Numbers(b)) => is_same_numbers(a, b),
        (KeyTree::Scalars(a), KeyTree::Scalars(b)) => is_same_scalars(a, b),
        (KeyTree::Numbers(a), KeyTree::Scalars(b)) => is_same_mixed(a, b),
        (KeyTree::Scalars(a), KeyTree::Numbers(b)) => is_same_mixed(b, a),
    }
}

/// Whether two trees have the same numbers with the same values.
fn is_same_number_entries(a: &BTreeMap<i64, Scalar>, b: &BTreeMap<i64, Scalar>) -> bool
    ensures { IsTrue result ↔ table_of_numbers a.now ≡ table_of_numbers b.now }
{
    // That the numbers are in order is known where they are gone through.
    let _ = a.iter();
    let _ = b.iter();
    a == b
}

/// Whether two trees have the same scalars with the same values.
fn is_same_scalar_entries(a: &BTreeMap<Scalar, Scalar>, b: &BTreeMap<Scalar, Scalar>) -> bool
    ensures { IsTrue result ↔ table_of_scalars a.now ≡ table_of_scalars b.now }
{
    // That the keys are in order is known where they are gone through.
    let _ = a.iter();
    let _ = b.iter();
    a == b
}

/// Whether a key and what stands there are this number and this value.
fn is_entry(key: &Scalar, found: &Scalar, number: &i64, value: &Scalar) -> bool
    ensures { IsTrue result ↔ (key.now, found.now) ≡ entry_of (number.now, value.now) }
{
    match key {
        Scalar::Int(n) => *n == *number && found == value,
        _ => false,
    }
}

/// Whether the entries with scalars as keys are those with numbers.
fn is_same_mixed_entries(
    numbers: &BTreeMap<i64, Scalar>,
    scalars: &BTreeMap<Scalar, Scalar>,
) -> bool
    ensures { IsTrue result ↔ table_of_numbers numbers.now ≡ table_of_scalars scalars.now }
{
    let mut left = scalars.iter();
    let rest = numbers.iter();
    for (number, value) in rest {
        let Some((key, found)) = left.next() else {
            return false;
        };
        if !is_entry(key, found, number, value) {
            return false;
        }
    }
    left.next().is_none()
}

/// Whether two maps have the same keys with the same values. One with numbers alone may be a tree of scalars, as a set may.
fn is_same_map(a: &EntryTree, b: &EntryTree) -> bool
    ensures { IsTrue result ↔ table_of a.now ≡ table_of b.now }
{
    match (a, b) {
        (EntryTree::Numbers(_, a), EntryTree::Numbers(_, b)) => is_same_number_entries(a, b),
        (EntryTree::Scalars(a), EntryTree::Scalars(b)) => is_same_scalar_entries(a, b),
        (EntryTree::Numbers(_, a), EntryTree::Scalars(b)) => is_same_mixed_entries(a, b),
        (EntryTree::Scalars(a), EntryTree::Numbers(_, b)) => is_same_mixed_entries(b, a),
    }
}

/// Whether two queues have the same elements in the same order.
fn is_same_queue(a: &VecDeque<Scalar>, b: &VecDeque<Scalar>) -> bool
    ensures { IsTrue result ↔ a.now.items ≡ b.now.items }
{
    a == b
}

/// Whether two cells have the same view.
pub fn is_same_cell(a: &Cell, b: &Cell) -> bool
    ensures { IsTrue result ↔ view_of a.now ≡ view_of b.now }
{
    match (a, b) {
        (Cell::Set(a), Cell::Set(b)) => is_same_set(a.sorted(), b.sorted()),
        (Cell::Map(a), Cell::Map(b)) => is_same_map(a, b),
        (Cell::Queue(a), Cell::Queue(b)) => is_same_queue(a, b),
        _ => false,
    }
}
