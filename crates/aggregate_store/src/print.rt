// The text of cells.

ghost use Rattle.std.specs.Prelude.{◌≡◌, ◌++◌, codes, length, map, take, OnOk, OnErr};
ghost use Rattle.std.specs.FinMap as finite_map;
ghost use Rattle.tsl_value.specs.declared.scalar.Scalar.TheVariants as scalar;
ghost use Rattle.tsl_value.specs.Print.{in_order, listed, scalar_text, view_text};
ghost use Rattle.aggregate_store.specs.inner.CellView.{view_of};
ghost use Rattle.aggregate_store.specs.inner.Entries.{table_of, table_of_numbers, table_of_scalars};
ghost use Rattle.aggregate_store.specs.inner.Keys.{set_of, set_of_numbers, set_of_scalars};

use crate::cell::Cell;
use crate::entry_tree::EntryTree;
use crate::key_tree::{KeyTree, key_of};
use std::collections::{BTreeMap, BTreeSet, VecDeque};
use tsl_value::bytes::Bytes;
use tsl_value::memory::NoMemory;
use tsl_value::print::print_scalar;
use tsl_value::scalar::Scalar;

/// Appends the text of a set, a map or a queue, or leaves `out` as it was.
pub fn print_cell(cell: &Cell, out: &mut Bytes) -> Result<(), NoMemory>
    ensures ok { OnOk result (out.new ≡ out.old ++ view_text (view_of cell.now)) }
    ensures err { OnErr result (out.new ≡ out.old) }
{
    let before = out.len();
    match append_cell(cell, out) {
        Ok(()) => Ok(()),
        Err(none) => {
            out.truncate(before);
            Err(none)
        }
    }
}

fn append_cell(cell: &Cell, out: &mut Bytes) -> Result<(), NoMemory>
    ensures ok { OnOk result (out.new ≡ out.old ++ view_text (view_of cell.now)) }
    ensures err { OnErr result (take (length out.old) out.new ≡ out.old) }
{
    match cell {
        Cell::Set(keys) => {
            out.append(b"Set(")?;
            append_keys(keys.sorted(), out)?;
        }
        Cell::Map(entries) => {
            out.append(b"Map(")?;
            append_entries(entries, out)?;
        }
        Cell::Queue(elements) => {
            out.append(b"Queue(")?;
            append_elements(elements, out)?;
        }
    }
    out.push(b')')
}

/// Appends the keys in order, with a comma and a blank between them.
fn append_keys(keys: &KeyTree, out: &mut Bytes) -> Result<(), NoMemory>
    ensures ok { OnOk result (out.new ≡ out.old ++ listed (map scalar_text (in_order (set_of keys.now)))) }
    ensures err { OnErr result (take (length out.old) out.new ≡ out.old) }
{
    match keys {
        KeyTree::Numbers(numbers) => append_numbers(numbers, out),
        KeyTree::Scalars(scalars) => append_scalars(scalars, out),
    }
}

fn append_number(number: &i64, out: &mut Bytes) -> Result<(), NoMemory>
    ensures ok { OnOk result (out.new ≡ out.old ++ scalar_text (scalar.Int number.now)) }
    ensures err { OnErr result (out.new ≡ out.old) }
{
    let key = key_of(number);
    print_scalar(&key, out)
}

/// Appends the numbers in order, with a comma and a blank between them.
fn append_numbers(numbers: &BTreeSet<i64>, out: &mut Bytes) -> Result<(), NoMemory>
    ensures ok { OnOk result (out.new ≡ out.old ++ listed (map scalar_text (in_order (set_of_numbers numbers.now)))) }
    ensures err { OnErr result (take (length out.old) out.new ≡ out.old) }
{
    let mut rest = numbers.iter();
    let Some(first) = rest.next() else {
        return Ok(());
    };
    append_number(first, out)?;
    for number in rest {
        out.append(b", ")?;
        append_number(number, out)?;
    }
    Ok(())
}

/// Appends the scalars in order, with a comma and a blank between them.
fn append_scalars(keys: &BTreeSet<Scalar>, out: &mut Bytes) -> Result<(), NoMemory>
    ensures ok { OnOk result (out.new ≡ out.old ++ listed (map scalar_text (in_order (set_of_scalars keys.now)))) }
    ensures err { OnErr result (take (length out.old) out.new ≡ out.old) }
{
    let mut rest = keys.iter();
    let Some(first) = rest.next() else {
        return Ok(());
    };
    print_scalar(first, out)?;
    for key in rest {
        out.append(b", ")?;
        print_scalar(key, out)?;
    }
    Ok(())
}

/// Appends the elements, the first of them first, with a comma and a blank between them.
fn append_elements(elements: &VecDeque<Scalar>, out: &mut Bytes) -> Result<(), NoMemory>
    ensures ok { OnOk result (out.new ≡ out.old ++ listed (map scalar_text elements.now.items)) }
    ensures err { OnErr result (take (length out.old) out.new ≡ out.old) }
{
    let mut rest = elements.iter();
    let Some(first) = rest.next() else {
        return Ok(());
    };
    print_scalar(first, out)?;
    for element in rest {
        out.append(b", ")?;
        print_scalar(element, out)?;
    }
    Ok(())
}

/// Appends the entries in the keys' order, with a comma and a blank between them.
fn append_entries(entries: &EntryTree, out: &mut Bytes) -> Result<(), NoMemory>
    ensures ok { OnOk result (out.new ≡ out.old
        ++ listed (map (λ e. scalar_text e.0 ++ (codes " -> " ++ scalar_text e.1)) (finite_map.entries (table_of entries.now)))) }
    ensures err { OnErr result (take (length out.old) out.new ≡ out.old) }
{
    match entries {
        EntryTree::Numbers(_, numbers) => append_number_entries(numbers, out),
        EntryTree::Scalars(scalars) => append_scalar_entries(scalars, out),
    }
}

/// Appends the entries in the numbers' order, with a comma and a blank between them.
fn append_number_entries(entries: &BTreeMap<i64, Scalar>, out: &mut Bytes) -> Result<(), NoMemory>
    ensures ok { OnOk result (out.new ≡ out.old
        ++ listed (map (λ e. scalar_text e.0 ++ (codes " -> " ++ scalar_text e.1)) (finite_map.entries (table_of_numbers entries.now)))) }
    ensures err { OnErr result (take (length out.old) out.new ≡ out.old) }
{
    let mut rest = entries.iter();
    let Some((number, value)) = rest.next() else {
        return Ok(());
    };
    append_number_entry(number, value, out)?;
    for (number, value) in rest {
        out.append(b", ")?;
        append_number_entry(number, value, out)?;
    }
    Ok(())
}

fn append_number_entry(number: &i64, value: &Scalar, out: &mut Bytes) -> Result<(), NoMemory>
    ensures ok { OnOk result (out.new ≡ out.old ++ (scalar_text (scalar.Int number.now) ++ (codes " -> " ++ scalar_text value.now))) }
    ensures err { OnErr result (take (length out.old) out.new ≡ out.old) }
{
    let key = key_of(number);
    append_entry(&key, value, out)
}

/// Appends the entries in the scalars' order, with a comma and a blank between them.
fn append_scalar_entries(
    entries: &BTreeMap<Scalar, Scalar>,
    out: &mut Bytes,
) -> Result<(), NoMemory>
    ensures ok { OnOk result (out.new ≡ out.old
        ++ listed (map (λ e. scalar_text e.0 ++ (codes " -> " ++ scalar_text e.1)) (finite_map.entries (table_of_scalars entries.now)))) }
    ensures err { OnErr result (take (length out.old) out.new ≡ out.old) }
{
    let mut rest = entries.iter();
    let Some((key, value)) = rest.next() else {
        return Ok(());
    };
    append_entry(key, value, out)?;
    for (key, value) in rest {
        out.append(b", ")?;
        append_entry(key, value, out)?;
    }
    Ok(())
}

fn append_entry(key: &Scalar, value: &Scalar, out: &mut Bytes) -> Result<(), NoMemory>
    ensures ok { OnOk result (out.new ≡ out.old ++ (scalar_text key.now ++ (codes " -> " ++ scalar_text value.now))) }
    ensures err { OnErr result (take (length out.old) out.new ≡ out.old) }
{
    print_scalar(key, out)?;
    out.append(b" -> ")?;
    print_scalar(value, out)
}
