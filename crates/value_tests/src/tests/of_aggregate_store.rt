// Each call, with ample memory.

ghost use Rattle.cell_reader.specs.inner.Cells.{IsLive};

use aggregate_store::cell::Cell;
use aggregate_store::print::print_cell;
use aggregate_store::same::is_same_cell;
use aggregate_store::store::Store;
use cell_reader::reader::Reader;
use std::alloc::Global;
use std::test::Fail;
use tsl_value::bytes::Bytes;
use tsl_value::ids::Handle;
use tsl_value::memory::NoMemory;
use tsl_value::scalar::{KeyType, Scalar, ScalarType, ValueType};

fn text(alloc: Global, store: &Store, cell: Handle) -> Result<Bytes, NoMemory>
    requires { IsLive store.now.cells cell }
{
    let mut out = Bytes::new(alloc);
    store.print(cell, &mut out)?;
    Ok(out)
}

#[test]
fn sets_are_copied(rt: HostRuntime) -> Result<(), Fail> {
    let mut store = Store::new(rt.alloc(), 2)?;
    let none = store.empty(ValueType::Set(KeyType::Int))?;
    let one = store.copy_add(0, none, &Scalar::Int(2), &Scalar::Unit)?;
    let less = store.copy_remove(1, one, &Scalar::Int(2))?;
    let printed = text(rt.alloc(), &store, less)?;
    assert!(rt; printed.as_slice() == b"Set()".as_slice());
    let same = store.copy_remove(1, one, &Scalar::Int(7))?;
    let printed = text(rt.alloc(), &store, same)?;
    assert!(rt; printed.as_slice() == b"Set(2)".as_slice());
    assert!(rt; store.ledger(0) == 0 && store.ledger(1) == 2);
    Ok(())
}

#[test]
fn cells_are_dropped(rt: HostRuntime) -> Result<(), Fail> {
    let mut store = Store::new(rt.alloc(), 0)?;
    let first = store.empty(ValueType::Set(KeyType::Text))?;
    let second = store.empty(ValueType::Set(KeyType::Bool))?;
    let third = store.empty(ValueType::Map(KeyType::Int, ScalarType::Unit))?;
    store.keep_only(&[third, first]);
    assert!(rt; store.count() == 2);
    store.keep_only(&[second, third]);
    assert!(rt; store.count() == 1);
    let printed = text(rt.alloc(), &store, third)?;
    assert!(rt; printed.as_slice() == b"Map()".as_slice());
    Ok(())
}

fn cell_text(alloc: Global, cell: &Cell) -> Result<Bytes, NoMemory> {
    let mut out = Bytes::new(alloc);
    print_cell(cell, &mut out)?;
    Ok(out)
}

fn are_same(a: &Cell, b: &Cell) -> bool {
    is_same_cell(a, b) && is_same_cell(b, a)
}

#[test]
fn a_map_of_numbers_takes_other_keys(rt: HostRuntime) -> Result<(), Fail> {
    let mut numbers = Cell::empty(rt.alloc(), ValueType::Map(KeyType::Int, ScalarType::Int));
    numbers.add_copied(&Scalar::Int(7), &Scalar::Int(70))?;
    numbers.add_copied(&Scalar::Int(-2), &Scalar::Int(20))?;
    let mut others = numbers.copy()?;
    others.add_copied(&Scalar::Bool(true), &Scalar::Int(0))?;
    let printed = cell_text(rt.alloc(), &others)?;
    assert!(rt; printed.as_slice() == b"Map(-2 -> 20, 7 -> 70, true -> 0)".as_slice());
    assert!(rt; others.size() == 3 && !are_same(&numbers, &others));
    others.remove(&Scalar::Bool(true));
    assert!(rt; are_same(&numbers, &others) && are_same(&others, &others));
    others.add_copied(&Scalar::Int(7), &Scalar::Int(71))?;
    assert!(rt; !are_same(&numbers, &others) && !numbers.contains(&Scalar::Bool(true)));
    numbers.add_copied(&Scalar::Int(7), &Scalar::Int(71))?;
    assert!(rt; are_same(&numbers, &others) && others.contains(&Scalar::Int(-2)));
    numbers.remove(&Scalar::Bool(false));
    numbers.remove(&Scalar::Int(-2));
    let printed = cell_text(rt.alloc(), &numbers)?;
    assert!(rt; printed.as_slice() == b"Map(7 -> 71)".as_slice());
    assert!(rt; numbers.size() == 1 && !are_same(&numbers, &others));
    Ok(())
}
