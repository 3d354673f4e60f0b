// The tree of a map's entries.

ghost use Rattle.std.specs.Prelude.{◌≡◌, IfOk, OnErr, OnOk};
ghost use Rattle.std.specs.FinMap as finite_map;
ghost use Rattle.std.specs.Option.{option_copied};
ghost use Rattle.tsl_value.specs.declared.scalar.Scalar.TheVariants as scalar;
ghost use Rattle.aggregate_store.specs.inner.Entries.{table_of, table_of_numbers, table_of_scalars};

use crate::key_tree::key_of;
use std::alloc::Global;
use std::collections::BTreeMap;
use tsl_value::memory::NoMemory;
use tsl_value::scalar::Scalar;

/// The entries of a map in the order of their keys. A number as a key takes a quarter of the memory that a scalar takes, and two of them
/// are compared at once.
#[derive(Drop)]
pub enum EntryTree {
    /// Each key so far was a number. Scalars would be put where the allocator gives memory.
    Numbers(Global, BTreeMap<i64, Scalar>),
    Scalars(BTreeMap<Scalar, Scalar>),
}

/// What stands at the key among numbers.
#[inline(always)]
fn value_among<'a>(key: &Scalar, numbers: &'a BTreeMap<i64, Scalar>) -> Option<&'a Scalar>
    ensures { option_copied result ≡ finite_map.get (table_of_numbers numbers.now) key.now }
{
    match key {
        Scalar::Int(number) => numbers.get(number),
        _ => None,
    }
}

/// Takes a key out of numbers, present or not.
fn take_out(key: &Scalar, numbers: &mut BTreeMap<i64, Scalar>)
    ensures { table_of_numbers numbers.new ≡ finite_map.remove (table_of_numbers numbers.old) key.now }
{
    if let Scalar::Int(number) = key {
        numbers.remove(number);
    }
}

/// What stands at the key among scalars. The search is no part of its callers, which are short where keys are numbers.
#[inline(never)]
fn value_below<'a>(key: &Scalar, scalars: &'a BTreeMap<Scalar, Scalar>) -> Option<&'a Scalar>
    ensures { option_copied result ≡ finite_map.get (table_of_scalars scalars.now) key.now }
{
    scalars.get(key)
}

/// Puts a copy of a value at a copy of a key.
#[inline(never)]
fn add_entry(
    key: &Scalar,
    value: &Scalar,
    scalars: &mut BTreeMap<Scalar, Scalar>,
) -> Result<(), NoMemory>
    ensures ok { OnOk result (table_of_scalars scalars.new ≡ finite_map.insert (table_of_scalars scalars.old) key.now value.now) }
    ensures err { OnErr result (table_of_scalars scalars.new ≡ table_of_scalars scalars.old) }
{
    scalars.insert(key.copy()?, value.copy()?)?;
    Ok(())
}

/// The entries with their keys as scalars.
fn scalars_of(
    alloc: Global,
    numbers: &BTreeMap<i64, Scalar>,
) -> Result<BTreeMap<Scalar, Scalar>, NoMemory>
    ensures { IfOk result (λ m. table_of_scalars m ≡ table_of_numbers numbers.now) }
{
    let mut scalars = BTreeMap::new(alloc);
    let rest = numbers.iter();
    for (number, value) in rest {
        let key = key_of(number);
        add_entry(&key, value, &mut scalars)?;
    }
    Ok(scalars)
}

/// The entries with their keys as scalars, and one more.
fn scalars_with(
    alloc: Global,
    key: &Scalar,
    value: &Scalar,
    numbers: &BTreeMap<i64, Scalar>,
) -> Result<BTreeMap<Scalar, Scalar>, NoMemory>
    ensures { IfOk result (λ m. table_of_scalars m ≡ finite_map.insert (table_of_numbers numbers.now) key.now value.now) }
{
    let mut scalars = scalars_of(alloc, numbers)?;
    add_entry(key, value, &mut scalars)?;
    Ok(scalars)
}

impl EntryTree {
    /// No entry.
    pub fn new(alloc: Global) -> EntryTree
        ensures { table_of result ≡ finite_map.empty }
    {
        EntryTree::Numbers(alloc, BTreeMap::new(alloc))
    }

    /// The number of entries.
    pub fn len(&self) -> usize
        ensures { result ≡ finite_map.len (table_of self.now) }
    {
        match self {
            EntryTree::Numbers(_, numbers) => numbers.len(),
            EntryTree::Scalars(scalars) => scalars.len(),
        }
    }

    /// What stands at the key.
    #[inline(always)]
    pub fn value_at(&self, key: &Scalar) -> Option<&Scalar>
        ensures { option_copied result ≡ finite_map.get (table_of self.now) key.now }
    {
        match self {
            EntryTree::Numbers(_, numbers) => value_among(key, numbers),
            EntryTree::Scalars(scalars) => value_below(key, scalars),
        }
    }

    /// Whether the key is there.
    #[inline(always)]
    pub fn has(&self, key: &Scalar) -> bool
        ensures { result ≡ finite_map.contains_key (table_of self.now) key.now }
    {
        self.value_at(key).is_some()
    }

    /// Equal entries.
    pub fn copy(&self) -> Result<EntryTree, NoMemory>
        ensures { IfOk result (λ tree. table_of tree ≡ table_of self.now) }
    {
        match self {
            EntryTree::Numbers(alloc, numbers) => Ok(EntryTree::Numbers(*alloc, numbers.clone()?)),
            EntryTree::Scalars(scalars) => Ok(EntryTree::Scalars(scalars.clone()?)),
        }
    }

    /// Puts a copy of a value at a copy of a key. After `NoMemory` all is as it was.
    #[inline(never)]
    pub fn put_copy(&mut self, key: &Scalar, value: &Scalar) -> Result<(), NoMemory>
        ensures ok { OnOk result (table_of self.new ≡ finite_map.insert (table_of self.old) key.now value.now) }
        ensures err { OnErr result (table_of self.new ≡ table_of self.old) }
    {
        match key {
            Scalar::Int(number) => self.put_number(*number, value),
            _ => self.put_scalar(key, value),
        }
    }

    /// Puts a copy of a value at a number.
    fn put_number(&mut self, number: i64, value: &Scalar) -> Result<(), NoMemory>
        ensures ok { OnOk result (table_of self.new ≡ finite_map.insert (table_of self.old) (scalar.Int number) value.now) }
        ensures err { OnErr result (table_of self.new ≡ table_of self.old) }
    {
        match self {
            EntryTree::Numbers(_, numbers) => {
                numbers.insert(number, value.copy()?)?;
            }
            EntryTree::Scalars(scalars) => {
                let key = Scalar::Int(number);
                add_entry(&key, value, scalars)?;
            }
        }
        Ok(())
    }

    /// Puts a copy of a value at a copy of a key, and all keys are scalars from then on.
    fn put_scalar(&mut self, key: &Scalar, value: &Scalar) -> Result<(), NoMemory>
        ensures ok { OnOk result (table_of self.new ≡ finite_map.insert (table_of self.old) key.now value.now) }
        ensures err { OnErr result (table_of self.new ≡ table_of self.old) }
    {
        match self {
            EntryTree::Numbers(alloc, numbers) => {
                let scalars = scalars_with(*alloc, key, value, numbers)?;
                *self = EntryTree::Scalars(scalars);
            }
            EntryTree::Scalars(scalars) => {
                add_entry(key, value, scalars)?;
            }
        }
        Ok(())
    }

    /// Takes a key out, present or not.
    pub fn remove(&mut self, key: &Scalar)
        ensures { table_of self.new ≡ finite_map.remove (table_of self.old) key.now }
    {
        match self {
            EntryTree::Numbers(_, numbers) => {
                take_out(key, numbers);
            }
            EntryTree::Scalars(scalars) => {
                scalars.remove(key);
            }
        }
    }
}
