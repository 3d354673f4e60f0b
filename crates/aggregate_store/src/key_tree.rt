// The tree of a set's keys.

ghost use Rattle.std.specs.Prelude.{◌≡◌, IfOk, OnErr, OnOk};
ghost use Rattle.std.specs.FinSet as set;
ghost use Rattle.tsl_value.specs.declared.scalar.Scalar.TheVariants as scalar;
ghost use Rattle.aggregate_store.specs.inner.Keys.{set_of, set_of_numbers, set_of_scalars};

use std::alloc::Global;
use std::collections::BTreeSet;
use tsl_value::memory::NoMemory;
use tsl_value::scalar::Scalar;

/// The keys of a set in their order. Numbers alone take a quarter of the memory that scalars take.
#[derive(Drop)]
pub enum KeyTree {
    /// Each key so far was a number.
    Numbers(BTreeSet<i64>),
    Scalars(BTreeSet<Scalar>),
}

/// The number as a key.
pub(crate) fn key_of(number: &i64) -> Scalar
    ensures { result ≡ scalar.Int number.now }
{
    Scalar::Int(*number)
}

/// Whether the key is one of the numbers.
fn is_among(key: &Scalar, numbers: &BTreeSet<i64>) -> bool
    ensures { result ≡ set.contains (set_of_numbers numbers.now) key.now }
{
    match key {
        Scalar::Int(number) => numbers.contains(number),
        _ => false,
    }
}

/// Takes a key out of numbers, present or not.
fn take_out(key: &Scalar, numbers: &mut BTreeSet<i64>)
    ensures { set_of_numbers numbers.new ≡ set.remove (set_of_numbers numbers.old) key.now }
{
    if let Scalar::Int(number) = key {
        numbers.remove(number);
    }
}

/// The numbers as scalars.
fn scalars_of(alloc: Global, numbers: &BTreeSet<i64>) -> Result<BTreeSet<Scalar>, NoMemory>
    ensures { IfOk result (λ s. set_of_scalars s ≡ set_of_numbers numbers.now) }
{
    let mut scalars = BTreeSet::new(alloc);
    let rest = numbers.iter();
    for number in rest {
        scalars.insert(key_of(number))?;
    }
    Ok(scalars)
}

/// The numbers and a key as scalars.
fn scalars_with(
    alloc: Global,
    key: Scalar,
    numbers: &BTreeSet<i64>,
) -> Result<BTreeSet<Scalar>, NoMemory>
    ensures { IfOk result (λ s. set_of_scalars s ≡ set.insert (set_of_numbers numbers.now) key) }
{
    let mut scalars = scalars_of(alloc, numbers)?;
    scalars.insert(key)?;
    Ok(scalars)
}

impl KeyTree {
    /// No key.
    pub fn new(alloc: Global) -> KeyTree
        ensures { set_of result ≡ set.empty }
    {
        KeyTree::Numbers(BTreeSet::new(alloc))
    }

    /// The number of keys.
    pub fn len(&self) -> usize
        ensures { result ≡ set.len (set_of self.now) }
    {
        match self {
            KeyTree::Numbers(numbers) => numbers.len(),
            KeyTree::Scalars(scalars) => scalars.len(),
        }
    }

    /// Whether the key is there.
    pub fn contains(&self, key: &Scalar) -> bool
        ensures { result ≡ set.contains (set_of self.now) key.now }
    {
        match self {
            KeyTree::Numbers(numbers) => is_among(key, numbers),
            KeyTree::Scalars(scalars) => scalars.contains(key),
        }
    }

    /// Equal keys.
    pub fn copy(&self) -> Result<KeyTree, NoMemory>
        ensures { IfOk result (λ tree. set_of tree ≡ set_of self.now) }
    {
        match self {
            KeyTree::Numbers(numbers) => Ok(KeyTree::Numbers(numbers.clone()?)),
            KeyTree::Scalars(scalars) => Ok(KeyTree::Scalars(scalars.clone()?)),
        }
    }

    /// Adds a number, present or not. After `NoMemory` all is as it was.
    pub fn insert_number(&mut self, number: i64) -> Result<(), NoMemory>
        ensures ok { OnOk result (set_of self.new ≡ set.insert (set_of self.old) (scalar.Int number)) }
        ensures err { OnErr result (set_of self.new ≡ set_of self.old) }
    {
        match self {
            KeyTree::Numbers(numbers) => {
                numbers.insert(number)?;
            }
            KeyTree::Scalars(scalars) => {
                scalars.insert(Scalar::Int(number))?;
            }
        }
        Ok(())
    }

    /// Adds a key, present or not, and all keys are scalars from then on. After `NoMemory` all is as it was.
    pub fn insert(&mut self, alloc: Global, key: Scalar) -> Result<(), NoMemory>
        ensures ok { OnOk result (set_of self.new ≡ set.insert (set_of self.old) key) }
        ensures err { OnErr result (set_of self.new ≡ set_of self.old) }
    {
        match self {
            KeyTree::Numbers(numbers) => {
                let scalars = scalars_with(alloc, key, numbers)?;
                *self = KeyTree::Scalars(scalars);
            }
            KeyTree::Scalars(scalars) => {
                scalars.insert(key)?;
            }
        }
        Ok(())
    }

    /// Takes a key out, present or not.
    pub fn remove(&mut self, key: &Scalar)
        ensures { set_of self.new ≡ set.remove (set_of self.old) key.now }
    {
        match self {
            KeyTree::Numbers(numbers) => {
                take_out(key, numbers);
            }
            KeyTree::Scalars(scalars) => {
                scalars.remove(key);
            }
        }
    }
}
