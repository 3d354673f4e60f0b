// The keys of a set.

ghost use Rattle.std.specs.Prelude.{◌≡◌, ℤ, Bool, IfOk, IsTrue, OnErr, OnOk};
ghost use Rattle.std.specs.FinSet as set;
ghost use Rattle.std.specs.List.{AllPass, Contains};
ghost use Rattle.tsl_value.specs.declared.scalar.Scalar.TheVariants as scalar;
ghost use Rattle.aggregate_store.specs.inner.Keys.{set_of};

use crate::key_tree::KeyTree;
use std::alloc::Global;
use std::marker::Model;
use tsl_value::memory::NoMemory;
use tsl_value::scalar::Scalar;

/// A set with fewer keys has no table.
const FEWEST: usize = 32;

/// A set with more keys has a table for this many.
const MOST: usize = 2048;

/// A set of keys in their order, and a table of numbers that were added lately. A number that stands in the table is found without a
/// search.
#[derive(Drop)]
pub struct KeySet {
    keys: KeyTree,
    // Each of them is a key. A number is looked for at one place alone.
    recent: Vec<i64>,
    // Whether numbers are put into the table: not once a key was taken out.
    is_noting: bool,
}

impl Model for KeySet {
    ghost use Rattle.std.specs.FinSet as set;
    ghost use Rattle.tsl_value.specs.View.{Keys};
    ghost use Rattle.tsl_value.specs.inner.ViewCode.{scalar_code};
    ghost use Rattle.aggregate_store.specs.inner.Keys.{AreKeys, set_of};

    ghost Value = { Keys };

    ghost coded = { set.code scalar_code };

    ghost view = { λ s. set_of s.keys };

    ghost invariant = { λ s. AreKeys (set_of s.keys) s.recent.items };
}

/// Where a number is looked for among so many, which are a power of two. Its high bits count too, or multiples of a large number would all
/// come to one place.
fn place_of(number: i64, len: usize) -> usize {
    let bits = number.unsigned_abs();
    (bits ^ (bits >> 12)) as usize & len.wrapping_sub(1)
}

/// Whether the number stands at its place.
fn is_found(numbers: &[i64], number: i64) -> bool
    ensures { IsTrue result → Contains numbers.now number }
{
    let place = place_of(number, numbers.len());
    place < numbers.len() && numbers[place] == number
}

/// Puts a number at its place, if there is one.
fn put(number: i64, numbers: &mut Vec<i64>)
    ensures { (p : ℤ → Bool) → AllPass p numbers.old.items → IsTrue (p number) → AllPass p numbers.new.items }
{
    let place = place_of(number, numbers.len());
    if place < numbers.len() {
        numbers[place] = number;
    }
}

/// Makes a table of so many places, or none where memory runs out. At each of them stands the number.
fn fill(number: i64, len: usize, numbers: &mut Vec<i64>)
    ensures { (p : ℤ → Bool) → IsTrue (p number) → AllPass p numbers.new.items }
{
    numbers.clear();
    let _ = numbers.resize(len, number);
}

/// Notes a number that was added, after which there are so many keys. The table grows as the keys do, and at few of them.
fn note(number: i64, keys: usize, numbers: &mut Vec<i64>)
    ensures { (p : ℤ → Bool) → AllPass p numbers.old.items → IsTrue (p number) → AllPass p numbers.new.items }
{
    if FEWEST <= keys && keys <= MOST && keys.is_power_of_two() {
        fill(number, 2 * keys, numbers);
    } else {
        put(number, numbers);
    }
}

impl KeySet {
    /// No key.
    pub fn new(alloc: Global) -> KeySet
        ensures { result ≡ set.empty }
    {
        KeySet {
            keys: KeyTree::new(alloc),
            recent: Vec::new(alloc),
            is_noting: true,
        }
    }

    /// The number of keys.
    pub fn len(&self) -> usize
        ensures { result ≡ set.len self.now }
    {
        self.keys.len()
    }

    /// The keys in their order.
    pub(crate) fn sorted(&self) -> &KeyTree
        ensures { set_of result.now ≡ self.now }
    {
        &self.keys
    }

    /// Whether a number stands in the table. `false` says nothing of it.
    fn is_recent(&self, number: i64) -> bool
        ensures { IsTrue result → IsTrue (set.contains self.now (scalar.Int number)) }
    {
        is_found(&self.recent, number)
    }

    /// Whether the key is there.
    #[inline(always)]
    pub fn contains(&self, key: &Scalar) -> bool
        ensures { result ≡ set.contains self.now key.now }
    {
        if let Scalar::Int(number) = key {
            if self.is_recent(*number) {
                return true;
            }
        }
        self.is_key(key)
    }

    /// The search. It is no part of its callers, which are short where the table has the number.
    #[inline(never)]
    fn is_key(&self, key: &Scalar) -> bool
        ensures { result ≡ set.contains self.now key.now }
    {
        self.keys.contains(key)
    }

    /// Equal keys, without a table.
    pub fn copy(&self) -> Result<KeySet, NoMemory>
        ensures { IfOk result (λ s. s ≡ self.now) }
    {
        let recent = Vec::new(*self.recent.allocator());
        let keys = self.keys.copy()?;
        Ok(KeySet {
            keys,
            recent,
            is_noting: true,
        })
    }

    /// Adds a key, present or not. After `NoMemory` all is as it was.
    #[inline(always)]
    pub fn insert(&mut self, key: &Scalar) -> Result<(), NoMemory>
        ensures ok { OnOk result (self.new ≡ set.insert self.old key.now) }
        ensures err { OnErr result (self.new ≡ self.old) }
    {
        match key {
            Scalar::Int(number) => self.insert_number(*number),
            _ => self.add_copy(key),
        }
    }

    #[inline(always)]
    fn insert_number(&mut self, number: i64) -> Result<(), NoMemory>
        ensures ok { OnOk result (self.new ≡ set.insert self.old (scalar.Int number)) }
        ensures err { OnErr result (self.new ≡ self.old) }
    {
        if self.is_recent(number) {
            return Ok(());
        }
        self.add_number(number)
    }

    /// Adds a copy of a key to the tree.
    #[inline(never)]
    fn add_copy(&mut self, key: &Scalar) -> Result<(), NoMemory>
        ensures ok { OnOk result (self.new ≡ set.insert self.old key.now) }
        ensures err { OnErr result (self.new ≡ self.old) }
    {
        let alloc = *self.recent.allocator();
        self.keys.insert(alloc, key.copy()?)?;
        Ok(())
    }

    /// Adds a number to the tree and to the table.
    #[inline(never)]
    fn add_number(&mut self, number: i64) -> Result<(), NoMemory>
        ensures ok { OnOk result (self.new ≡ set.insert self.old (scalar.Int number)) }
        ensures err { OnErr result (self.new ≡ self.old) }
    {
        self.keys.insert_number(number)?;
        if self.is_noting {
            note(number, self.keys.len(), &mut self.recent);
        }
        Ok(())
    }

    /// Takes a key out, present or not. The set has no table from then on.
    pub fn remove(&mut self, key: &Scalar)
        ensures { self.new ≡ set.remove self.old key.now }
    {
        self.recent.clear();
        self.is_noting = false;
        self.keys.remove(key);
    }
}
