// Sets of gates.

ghost use Rattle.std.specs.Prelude.{◌≡◌, ◌≢◌, ℕ, ◌+◌, ◌/◌, ◌<◌, ◌⊎◌, length, slice_index, IfNone, IfOk, IfSome, IsTrue, IsFalse};
ghost use Rattle.std.specs.List.{Contains};
ghost use Rattle.gate_circuits.specs.inner.Marks.{has, AreKeptIn, IsLastBefore};

use std::alloc::Global;
use std::marker::Model;
use tsl_value::memory::NoMemory;

/// How many bits a word has.
const WORD_BITS: usize = 64;

/// The word at a place, which is 0 after the last.
fn word(words: &[u64], place: usize) -> u64
    ensures { result ≡ slice_index words.now place }
{
    match words.get(place) {
        Some(word) => *word,
        None => 0,
    }
}

/// Whether the bit of a number is set.
fn has_bit(words: &[u64], number: usize) -> bool
    ensures { result ≡ has words.now number }
{
    (word(words, number / WORD_BITS) >> (number % WORD_BITS)) & 1 == 1
}

/// Sets the bit of a number.
fn set_bit(words: &mut [u64], number: usize)
    requires { number / 64 < length words.old }
    ensures here { IsTrue (has words.new number) }
    ensures others { (x : ℕ) → x ≢ number → has words.new x ≡ has words.old x }
{
    words[number / WORD_BITS] |= 1 << (number % WORD_BITS);
}

/// The bits of either.
fn join(words: &mut [u64], other: &[u64])
    ensures { (x : ℕ) → IsTrue (has words.new x) → IsTrue (has words.old x) ⊎ IsTrue (has other.now x) }
{
    for place in 0..words.len() {
        words[place] |= word(other, place);
    }
}

/// The bits that are in either of two others.
fn meet_either(words: &mut [u64], first: &[u64], second: &[u64])
    ensures { AreKeptIn words.old first.now second.now words.new }
{
    for place in 0..words.len() {
        words[place] &= word(first, place) | word(second, place);
    }
}

/// The bits that are not in another.
fn subtract(words: &mut [u64], other: &[u64])
    ensures { (x : ℕ) → IsTrue (has words.new x) → IsTrue (has words.old x) × IsFalse (has other.now x) }
{
    for place in 0..words.len() {
        words[place] &= !word(other, place);
    }
}

/// Whether all bits are in another.
fn are_within(words: &[u64], other: &[u64]) -> bool
    ensures { IsTrue result → (x : ℕ) → IsTrue (has words.now x) → IsTrue (has other.now x) }
{
    for place in 0..words.len() {
        if words[place] & !word(other, place) != 0 {
            return false;
        }
    }
    true
}

/// The last number before another whose bit is set.
fn last_bit(words: &[u64], end: usize) -> Option<usize>
    ensures found { IfSome result (λ x. IsLastBefore words.now end x) }
    ensures none { IfNone result ((x : ℕ) → x < end → IsFalse (has words.now x)) }
{
    let mut upto = end;
    while upto > 0 {
        let place = (upto - 1) / WORD_BITS;
        if word(words, place) == 0 {
            upto = place * WORD_BITS;
        } else if has_bit(words, upto - 1) {
            return Some(upto - 1);
        } else {
            upto -= 1;
        }
    }
    None
}

/// A set of numbers, as bits in words of 64. Contracts see the words, and ask by `has`. No number that has no bit is in it.
#[derive(Drop)]
pub struct Marks {
    words: Vec<u64>,
}

impl Model for Marks {
    ghost use Rattle.std.specs.Prelude.{List, ℕ};

    ghost Value = { List ℕ };

    ghost view = { λ m. m.words.items };
}

impl Marks {
    /// No number, and no room for any.
    pub fn without_room(alloc: Global) -> Marks
        ensures { (x : ℕ) → IsFalse (has result x) }
    {
        Marks {
            words: Vec::new(alloc),
        }
    }

    /// No number, with room for those below a count.
    pub fn with_room(alloc: Global, count: usize) -> Result<Marks, NoMemory>
        ensures room { IfOk result (λ m. length m ≡ count / 64 + 1) }
        ensures none { IfOk result (λ m. (x : ℕ) → IsFalse (has m x)) }
    {
        Ok(Marks {
            words: vec![in alloc; 0; count / WORD_BITS + 1]?,
        })
    }

    /// The same numbers.
    pub fn copy(&self, alloc: Global) -> Result<Marks, NoMemory>
        ensures { IfOk result (λ m. m ≡ self.now) }
    {
        Ok(Marks {
            words: Vec::from_slice(alloc, self.words.as_slice())?,
        })
    }

    /// Takes away all numbers, and the room for them.
    pub fn clear(&mut self)
        ensures { (x : ℕ) → IsFalse (has self.new x) }
    {
        self.words.clear();
    }

    /// Whether there is room for no number.
    pub fn has_no_room(&self) -> bool {
        self.words.is_empty()
    }

    /// Whether a number is in it.
    pub fn has(&self, number: usize) -> bool
        ensures { result ≡ has self.now number }
    {
        has_bit(&self.words, number)
    }

    /// Adds a number, if there is room for it.
    pub fn add(&mut self, number: usize)
        ensures room { length self.new ≡ length self.old }
        ensures here { number / 64 < length self.old → IsTrue (has self.new number) }
        ensures others { (x : ℕ) → x ≢ number → has self.new x ≡ has self.old x }
    {
        if number / WORD_BITS < self.words.len() {
            set_bit(&mut self.words, number);
        }
    }

    /// Adds a number if it is wanted and there is room for it.
    pub fn add_if(&mut self, number: usize, wanted: bool)
        ensures room { length self.new ≡ length self.old }
        ensures here { IsTrue wanted → number / 64 < length self.old → IsTrue (has self.new number) }
        ensures kept { (x : ℕ) → IsTrue (has self.old x) → IsTrue (has self.new x) }
        ensures from { (x : ℕ) → IsTrue (has self.new x) → IsTrue (has self.old x) ⊎ (IsTrue wanted × (x ≡ number)) }
    {
        if wanted {
            self.add(number);
        }
    }

    /// Adds each of these numbers for which there is room.
    pub fn add_each(&mut self, numbers: &[usize])
        ensures room { length self.new ≡ length self.old }
        ensures kept { (x : ℕ) → IsTrue (has self.old x) → IsTrue (has self.new x) }
        ensures there { (x : ℕ) → Contains numbers.now x → x / 64 < length self.old → IsTrue (has self.new x) }
        ensures from { (x : ℕ) → IsTrue (has self.new x) → IsTrue (has self.old x) ⊎ Contains numbers.now x }
    {
        for number in numbers {
            self.add(*number);
        }
    }

    /// Adds all numbers of another set for which there is room.
    pub fn add_all(&mut self, other: &Marks)
        ensures room { length self.new ≡ length self.old }
        ensures from { (x : ℕ) → IsTrue (has self.new x) → IsTrue (has self.old x) ⊎ IsTrue (has other.now x) }
    {
        join(&mut self.words, &other.words);
    }

    /// Keeps what is in either of two others.
    pub fn keep_either(&mut self, first: &Marks, second: &Marks)
        ensures { AreKeptIn self.old first.now second.now self.new }
    {
        meet_either(&mut self.words, &first.words, &second.words);
    }

    /// Removes what is in another.
    pub fn remove_all(&mut self, other: &Marks)
        ensures kept { (x : ℕ) → IsTrue (has self.new x) → IsTrue (has self.old x) }
        ensures removed { (x : ℕ) → IsTrue (has self.new x) → IsFalse (has other.now x) }
    {
        subtract(&mut self.words, &other.words);
    }

    /// Whether all is in another.
    pub fn is_within(&self, other: &Marks) -> bool
        ensures { IsTrue result → (x : ℕ) → IsTrue (has self.now x) → IsTrue (has other.now x) }
    {
        are_within(&self.words, &other.words)
    }

    /// The last number before another. `None` exactly where none is.
    pub fn last_before(&self, end: usize) -> Option<usize>
        ensures found { IfSome result (λ x. IsLastBefore self.now end x) }
        ensures none { IfNone result ((x : ℕ) → x < end → IsFalse (has self.now x)) }
    {
        last_bit(&self.words, end)
    }

    /// The first of some numbers that is in it.
    pub fn first_of(&self, numbers: &[usize]) -> Option<usize>
        ensures { IfSome result (λ x. Contains numbers.now x × IsTrue (has self.now x)) }
    {
        for number in numbers {
            if self.has(*number) {
                return Some(*number);
            }
        }
        None
    }

    /// Whether any of some numbers is in it.
    pub fn has_any(&self, numbers: &[usize]) -> bool {
        self.first_of(numbers).is_some()
    }
}
