// Bits in words of 64.

ghost use Rattle.std.specs.Prelude.{◌≡◌, ◌≢◌, ℕ, ◌*◌, ◌/◌, ◌^◌, ◌<◌, ◌≤◌, true, false, length, slice_index};
ghost use Rattle.agenda.specs.inner.Words.{HasSetBit, HasTaken, IsLeastIn};

/// How many bits a word has.
pub const WORD_BITS: usize = 64;

/// Sets the bit of a place.
pub fn set_bit(words: &mut [u64], place: usize)
    requires { place / 64 < length words.old }
    ensures { HasSetBit words.old words.new place true }
{
    words[place / WORD_BITS] |= 1 << (place % WORD_BITS);
}

/// Clears the bit of a place.
pub fn clear_bit(words: &mut [u64], place: usize)
    requires { place / 64 < length words.old }
    ensures { HasSetBit words.old words.new place false }
{
    words[place / WORD_BITS] &= !(1 << (place % WORD_BITS));
}

/// Clears the bit of a place, and the bit of its word in the summary where the word has no other.
pub fn take_bit(words: &mut [u64], summary: &mut [u64], place: usize)
    requires word { place / 64 < length words.old }
    requires group { place / 64 / 64 < length summary.old }
    ensures { HasTaken words.old words.new summary.old summary.new place }
{
    let word = place / WORD_BITS;
    clear_bit(words, place);
    if words[word] == 0 {
        clear_bit(summary, word);
    }
}

/// The place of the first bit that is set in a word.
pub fn least_in(words: &[u64], word: usize) -> usize
    requires there { word < length words.now }
    requires few { length words.now ≤ 2 ^ 58 }
    requires filled { slice_index words.now word ≢ 0 }
    ensures { IsLeastIn words.now word result }
{
    word * WORD_BITS + words[word].trailing_zeros() as usize
}

/// The first word from one on that has a set bit, or the number of words where there is none.
pub fn first_filled(words: &[u64], from: usize) -> usize
    requires { from ≤ length words.now }
    ensures begun { from ≤ result }
    ensures within { result ≤ length words.now }
    ensures filled { result < length words.now → slice_index words.now result ≢ 0 }
    ensures empty { (k : ℕ) → from ≤ k → k < result → slice_index words.now k ≡ 0 }
{
    let mut word = from;
    while word < words.len() && words[word] == 0 {
        word += 1;
    }
    word
}
