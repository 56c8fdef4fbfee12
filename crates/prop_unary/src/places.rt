//! Sets of places among the members of a sequence, a bit for each.
ghost use Rattle.std.specs.Prelude.{◌≡◌, ◌<◌, ◌≤◌, ℕ, true, false, not, ◌||◌, ◌&&◌, length, nat_eq, nat_lt};
ghost use Rattle.prop_unary.specs.code.Rows.{has_place, has_word};

const WORDS: usize = 8;

/// How many places have room in a word.
pub const BITS: usize = 64;

/// A set of places below 512.
#[derive(Clone, Copy, Debug)]
pub struct Places {
    words: [u64; WORDS],
}

/// Whether each bit of one word is one of another.
fn is_part(word: u64, of: u64) -> bool
    ensures { result ≡ true → (b : ℕ) → has_word word b ≡ true → has_word of b ≡ true }
{
    word & of == word
}

/// A word with one more bit, if that is set: which are follows no pattern, so it takes no branch.
pub fn with_bit(word: u64, b: usize, is_set: bool) -> u64
    requires { b < 64 }
    ensures { (i : ℕ) → has_word result i ≡ ((is_set && nat_eq i b) || has_word word i) }
{
    word | (u64::from(is_set) << b)
}

/// The first bit of a word.
pub fn first_bit(word: u64) -> usize
    requires { 0 < word }
    ensures room { result < 64 }
    ensures there { has_word word result ≡ true }
{
    word.trailing_zeros() as usize
}

/// A word without one of its bits.
pub fn without_bit(word: u64, b: usize) -> u64
    requires room { b < 64 }
    requires there { has_word word b ≡ true }
    ensures less { result < word }
    ensures rest { (i : ℕ) → has_word result i ≡ (not (nat_eq i b) && has_word word i) }
{
    word & !(1 << b)
}

fn has_bit(word: u64, b: usize) -> bool
    requires { b < 64 }
    ensures { result ≡ has_word word b }
{
    (word >> b) & 1 == 1
}

impl Places {
    /// No place.
    pub fn none() -> Places
        ensures { (k : ℕ) → has_place result k ≡ false }
    {
        Places { words: [0; WORDS] }
    }

    /// Puts a place into the set, if it is to be in it.
    pub fn put(&mut self, k: usize, is_in: bool)
        requires { k < 512 }
        ensures { (j : ℕ) → has_place self.new j ≡ ((is_in && nat_eq j k) || has_place self.old j) }
    {
        self.words[k / BITS] = with_bit(self.words[k / BITS], k % BITS, is_in);
    }

    /// Whether a place is in the set.
    pub fn contains(&self, k: usize) -> bool
        requires { k < 512 }
        ensures { result ≡ has_place self.now k }
    {
        has_bit(self.words[k / BITS], k % BITS)
    }

    /// Whether each of its places is one of another set.
    pub fn is_within(&self, other: &Places) -> bool
        ensures { result ≡ true → (k : ℕ) → has_place self.now k ≡ true → has_place other.now k ≡ true }
    {
        let mut is_within = true;
        for w in 0..WORDS {
            is_within &= is_part(self.words[w], other.words[w]);
        }
        is_within
    }
}
