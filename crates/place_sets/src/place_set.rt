//! A set of places.
ghost use Rattle.std.specs.Prelude.{◌≤◌, length};

/// How many places have room in a word.
pub const BITS: usize = 64;

/// A set of places, a bit for each, in `W` words. Nothing hangs on what it holds: it serves hints.
#[derive(Clone, Copy, Debug)]
pub struct PlaceSet<const W: usize> {
    pub(crate) words: [u64; W],
}

/// The bit of a place in its word.
fn bit_of(k: usize) -> u64 {
    1u64 << (k % BITS)
}

/// A word without its first bit.
fn without_first_bit(word: u64) -> u64 {
    word & word.wrapping_sub(1)
}

/// The place of the first bit of a word.
fn first_in(w: usize, word: u64) -> usize {
    (w << 6) | word.trailing_zeros() as usize
}

/// The numbers of the places that have room in a word, of those of all places.
fn piece(numbers: &[i32], w: usize) -> &[i32]
    ensures { length result.now ≤ 64 }
{
    let from = (w << 6).min(numbers.len());
    let rest = &numbers[from..];
    &rest[..rest.len().min(BITS)]
}

/// The bits of the numbers below one.
fn bits_below(numbers: &[i32], n: i32) -> u64
    requires { length numbers.now ≤ 64 }
{
    let mut word = 0;
    for k in 0..numbers.len() {
        word |= u64::from(numbers[k] < n) << k;
    }
    word
}

/// The bits of the numbers above one.
fn bits_above(numbers: &[i32], n: i32) -> u64
    requires { length numbers.now ≤ 64 }
{
    let mut word = 0;
    for k in 0..numbers.len() {
        word |= u64::from(n < numbers[k]) << k;
    }
    word
}

/// The bits of a word whose places don't lie before one.
fn bits_from(w: usize, k: usize) -> u64 {
    let word = k / BITS;
    if w < word {
        0
    } else if word < w {
        u64::MAX
    } else {
        u64::MAX << (k % BITS)
    }
}

impl<const W: usize> PlaceSet<W> {
    /// No place.
    pub fn none() -> PlaceSet<W> {
        PlaceSet { words: [0; W] }
    }

    /// Each place.
    pub fn all() -> PlaceSet<W> {
        PlaceSet {
            words: [u64::MAX; W],
        }
    }

    /// One place.
    pub fn only(k: usize) -> PlaceSet<W> {
        let mut set = PlaceSet::none();
        set.put(k);
        set
    }

    /// The places of the numbers below one.
    pub fn below(numbers: &[i32], n: i32) -> PlaceSet<W> {
        let mut set = PlaceSet::none();
        for w in 0..W {
            set.words[w] = bits_below(piece(numbers, w), n);
        }
        set
    }

    /// The places of the numbers above one.
    pub fn above(numbers: &[i32], n: i32) -> PlaceSet<W> {
        let mut set = PlaceSet::none();
        for w in 0..W {
            set.words[w] = bits_above(piece(numbers, w), n);
        }
        set
    }

    /// The word of a place, which is the only one where there is one.
    fn word_at(&self, k: usize) -> u64 {
        if W == 1 {
            return self.words[0];
        }
        match self.words.get(k / BITS) {
            None => 0,
            Some(word) => *word,
        }
    }

    /// Whether a place is in the set.
    pub fn contains(&self, k: usize) -> bool {
        self.word_at(k) & bit_of(k) != 0
    }

    /// Each bit where a place is in the set, and none where it isn't. Who is in a set follows no pattern,
    /// so sums over sets are made without a branch.
    pub fn mask_at(&self, place: u32) -> i64 {
        self.word_at(place as usize)
            .wrapping_shl(!place)
            .cast_signed()
            >> 63
    }

    /// Puts a place into the set.
    pub fn put(&mut self, k: usize) {
        self.put_if(k, true);
    }

    /// Puts a place into the set if it is to be in it: who is follows no pattern, so it takes no branch.
    pub fn put_if(&mut self, k: usize, is_in: bool) {
        let bit = u64::from(is_in) << (k % BITS);
        if W == 1 {
            self.words[0] |= bit;
        } else if let Some(word) = self.words.get_mut(k / BITS) {
            *word |= bit;
        }
    }

    /// Takes a place out of the set.
    pub fn take_out(&mut self, k: usize) {
        if W == 1 {
            self.words[0] &= !bit_of(k);
        } else if let Some(word) = self.words.get_mut(k / BITS) {
            *word &= !bit_of(k);
        }
    }

    /// Puts a place into the set, or takes it out where it is in it.
    pub fn turn(&mut self, k: usize) {
        if W == 1 {
            self.words[0] ^= bit_of(k);
        } else if let Some(word) = self.words.get_mut(k / BITS) {
            *word ^= bit_of(k);
        }
    }

    /// Puts the places of another set into it.
    pub fn put_all(&mut self, other: &PlaceSet<W>) {
        for w in 0..W {
            self.words[w] |= other.words[w];
        }
    }

    /// Those that are in both.
    pub fn and(&self, other: &PlaceSet<W>) -> PlaceSet<W> {
        let mut set = *self;
        for w in 0..W {
            set.words[w] &= other.words[w];
        }
        set
    }

    /// Those that aren't in the other.
    pub fn minus(&self, other: &PlaceSet<W>) -> PlaceSet<W> {
        let mut set = *self;
        for w in 0..W {
            set.words[w] &= !other.words[w];
        }
        set
    }

    /// Those that are in one of them.
    pub fn or(&self, other: &PlaceSet<W>) -> PlaceSet<W> {
        let mut set = *self;
        set.put_all(other);
        set
    }

    /// Those that are in one of them alone.
    pub fn xor(&self, other: &PlaceSet<W>) -> PlaceSet<W> {
        let mut set = *self;
        for w in 0..W {
            set.words[w] ^= other.words[w];
        }
        set
    }

    /// Those from a place on.
    pub fn from(&self, k: usize) -> PlaceSet<W> {
        let mut set = *self;
        for w in 0..W {
            set.words[w] &= bits_from(w, k);
        }
        set
    }

    /// Whether it has none.
    pub fn is_empty(&self) -> bool {
        let mut all = 0;
        for w in 0..W {
            all |= self.words[w];
        }
        all == 0
    }

    /// Whether it has each place.
    pub fn is_full(&self) -> bool {
        let mut all = u64::MAX;
        for w in 0..W {
            all &= self.words[w];
        }
        all == u64::MAX
    }

    /// Takes its first place out; where it has none, a place that no list has.
    pub fn next(&mut self) -> usize {
        for w in 0..W {
            let word = self.words[w];
            if word != 0 {
                self.words[w] = without_first_bit(word);
                return first_in(w, word);
            }
        }
        usize::MAX
    }

    /// Its first place; where it has none, a place that no list has.
    pub fn first(&self) -> usize {
        let mut set = *self;
        set.next()
    }

    /// The same set in another number of words; places that have no room there are gone.
    pub fn widened<const V: usize>(&self) -> PlaceSet<V> {
        let mut set = PlaceSet::none();
        for w in 0..V.min(W) {
            set.words[w] = self.words[w];
        }
        set
    }
}
