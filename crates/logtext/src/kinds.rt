ghost use Rattle.std.specs.Prelude.{◌≡◌, ◌<◌, [], get_or};
ghost use Rattle.std.specs.List.{position};
ghost use Rattle.std.specs.Str.{bytes_eq};
ghost use Rattle.logtext.specs.Spelling.{basic_kinds, hier_kinds, seq_kinds, cumul_kinds, state_kinds};
ghost use Rattle.logtext.specs.code.Reads.{FindsWord};

/// The words of the kinds in `refute_basic`, by their places there.
const BASIC: [&[u8]; 6] = [b"SIZE", b"ARC", b"CYCLE", b"EXPR", b"OBJ", b"LEAF"];

/// The words of the kinds in `refute_hier`, by their places there.
const HIER: [&[u8]; 4] = [b"SPAN", b"ALT", b"SYNC", b"SEQREL"];

/// The words of the kinds in `refute_seq`, by their places there.
const SEQ: [&[u8]; 6] = [
    b"PAIR",
    b"TRIPLE",
    b"OVERLOAD",
    b"EDGE",
    b"NOTEND",
    b"DETECT",
];

/// The word of the kind in `refute_cumul`.
const CUMUL: [&[u8]; 1] = [b"POINT"];

/// The words of the kinds in `refute_state`, by their places there.
const STATE: [&[u8]; 2] = [b"STATE", b"STATE3"];

/// The place of a word in a table.
#[inline(always)]
fn place_of(word: &[u8], kinds: &[&[u8]]) -> Option<usize>
    ensures { result ≡ position (λ w. bytes_eq word.now w.now) kinds.now }
{
    kinds.iter().position(|kind| word == *kind)
}

/// The place of the kind in `refute_basic` that has this word.
pub fn basic_place(word: &[u8]) -> Option<usize>
    ensures { FindsWord basic_kinds word.now result }
{
    place_of(word, &BASIC)
}

/// The word of the kind at a place in `refute_basic`.
pub fn basic_word(place: usize) -> &'static [u8]
    requires { place < 6 }
    ensures { result.now ≡ get_or basic_kinds place [] }
{
    BASIC[place]
}

/// The place of the kind in `refute_hier` that has this word.
pub fn hier_place(word: &[u8]) -> Option<usize>
    ensures { FindsWord hier_kinds word.now result }
{
    place_of(word, &HIER)
}

/// The word of the kind at a place in `refute_hier`.
pub fn hier_word(place: usize) -> &'static [u8]
    requires { place < 4 }
    ensures { result.now ≡ get_or hier_kinds place [] }
{
    HIER[place]
}

/// The place of the kind in `refute_seq` that has this word.
pub fn seq_place(word: &[u8]) -> Option<usize>
    ensures { FindsWord seq_kinds word.now result }
{
    place_of(word, &SEQ)
}

/// The word of the kind at a place in `refute_seq`.
pub fn seq_word(place: usize) -> &'static [u8]
    requires { place < 6 }
    ensures { result.now ≡ get_or seq_kinds place [] }
{
    SEQ[place]
}

/// The place of the kind in `refute_cumul` that has this word.
pub fn cumul_place(word: &[u8]) -> Option<usize>
    ensures { FindsWord cumul_kinds word.now result }
{
    place_of(word, &CUMUL)
}

/// The word of the kind at a place in `refute_cumul`.
pub fn cumul_word(place: usize) -> &'static [u8]
    requires { place < 1 }
    ensures { result.now ≡ get_or cumul_kinds place [] }
{
    CUMUL[place]
}

/// The place of the kind in `refute_state` that has this word.
pub fn state_place(word: &[u8]) -> Option<usize>
    ensures { FindsWord state_kinds word.now result }
{
    place_of(word, &STATE)
}

/// The word of the kind at a place in `refute_state`.
pub fn state_word(place: usize) -> &'static [u8]
    requires { place < 2 }
    ensures { result.now ≡ get_or state_kinds place [] }
{
    STATE[place]
}
