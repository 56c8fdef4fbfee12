ghost use Rattle.std.specs.Prelude.{◌≡◌, ◌==◌, ◌||◌, length, IfSome, ◌≤◌};
ghost use Rattle.std.specs.List.{prefix_len};
ghost use Rattle.cpo_text.specs.Tokens.{is_letter, is_digit, is_name_byte, is_blank, is_sign_byte, is_sign_pair, is_on_line, begins};
ghost use Rattle.cpo_text.specs.code.Lexing.{quote_len, close_len, slash_at, sign_at, piece_from, piece_at, gap_of};

/// What a text is made of: tokens of four kinds, single blanks, and comments to the end of a line
/// or up to a close.
#[derive(Clone, Copy)]
pub enum Piece {
    Name,
    Int,
    Sign,
    Quoted,
    Blank,
    Line,
    Block,
}

fn is_letter(b: u8) -> bool
    ensures { result ≡ is_letter b }
{
    b.is_ascii_alphabetic() || b == b'_'
}

fn is_digit(b: u8) -> bool
    ensures { result ≡ is_digit b }
{
    b'0' <= b && b <= b'9'
}

fn is_blank(b: u8) -> bool
    ensures { result ≡ is_blank b }
{
    b == b' ' || b == b'\t' || b == b'\r' || b == b'\n'
}

/// A byte that is a sign by itself; the last seven are in no rule of the grammar.
fn is_sign_byte(b: u8) -> bool
    ensures { result ≡ is_sign_byte b }
{
    b == b'='
        || b == b'('
        || b == b')'
        || b == b'['
        || b == b']'
        || b == b','
        || b == b';'
        || b == b'+'
        || b == b'-'
        || b == b'*'
        || b == b'<'
        || b == b'>'
        || b == b'!'
        || b == b'{'
        || b == b'}'
        || b == b'.'
        || b == b'#'
        || b == b':'
        || b == b'/'
        || b == b'%'
}

/// Two bytes that are one sign.
fn is_sign_pair(a: u8, b: u8) -> bool
    ensures { result ≡ is_sign_pair a b }
{
    (a == b'.' && b == b'.')
        || (a == b'=' && b == b'=')
        || (a == b'!' && b == b'=')
        || (a == b'<' && b == b'=')
        || (a == b'>' && b == b'=')
        || (a == b'&' && b == b'&')
        || (a == b'|' && b == b'|')
        || (a == b'=' && b == b'>')
}

fn name_len(bytes: &[u8]) -> usize
    ensures is { result ≡ prefix_len is_name_byte bytes.now }
    ensures within { result ≤ length bytes.now }
{
    bytes
        .iter()
        .take_while(|b| is_letter(**b) || is_digit(**b))
        .count()
}

fn int_len(bytes: &[u8]) -> usize
    ensures is { result ≡ prefix_len is_digit bytes.now }
    ensures within { result ≤ length bytes.now }
{
    bytes.iter().take_while(|b| is_digit(**b)).count()
}

fn line_len(bytes: &[u8]) -> usize
    ensures is { result ≡ prefix_len is_on_line bytes.now }
    ensures within { result ≤ length bytes.now }
{
    bytes.iter().take_while(|b| **b != b'\n').count()
}

/// The length of a quotation behind its first quote, where it is closed on its line.
fn quote_len(bytes: &[u8]) -> Option<usize>
    ensures is { result ≡ quote_len bytes.now }
    ensures within { IfSome result (λ n. n ≤ length bytes.now) }
{
    for i in 0..bytes.len() {
        if bytes[i] == b'"' {
            return Some(i + 1);
        }
        if bytes[i] == b'\n' {
            return None;
        }
    }
    None
}

fn ends_comment(bytes: &[u8]) -> bool
    ensures { result ≡ begins 42 47 bytes.now }
{
    match bytes {
        [a, b, ..] => *a == b'*' && *b == b'/',
        _ => false,
    }
}

/// How many bytes there are up to the end of the first `*/`.
fn close_len(bytes: &[u8]) -> Option<usize>
    ensures is { result ≡ close_len bytes.now }
    ensures within { IfSome result (λ n. n ≤ length bytes.now) }
{
    for i in 0..bytes.len() {
        if ends_comment(bytes.split_at(i).1) {
            return Some(i + 2);
        }
    }
    None
}

/// What begins with a slash and these bytes.
fn slash_at(bytes: &[u8]) -> Option<(Piece, usize)>
    ensures { result ≡ slash_at bytes.now }
{
    match bytes {
        [] => Some((Piece::Sign, 1)),
        [b, rest @ ..] => {
            if *b == b'/' {
                Some((Piece::Line, 2 + line_len(rest)))
            } else if *b == b'*' {
                let len = close_len(rest)?;
                Some((Piece::Block, 2 + len))
            } else {
                Some((Piece::Sign, 1))
            }
        }
    }
}

fn sign_at(a: u8, bytes: &[u8]) -> Option<(Piece, usize)>
    ensures { result ≡ sign_at a bytes.now }
{
    if let [b, ..] = bytes {
        if is_sign_pair(a, *b) {
            return Some((Piece::Sign, 2));
        }
    }
    if is_sign_byte(a) {
        Some((Piece::Sign, 1))
    } else {
        None
    }
}

/// The longest piece that begins with this byte, with its length.
fn piece_from(first: u8, rest: &[u8]) -> Option<(Piece, usize)>
    ensures { result ≡ piece_from first rest.now }
{
    if is_letter(first) {
        Some((Piece::Name, 1 + name_len(rest)))
    } else if is_digit(first) {
        Some((Piece::Int, 1 + int_len(rest)))
    } else if is_blank(first) {
        Some((Piece::Blank, 1))
    } else if first == b'"' {
        let len = quote_len(rest)?;
        Some((Piece::Quoted, 1 + len))
    } else if first == b'/' {
        slash_at(rest)
    } else {
        sign_at(first, rest)
    }
}

/// The signs that stand most often, and go on with no other byte: they are told apart first.
fn is_lone(b: u8) -> bool
    ensures { result ≡ (b == 40 || b == 41 || b == 44 || b == 59) }
{
    b == b'(' || b == b')' || b == b',' || b == b';'
}

/// The longest piece at the front, with its length.
#[tactic(auto, using(crate::proofs::pieces::Lone::lone_sign), unfolding(crate::specs::code::Lexing::piece_at))]
pub fn piece_at(bytes: &[u8]) -> Option<(Piece, usize)>
    ensures { result ≡ piece_at bytes.now }
{
    match bytes {
        [] => None,
        [first, rest @ ..] => {
            if is_lone(*first) {
                return Some((Piece::Sign, 1));
            }
            piece_from(*first, rest)
        }
    }
}

/// The length of a piece that is a blank or a comment.
fn gap_of(piece: Option<(Piece, usize)>) -> Option<usize>
    ensures { result ≡ gap_of piece }
{
    match piece {
        Some((Piece::Blank | Piece::Line | Piece::Block, len)) => Some(len),
        _ => None,
    }
}

/// The length of the piece that begins with this byte, where it is a blank or a comment.
#[tactic(auto, using(crate::proofs::pieces::Gaps::blank_gap, crate::proofs::pieces::Gaps::slash_gap, crate::proofs::pieces::Gaps::no_gap))]
fn gap_from(first: u8, rest: &[u8]) -> Option<usize>
    ensures { result ≡ gap_of (piece_from first rest.now) }
{
    if is_blank(first) {
        Some(1)
    } else if first == b'/' {
        gap_of(slash_at(rest))
    } else {
        None
    }
}

/// The length of the piece at the front, where that is a blank or a comment.
#[tactic(auto, unfolding(crate::specs::code::Lexing::piece_at))]
pub fn gap_at(bytes: &[u8]) -> Option<usize>
    ensures { result ≡ gap_of (piece_at bytes.now) }
{
    match bytes {
        [] => None,
        [first, rest @ ..] => gap_from(*first, rest),
    }
}
