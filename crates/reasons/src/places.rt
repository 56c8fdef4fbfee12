//! Places in a text.
ghost use Rattle.std.specs.Prelude.{◌≡◌, ◌<◌, ◌+◌, ◌^◌, take, drop};
ghost use Rattle.reasons.specs.Explained.{next_line, next_column, line_from, column_from, line_of, column_of, among, next, ends, statement_len, statement_text};

/// So many bytes of a text, or all of it.
pub fn front(text: &[u8], n: usize) -> &[u8]
    ensures { result.now ≡ take n text.now }
{
    match text.get(..n) {
        Some(front) => front,
        None => text,
    }
}

/// The text behind so many bytes.
pub fn behind(text: &[u8], n: usize) -> &[u8]
    ensures { result.now ≡ drop n text.now }
{
    match text.get(n..) {
        Some(rest) => rest,
        None => &[],
    }
}

fn next_line(line: u64, b: u8) -> u64
    requires { line < 2 ^ 63 + 1 }
    ensures { result ≡ next_line line b }
{
    if b == b'\n' { line + 1 } else { line }
}

fn next_column(column: u64, b: u8) -> u64
    requires { column < 2 ^ 63 + 1 }
    ensures { result ≡ next_column column b }
{
    if b == b'\n' { 1 } else { column + 1 }
}

/// The line behind these bytes, counted from 1.
fn line_behind(bytes: &[u8]) -> u64
    ensures { result ≡ line_from 1 bytes.now }
{
    let mut line = 1;
    for b in bytes {
        line = next_line(line, *b);
    }
    line
}

/// The column behind these bytes, counted from 1 in bytes.
fn column_behind(bytes: &[u8]) -> u64
    ensures { result ≡ column_from 1 bytes.now }
{
    let mut column = 1;
    for b in bytes {
        column = next_column(column, *b);
    }
    column
}

pub fn line_of(text: &[u8], at: usize) -> u64
    ensures { result ≡ line_of text.now at }
{
    line_behind(front(text, at))
}

pub fn column_of(text: &[u8], at: usize) -> u64
    ensures { result ≡ column_of text.now at }
{
    column_behind(front(text, at))
}

/// Where a byte of a text stands.
#[derive(Clone, Copy, Debug)]
pub enum Spot {
    /// Among words.
    Words,
    /// Among words, behind a slash, with which a comment may begin.
    Slash,
    /// In a comment that ends with its line.
    Line,
    /// In a comment that ends with a star and a slash.
    Block,
    /// In such a comment, behind a star.
    Star,
    /// In a quotation.
    Quoted,
}

fn among(b: u8) -> Spot
    ensures { result ≡ among b }
{
    match b {
        b'/' => Spot::Slash,
        b'"' => Spot::Quoted,
        _ => Spot::Words,
    }
}

/// Where the byte behind this one stands.
fn next(spot: Spot, b: u8) -> Spot
    ensures { result ≡ next spot b }
{
    match spot {
        Spot::Words => among(b),
        Spot::Slash => match b {
            b'/' => Spot::Line,
            b'*' => Spot::Block,
            _ => among(b),
        },
        Spot::Line => match b {
            b'\n' => Spot::Words,
            _ => Spot::Line,
        },
        Spot::Block => match b {
            b'*' => Spot::Star,
            _ => Spot::Block,
        },
        Spot::Star => match b {
            b'/' => Spot::Words,
            b'*' => Spot::Star,
            _ => Spot::Block,
        },
        Spot::Quoted => match b {
            b'"' | b'\n' => Spot::Words,
            _ => Spot::Quoted,
        },
    }
}

fn ends(spot: Spot, b: u8) -> bool
    ensures { result ≡ ends spot b }
{
    match spot {
        Spot::Words | Spot::Slash => b == b';',
        _ => false,
    }
}

/// How many bytes the statement has with which a text begins.
fn statement_len(text: &[u8]) -> usize
    ensures { result ≡ statement_len text.now }
{
    let mut spot = Spot::Words;
    for k in 0..text.len() {
        if ends(spot, text[k]) {
            return k + 1;
        }
        spot = next(spot, text[k]);
    }
    text.len()
}

/// The text up to the first semicolon that stands in no comment and no quotation, and with it.
pub fn statement_text(text: &[u8]) -> &[u8]
    ensures { result.now ≡ statement_text text.now }
{
    front(text, statement_len(text))
}
