ghost use Rattle.std.specs.Prelude.{◌≡◌};
ghost use Rattle.std.specs.Option.{option_copied};
ghost use Rattle.read_schedule.specs.code.Reads.{FindsFeed, TakesLine};

use memchr::memchr;
use std::marker::Model;

/// The place of the first line feed.
fn find_feed(bytes: &[u8]) -> Option<usize>
    ensures { FindsFeed bytes.now result }
{
    memchr(b'\n', bytes)
}

/// The lines that are still to be read. Contracts see their bytes.
#[derive(Debug, Drop)]
pub struct Lines<'a> {
    rest: &'a [u8],
}

impl<'a> Model for Lines<'a> {
    ghost use Rattle.std.specs.Prelude.{ℕ, List};

    ghost Value = { List ℕ };

    ghost view = { λ l. l.rest.now };
}

impl<'a> Lines<'a> {
    pub fn of(bytes: &'a [u8]) -> Lines<'a>
        ensures { result ≡ bytes.now }
    {
        Lines { rest: bytes }
    }

    /// The bytes of the lines that are left.
    pub fn rest(&self) -> &'a [u8]
        ensures { result.now ≡ self.now }
    {
        self.rest
    }

    /// The next whole line, without its line feed; none where none is whole.
    pub fn next(&mut self) -> Option<&'a [u8]>
        ensures { TakesLine self.old self.new (option_copied result) }
    {
        let rest = self.rest;
        let at = find_feed(rest)?;
        let (line, _) = rest.split_at(at);
        let (_, behind) = rest.split_at(at + 1);
        self.rest = behind;
        Some(line)
    }
}
