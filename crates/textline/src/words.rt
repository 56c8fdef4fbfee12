ghost use Rattle.std.specs.Prelude.{◌≡◌, ◌==◌};
ghost use Rattle.std.specs.Option.{option_copied};
ghost use Rattle.std.specs.List.{position};
ghost use Rattle.textline.specs.Lines.{words_of};
ghost use Rattle.textline.specs.Words.{TakesWord, TakesThis, SaysDone};

use std::marker::Model;

/// The words of a line that are still to be read. Contracts see the list of these words.
#[derive(Debug, Drop)]
pub struct Words<'a> {
    /// The text from the next word on; none behind the last word.
    rest: Option<&'a [u8]>,
}

impl<'a> Model for Words<'a> {
    ghost use Rattle.std.specs.Prelude.{ℕ, List};
    ghost use Rattle.std.specs.Option.{option_copied};
    ghost use Rattle.textline.specs.Words.{words_left};

    ghost Value = { List (List ℕ) };

    ghost view = { λ w. words_left (option_copied w.rest) };
}

/// The place of the first space.
fn word_end(bytes: &[u8]) -> Option<usize>
    ensures { result ≡ position (λ b. b == 32) bytes.now }
{
    bytes.iter().position(|b| *b == b' ')
}

impl<'a> Words<'a> {
    /// The words of a line without its line feed.
    pub fn of(line: &'a [u8]) -> Words<'a>
        ensures { result ≡ words_of line.now }
    {
        Words { rest: Some(line) }
    }

    /// The next word; none where no word is left.
    pub fn next(&mut self) -> Option<&'a [u8]>
        ensures { TakesWord self.old self.new (option_copied result) }
    {
        let rest = self.rest?;
        match word_end(rest) {
            None => {
                self.rest = None;
                Some(rest)
            }
            Some(at) => {
                let (word, _) = rest.split_at(at);
                let (_, behind) = rest.split_at(at + 1);
                self.rest = Some(behind);
                Some(word)
            }
        }
    }

    /// Whether no word is left.
    pub fn is_done(&self) -> bool
        ensures { SaysDone self.now result }
    {
        match self.rest {
            None => true,
            Some(_) => false,
        }
    }

    /// Whether the next word is this one; then it is taken.
    pub fn take(&mut self, word: &[u8]) -> bool
        ensures { TakesThis word.now self.old self.new result }
    {
        let before = self.rest;
        if let Some(next) = self.next() {
            if next == word {
                return true;
            }
        }
        self.rest = before;
        false
    }
}
