//! Words of a line, and numbers.
ghost use Rattle.std.specs.Prelude.{◌≡◌, ◌++◌, OnOk};
ghost use Rattle.std.specs.Fmt.{signed_decimal};
ghost use Rattle.textline.specs.Words.{ReadsCount, ReadsNumber, TakesWord, TakesThis};
ghost use Rattle.std.specs.Option.{option_copied};
ghost use Rattle.textline.specs.Lines.{words_of};

use sched_base::NoMemory;
use textline::Words;

pub fn push_number(bytes: &mut Vec<u8>, n: i64) -> Result<(), NoMemory>
    ensures { OnOk result (bytes.new.items ≡ bytes.old.items ++ signed_decimal n) }
{
    textline::push_number(bytes, n)
}

pub fn read_count(word: &[u8]) -> Option<u64>
    ensures { ReadsCount word.now result }
{
    textline::read_count(word)
}

pub fn read_number(word: &[u8]) -> Option<i64>
    ensures { ReadsNumber word.now result }
{
    textline::read_number(word)
}

pub fn words_of_line<'a>(line: &'a [u8]) -> Words<'a>
    ensures { result ≡ words_of line.now }
{
    Words::of(line)
}

pub fn next_word<'a>(words: &mut Words<'a>) -> Option<&'a [u8]>
    ensures { TakesWord words.old words.new (option_copied result) }
{
    words.next()
}

pub fn take_word(words: &mut Words<'_>, word: &[u8]) -> bool
    ensures { TakesThis word.now words.old words.new result }
{
    words.take(word)
}
