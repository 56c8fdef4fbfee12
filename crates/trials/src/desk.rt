//! Runs over a desk in memory, and what they leave behind.
use crate::sips::Sips;
use commands::{Ended, run};
use sched_base::{File, List, MemDesk, NoMemory};
use std::alloc::Global;

// Each exit of a function that owns a desk or words makes its proof longer. So one function owns the
// desk and asks once, and what can fail borrows.

/// A run: its words, the model in the file `m`, the log or schedule in the file `l`, the numbers of the
/// calls that fail, and how many bytes a read gives at most.
#[derive(Clone, Copy)]
pub struct Run<'a> {
    pub words: &'a str,
    pub model: &'a [u8],
    pub log: &'a [u8],
    pub fails: &'a str,
    pub most: usize,
}

impl<'a> Run<'a> {
    /// A run of which no call fails and each read gives all that it may.
    pub fn calm(words: &'a str, model: &'a [u8], log: &'a [u8]) -> Run<'a> {
        Run {
            words,
            model,
            log,
            fails: "",
            most: usize::MAX,
        }
    }
}

/// What a run leaves behind: its status, what it wrote to the two streams, its log, and the names of
/// the logs that it created, each with a line feed.
#[derive(Drop)]
pub struct Told {
    pub status: u8,
    pub out: Vec<u8>,
    pub err: Vec<u8>,
    pub log: Vec<u8>,
    pub logs: Vec<u8>,
}

impl Told {
    pub fn is_same(&self, other: &Told) -> bool {
        self.status == other.status
            && self.out.as_slice() == other.out.as_slice()
            && self.err.as_slice() == other.err.as_slice()
            && self.log.as_slice() == other.log.as_slice()
            && self.logs.as_slice() == other.logs.as_slice()
    }
}

fn listed(alloc: Global, bytes: &[u8]) -> Result<List<u8>, NoMemory> {
    Ok(List::from_vec(Vec::from_slice(alloc, bytes)?))
}

fn push_file(
    alloc: Global,
    files: &mut List<File>,
    name: &[u8],
    bytes: &[u8],
) -> Result<(), NoMemory> {
    let name = listed(alloc, name)?;
    let bytes = listed(alloc, bytes)?;
    files.push(File { name, bytes })
}

fn push_files(alloc: Global, files: &mut List<File>, asked: &Run<'_>) -> Result<(), NoMemory> {
    push_file(alloc, files, b"m", asked.model)?;
    push_file(alloc, files, b"l", asked.log)
}

fn two_files(alloc: Global, asked: &Run<'_>) -> Result<List<File>, NoMemory> {
    let mut files = List::new(alloc);
    push_files(alloc, &mut files, asked)?;
    Ok(files)
}

fn push_numbers(numbers: &mut List<u32>, words: &str) -> Result<(), NoMemory> {
    for word in words.split(' ') {
        if let Ok(number) = word.parse::<u32>() {
            numbers.push(number)?;
        }
    }
    Ok(())
}

fn numbers(alloc: Global, words: &str) -> Result<List<u32>, NoMemory> {
    let mut numbers = List::new(alloc);
    push_numbers(&mut numbers, words)?;
    Ok(numbers)
}

fn desk_for(alloc: Global, asked: &Run<'_>) -> Result<Sips, NoMemory> {
    let failing = numbers(alloc, asked.fails)?;
    let files = two_files(alloc, asked)?;
    let desk = MemDesk::new(alloc, files, failing)?;
    Ok(Sips {
        desk,
        most: asked.most,
    })
}

fn push_words(alloc: Global, list: &mut Vec<String>, words: &str) -> Result<(), NoMemory> {
    if !words.is_empty() {
        for word in words.split(' ') {
            let word = if word == "\"\"" { "" } else { word };
            list.push(String::from_str(alloc, word)?)?;
        }
    }
    Ok(())
}

/// The words of a line, with one space between two; `""` is the empty one.
pub fn words_of(alloc: Global, words: &str) -> Result<Vec<String>, NoMemory> {
    let mut list = Vec::new(alloc);
    push_words(alloc, &mut list, words)?;
    Ok(list)
}

fn run_words(alloc: Global, words: &str, desk: &mut Sips) -> Result<Ended, NoMemory> {
    let list = words_of(alloc, words)?;
    Ok(run(alloc, Ok(list), desk))
}

fn lines_of(alloc: Global, names: &[List<u8>]) -> Result<Vec<u8>, NoMemory> {
    let mut lines = Vec::new(alloc);
    for name in names {
        lines.extend_from_slice(name.as_slice())?;
        lines.push(b'\n')?;
    }
    Ok(lines)
}

fn left_by(alloc: Global, ended: Ended, desk: &MemDesk) -> Result<Told, NoMemory> {
    let out = Vec::from_slice(alloc, desk.out())?;
    let err = Vec::from_slice(alloc, desk.err())?;
    let log = Vec::from_slice(alloc, desk.log_bytes())?;
    let logs = lines_of(alloc, desk.logs())?;
    Ok(Told {
        status: ended.status(),
        out,
        err,
        log,
        logs,
    })
}

fn tell_on(alloc: Global, words: &str, desk: &mut Sips) -> Result<Told, NoMemory> {
    let ended = run_words(alloc, words, desk)?;
    left_by(alloc, ended, &desk.desk)
}

/// What a run leaves behind.
pub fn tell(alloc: Global, asked: &Run<'_>) -> Result<Told, NoMemory> {
    let mut desk = desk_for(alloc, asked)?;
    tell_on(alloc, asked.words, &mut desk)
}

/// What a run prints.
pub fn printed(alloc: Global, asked: &Run<'_>) -> Result<Vec<u8>, NoMemory> {
    let told = tell(alloc, asked)?;
    Ok(Vec::from_slice(alloc, told.out.as_slice())?)
}
