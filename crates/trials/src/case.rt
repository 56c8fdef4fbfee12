//! What the lines of a case set. A line is a word and what stands behind it; behind a word with a colon
//! the text stands in the lines below, up to one that is a dot alone.
//!
//! | Word | What it sets |
//! |---|---|
//! | `case` | a new case of this name, with nothing set |
//! | `model`, `log` | the text of the file `m`, and of the file `l`, which is a log or a schedule |
//! | `through`, `plan` | words of a run whose answer takes the place of the model, or of the file `l` |
//! | `words` | the words of each run; `""` is the empty one |
//! | `fails` | the numbers of the calls that fail |
//! | `each` | each run is one run for each of the first so many calls, which fails alone |
//! | `again` | each run is made once more for each of these numbers, with so many bytes a read at most, where 0 is no limit; it is told whether it leaves the same behind |
//! | `check` | `on`: `check` is given the log of each run; it is told whether it finds the same |
//! | `show` | what is shown of each run |
use crate::text::Text;

/// What stands in the two files.
#[derive(Clone, Copy)]
pub struct Files<'a> {
    pub model: Text<'a>,
    pub log: Text<'a>,
    pub through: &'a str,
    pub plan: &'a str,
}

/// How the runs are made.
#[derive(Clone, Copy)]
pub struct Calls<'a> {
    pub words: &'a str,
    pub fails: &'a str,
    pub each: &'a str,
    pub again: &'a str,
}

/// What is told of a run.
#[derive(Clone, Copy)]
pub struct Parts<'a> {
    pub check: &'a str,
    pub show: &'a str,
}

/// A case: its name, which row of it is the last one, and what its lines set.
#[derive(Clone, Copy)]
pub struct Case<'a> {
    pub name: &'a str,
    pub row: u32,
    pub files: Files<'a>,
    pub calls: Calls<'a>,
    pub parts: Parts<'a>,
}

impl<'a> Files<'a> {
    fn with(self, word: &str, text: Text<'a>) -> Option<Files<'a>> {
        match word {
            "model" => Some(Files {
                model: text,
                ..self
            }),
            "log" => Some(Files { log: text, ..self }),
            "through" => Some(Files {
                through: text.raw,
                ..self
            }),
            "plan" => Some(Files {
                plan: text.raw,
                ..self
            }),
            _ => None,
        }
    }
}

impl<'a> Calls<'a> {
    fn with(self, word: &str, line: &'a str) -> Option<Calls<'a>> {
        match word {
            "words" => Some(Calls {
                words: line,
                ..self
            }),
            "fails" => Some(Calls {
                fails: line,
                ..self
            }),
            "each" => Some(Calls { each: line, ..self }),
            "again" => Some(Calls {
                again: line,
                ..self
            }),
            _ => None,
        }
    }
}

impl<'a> Parts<'a> {
    fn with(self, word: &str, line: &'a str) -> Option<Parts<'a>> {
        match word {
            "check" => Some(Parts {
                check: line,
                ..self
            }),
            "show" => Some(Parts { show: line, ..self }),
            _ => None,
        }
    }
}

impl<'a> Case<'a> {
    pub fn new(name: &'a str) -> Case<'a> {
        Case {
            name,
            row: 0,
            files: Files {
                model: Text::of(""),
                log: Text::of(""),
                through: "",
                plan: "",
            },
            calls: Calls {
                words: "",
                fails: "",
                each: "",
                again: "",
            },
            parts: Parts {
                check: "",
                show: "",
            },
        }
    }

    /// The case with what this word names set, and none where it names nothing.
    pub fn with(self, word: &str, text: Text<'a>) -> Option<Case<'a>> {
        if word == "case" {
            return Some(Case::new(text.raw));
        }
        if let Some(files) = self.files.with(word, text) {
            return Some(Case { files, ..self });
        }
        if let Some(calls) = self.calls.with(word, text.raw) {
            return Some(Case { calls, ..self });
        }
        match self.parts.with(word, text.raw) {
            Some(parts) => Some(Case { parts, ..self }),
            None => None,
        }
    }

    /// The case at its next row.
    pub fn next(self) -> Case<'a> {
        Case {
            row: self.row.wrapping_add(1),
            ..self
        }
    }
}
