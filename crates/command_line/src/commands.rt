ghost use Rattle.std.specs.Prelude.{◌≡◌, IfOk, None, Some, Err, map, string_bytes};
ghost use Rattle.command_line.specs.Commands.{command_of, verb_of};
ghost use Rattle.command_line.specs.code.Found.{HasLimits, seen_of};

use crate::arguments::read_arguments;
use crate::shop::Shop;
use std::alloc::Global;
use thiserror::Error;

/// Why no command was read.
#[derive(Clone, Copy, Debug, PartialEq, Eq, Error)]
pub enum WordsFault {
    #[error("the words are no command")]
    Usage,
    #[error("no memory")]
    NoMemory,
}

/// The first word of a command.
#[derive(Clone, Copy, PartialEq, Eq)]
pub enum Verb {
    Solve,
    Check,
    Verify,
    Show,
    Gen,
    Trial,
    Bound,
    Core,
}

/// What the program is asked to do. `model`, `log` and `schedule` name files.
#[derive(Clone, Copy, Debug)]
pub enum Command<'a> {
    /// Solve the model, open at most this many nodes, begin anew at most so often, and write the log.
    Solve {
        model: &'a str,
        log: &'a str,
        nodes: u32,
        restarts: u32,
    },
    /// Check the log against the model.
    Check {
        model: &'a str,
        log: &'a str,
    },
    /// Read the schedule, and test it against the model.
    Verify {
        model: &'a str,
        schedule: &'a str,
    },
    /// Print the model in its canonical form.
    Show {
        model: &'a str,
    },
    /// Print the model of this job shop.
    Gen {
        shop: Shop,
    },
    /// Solve the model of this job shop, open at most this many nodes, begin anew at most so often,
    /// and write the log.
    Trial {
        shop: Shop,
        log: &'a str,
        nodes: u32,
        restarts: u32,
    },
    /// Read the log as a check does, and tell what it shows of the best value.
    Bound {
        model: &'a str,
        log: &'a str,
    },
    /// Read the log as a check does, and tell which constraints it uses, where it shows that there is
    /// no solution.
    Core {
        model: &'a str,
        log: &'a str,
    },
}

/// The verb that a word is.
fn verb_named(name: &str) -> Option<Verb>
    ensures { result ≡ verb_of name.now }
{
    if name == "solve" {
        return Some(Verb::Solve);
    }
    if name == "check" {
        return Some(Verb::Check);
    }
    if name == "verify" {
        return Some(Verb::Verify);
    }
    if name == "show" {
        return Some(Verb::Show);
    }
    if name == "gen" {
        return Some(Verb::Gen);
    }
    if name == "trial" {
        return Some(Verb::Trial);
    }
    if name == "bound" {
        return Some(Verb::Bound);
    }
    if name == "core" {
        return Some(Verb::Core);
    }
    None
}

/// The command of the words after the program's name. A limit on nodes is from 1 to 10,000,000, a
/// search begins anew at most 1,000 times, and a job shop has at most 500 jobs, 200 machines and 2,000
/// operations, and one of each at least.
pub fn read_command<'a>(alloc: Global, words: &'a [String]) -> Result<Command<'a>, WordsFault>
    ensures ok { IfOk result (λ c. command_of (map string_bytes words.entry.now) ≡ Some (seen_of c)) }
    ensures within { IfOk result (λ c. HasLimits (seen_of c)) }
    ensures usage { result ≡ Err WordsFault.Usage → command_of (map string_bytes words.entry.now) ≡ None }
{
    let Some((first, rest)) = words.split_first() else {
        return Err(WordsFault::Usage);
    };
    let Some(verb) = verb_named(first.as_str()) else {
        return Err(WordsFault::Usage);
    };
    read_arguments(alloc, verb, rest)
}
