ghost use Rattle.std.specs.Prelude.{◌≡◌};

use crate::tree::Statement;
use sched_base::{List, NoMemory};
use std::alloc::{AllocError, AllocFailed};
use thiserror::Error;

/// The most bytes that a text may have.
pub const TEXT_LIMIT: usize = 16_777_216;

/// The most statements of a text that are told: those that it may have, and one more, which is
/// refused at the latest.
pub const TOLD_LIMIT: usize = 100_001;

/// Why a text is refused: a number of the table of refusals, the statement, counted from 1 (0
/// where it is the whole text), and the offset of a byte.
#[derive(Clone, Copy, Debug, PartialEq, Eq)]
pub struct Refusal {
    pub number: u32,
    pub statement: u32,
    pub at: u64,
}

/// Why a text could not be read.
#[derive(Clone, Copy, Debug, PartialEq, Eq, Error)]
pub enum ReadFault {
    #[error("model refused {} statement {} at {}", .0.number, .0.statement, .0.at)]
    Refused(Refusal),
    #[error("no memory")]
    NoMemory,
}

impl From<NoMemory> for ReadFault {
    ghost use Rattle.cpo_text.specs.declared.text.ReadFault.TheVariants.{NoMemory as Memory};

    ghost from_gives = { λ _ e. e ≡ Memory };

    fn from(_: NoMemory) -> ReadFault {
        ReadFault::NoMemory
    }
}

/// A statement as its words alone tell it: its tree, or the number that they deserve. That is 14
/// for a word that the language leaves out, 11 for too many open brackets, or too many `!` and
/// `=>`, 2 outside the grammar, and 3 for a literal above 2^62, in this order.
#[derive(Drop)]
pub enum Form {
    Tree(Statement),
    Number(u32),
}

/// A statement with the offset of its first token.
#[derive(Drop)]
pub struct Reading {
    pub at: u64,
    pub form: Form,
}

/// The statements of a text in order, the first 100,001 of them. Tokens behind the last semicolon are
/// one more statement.
#[derive(Drop)]
pub struct Tree {
    pub statements: List<Reading>,
}
