use thiserror::Error;

/// Why no line was read.
#[derive(Clone, Copy, Debug, PartialEq, Eq, Error)]
pub enum LineFault {
    /// The line of this number, counted from 1, is no spelling of a line, or is too long. It begins at
    /// this byte, counted from 0.
    #[error("line {line}, at byte {at}, is not a line of a log")]
    Bad { line: u64, at: u128 },
    #[error("out of memory")]
    NoMemory,
}
