//! The words behind the program's name.
use std::env::FillError;
use std::rt::Env;
use std::{env, io};

/// Why there are no words.
#[derive(Clone, Copy, Debug, PartialEq, Eq)]
pub enum WordsFault {
    /// One of them isn't UTF-8.
    NotUtf8,
    NoMemory,
}

/// The arguments of a program without its name, which is no word that it is given and need not be UTF-8.
#[derive(Clone, Copy)]
struct Behind<'a, R> {
    rt: &'a R,
}

impl<R: Env> Env for Behind<'_, R> {
    fn arg(&self, i: usize, buf: &mut [u8]) -> Result<usize, FillError> {
        self.rt.arg(i.saturating_add(1), buf)
    }

    fn var(&self, name: &str, buf: &mut [u8]) -> Result<usize, FillError> {
        self.rt.var(name, buf)
    }

    fn var_at(&self, i: usize, buf: &mut [u8]) -> Result<usize, FillError> {
        self.rt.var_at(i, buf)
    }
}

/// Why an error left no words.
fn fault_of(error: &io::Error) -> WordsFault {
    match error.kind() {
        io::ErrorKind::OutOfMemory => WordsFault::NoMemory,
        _ => WordsFault::NotUtf8,
    }
}

/// The words that the program was given.
pub fn given(rt: &(impl Env + AllocGlobal)) -> Result<Vec<String>, WordsFault> {
    let arguments = match env::args(&(Behind { rt }, rt.alloc())) {
        Ok(arguments) => arguments,
        Err(error) => return Err(fault_of(&error)),
    };
    let mut words = Vec::new(rt.alloc());
    for word in arguments {
        if words.push(word).is_err() {
            return Err(WordsFault::NoMemory);
        }
    }
    Ok(words)
}
