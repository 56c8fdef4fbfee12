//! The program: it carries out the command that its words are, over real files and the standard
//! streams, and ends with the status of the ending.
#![tactic(auto)]

use command_line::WordsFault;
use commands::run;
use real_desk::{RealDesk, streams, words};
use std::process::ExitCode;

fn main(rt: HostRuntime) -> ExitCode {
    // Where a file of the run could take the place of a closed stream, none is opened.
    let files = match streams::hold(&rt) {
        Ok(()) => Some(&rt),
        Err(_) => None,
    };
    let words = match words::given(&rt) {
        Ok(words) => Ok(words),
        Err(words::WordsFault::NotUtf8) => Err(WordsFault::Usage),
        Err(words::WordsFault::NoMemory) => Err(WordsFault::NoMemory),
    };
    let mut desk = RealDesk::new(files, rt.stdout(), rt.stderr());
    let ended = run(rt.alloc(), words, &mut desk);
    ExitCode::from(ended.status())
}
