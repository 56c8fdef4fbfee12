//! The program: it tells why a model, or a schedule of it, is refused, and ends with
//! the status of the ending.
#![tactic(auto)]

use real_desk::{RealDesk, streams, words};
use reasons::run;
use std::process::ExitCode;

fn main(rt: HostRuntime) -> ExitCode {
    // Where a file of the run could take the place of a closed stream, none is opened.
    let files = match streams::hold(&rt) {
        Ok(()) => Some(&rt),
        Err(_) => None,
    };
    let mut desk = RealDesk::new(files, rt.stdout(), rt.stderr());
    let ended = run(rt.alloc(), words::given(&rt), &mut desk);
    ExitCode::from(ended.status())
}
