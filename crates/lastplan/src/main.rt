//! The program: it tells the schedule of the last solution in a log, or counts of the log, and ends with
//! the status of the ending.
#![tactic(auto)]

use last_plan::run;
use real_desk::{RealDesk, streams, words};
use std::process::ExitCode;

fn main(rt: HostRuntime) -> ExitCode {
    // Where a file of the run could take the place of a closed stream, none is opened.
    let files = match streams::hold(&rt) {
        Ok(()) => Some(&rt),
        Err(_) => None,
    };
    let mut desk = RealDesk::new(files, rt.stdout(), rt.stderr());
    let ended = run(rt.alloc(), words::given(&rt), &mut desk);
    ExitCode::from(ended.status())
}
