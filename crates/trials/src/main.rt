//! Carries out the cases that standard input holds, over desks in memory, and prints what each leaves
//! behind. `text.rt` says how texts are written in a case, `case.rt` what its lines set, `asks.rt` what
//! they ask, and `show.rt` what is printed.
#![tactic(auto)]

mod asks;
mod case;
mod desk;
mod lines;
mod refuted;
mod runs;
mod show;
mod sips;
mod text;

use lines::read_cases;
use std::io;

fn main(rt: HostRuntime) -> io::Result<()> {
    let text = io::read_to_string(rt.alloc(), rt.stdin())?;
    let mut out = String::new(rt.alloc());
    let done = read_cases(rt.alloc(), text.as_str(), &mut out);
    rt.print(out.as_str())?;
    match done {
        Ok(()) => Ok(()),
        Err(_) => println!(rt; "no memory"),
    }
}
