//! The numbers of the standard streams.
use std::os::fd::{AsRawFd, IntoRawFd};
use std::{fs, io};

/// The number of standard error, the last of the three.
const LAST: i32 = 2;

/// A folder: it opens for reading, and then each read and each write of it fails.
const FOLDER: &str = "/";

/// Gives the folder to each standard stream that was closed when the program started, so that no
/// file of the run gets its number. The system gives out the lowest number that is free.
pub fn hold(rt: &HostRuntime) -> io::Result<()> {
    for _ in 0..=LAST {
        let folder = fs::open(rt, FOLDER)?;
        if folder.as_raw_fd() > LAST {
            return Ok(());
        }
        let _ = folder.into_raw_fd();
    }
    Ok(())
}
