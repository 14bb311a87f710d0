//! The three standard streams of a program: a file that is opened never gets the number of one of them.
#![tactic(auto)]

use std::fs::File;
use std::io;
use std::os::fd::{AsRawFd, IntoRawFd};
use std::rt::HostRuntime;

/// Takes the numbers of the standard streams that are closed, each by the root folder, opened for reading: that folder can
/// neither be read as a file nor be written to, so a stream that was closed is one that fails. The system gives each file
/// that is opened the least free number, so the streams are open where one gets a number above theirs. A program calls this
/// before it opens anything else. Takes no memory.
pub fn hold_streams(rt: &HostRuntime) -> io::Result<()> {
    for _ in 0..3 {
        let root = File::open(rt, "/")?;
        if root.as_raw_fd() > 2 {
            return Ok(());
        }
        // It stays open to the program's end.
        let _ = root.into_raw_fd();
    }
    Ok(())
}
