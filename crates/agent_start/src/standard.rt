//! The first three descriptors, where the caller has closed them. It opens `/dev/null`. Begin with
//! `fill_standard`.

use std::fs::{File, Files, OpenOptions};
use std::os::fd::AsRawFd;

/// What stands at the descriptors of standard input, output and error that the caller has closed:
/// else a file of the agent's own would be opened there, and be written what is for the user.
#[derive(Drop)]
pub struct Standard {
    _first: Option<File>,
    _second: Option<File>,
    _third: Option<File>,
}

/// Opens what isn't there. The lowest number is given first (open(2)).
pub fn fill_standard<R: Files<File = File>>(rt: &R) -> Standard {
    let first = low_null(rt);
    let second = if first.is_some() { low_null(rt) } else { None };
    let third = if second.is_some() { low_null(rt) } else { None };
    Standard {
        _first: first,
        _second: second,
        _third: third,
    }
}

/// `/dev/null` where one of these three has no file.
fn low_null<R: Files<File = File>>(rt: &R) -> Option<File> {
    let null = OpenOptions::new()
        .read(true)
        .write(true)
        .open(rt, "/dev/null")
        .ok()?;
    if null.as_raw_fd() > 2 {
        return None;
    }
    Some(null)
}
