//! Small files of the home folder that a start keeps for the next one. It writes each of them
//! whole, or leaves it as it was. Begin with `write_whole`.

use std::alloc::Global;
use std::fs::{File, Files, OpenOptions};
use std::io::{ErrorKind, Read, Write};
use std::os::unix::fs::OpenOptionsExt;
use std::{fs, io};

/// How many bytes are read of one.
const MAX_KEPT: u64 = 1000;

/// A file that only its owner may read.
const OWNER_FILE: u32 = 0o600;

/// How many names are tried for a new file. One is taken by a start that was killed, or by another
/// program's file.
const MAX_NAMES: u32 = 100;

/// The file has these bytes, or is as it was.
pub fn write_whole<R: Files<File = File>>(
    rt: &R,
    alloc: Global,
    path: &str,
    bytes: &[u8],
) -> io::Result<()> {
    let (new, mut file) = new_file(rt, alloc, path)?;
    let written = match file.write_all(bytes) {
        Ok(()) => fs::rename(rt, &new, path),
        Err(error) => Err(error),
    };
    if written.is_err() {
        let _ = fs::remove_file(rt, &new);
    }
    written
}

/// A file beside this one, which nobody else has or reads.
fn new_file<R: Files<File = File>>(
    rt: &R,
    alloc: Global,
    path: &str,
) -> io::Result<(String, File)> {
    for number in 0..MAX_NAMES {
        let new = format!(in alloc; "{path}.new{number}")?;
        let opened = OpenOptions::new()
            .write(true)
            .create_new(true)
            .mode(OWNER_FILE)
            .open(rt, &new);
        match opened {
            Ok(file) => return Ok((new, file)),
            Err(error) if error.kind() == ErrorKind::AlreadyExists => {}
            Err(error) => return Err(error),
        }
    }
    Err(ErrorKind::AlreadyExists.into())
}

/// The bytes of a small file, unless it can't be read.
pub fn read_small<R: Files<File = File>>(rt: &R, alloc: Global, path: &str) -> Option<Vec<u8>> {
    if !fs::metadata(rt, path).ok()?.is_file() {
        return None;
    }
    let mut bytes = Vec::new(alloc);
    File::open(rt, path)
        .ok()?
        .take(MAX_KEPT)
        .read_to_end(&mut bytes)
        .ok()?;
    Some(bytes)
}

/// The first line, if it is text.
pub fn first_line(bytes: &[u8]) -> Option<&str> {
    std::str::from_utf8(bytes.split(|byte| *byte == b'\n').next()?).ok()
}
