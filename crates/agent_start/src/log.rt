//! The log of a home folder's agent, `agent.log`, and the lock that it is: one start at a time. It
//! opens, cuts and appends to that file. Begin with `lock`.

use crate::fault::{Fault, said};
use agent_host::Stamp;
use std::alloc::Global;
use std::fmt::Display;
use std::fs::{File, Files, OpenOptions};
use std::io;
use std::io::{Read, Seek, SeekFrom, Write};
use std::os::unix::fs::OpenOptionsExt;
use std::rt::Clock;

/// How many bytes of a log a start keeps.
const MAX_KEPT: u64 = 100_000;

/// A file that only its owner may read.
const OWNER_FILE: u32 = 0o600;

/// The path of the folder's log.
pub fn log_path(alloc: Global, home: &str) -> Result<String, Fault> {
    Ok(format!(in alloc; "{home}/agent.log")?)
}

/// Opens the log to be written at its end. It is made where it isn't there.
pub fn open_log<R: Files<File = File>>(rt: &R, path: &str) -> io::Result<File> {
    OpenOptions::new()
        .append(true)
        .create(true)
        .mode(OWNER_FILE)
        .open(rt, path)
}

/// Waits until no other start has this log, and has it: a second daemon would take the first one's
/// socket. It is given up where the file is closed.
pub fn lock<R: Files<File = File>>(rt: &R, alloc: Global, path: &str) -> Result<File, Fault> {
    match locked(rt, path) {
        Ok(file) => Ok(file),
        Err(_) => Err(said(
            2,
            format!(in alloc; "can't write {path}: see whose it is, and whether the disk has room"),
        )),
    }
}

fn locked<R: Files<File = File>>(rt: &R, path: &str) -> io::Result<File> {
    let file = open_log(rt, path)?;
    file.lock()?;
    Ok(file)
}

/// Appends a line with its time. Where that can't be written nobody is to be told.
pub fn append<R: Clock + Files<File = File>, T: Display>(rt: &R, path: &str, words: &T) {
    if let Ok(mut file) = open_log(rt, path) {
        let _ = writeln!(file, "{}gpg-agent: {words}", Stamp::now(rt));
    }
}

/// Where the log is longer, its last lines are kept, in the same file. One that can't be cut stays.
pub fn cut<R: Files<File = File>>(rt: &R, alloc: Global, path: &str) {
    let _ = try_cut(rt, alloc, path);
}

fn try_cut<R: Files<File = File>>(rt: &R, alloc: Global, path: &str) -> io::Result<()> {
    let mut file = File::open(rt, path)?;
    let size = file.metadata()?.len();
    if size <= MAX_KEPT {
        return Ok(());
    }
    file.seek(SeekFrom::Start(size.saturating_sub(MAX_KEPT)))?;
    let mut kept = Vec::new(alloc);
    file.take(MAX_KEPT).read_to_end(&mut kept)?;
    let mut file = OpenOptions::new()
        .write(true)
        .truncate(true)
        .open(rt, path)?;
    file.write_all(whole_lines(kept.as_slice()))
}

/// What stands behind the end of the first line.
fn whole_lines(bytes: &[u8]) -> &[u8] {
    match bytes.iter().position(|byte| *byte == b'\n') {
        Some(end) => bytes
            .get(end..)
            .and_then(|rest| rest.get(1..))
            .unwrap_or(b""),
        None => bytes,
    }
}
