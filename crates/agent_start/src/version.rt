//! The version of the GnuPG that is installed, which its programs compare with their agent's. It
//! asks GnuPG's own agent for it, and keeps the answer in a file of the home folder for as long as
//! that program stays as it is. Begin with `installed_version`.

use crate::gnupg::{GNUPG_AGENT, is_itself};
use crate::kept::{first_line, read_small, write_whole};
use child_environment::hand_on;
use session_options::Version;
use std::alloc::Global;
use std::fs::{File, Files};
use std::io::{ErrorKind, Read};
use std::net::Net;
use std::os::fd::OwnedFd;
use std::os::unix::fs::MetadataExt;
use std::os::unix::net::UnixStream;
use std::process::{Command, Processes, Stdio};
use std::rt::{Clock, Env};
use std::time::Duration;
use std::{fs, io};

/// How many seconds the program has for its answer.
const ANSWER_SECONDS: u64 = 2;

/// Which program it is: its number in its file system, and when it was changed (inode(7)).
#[derive(Clone, Copy, PartialEq, Eq)]
struct Program {
    number: u64,
    changed: i64,
}

/// The version, or the usual one where it can't be told.
pub fn installed_version<R: Clock + Env + Files<File = File> + Net + Processes>(
    rt: &R,
    alloc: Global,
    home: &str,
) -> Version {
    kept_or_asked(rt, alloc, home).unwrap_or(Version::default())
}

fn kept_or_asked<R: Clock + Env + Files<File = File> + Net + Processes>(
    rt: &R,
    alloc: Global,
    home: &str,
) -> Option<Version> {
    let found = fs::metadata(rt, GNUPG_AGENT).ok()?;
    let program = Program {
        number: found.ino(),
        changed: found.mtime(),
    };
    let path = format!(in alloc; "{home}/gnupg-version").ok()?;
    let file = read_small(rt, alloc, &path);
    if let Some(version) = file
        .as_ref()
        .and_then(|file| kept_version(file.as_slice(), program))
    {
        return Some(version);
    }
    let version = asked(rt, alloc)?;
    keep(rt, alloc, &path, &version, program);
    Some(version)
}

/// Keeps it. Where that fails the next start asks again.
fn keep<R: Files<File = File>>(
    rt: &R,
    alloc: Global,
    path: &str,
    version: &Version,
    program: Program,
) {
    let Ok(text) = std::str::from_utf8(&version.bytes) else {
        return;
    };
    let Program { number, changed } = program;
    if let Ok(line) = format!(in alloc; "{text} {number} {changed}\n") {
        let _ = write_whole(rt, alloc, path, line.as_bytes());
    }
}

/// What the file says, if it is of this program: the version, and the program's two numbers.
fn kept_version(file: &[u8], program: Program) -> Option<Version> {
    let mut words = first_line(file)?.split(' ');
    let version = words.next()?;
    let number = words.next()?.parse::<u64>().ok()?;
    let changed = words.next()?.parse::<i64>().ok()?;
    if words.next().is_some() || program != (Program { number, changed }) {
        return None;
    }
    Version::new(version.as_bytes())
}

/// What the program answers.
fn asked<R: Clock + Env + Files<File = File> + Net + Processes>(
    rt: &R,
    alloc: Global,
) -> Option<Version> {
    if is_itself(rt, alloc) {
        return None;
    }
    let mut answer = [0u8; 200];
    let count = ask(rt, alloc, &mut answer).ok()?;
    told_version(answer.get(..count).unwrap_or(&answer))
}

/// Starts the program, and takes what it says within its time. It is ended then.
fn ask<R: Clock + Env + Files<File = File> + Net + Processes>(
    rt: &R,
    alloc: Global,
    answer: &mut [u8],
) -> io::Result<usize> {
    let (mut output, theirs) = UnixStream::pair(rt)?;
    output.set_read_timeout(Some(Duration::from_secs(ANSWER_SECONDS)))?;
    let mut command = Command::new(alloc, GNUPG_AGENT)?;
    command.arg("--version")?;
    hand_on(rt, alloc, &mut command)?;
    command.stdin(Stdio::null());
    command.stdout(OwnedFd::from(theirs));
    command.stderr(Stdio::null());
    let mut child = command.spawn(rt)?;
    // The command has the other end open as long as it is there.
    drop(command);
    let count = read_line(&mut output, answer);
    drop(output);
    let _ = child.kill();
    let _ = child.wait();
    count
}

/// Reads until a line is there, or the end.
fn read_line(output: &mut UnixStream, answer: &mut [u8]) -> io::Result<usize> {
    let mut count = 0usize;
    for _ in 0..answer.len() {
        let room = answer.get_mut(count..).unwrap_or(&mut []);
        match output.read(room) {
            Ok(0) => break,
            Ok(more) => count = count.saturating_add(more),
            Err(error) if error.kind() == ErrorKind::Interrupted => {}
            Err(error) => return Err(error),
        }
        if answer
            .get(..count)
            .is_some_and(|bytes| bytes.contains(&b'\n'))
        {
            break;
        }
    }
    Ok(count)
}

/// The version of an answer: digits and dots behind `(GnuPG) `.
fn told_version(answer: &[u8]) -> Option<Version> {
    let (_, version) = first_line(answer)?.split_once("(GnuPG) ")?;
    if !version
        .bytes()
        .all(|byte| byte == b'.' || byte.is_ascii_digit())
    {
        return None;
    }
    Version::new(version.as_bytes())
}

#[cfg(test)]
mod tests {
    use super::*;

    fn shown(version: Option<Version>) -> [u8; 8] {
        let mut text = [b' '; 8];
        if let Some(version) = version {
            for (to, from) in text.iter_mut().zip(version.bytes.iter()) {
                *to = *from;
            }
        }
        text
    }

    #[test]
    fn a_version_is_digits_and_dots(rt: HostRuntime) {
        for (answer, wanted) in [
            (
                b"gpg-agent (GnuPG) 2.2.40\nlibgcrypt 1.10.1\n".as_slice(),
                b"2.2.40  ",
            ),
            (b"gpg-agent (GnuPG) 2.4.7", b"2.4.7   "),
            (b"gpg-agent (GnuPG) 2.5.0-beta32\n", b"        "),
            (b"gpg-agent (GnuPG) \n", b"        "),
            (b"gpg-agent 2.4.7\n", b"        "),
            (b"\ngpg-agent (GnuPG) 2.4.7\n", b"        "),
            (b"", b"        "),
        ] {
            assert_eq!(rt; shown(told_version(answer)), *wanted);
        }
    }

    #[test]
    fn what_is_kept_is_of_one_program(rt: HostRuntime) {
        let program = Program {
            number: 17,
            changed: 1_700_000_000,
        };
        for (file, wanted) in [
            (b"2.2.40 17 1700000000\n".as_slice(), b"2.2.40  "),
            (b"2.2.40 18 1700000000\n", b"        "),
            (b"2.2.40 17 1700000001\n", b"        "),
            (b"2.2.40 17 1700000000 x\n", b"        "),
            (b"2.2.40\n", b"        "),
            (b"", b"        "),
        ] {
            assert_eq!(rt; shown(kept_version(file, program)), *wanted);
        }
    }
}
