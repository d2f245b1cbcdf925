//! How a child is started so that it ends with its agent, where the system has the program for it
//! (setpriv(1)). It starts that program on one that does nothing, to try it, and looks at what is
//! to be started. Begin with `can_guard`, and with `guarded` for the command.

use std::alloc::Global;
use std::fs::{File, Files};
use std::io::Read;
use std::os::unix::fs::PermissionsExt;
use std::process::{Command, Processes, Stdio};
use std::{fs, io};

/// The program that starts another one as these words say (setpriv(1)).
const SETPRIV: &str = "/usr/bin/setpriv";

/// That a child is killed where its agent ends, and gains no privileges. By PR_SET_PDEATHSIG(2const)
/// it is killed as soon as the thread ends that started it. A prompt is finished by the thread that
/// began it, so that none is killed too early.
const GUARDED: [&str; 4] = ["--pdeathsig", "KILL", "--no-new-privs", "--"];

/// A program that does nothing.
const NOTHING: &str = "/bin/true";

/// Whether a child can be started so. There are systems without that program, and such on which it
/// doesn't know all of these words.
pub(crate) fn can_guard<R: Processes>(rt: &R, alloc: Global) -> bool {
    does_nothing(rt, alloc).unwrap_or(false)
}

fn does_nothing<R: Processes>(rt: &R, alloc: Global) -> io::Result<bool> {
    let mut command = guarded(alloc, NOTHING)?;
    command.env_clear();
    command.stdin(Stdio::null());
    command.stdout(Stdio::null());
    command.stderr(Stdio::null());
    Ok(command.status(rt)?.success())
}

/// The command that starts this program, guarded.
pub(crate) fn guarded(alloc: Global, path: &str) -> io::Result<Command> {
    let mut command = Command::new(alloc, SETPRIV)?;
    for word in GUARDED {
        command.arg(word)?;
    }
    command.arg(path)?;
    Ok(command)
}

/// Whether the system starts what is at this path, as far as can be seen: it is a file that may be
/// started, and begins as a script or a program does. Where it isn't, it is started by itself, since
/// then it is told why that failed; and a text without a shell's name is handed to no shell.
pub(crate) fn can_start<R: Files<File = File>>(rt: &R, path: &str) -> bool {
    path.contains('/') && may_start(rt, path) && begins_well(rt, path).unwrap_or(false)
}

fn may_start<R: Files>(rt: &R, path: &str) -> bool {
    match fs::metadata(rt, path) {
        Ok(found) => found.is_file() && found.permissions().mode() & 0o111 != 0,
        Err(_) => false,
    }
}

fn begins_well<R: Files<File = File>>(rt: &R, path: &str) -> io::Result<bool> {
    let mut front = [0u8; 4];
    File::open(rt, path)?.read(&mut front)?;
    Ok(front.starts_with(b"#!") || front.starts_with(b"\x7fELF"))
}

#[cfg(test)]
mod tests {
    use super::*;

    #[test]
    fn what_can_be_started(rt: HostRuntime) {
        for (path, wanted) in [
            ("/bin/sh", true),
            ("/etc/passwd", false),
            ("/etc", false),
            ("/no/such/program", false),
            ("sh", false),
            ("", false),
        ] {
            assert_eq!(rt; (path, can_start(&rt, path)), (path, wanted));
        }
    }
}
