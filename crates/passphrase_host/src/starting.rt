//! Starts an agent by gpg-agent's stand-in, makes the folder of its own for it, and asks who the
//! clients of one are that has no answer. It runs programs with a few variables of the environment,
//! and writes that folder and a file with its mark. Begin with `start`.

use crate::failure::{Failure, if_there, said};
use crate::set_up::{MARK, program_folder};
use child_environment::hand_on;
use gnupg_home::{check_program, joined, real_path};
use std::alloc::{AllocError, Global};
use std::fs::{DirBuilder, File, Files, OpenOptions};
use std::io::Write;
use std::os::unix::fs::{DirBuilderExt, OpenOptionsExt};
use std::process::{Command, Processes, Stdio};
use std::rt::Env;
use std::{fs, io, str};

/// How many clients the stand-in has its agent serve at a time.
const WORKERS: u32 = 64;

/// A folder that only its owner may enter, and a file that only its owner may read.
const OWNER_FOLDER: u32 = 0o700;

const OWNER_FILE: u32 = 0o600;

/// Has the stand-in start an agent in this folder, and says whether it did. It has no descriptors
/// but the error stream, and of the environment what a list names.
pub(crate) fn start<R: Env + Processes>(
    rt: &R,
    alloc: Global,
    stand_in: &str,
    folder: &str,
) -> Result<bool, AllocError> {
    Ok(if_there(run_stand_in(rt, alloc, stand_in, folder))?.unwrap_or(false))
}

fn run_stand_in<R: Env + Processes>(
    rt: &R,
    alloc: Global,
    stand_in: &str,
    folder: &str,
) -> io::Result<bool> {
    let mut command = Command::new(alloc, stand_in)?;
    command.arg("--homedir")?;
    command.arg(folder)?;
    hand_on(rt, alloc, &mut command)?;
    command.stdin(Stdio::null());
    command.stdout(Stdio::null());
    Ok(command.status(rt)?.success())
}

/// Makes the folder of its own, with its mark, closed to others, and says whether this call made
/// it. It fails where there is none then.
pub(crate) fn make_own<R: Files<File = File>>(
    rt: &R,
    alloc: Global,
    own: &str,
    home: &str,
) -> Result<bool, Failure> {
    if let Some((above, _)) = own.rsplit_once('/') {
        let _ = DirBuilder::new()
            .recursive(true)
            .mode(OWNER_FOLDER)
            .create(rt, above);
    }
    let is_made = DirBuilder::new().mode(OWNER_FOLDER).create(rt, own).is_ok();
    write_mark(rt, alloc, own)?;
    if fs::metadata(rt, own).is_ok_and(|found| found.is_dir()) {
        return Ok(is_made);
    }
    Err(said(format!(in alloc;
        "no agent answers for {home}, which isn't set up for ours, and none could be started, as {own} can't be made: name a folder by --homedir"
    )))
}

/// Writes the options of the folder's agent, where there are none.
fn write_mark<R: Files<File = File>>(rt: &R, alloc: Global, own: &str) -> Result<(), AllocError> {
    let conf = joined(alloc, own, "gpg-agent.conf")?;
    let line = format!(in alloc; "{MARK}, which has its options here.\n")?;
    // Where it can't be made, the folder has no mark, and is known by its name.
    let _ = write_new(rt, conf.as_str(), line.as_bytes());
    Ok(())
}

fn write_new<R: Files<File = File>>(rt: &R, path: &str, bytes: &[u8]) -> io::Result<()> {
    let mut file = OpenOptions::new()
        .write(true)
        .create_new(true)
        .mode(OWNER_FILE)
        .open(rt, path)?;
    file.write_all(bytes)
}

/// Why the agent of this folder has no answer: all its workers have clients, where the program
/// beside this one can tell, or it hangs.
pub(crate) fn silence<R: Env + Files<File = File> + Processes>(
    rt: &R,
    alloc: Global,
    folder: &str,
    seconds: u32,
) -> Failure {
    match clients(rt, alloc, folder) {
        Ok(Some(clients)) => said(format!(in alloc;
            "all workers of the agent of {folder} have clients: end some of these {clients}"
        )),
        Ok(None) => said(format!(in alloc;
            "the agent of {folder} doesn't answer within {seconds} seconds"
        )),
        Err(_) => Failure::NoMemory,
    }
}

/// The clients of a folder's agent, as `COUNT: NAME NUMBER..`, where they are all that it serves.
fn clients<R: Env + Files<File = File> + Processes>(
    rt: &R,
    alloc: Global,
    folder: &str,
) -> Result<Option<String>, AllocError> {
    let Some(here) = program_folder(rt, alloc)? else {
        return Ok(None);
    };
    let program = joined(alloc, here.as_str(), "dogwoodcatch-setup")?;
    let Some(program) = real_path(rt, alloc, program.as_str())? else {
        return Ok(None);
    };
    if check_program(rt, alloc, program.as_str()).is_err() {
        return Ok(None);
    }
    let Some(output) = if_there(told_clients(rt, alloc, program.as_str(), folder))? else {
        return Ok(None);
    };
    match all_workers(output.as_slice()) {
        Some(clients) => Ok(Some(String::from_str(alloc, clients)?)),
        None => Ok(None),
    }
}

fn told_clients<R: Env + Processes>(
    rt: &R,
    alloc: Global,
    program: &str,
    folder: &str,
) -> io::Result<Vec<u8>> {
    let mut command = Command::new(alloc, program)?;
    for word in ["--homedir", folder, "--clients"] {
        command.arg(word)?;
    }
    hand_on(rt, alloc, &mut command)?;
    command.stdin(Stdio::null());
    command.stderr(Stdio::null());
    Ok(command.output(rt)?.stdout)
}

/// The line of clients, where they are as many as an agent serves.
fn all_workers(output: &[u8]) -> Option<&str> {
    let line = str::from_utf8(output).ok()?.trim_end_matches('\n');
    let (count, _) = line.split_once(':')?;
    if count.parse::<u32>().ok()? >= WORKERS {
        Some(line)
    } else {
        None
    }
}

#[cfg(test)]
mod tests {
    use super::*;

    #[test]
    fn clients_are_told_where_they_are_all_that_are_served(rt: HostRuntime) {
        for (output, wanted) in [
            (b"64: python3 12 34\n".as_slice(), Some("64: python3 12 34")),
            (b"65: gpg 1\n", Some("65: gpg 1")),
            (b"63: gpg 1\n", None),
            (b"gpg: 64\n", None),
            (b"64\n", None),
            (b"", None),
        ] {
            assert_eq!(rt; all_workers(output), wanted);
        }
    }
}
