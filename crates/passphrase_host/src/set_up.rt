//! Whether an agent of this repository is to answer for a folder, and by which program it is
//! started: `gpg-agent`'s stand-in, which is called so too. It reads GnuPG's option files and looks
//! at programs, and changes nothing. Begin with `set_up` and `stand_in`.

use crate::failure::{Failure, if_there, refused};
use gnupg_home::{check_program, joined, real_path};
use std::alloc::{AllocError, Global};
use std::fs::{File, Files};
use std::os::unix::fs::PermissionsExt;
use std::{fs, str};

/// What a line of `gpg-agent.conf` begins with in a folder that is for this agent alone.
pub(crate) const MARK: &str = "# dogwoodcatch: this folder is for its agent";

/// GnuPG's options for all users, which are read before those of a folder.
const GPG_CONF_OF_ALL: &str = "/etc/gnupg/gpg.conf";

/// Where the package puts its programs.
const INSTALLED: [&str; 2] = ["/usr/local/lib/dogwoodcatch", "/usr/lib/dogwoodcatch"];

/// The bits of a mode by which a file may be run.
const MAY_RUN: u32 = 0o111;

/// A program of GnuPG's that lies beside its own gpg-agent, and never beside the stand-in.
const BESIDE_GNUPGS: &str = "gpgconf";

/// Whether the program at this path is the stand-in, as far as can be seen: GnuPG's own program of
/// its name lies beside others of GnuPG's. The stand-in's bytes may be closed to its user.
fn is_stand_in(files: &impl Files, alloc: Global, path: &str) -> Result<bool, AllocError> {
    let Some((folder, _)) = path.rsplit_once('/') else {
        return Ok(false);
    };
    let other = joined(alloc, folder, BESIDE_GNUPGS)?;
    Ok(may_run(files, path) && !fs::exists(files, other.as_str()).unwrap_or(false))
}

fn may_run(files: &impl Files, path: &str) -> bool {
    match fs::metadata(files, path) {
        Ok(found) => found.is_file() && found.permissions().mode() & MAY_RUN != 0,
        Err(_) => false,
    }
}

/// The folder of this program.
pub(crate) fn program_folder<R: Files>(
    rt: &R,
    alloc: Global,
) -> Result<Option<String>, AllocError> {
    let Some(program) = if_there(fs::read_link(&(rt, alloc), "/proc/self/exe"))? else {
        return Ok(None);
    };
    match program.as_str().rsplit_once('/') {
        Some((folder, _)) => Ok(Some(String::from_str(alloc, folder)?)),
        None => Ok(None),
    }
}

/// gpg-agent's stand-in, as this program starts it.
#[derive(Drop)]
pub(crate) enum StandIn {
    /// It is at this path, on which there are no links.
    At(String),
    /// It isn't run, for this reason: others can change it.
    Refused(String),
    Missing,
}

/// The stand-in: beside this program, or where the package puts it. Where none of them passes the
/// first one is told.
pub(crate) fn stand_in<R: Files<File = File>>(rt: &R, alloc: Global) -> Result<StandIn, Failure> {
    let mut refused = StandIn::Missing;
    for path in stand_ins(rt, alloc)? {
        match checked(rt, alloc, path)? {
            StandIn::At(path) => return Ok(StandIn::At(path)),
            other => {
                if matches!(refused, StandIn::Missing) {
                    refused = other;
                }
            }
        }
    }
    Ok(refused)
}

/// The programs in its places, by paths without links.
fn stand_ins<R: Files<File = File>>(rt: &R, alloc: Global) -> Result<Vec<String>, AllocError> {
    let mut found = Vec::new(alloc);
    if let Some(folder) = program_folder(rt, alloc)? {
        push_stand_in(rt, alloc, &mut found, folder.as_str())?;
    }
    for folder in INSTALLED {
        push_stand_in(rt, alloc, &mut found, folder)?;
    }
    Ok(found)
}

fn push_stand_in<R: Files<File = File>>(
    rt: &R,
    alloc: Global,
    found: &mut Vec<String>,
    folder: &str,
) -> Result<(), AllocError> {
    let path = joined(alloc, folder, "gpg-agent")?;
    if let Some(real) = real_path(rt, alloc, path.as_str())? {
        if is_stand_in(rt, alloc, real.as_str())? {
            found.push(real)?;
        }
    }
    Ok(())
}

/// The program, where nobody but the user and root can change it.
fn checked<R: Files<File = File>>(rt: &R, alloc: Global, path: String) -> Result<StandIn, Failure> {
    match check_program(rt, alloc, path.as_str()) {
        Ok(()) => Ok(StandIn::At(path)),
        Err(fault) => match refused(alloc, &fault) {
            Failure::Said(reason) => Ok(StandIn::Refused(reason)),
            failure => Err(failure),
        },
    }
}

/// How a folder stands to the agent of this repository.
#[derive(Drop)]
pub(crate) enum SetUp {
    /// GnuPG's programs start this program there, which is the stand-in.
    By(StandIn),
    /// It has the mark.
    Marked,
    /// It isn't this agent's.
    No,
}

/// Whether the agent of the folder is to be ours: GnuPG's programs start the stand-in there, or the
/// folder has the mark. A program of another place isn't the stand-in, whatever its name.
pub(crate) fn set_up<R: Files<File = File>>(
    rt: &R,
    alloc: Global,
    folder: &str,
) -> Result<SetUp, Failure> {
    if let Some(program) = agent_program(rt, alloc, folder)? {
        if let Some(found) = stand_in_at(rt, alloc, program.as_str())? {
            return Ok(SetUp::By(checked(rt, alloc, found)?));
        }
    }
    let conf = joined(alloc, folder, "gpg-agent.conf")?;
    Ok(match if_there(fs::read(&(rt, alloc), conf.as_str()))? {
        Some(bytes) if has_mark(bytes.as_slice()) => SetUp::Marked,
        _ => SetUp::No,
    })
}

/// The stand-in in one of its places that this program is, if it is.
fn stand_in_at<R: Files<File = File>>(
    rt: &R,
    alloc: Global,
    program: &str,
) -> Result<Option<String>, AllocError> {
    let Some(real) = real_path(rt, alloc, program)? else {
        return Ok(None);
    };
    for path in stand_ins(rt, alloc)? {
        if path.as_str() == real.as_str() {
            return Ok(Some(path));
        }
    }
    Ok(None)
}

fn has_mark(conf: &[u8]) -> bool {
    conf.split(|byte| *byte == b'\n')
        .any(|line| line.starts_with(MARK.as_bytes()))
}

/// The program that GnuPG's programs start as the agent of this folder: the last line counts, and
/// the file of all users is read first (GnuPG manual, `--agent-program`).
fn agent_program<R: Files>(
    rt: &R,
    alloc: Global,
    folder: &str,
) -> Result<Option<String>, AllocError> {
    let conf = joined(alloc, folder, "gpg.conf")?;
    match program_of(rt, alloc, conf.as_str())? {
        Some(program) => Ok(Some(program)),
        None => program_of(rt, alloc, GPG_CONF_OF_ALL),
    }
}

fn program_of<R: Files>(rt: &R, alloc: Global, conf: &str) -> Result<Option<String>, AllocError> {
    match if_there(fs::read(&(rt, alloc), conf))? {
        Some(bytes) => last_program(alloc, bytes.as_slice()),
        None => Ok(None),
    }
}

fn last_program(alloc: Global, conf: &[u8]) -> Result<Option<String>, AllocError> {
    let mut last = None;
    for line in conf.split(|byte| *byte == b'\n') {
        if let Some(program) = program_in(line) {
            last = Some(program);
        }
    }
    match last {
        Some(program) => unquoted(alloc, program),
        None => Ok(None),
    }
}

/// What a line has behind `agent-program`, where it says that.
fn program_in(line: &[u8]) -> Option<&str> {
    let line = str::from_utf8(line).ok()?.trim_start_matches(is_blank);
    let rest = line
        .strip_prefix("--")
        .unwrap_or(line)
        .strip_prefix("agent-program")?;
    let program = rest.trim_start_matches(is_blank_or_equals);
    if program.len() == rest.len() {
        None
    } else {
        Some(program)
    }
}

fn is_blank(letter: char) -> bool {
    letter == ' ' || letter == '\t'
}

fn is_blank_or_equals(letter: char) -> bool {
    is_blank(letter) || letter == '='
}

/// The value without quotes, carriage returns and blanks at its end; none is no program.
fn unquoted(alloc: Global, value: &str) -> Result<Option<String>, AllocError> {
    let mut program = String::new(alloc);
    for letter in value.chars() {
        if letter != '"' && letter != '\r' {
            program.push(letter)?;
        }
    }
    let program = String::from_str(alloc, program.trim_end_matches(is_blank))?;
    Ok(if program.is_empty() {
        None
    } else {
        Some(program)
    })
}

/// Whether secret keys are kept in the folder, for which GnuPG's own agent is wanted.
pub(crate) fn has_keys<R: Files>(rt: &R, alloc: Global, folder: &str) -> Result<bool, AllocError> {
    let keys = joined(alloc, folder, "private-keys-v1.d")?;
    let Some(entries) = if_there(fs::read_dir(&(rt, alloc), keys.as_str()))? else {
        return Ok(false);
    };
    for entry in entries {
        if entry.is_ok_and(|entry| entry.file_name().ends_with(".key")) {
            return Ok(true);
        }
    }
    Ok(false)
}

#[cfg(test)]
mod tests {
    use super::*;
    use std::test::Fail;

    #[test]
    fn the_last_agent_program_counts(rt: HostRuntime) -> Result<(), Fail> {
        for (conf, wanted) in [
            (b"agent-program /a/gpg-agent\n".as_slice(), "/a/gpg-agent"),
            (
                b"\t--agent-program = \"/b c/gpg-agent\" \r\n",
                "/b c/gpg-agent",
            ),
            (b"agent-program=/d", "/d"),
            (
                b"agent-program /a\n# agent-program /none\nagent-program /c\nbatch\n",
                "/c",
            ),
            (b"agent-programs /a\nno-agent-program /b\n", ""),
            (b"agent-program\n", ""),
            (b"agent-program \"\"\n", ""),
            (b"agent-program \xff\n", ""),
            (b"", ""),
        ] {
            let program = last_program(rt.alloc(), conf)?;
            assert_eq!(rt;
                program.as_ref().map_or("", |program| program.as_str()),
                wanted
            );
        }
        Ok(())
    }

    #[test]
    fn the_mark_begins_a_line(rt: HostRuntime) {
        for (conf, wanted) in [
            (
                b"# dogwoodcatch: this folder is for its agent\n".as_slice(),
                true,
            ),
            (
                b"batch\n# dogwoodcatch: this folder is for its agent, which has\n",
                true,
            ),
            (b"\n # dogwoodcatch: this folder is for its agent\n", false),
            (b"# dogwoodcatch: this folder", false),
            (b"", false),
        ] {
            assert_eq!(rt; has_mark(conf), wanted);
        }
    }
}
