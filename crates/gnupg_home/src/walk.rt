//! The way from a folder, a program or a socket up to the root, as the file system has it: owners
//! and modes, handed to `judge`. It reads `/proc`, looks at files and folders, and changes nothing.
//! Begin with `check_home`.

use crate::fault::HomeFault;
use crate::rule::{Breach, Part, Rule, Step, Users, judge};
use crate::there::if_there;
use crate::users::users;
use std::alloc::{AllocError, Global};
use std::fs;
use std::fs::{File, Files};
use std::os::unix::fs::{FileTypeExt, MetadataExt};

/// Whether the folder is the user's own, and nobody else can write there or put another one in its
/// place: links are followed, and each folder above is looked at. Where it isn't there, or is no
/// folder, those above are judged that are.
pub fn check_home<R: Files<File = File>>(
    rt: &R,
    alloc: Global,
    folder: &str,
) -> Result<(), HomeFault> {
    let mut at = folder;
    let mut part = Part::Home;
    // There are no more names in it than bytes.
    for _ in 0..=folder.len() {
        if let Some(real) = real_folder(rt, alloc, at)? {
            return check_way(rt, alloc, part, real.as_str());
        }
        at = above(at).unwrap_or(".");
        part = Part::Above;
    }
    Ok(())
}

/// The path without links, where a folder is there.
fn real_folder<R: Files>(rt: &R, alloc: Global, path: &str) -> Result<Option<String>, AllocError> {
    match real_path(rt, alloc, path)? {
        Some(real) if fs::metadata(rt, real.as_str()).is_ok_and(|found| found.is_dir()) => {
            Ok(Some(real))
        }
        _ => Ok(None),
    }
}

/// The path without links, where anything is there.
pub fn real_path<R: Files>(
    rt: &R,
    alloc: Global,
    path: &str,
) -> Result<Option<String>, AllocError> {
    match if_there(fs::canonicalize(&(rt, alloc), path))? {
        Some(real) => Ok(Some(String::from_str(alloc, real.as_str())?)),
        None => Ok(None),
    }
}

/// Whether nobody but the user and root can change the program at this path, which is one without
/// links, or put another one in its place.
pub fn check_program<R: Files<File = File>>(
    rt: &R,
    alloc: Global,
    path: &str,
) -> Result<(), HomeFault> {
    check_way(rt, alloc, Part::Program, path)
}

/// What is in a socket's place.
#[derive(Drop)]
pub struct OwnFile {
    /// Its path, without links.
    pub path: String,
    pub is_socket: bool,
}

/// The socket at this path, or the file in its place, where it is the user's own and lies in a
/// folder that passes. Links are followed.
pub fn own_file<R: Files<File = File>>(
    rt: &R,
    alloc: Global,
    path: &str,
) -> Result<Option<OwnFile>, HomeFault> {
    let Some(path) = real_path(rt, alloc, path)? else {
        return Ok(None);
    };
    let Ok(found) = fs::metadata(rt, path.as_str()) else {
        return Ok(None);
    };
    check_home(rt, alloc, above(path.as_str()).unwrap_or("/"))?;
    let users = users(rt, alloc)?.ok_or(HomeFault::NoUser)?;
    let (owner, user) = (found.uid(), users.user);
    if owner != user {
        return Err(HomeFault::Socket { path, owner, user });
    }
    let is_socket = found.file_type().is_socket();
    Ok(if is_socket || found.is_file() {
        Some(OwnFile { path, is_socket })
    } else {
        None
    })
}

/// Judges this path, which has no links, with the folders above it.
fn check_way<R: Files<File = File>>(
    rt: &R,
    alloc: Global,
    first: Part,
    path: &str,
) -> Result<(), HomeFault> {
    let users = users(rt, alloc)?.ok_or(HomeFault::NoUser)?;
    let steps = steps_up(rt, alloc, path)?;
    match judge(users, first, steps.as_slice()) {
        Ok(()) => Ok(()),
        Err(breach) => Err(fault_at(alloc, users, first, path, breach)?),
    }
}

/// The owners and modes of this path and of the folders above it, up to the root.
fn steps_up<R: Files>(rt: &R, alloc: Global, path: &str) -> Result<Vec<Step>, HomeFault> {
    let mut steps = Vec::new(alloc);
    let mut at = path;
    for _ in 0..path.len() {
        let step = step_at(rt, alloc, at)?;
        steps.push(step).map_err(|_| HomeFault::NoMemory)?;
        match above(at) {
            Some(next) => at = next,
            None => break,
        }
    }
    Ok(steps)
}

fn step_at<R: Files>(rt: &R, alloc: Global, path: &str) -> Result<Step, HomeFault> {
    match fs::metadata(rt, path) {
        Ok(found) => Ok(Step {
            owner: found.uid(),
            mode: found.mode(),
        }),
        Err(error) => {
            let path = String::from_str(alloc, path)?;
            Err(HomeFault::Unseen { path, error })
        }
    }
}

/// What the breach is, with the path of its step.
fn fault_at(
    alloc: Global,
    users: Users,
    first: Part,
    path: &str,
    breach: Breach,
) -> Result<HomeFault, AllocError> {
    let mut at = path;
    let mut part = first;
    for _ in 0..breach.place {
        at = above(at).unwrap_or(at);
        part = Part::Above;
    }
    let path = String::from_str(alloc, at)?;
    let (Step { owner, mode }, user) = (breach.step, users.user);
    Ok(match breach.rule {
        Rule::Owner => HomeFault::Owner {
            part,
            path,
            owner,
            user,
        },
        Rule::Mode => HomeFault::Mode { part, path, mode },
    })
}

/// The folder above, in words of the path.
fn above(path: &str) -> Option<&str> {
    match path.rsplit_once('/')? {
        ("", "") => None,
        ("", _) => Some("/"),
        (folder, _) => Some(folder),
    }
}
