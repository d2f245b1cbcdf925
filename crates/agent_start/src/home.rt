//! The home folder of a start: whose it has to be, what is made in it, and where GnuPG's programs
//! find its agent's socket. It makes folders and a file that points to the socket. Begin with
//! `enter` and `Sockets`.

use crate::fault::{Fault, is_out_of_memory, said};
use crate::kept::{read_small, write_whole};
use crate::reach::answers;
use gnupg_home::{check_home, home_socket, socket_paths};
use std::alloc::Global;
use std::fs;
use std::fs::{DirBuilder, File, Files};
use std::io::ErrorKind;
use std::net::Net;
use std::os::unix::fs::{DirBuilderExt, FileTypeExt};
use std::rt::Env;

/// A folder that only its owner may enter.
const OWNER_FOLDER: u32 = 0o700;

/// The status where others could take the folder's place, or write in it.
const REFUSED: u8 = 5;

/// Sees that the folder, with those above it, is one in which nobody else can write, before a file
/// in it is read or made. It is made where it isn't there.
pub fn enter<R: Files<File = File>>(rt: &R, alloc: Global, home: &str) -> Result<(), Fault> {
    check(rt, alloc, home)?;
    if is_folder(rt, home) {
        return Ok(());
    }
    if let Err(error) = DirBuilder::new()
        .recursive(true)
        .mode(OWNER_FOLDER)
        .create(rt, home)
    {
        return Err(said(
            2,
            format!(in alloc; "there is no folder {home}, and it can't be made: {error}"),
        ));
    }
    check(rt, alloc, home)
}

/// The same, and nothing is made.
pub fn check<R: Files<File = File>>(rt: &R, alloc: Global, home: &str) -> Result<(), Fault> {
    match check_home(rt, alloc, home) {
        Ok(()) => Ok(()),
        Err(fault) if is_out_of_memory(&fault) => Err(Fault::NoMemory),
        Err(fault) => Err(said(
            REFUSED,
            format!(in alloc; "no agent for the home folder {home}: {fault}"),
        )),
    }
}

fn is_folder(rt: &impl Files, path: &str) -> bool {
    fs::metadata(rt, path).is_ok_and(|found| found.is_dir())
}

/// Makes the folder of the key files, as gpg-agent does: there are programs that look for it. Says
/// why it can't be made.
pub fn make_keys_folder<R: Files>(rt: &R, alloc: Global, home: &str) -> Result<(), Fault> {
    let path = format!(in alloc; "{home}/private-keys-v1.d")?;
    let made = DirBuilder::new().mode(OWNER_FOLDER).create(rt, &path);
    if made.is_ok() || is_folder(rt, &path) {
        return Ok(());
    }
    Err(said(2, format!(in alloc; "can't make {path}")))
}

/// Where the agent of a folder is found.
#[derive(Drop)]
pub struct Sockets {
    /// Its socket.
    pub own: String,
    /// Where GnuPG's programs look first.
    pub gnupg: String,
}

impl Sockets {
    /// Those of this folder.
    pub fn of<R: Env + Files<File = File>>(
        rt: &R,
        alloc: Global,
        home: &str,
    ) -> Result<Sockets, Fault> {
        let own = home_socket(alloc, home)?;
        let gnupg = match socket_paths(rt, alloc, home)?.first() {
            Some(path) => String::from_str(alloc, path)?,
            None => String::from_str(alloc, &own)?,
        };
        Ok(Sockets { own, gnupg })
    }

    /// At which of them an agent answers.
    pub fn answered<R: Files + Net>(&self, rt: &R) -> Option<&str> {
        [&self.own, &self.gnupg]
            .into_iter()
            .map(|path| path.as_str())
            .find(|path| is_socket(rt, path) && answers(rt, path))
    }

    /// Has GnuPG's programs find the agent's socket, where they look for it elsewhere: by a file
    /// there that says where it is (Assuan manual, "Socket wrappers").
    pub fn point<R: Files<File = File>>(&self, rt: &R, alloc: Global) -> Result<(), Fault> {
        let Sockets { own, gnupg } = self;
        if own.as_str() == gnupg.as_str() {
            return Ok(());
        }
        let text = format!(in alloc; "%Assuan%\nsocket={own}\n")?;
        if let Some(kept) = read_small(rt, alloc, gnupg) {
            if kept.as_slice() == text.as_bytes() {
                return Ok(());
            }
        }
        match write_whole(rt, alloc, gnupg, text.as_bytes()) {
            Ok(()) => Ok(()),
            Err(error) if error.kind() == ErrorKind::OutOfMemory => Err(Fault::NoMemory),
            Err(_) => Err(said(
                2,
                format!(in alloc;
                    "can't write {gnupg}, by which GnuPG's programs find {own}: see whether its folder is yours and its disk has room"
                ),
            )),
        }
    }
}

fn is_socket(rt: &impl Files, path: &str) -> bool {
    fs::metadata(rt, path).is_ok_and(|found| found.file_type().is_socket())
}
