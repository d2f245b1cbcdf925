//! Where the sockets lie, and how one is made that nobody but its owner can reach or replace. It
//! makes the folder, a fresh folder in it and the socket, and moves that into its place. Begin with
//! `bind_at`; tests show what it does, since no clause speaks of files.

use crate::fault::BindFault;
use gnupg_home::check_home;
use std::alloc::Global;
use std::fs::{DirBuilder, File, Files, Permissions};
use std::io::ErrorKind;
use std::net::Net;
use std::os::fd::OwnedFd;
use std::os::unix::fs::{DirBuilderExt, MetadataExt, PermissionsExt};
use std::os::unix::net::{SocketAddr, UnixListener, UnixStream};
use std::{fs, io};

/// Which of an agent's sockets in its folder, by the name under which GnuPG's programs look for it
/// (GnuPG manual, "Agent Options").
#[derive(Clone, Copy, Debug, PartialEq, Eq)]
pub enum SocketName {
    /// `S.gpg-agent`, for the clients of this machine.
    Standard,
    /// `S.gpg-agent.extra`, which is forwarded to other machines (`--extra-socket`).
    Extra,
}

impl SocketName {
    fn as_str(self) -> &'static str {
        match self {
            SocketName::Standard => "S.gpg-agent",
            SocketName::Extra => "S.gpg-agent.extra",
        }
    }
}

/// How many names are tried for a fresh folder. One is taken only by a start that was killed
/// between two calls.
const MAX_FRESH_NAMES: u32 = 1000;

/// A folder that only its owner may enter.
const OWNER_FOLDER: u32 = 0o700;

/// A socket to which only its owner may connect.
const OWNER_SOCKET: u32 = 0o600;

/// Which file a path named when it was looked at.
#[derive(Clone, Copy, Debug, PartialEq, Eq)]
pub(crate) struct FileId {
    device: u64,
    number: u64,
}

impl FileId {
    pub(crate) fn of(rt: &impl Files, path: &str) -> io::Result<FileId> {
        let found = fs::symlink_metadata(rt, path)?;
        Ok(FileId {
            device: found.dev(),
            number: found.ino(),
        })
    }
}

/// The path of the socket of this name in this folder. It fails where the path is longer than a
/// socket's may be, before anything is made.
pub(crate) fn socket_path(alloc: Global, folder: &str, name: SocketName) -> io::Result<String> {
    let path = format!(in alloc; "{folder}/{}", name.as_str())?;
    SocketAddr::from_pathname(&path)?;
    Ok(path)
}

/// A socket that listens.
#[derive(Drop)]
pub(crate) struct Bound {
    pub(crate) listener: UnixListener,
    /// The same socket once more, so that it can be shut down without a further descriptor.
    pub(crate) waker: UnixStream,
    pub(crate) file: FileId,
}

/// Listens at this path in this folder, which is made where it isn't there. What the path named
/// before gives way to the socket once that listens, and stays where this fails.
///
/// The folder is its user's alone, and nobody else can put another one in its place: else somebody
/// could put a socket in this one's place. Nobody but the owner reaches the socket at any moment:
/// it is made in a fresh folder that only the owner may enter, closed to others, and then moved to
/// its path.
pub(crate) fn bind_at<R: Files<File = File> + Net>(
    rt: &R,
    alloc: Global,
    folder: &str,
    path: &str,
) -> Result<Bound, BindFault> {
    make_folder(rt, folder)?;
    check_home(rt, alloc, folder)?;
    let fresh = make_fresh_folder(rt, alloc, folder)?;
    let bound = bind_in(rt, alloc, &fresh, path);
    // It is empty now. Where it stays nevertheless the next start takes another name.
    let _ = fs::remove_dir(rt, &fresh);
    Ok(bound?)
}

/// Makes the folder, closed to others, where nothing has its name.
fn make_folder(rt: &impl Files, folder: &str) -> io::Result<()> {
    match DirBuilder::new().mode(OWNER_FOLDER).create(rt, folder) {
        Err(fault) if fault.kind() != ErrorKind::AlreadyExists => Err(fault),
        _ => Ok(()),
    }
}

fn remove_if_there(rt: &impl Files, path: &str) -> io::Result<()> {
    match fs::remove_file(rt, path) {
        Err(fault) if fault.kind() != ErrorKind::NotFound => Err(fault),
        _ => Ok(()),
    }
}

/// Makes a folder below this one, closed to others, and gives its path. Nobody else has made it.
/// With a file in it, `bind_in`'s, its path is no longer than the socket's.
fn make_fresh_folder(rt: &impl Files, alloc: Global, folder: &str) -> io::Result<String> {
    for number in 0..MAX_FRESH_NAMES {
        let fresh = format!(in alloc; "{folder}/.new{number}")?;
        match DirBuilder::new().mode(OWNER_FOLDER).create(rt, &fresh) {
            Ok(()) => return Ok(fresh),
            Err(fault) if fault.kind() != ErrorKind::AlreadyExists => return Err(fault),
            Err(_) => {}
        }
    }
    Err(ErrorKind::AlreadyExists.into())
}

/// Listens at a socket that is made in the fresh folder and then moved to the path, whatever that
/// named. The folder is empty afterwards.
fn bind_in<R: Files + Net>(rt: &R, alloc: Global, fresh: &str, path: &str) -> io::Result<Bound> {
    let made = format!(in alloc; "{fresh}/s")?;
    let bound = bind_and_move(rt, &made, path);
    if bound.is_err() {
        remove_if_there(rt, &made)?;
    }
    bound
}

fn bind_and_move<R: Files + Net>(rt: &R, made: &str, path: &str) -> io::Result<Bound> {
    let listener = UnixListener::bind(rt, made)?;
    let waker = UnixStream::from(OwnedFd::from(listener.try_clone()?));
    let file = FileId::of(rt, made)?;
    fs::set_permissions(rt, made, Permissions::from_mode(OWNER_SOCKET))?;
    fs::rename(rt, made, path)?;
    Ok(Bound {
        listener,
        waker,
        file,
    })
}
