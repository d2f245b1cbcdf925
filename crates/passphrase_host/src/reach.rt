//! Connections to the agent of a folder, by its socket or by a file that names one. It opens
//! sockets and reads the greeting (Assuan manual, "server responses"). Begin with `reach`, and with
//! `greet` for whether it answers.

ghost use Rattle.std.specs.Prelude.{◌≡◌, Contains, IfOk, IfSome, map, string_bytes};
ghost use Rattle.passphrase_host.specs.Paths.{handed};

use crate::failure::{Failure, refused, said};
use crate::patience::Deadline;
use arrayvec::ArrayVec;
use gnupg_home::{MAX_PATH, OwnFile, Redirect, named_socket, own_file};
use std::alloc::Global;
use std::fs::{File, Files};
use std::io;
use std::io::{ErrorKind, Read};
use std::net::Net;
use std::os::unix::net::UnixStream;
use std::rt::{Clock, Env};

/// How many bytes a line has at most, with its end (Assuan manual, "server responses").
pub(crate) const MAX_LINE: usize = 1002;

/// What was read of an agent before its link is.
pub(crate) type Ahead = ArrayVec<u8, MAX_LINE>;

/// A connection to an agent, and by which paths it was made.
#[derive(Drop)]
pub(crate) struct Reached {
    pub(crate) stream: UnixStream,
    /// Where the agent was looked for.
    pub(crate) at: String,
    /// What the system was handed: the path of the socket that was found there, or that a redirect
    /// file there names.
    pub(crate) path: String,
}

/// A connection to the agent that listens at one of these paths; the first that somebody listens at
/// counts.
pub(crate) fn reach<R: Env + Files<File = File> + Net>(
    rt: &R,
    alloc: Global,
    paths: &[String],
) -> Result<Option<Reached>, Failure>
    ensures { IfOk result (λ found. IfSome found
        (λ reached. Contains (map string_bytes paths.now) (string_bytes reached.at))) }
{
    for path in paths {
        if let Some(reached) = reach_at(rt, alloc, path.as_str())? {
            return Ok(Some(reached));
        }
    }
    Ok(None)
}

/// A connection to what this path is: a socket, or a file that says where that is. Each of them is
/// the user's own, in a folder that passes.
fn reach_at<R: Env + Files<File = File> + Net>(
    rt: &R,
    alloc: Global,
    path: &str,
) -> Result<Option<Reached>, Failure>
    ensures { IfOk result
        (λ found. IfSome found (λ reached. string_bytes reached.at ≡ path.now)) }
{
    let Some(found) = found_at(rt, alloc, path)? else {
        return Ok(None);
    };
    if found.is_socket {
        return connect(rt, alloc, path, path, &found);
    }
    match redirect_at(rt, alloc, found.path.as_str())? {
        Redirect::To(other) => reach_named(rt, alloc, path, other.as_str()),
        Redirect::Other => Ok(None),
        Redirect::Nameless => Err(said(format!(in alloc;
            "the redirect file {path} names no socket: %Assuan%, and then socket=PATH"
        ))),
    }
}

/// A connection to the socket that a redirect file names, which stands at this path.
fn reach_named<R: Files<File = File> + Net>(
    rt: &R,
    alloc: Global,
    at: &str,
    path: &str,
) -> Result<Option<Reached>, Failure>
    ensures { IfOk result
        (λ found. IfSome found (λ reached. string_bytes reached.at ≡ at.now)) }
{
    match found_at(rt, alloc, path)? {
        Some(found) if found.is_socket => connect(rt, alloc, at, path, &found),
        _ => Ok(None),
    }
}

fn found_at<R: Files<File = File>>(
    rt: &R,
    alloc: Global,
    path: &str,
) -> Result<Option<OwnFile>, Failure> {
    match own_file(rt, alloc, path) {
        Ok(found) => Ok(found),
        Err(fault) => Err(refused(alloc, &fault)),
    }
}

/// What the file says. It is shorter than a line.
fn redirect_at<R: Env + Files<File = File>>(
    rt: &R,
    alloc: Global,
    path: &str,
) -> Result<Redirect, Failure> {
    let mut bytes = [0u8; MAX_LINE];
    match front(rt, path, &mut bytes) {
        Ok(count) => Ok(named_socket(rt, alloc, bytes.get(..count).unwrap_or(&bytes))?),
        Err(_) => Ok(Redirect::Other),
    }
}

fn front<R: Files<File = File>>(rt: &R, path: &str, buf: &mut [u8]) -> io::Result<usize> {
    File::open(rt, path)?.read(buf)
}

/// A connection to the socket that was found at the path that was named: by its own path, on which
/// there are no links, or where that is too long for a system call by the one that was named.
fn connect(
    net: &impl Net,
    alloc: Global,
    at: &str,
    named: &str,
    found: &OwnFile,
) -> Result<Option<Reached>, Failure>
    ensures at { IfOk result
        (λ made. IfSome made (λ reached. string_bytes reached.at ≡ at.now)) }
    ensures path { IfOk result (λ made. IfSome made
        (λ reached. string_bytes reached.path ≡ handed named.now (string_bytes found.now.path))) }
{
    let own = found.path.as_str();
    let path = String::from_str(alloc, if own.len() > MAX_PATH { named } else { own })?;
    let at = String::from_str(alloc, at)?;
    match UnixStream::connect(net, path.as_str()) {
        Ok(stream) => Ok(Some(Reached { stream, at, path })),
        Err(error) if error.kind() == ErrorKind::InvalidInput => Err(too_long(alloc, named)),
        Err(_) => Ok(None),
    }
}

/// No system call takes such a path (unix(7)).
pub(crate) fn too_long(alloc: Global, path: &str) -> Failure {
    said(format!(in alloc; "the socket {path} has more than 107 bytes in its path"))
}

/// Whether who listens is an agent.
#[derive(Drop)]
pub(crate) enum Greeting {
    /// It greets as one, by these bytes (Assuan manual, "server responses").
    Agent(Ahead),
    /// It says something else, or has gone.
    Other,
    /// It says nothing in time.
    Silent,
}

/// Takes the greeting of who listens.
pub(crate) fn greet(rt: &impl Clock, stream: &mut UnixStream, deadline: Deadline) -> Greeting {
    let mut ahead = Ahead::new();
    let mut buf = [0u8; MAX_LINE];
    for _ in 0..MAX_LINE {
        if ahead.contains(&b'\n') {
            break;
        }
        let _ = stream.set_read_timeout(deadline.left(rt));
        match stream.read(&mut buf) {
            Ok(count) if count > 0 => {
                if ahead
                    .try_extend_from_slice(buf.get(..count).unwrap_or(&buf))
                    .is_err()
                {
                    return Greeting::Other;
                }
            }
            Err(error) if is_late(&error) => return Greeting::Silent,
            Err(error) if error.kind() == ErrorKind::Interrupted => {}
            _ => return Greeting::Other,
        }
    }
    if ahead.starts_with(b"OK") {
        Greeting::Agent(ahead)
    } else {
        Greeting::Other
    }
}

/// Whether a call failed because its time was over.
pub(crate) fn is_late(error: &io::Error) -> bool {
    matches!(error.kind(), ErrorKind::WouldBlock | ErrorKind::TimedOut)
}
