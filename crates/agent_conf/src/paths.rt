//! Paths in options: the user's own folder in them, and the socket for clients on other machines.
//! Pure. Begin with `expanded`; definitions are in `specs/Paths`.

ghost use Rattle.std.specs.Prelude.{◌≡◌, ◌≤◌, ◌+◌, ◌++◌, length};
ghost use Rattle.agent_conf.specs.declared.TheConstants.{MAX_PATH_LEN};
ghost use Rattle.agent_conf.specs.Paths.{expanded, from_own, is_from_own, is_own_socket};
ghost use Rattle.agent_conf.specs.Paths.{is_no_socket, socket_choice, socket_in};

use crate::{MAX_PATH_LEN, Path};
use arrayvec::ArrayVec;

/// The name of the extra socket.
const NAME: &[u8] = b"S.gpg-agent.extra";

/// The values by which there is none.
const NO_SOCKET: &[u8] = b"none";

const NULL: &[u8] = b"/dev/null";

/// The folders by which paths are read.
#[derive(Drop)]
pub struct Folders<'a> {
    /// The path of the home folder.
    pub home: Path,
    /// The path of the user's own folder, or nothing where nobody says.
    pub user: &'a [u8],
}

/// A path as two parts, by which `~/` at its front stands for the user's own folder.
pub(crate) fn expanded<'a>(user: &'a [u8], path: &'a [u8]) -> (&'a [u8], &'a [u8])
    ensures { result.0.now ++ result.1.now ≡ expanded user.entry.now path.entry.now }
{
    match path {
        [b'~', rest @ ..] if !user.is_empty() && rest.first() == Some(&b'/') => (user, rest),
        _ => (b"", path),
    }
}

/// Whether the agent is to have its extra socket, where the value is one that it can have.
pub(crate) fn socket_choice(folders: &Folders<'_>, value: &[u8]) -> Option<bool>
    ensures { result ≡ socket_choice folders.now.home.items folders.now.user.now value.now }
{
    if is_no_socket(value) {
        Some(false)
    } else if is_own_socket(folders, value) {
        Some(true)
    } else {
        None
    }
}

fn is_no_socket(value: &[u8]) -> bool
    ensures { result ≡ is_no_socket value.now }
{
    value == NO_SOCKET || value == NULL
}

fn is_own_socket(folders: &Folders<'_>, path: &[u8]) -> bool
    ensures { result ≡ is_own_socket folders.now.home.items folders.now.user.now path.now }
{
    path == NAME
        || path == socket_in(b"", &folders.home).as_slice()
        || is_from_own(&folders.home, folders.user, path)
}

/// Whether the path is that of the extra socket, with `~` for the user's own folder.
fn is_from_own(home: &Path, user: &[u8], path: &[u8]) -> bool
    ensures { result ≡ is_from_own home.now.items user.now path.now }
{
    if user.is_empty() || !path.starts_with(b"~/") {
        return false;
    }
    match home.strip_prefix(user) {
        Some(below) => path == socket_in(b"~", below).as_slice(),
        None => false,
    }
}

/// The path of the extra socket in a folder whose path has two parts.
fn socket_in(front: &[u8], folder: &[u8]) -> ArrayVec<u8, 255>
    requires { length front.now + length folder.now ≤ MAX_PATH_LEN + 1 }
    ensures { result.items ≡ socket_in (front.now ++ folder.now) }
{
    let mut path = ArrayVec::new();
    path.try_extend_from_slice(front).unwrap();
    path.try_extend_from_slice(folder).unwrap();
    path.try_extend_from_slice(b"/S.gpg-agent.extra").unwrap();
    path
}
