//! Where the socket of a folder's agent is (GnuPG common/homedir.c, `_gnupg_socketdir_internal`).
//! It reads the environment and `/proc/self/status`, and looks at folders below `/run` and
//! `/var/run`; none is made. Begin with `socket_paths`.

use crate::folders::{default_home, joined};
use crate::users::user_number;
use arrayvec::ArrayString;
use sha1::Sha1;
use std::alloc::{AllocError, Global};
use std::fs;
use std::fs::{File, Files};
use std::os::unix::fs::MetadataExt;
use std::rt::Env;

/// By this name clients find it in its folder (GnuPG manual, "Agent Options").
const SOCKET: &str = "S.gpg-agent";

/// How many bytes the path of a socket has at most (unix(7)).
pub const MAX_PATH: usize = 107;

/// Where the system has a folder for each user's sockets, below `user/`.
const BASES: [&str; 4] = ["/run/gnupg", "/run", "/var/run/gnupg", "/var/run"];

/// What others than the owner may do with a folder, as bits of its mode.
const OTHERS: u32 = 0o077;

/// The letters of z-base-32, as its inventor's paper has them.
const LETTERS: [u8; 32] = *b"ybndrfg8ejkmcpqxot1uwisza345h769";

/// How many letters the hash of a folder's path has, of five bits each.
const HASH_LETTERS: usize = 24;

/// The paths at which the agent of this folder may listen: where GnuPG's programs look first, and
/// then in the folder itself.
pub fn socket_paths<R: Env + Files<File = File>>(
    rt: &R,
    alloc: Global,
    folder: &str,
) -> Result<Vec<String>, AllocError> {
    let mut paths = Vec::new(alloc);
    if let Some(user) = user_number(rt, alloc)? {
        let name = socket_folder_name(rt, alloc, folder)?;
        for base in BASES {
            let user_folder = format!(in alloc; "{base}/user/{user}")?;
            let socket_folder = format!(in alloc; "{user_folder}/{name}")?;
            if is_users(rt, &user_folder, user, 0) && is_users(rt, &socket_folder, user, OTHERS) {
                paths.push(joined(alloc, socket_folder.as_str(), SOCKET)?)?;
            }
        }
    }
    paths.push(home_socket(alloc, folder)?)?;
    Ok(paths)
}

/// The socket in the folder itself.
pub fn home_socket(alloc: Global, folder: &str) -> Result<String, AllocError> {
    joined(alloc, folder, SOCKET)
}

/// The folder of the sockets below that of the user: one of its own for each home folder but the
/// default one.
fn socket_folder_name(env: &impl Env, alloc: Global, folder: &str) -> Result<String, AllocError> {
    match default_home(env, alloc)? {
        Some(home) if home.as_str() == folder => String::from_str(alloc, "gnupg"),
        _ => format!(in alloc; "gnupg/d.{}", hashed(folder)),
    }
}

/// Whether this is a folder of the user's, and nobody else may do this there.
fn is_users(files: &impl Files, path: &str, user: u32, others: u32) -> bool {
    match fs::metadata(files, path) {
        Ok(found) => found.is_dir() && found.uid() == user && found.mode() & others == 0,
        Err(_) => false,
    }
}

/// The first 15 bytes of the path's SHA-1, in z-base-32.
fn hashed(path: &str) -> ArrayString<HASH_LETTERS> {
    let mut letters = ArrayString::new();
    let digest = Sha1::digest(path.as_bytes());
    for five in digest[..15].chunks(5) {
        push_letters(&mut letters, five);
    }
    letters
}

/// Five bytes as eight letters.
fn push_letters(letters: &mut ArrayString<HASH_LETTERS>, five: &[u8]) {
    let mut bits = 0u64;
    for byte in five {
        bits = (bits << 8) | u64::from(*byte);
    }
    for place in [35u32, 30, 25, 20, 15, 10, 5, 0] {
        let _ = letters.try_push(letter(bits >> place));
    }
}

/// The letter of the five lowest bits.
fn letter(bits: u64) -> char {
    char::from(LETTERS[(bits % 32) as usize])
}

#[cfg(test)]
mod tests {
    use super::*;
    use std::test::Fail;

    #[test]
    fn a_path_is_hashed_as_gpgconf_does(rt: HostRuntime) -> Result<(), Fail> {
        // What `gpgconf --homedir PATH --list-dirs agent-socket` of GnuPG 2.2.40 has behind `d.`.
        for (path, wanted) in [
            ("/tmp/rule/other", "4hq3tyu1mqzqfkiwp7hg1hzd"),
            ("/tmp/rule//other", "8thpqo7khs4eo3gz578h7mnt"),
            ("/tmp/rule/./other", "5zzy6mhocyxqif8tgyhxzkcs"),
            ("/home/alice/gnupg", "mqfrr9ik1auhxzk5agispo8c"),
            ("/root/.gnupg", "3ai13nkqjks41xo71qrtcbrj"),
            ("/tmp/x", "h6s1g4fjrjgazzbo8pfcmbbo"),
        ] {
            assert_eq!(rt; hashed(path).as_str(), wanted);
        }
        Ok(())
    }
}
