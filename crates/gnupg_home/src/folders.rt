//! The folders that the environment names, and paths as a user writes them. It reads the
//! environment and the name of the current folder, and opens no file. Begin with `absolute`.

use crate::there::if_there;
use std::alloc::{AllocError, Global};
use std::env;
use std::env::VarError;
use std::rt::Env;

/// A variable of the environment that is set to something. One whose value isn't UTF-8 isn't.
pub fn variable(env: &impl Env, alloc: Global, name: &str) -> Result<Option<String>, AllocError> {
    match env::var(&(env, alloc), name) {
        Ok(value) if value.is_empty() => Ok(None),
        Ok(value) => Ok(Some(value)),
        Err(VarError::NotPresent | VarError::NotUnicode) => Ok(None),
        Err(VarError::OutOfMemory) => Err(AllocError),
    }
}

/// The path without slashes at its end.
fn trimmed(path: &str) -> &str {
    let rest = path.trim_end_matches('/');
    if rest.is_empty() { path } else { rest }
}

/// A folder as the user names it, as a path from the root (GnuPG common/homedir.c): `~/` at its
/// front is the user's folder, and another one stands in the folder that this runs in.
pub fn absolute(env: &impl Env, alloc: Global, named: &str) -> Result<String, AllocError> {
    let named = trimmed(named);
    if named.starts_with('/') {
        return String::from_str(alloc, named);
    }
    if let Some(rest) = named.strip_prefix("~/") {
        let home = variable(env, alloc, "HOME")?;
        return joined(alloc, home.as_ref().map_or("", |home| home.as_str()), rest);
    }
    match if_there(env::current_dir(&(env, alloc)))? {
        Some(here) => joined(alloc, here.as_str(), named),
        None => joined(alloc, "", named),
    }
}

/// What has this name in the folder.
pub fn joined(alloc: Global, folder: &str, name: &str) -> Result<String, AllocError> {
    format!(in alloc; "{}/{name}", folder.trim_end_matches('/'))
}

/// GnuPG's home folder where nothing else is said: `~/.gnupg`.
pub fn default_home(env: &impl Env, alloc: Global) -> Result<Option<String>, AllocError> {
    below_home(env, alloc, ".gnupg")
}

/// The home folder of GnuPG (GnuPG manual, "Configuration files").
pub fn gnupg_home(env: &impl Env, alloc: Global) -> Result<Option<String>, AllocError> {
    match variable(env, alloc, "GNUPGHOME")? {
        Some(named) => Ok(Some(absolute(env, alloc, named.as_str())?)),
        None => default_home(env, alloc),
    }
}

/// The folder of an agent that no other program looks for. A path of the variable that isn't from
/// the root doesn't count (XDG Base Directory Specification).
pub fn own_folder(env: &impl Env, alloc: Global) -> Result<Option<String>, AllocError> {
    match variable(env, alloc, "XDG_DATA_HOME")? {
        Some(data) if data.starts_with('/') => Ok(Some(joined(
            alloc,
            data.as_str(),
            "dogwoodcatch",
        )?)),
        _ => below_home(env, alloc, ".local/share/dogwoodcatch"),
    }
}

fn below_home(env: &impl Env, alloc: Global, name: &str) -> Result<Option<String>, AllocError> {
    match variable(env, alloc, "HOME")? {
        Some(home) => Ok(Some(joined(alloc, home.as_str(), name)?)),
        None => Ok(None),
    }
}

#[cfg(test)]
mod tests {
    use super::*;
    use crate::entries::Entries;
    use std::test::Fail;

    #[test]
    fn a_named_folder_is_a_path_from_the_root(rt: HostRuntime) -> Result<(), Fail> {
        let env = Entries(&["HOME=/home/alice"]);
        for (named, wanted) in [
            ("/a/b", "/a/b"),
            ("/a/b///", "/a/b"),
            ("/", "/"),
            ("~/x", "/home/alice/x"),
            ("x", "/here/x"),
            ("./x/", "/here/./x"),
            ("~x", "/here/~x"),
        ] {
            assert_eq!(rt; absolute(&env, rt.alloc(), named)?.as_str(), wanted);
        }
        Ok(())
    }

    #[test]
    fn the_environment_names_two_folders(rt: HostRuntime) -> Result<(), Fail> {
        for (entries, home, own) in [
            (
                ["HOME=/h", "X=", "Y="],
                "/h/.gnupg",
                "/h/.local/share/dogwoodcatch",
            ),
            (
                ["HOME=/h", "GNUPGHOME=g/", "XDG_DATA_HOME=/d"],
                "/here/g",
                "/d/dogwoodcatch",
            ),
            (
                ["HOME=/h", "GNUPGHOME=", "XDG_DATA_HOME=d"],
                "/h/.gnupg",
                "/h/.local/share/dogwoodcatch",
            ),
            (["HOME=", "GNUPGHOME=~/g", "XDG_DATA_HOME="], "/g", ""),
            (["HOME=", "GNUPGHOME=", "XDG_DATA_HOME="], "", ""),
        ] {
            let env = Entries(&entries);
            let folders = (gnupg_home(&env, rt.alloc())?, own_folder(&env, rt.alloc())?);
            assert_eq!(rt; folders.0.as_ref().map_or("", |home| home.as_str()), home);
            assert_eq!(rt; folders.1.as_ref().map_or("", |own| own.as_str()), own);
        }
        Ok(())
    }
}
