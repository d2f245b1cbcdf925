//! What has to be known of the command line and the environment before a file is read. It takes
//! memory for the words alone. Begin with `read_places`; definitions are in `specs/Places`.

ghost use Rattle.std.specs.{Prelude.{◌≡◌, ◌++◌, IfOk, map, string_bytes}, Option.option_map};
ghost use Rattle.agent_conf.specs.Places.{ArePlaces, as_path, conf_of, conf_text, home_of};
ghost use Rattle.agent_conf.specs.{Words.settings_of, Written.written};

use crate::Path;
use crate::setting::Setting;
use crate::settled::{is_of, last_of};
use crate::words::settings_of;
use arrayvec::ArrayVec;
use std::alloc::{AllocError, Global};

/// What the environment says.
#[derive(Clone, Copy)]
pub struct Environment<'a> {
    /// `HOME`, or nothing.
    pub user: &'a [u8],
    /// `GNUPGHOME`, or nothing.
    pub home: &'a [u8],
}

/// Which file has the options of the home folder.
#[derive(Clone, Copy)]
pub enum ConfFile<'a> {
    /// `gpg-agent.conf` in the folder.
    OfHome,
    /// The file that `--options` names.
    Named(&'a [u8]),
    /// No file, by `--no-options`.
    Nothing,
}

/// What has to be known before a file is read.
#[derive(Drop)]
pub struct Places<'a> {
    /// The path of the home folder. None where nobody names one, or where it has more than
    /// `MAX_PATH_LEN` bytes.
    pub home: Option<Path>,
    pub conf: ConfFile<'a>,
}

/// The home folder, by `--homedir`, by GNUPGHOME or as `.gnupg` in the user's own folder, and the
/// file of its options.
pub fn read_places<'a>(
    alloc: Global,
    words: &'a [String],
    environment: &Environment<'_>,
) -> Result<Places<'a>, AllocError>
    ensures { IfOk result (ArePlaces environment.entry.now.user.now environment.entry.now.home.now
        (settings_of 1 (map string_bytes words.entry.now))) }
{
    let settings = settings_of(alloc, words)?;
    let home = home_of(environment, &settings);
    let conf = conf_of(&settings);
    Ok(Places { home, conf })
}

fn home_of(environment: &Environment<'_>, words: &[Setting<'_>]) -> Option<Path>
    ensures { option_map (λ path. path.items) result ≡ home_of environment.now.user.now
        environment.now.home.now (map written words.now) }
{
    match last_of(&[b"homedir"], words) {
        Some(setting) => as_path(setting.value, b""),
        None if !environment.home.is_empty() => as_path(environment.home, b""),
        None if !environment.user.is_empty() => as_path(environment.user, b"/.gnupg"),
        None => None,
    }
}

/// The path, unless it is empty or too long.
fn as_path(front: &[u8], rest: &[u8]) -> Option<Path>
    ensures { option_map (λ path. path.items) result ≡ as_path (front.now ++ rest.now) }
{
    if front.is_empty() && rest.is_empty() {
        return None;
    }
    let mut path = ArrayVec::new();
    path.try_extend_from_slice(front).ok()?;
    path.try_extend_from_slice(rest).ok()?;
    Some(path)
}

fn conf_of<'a>(words: &[Setting<'a>]) -> ConfFile<'a>
    ensures { conf_text result ≡ conf_of (map written words.entry.now) }
{
    match last_of(&[b"options", b"no-options"], words) {
        None => ConfFile::OfHome,
        Some(setting) if is_of(&[b"options"], &setting) => ConfFile::Named(setting.value),
        Some(_) => ConfFile::Nothing,
    }
}
