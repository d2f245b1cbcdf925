//! The home directory that a host was settled at, as bytes in the value itself, since settling may
//! take no memory. It touches no file. Begin with `Homedir::settle`; `kept_path` of
//! `specs/HostParts` says which path is kept.

ghost use Rattle.std.specs.Prelude.{◌≡◌, [], IfSome};
ghost use Rattle.agent_ports.specs.HostParts.{kept_path};

use arrayvec::ArrayVec;
use std::marker::Model;
use std::str;

/// The most bytes of a folder's path that a host keeps: as many as an option's value may have.
pub const MAX_HOMEDIR_LEN: usize = 255;

/// The folder that a host was settled at, if it was. It is kept in place, since settling may take
/// no memory. Contracts see the bytes of its path, none where there is no folder.
#[derive(Drop)]
pub struct Homedir {
    path: ArrayVec<u8, MAX_HOMEDIR_LEN>,
}

impl Model for Homedir {
    ghost use Rattle.std.specs.Prelude.{ℕ, List};

    ghost Value = { List ℕ };

    ghost view = { λ homedir. homedir.path.items };
}

impl Homedir {
    /// None yet.
    pub fn new() -> Self
        ensures { result ≡ [] }
    {
        Homedir {
            path: ArrayVec::new(),
        }
    }

    /// The folder that is used from now on. One whose path is too long is none.
    pub fn settle(&mut self, path: &[u8])
        ensures { self.new ≡ kept_path path.now }
    {
        self.path.clear();
        let _ = self.path.try_extend_from_slice(path);
    }

    /// The same folder once more.
    pub fn copy(&self) -> Homedir
        ensures { result ≡ self.now }
    {
        let mut path = ArrayVec::new();
        path.try_extend_from_slice(&self.path).unwrap();
        Homedir { path }
    }

    /// The bytes of the folder's path, none where there is no folder.
    pub fn bytes(&self) -> &[u8]
        ensures { result.now ≡ self.now }
    {
        &self.path
    }

    /// The folder's path, where there is one that is UTF-8.
    pub fn path(&self) -> Option<&str>
        ensures { IfSome result (λ path. path.now ≡ self.now) }
    {
        let path = str::from_utf8(&self.path).ok()?;
        if path.is_empty() {
            return None;
        }
        Some(path)
    }
}
