//! The port of the user's private keys, a file of bytes for each grip. Whole files are read,
//! replaced and removed; what they say isn't looked at here. Begin with `Keys::read`; `ReadsKey`
//! and its neighbours in `specs/KeyFiles` say what each call does. `MapKeys` is the form in memory,
//! `key_store` the folder.

ghost use Rattle.std.specs.Prelude.{◌≤◌, length};
ghost use Rattle.agent_ports.specs.declared.keys.TheConstants.{MAX_KEY_FILE_LEN};
ghost use Rattle.agent_ports.specs.KeyFiles.{KeyFiles, ReadsKey, ListsKeys, ReplacesKey};
ghost use Rattle.agent_ports.specs.KeyFiles.{RemovesKey};

use crate::Grip;
use std::alloc::Global;

/// The most bytes of a key's file.
pub const MAX_KEY_FILE_LEN: usize = 65_536;

/// What a read of a key's file gave. It may hold a secret key, so it isn't printed.
#[derive(Drop)]
pub enum KeyRead {
    /// The bytes of its file.
    Found(Vec<u8>),
    /// There is no such key.
    Absent,
    /// The read failed.
    Failed,
    /// There was no memory for the file.
    NoMemory,
}

/// What a question for the keys that there are gave.
#[derive(Drop)]
pub enum KeyNames {
    /// Their grips, ascending.
    Names(Vec<Grip>),
    /// The keys couldn't be listed.
    Failed,
    /// There was no memory for the grips.
    NoMemory,
}

/// What became of a change. All but `Done` leave the files as they were.
#[derive(Clone, Copy, Debug, PartialEq, Eq)]
pub enum KeyDone {
    /// The change was made.
    Done,
    /// There is no such key.
    Absent,
    /// The change failed.
    Failed,
    /// There was no memory for the change.
    NoMemory,
}

/// Private keys, each in a file that its grip names.
pub trait Keys {
    /// The files and the folder that they lie in, where they are known, and how many calls failed.
    ghost keys: { Self → KeyFiles };

    /// The file of a key.
    fn read(&mut self, alloc: Global, grip: &Grip) -> KeyRead
        ensures { ReadsKey (keys self.old) grip.now result (keys self.new) };

    /// The keys that there are.
    fn list(&mut self, alloc: Global) -> KeyNames
        ensures { ListsKeys (keys self.old) result (keys self.new) };

    /// Makes this the file of a key, also where it has none yet.
    fn replace(&mut self, alloc: Global, grip: &Grip, file: &[u8]) -> KeyDone
        requires { length file.now ≤ MAX_KEY_FILE_LEN }
        ensures { ReplacesKey (keys self.old) grip.now file.now result (keys self.new) };

    /// Removes the file of a key.
    fn remove(&mut self, alloc: Global, grip: &Grip) -> KeyDone
        ensures { RemovesKey (keys self.old) grip.now result (keys self.new) };
}
