//! The key files of the folder that was settled, by `key_store`. It reads and writes below
//! `private-keys-v1.d` of that folder, and counts what fails. Begin with `SystemKeys`; the promise
//! is that of `Keys` (`agent_ports`).

ghost use Rattle.std.specs.Prelude.{◌≡◌, [], Some, None, IfOk};

use crate::faults::count;
use crate::no_folder::NoFolder;
use agent_ports::{Grip, Homedir, KeyDone, KeyNames, KeyRead, Keys};
use key_store::FolderKeys;
use std::alloc::Global;
use std::fs::{File, Files};
use std::rt;

/// The key files of the folder that was settled. A path takes memory, and settling may take none:
/// so the keys of the folder are made for each call.
#[derive(Drop)]
pub struct SystemKeys<'a, R> {
    rt: &'a R,
    homedir: Homedir,
    faults: u64,
}

impl<'a, R: rt::Clock + Files<File = File>> SystemKeys<'a, R> {
    /// Keys of no folder yet: each call fails.
    pub fn new(rt: &'a R) -> Self
        ensures keys { ⟦<SystemKeys<'a, R> as Keys>⟧.keys result
            ≡ record { files = None; folder = Some []; faults = 0 } }
    {
        SystemKeys {
            rt,
            homedir: Homedir::new(),
            faults: 0,
        }
    }

    /// The folder that is used from now on.
    pub fn settle(&mut self, homedir: &Homedir)
        ensures { ⟦<SystemKeys<'a, R> as Keys>⟧.keys self.new
            ≡ record (⟦<SystemKeys<'a, R> as Keys>⟧.keys self.old) { folder = Some homedir.now } }
    {
        self.homedir = homedir.copy();
    }

    fn folder(&self, alloc: Global) -> Result<FolderKeys<'a, R>, NoFolder>
        ensures { IfOk result (λ folder. ⟦<FolderKeys<'a, R> as Keys>⟧.keys folder
            ≡ record { files = None; folder = None; faults = 0 }) }
    {
        let path = self.homedir.path().ok_or(NoFolder::Failed)?;
        FolderKeys::new(self.rt, alloc, path).map_err(|_| NoFolder::NoMemory)
    }
}

impl<R: rt::Clock + Files<File = File>> Keys for SystemKeys<'_, R> {
    ghost keys = { λ k.
        record { files = None; folder = Some k.homedir; faults = k.faults } };

    fn read(&mut self, alloc: Global, grip: &Grip) -> KeyRead {
        let answer = match self.folder(alloc) {
            Ok(mut folder) => folder.read(alloc, grip),
            Err(NoFolder::NoMemory) => KeyRead::NoMemory,
            Err(NoFolder::Failed) => KeyRead::Failed,
        };
        count(&mut self.faults, matches!(answer, KeyRead::Failed));
        answer
    }

    fn list(&mut self, alloc: Global) -> KeyNames {
        let answer = match self.folder(alloc) {
            Ok(mut folder) => folder.list(alloc),
            Err(NoFolder::NoMemory) => KeyNames::NoMemory,
            Err(NoFolder::Failed) => KeyNames::Failed,
        };
        count(&mut self.faults, matches!(answer, KeyNames::Failed));
        answer
    }

    fn replace(&mut self, alloc: Global, grip: &Grip, file: &[u8]) -> KeyDone {
        let answer = match self.folder(alloc) {
            Ok(mut folder) => folder.replace(alloc, grip, file),
            Err(NoFolder::NoMemory) => KeyDone::NoMemory,
            Err(NoFolder::Failed) => KeyDone::Failed,
        };
        count(&mut self.faults, answer == KeyDone::Failed);
        answer
    }

    fn remove(&mut self, alloc: Global, grip: &Grip) -> KeyDone {
        let answer = match self.folder(alloc) {
            Ok(mut folder) => folder.remove(alloc, grip),
            Err(NoFolder::NoMemory) => KeyDone::NoMemory,
            Err(NoFolder::Failed) => KeyDone::Failed,
        };
        count(&mut self.faults, answer == KeyDone::Failed);
        answer
    }
}
