//! The port of private keys over the folder of a home directory. It touches that folder, and the
//! files to which links there lead; changes hold its lock. Begin with `read_key` and `replace_key`,
//! each a few calls of `files`; the clauses are those of `Keys`, with the files left unknown.

ghost use Rattle.std.specs.{Prelude.{◌≡◌, ◌≤◌, length, None, IfOk}, List.Sorted.IsStrictlySortedBy};
ghost use Rattle.agent_ports.specs.{KeyFiles.grip_cmp, declared.keys.TheConstants.MAX_KEY_FILE_LEN};

use crate::fault::{Fault, count_fault};
use crate::files::{Lock, Place, WholeFile, lock_folder, read_file, remove_leftover, replace_file};
use crate::names::{KEY_ENDING, NEW_KEY_ENDING, folder_path, grip_of_name, key_path};
use agent_ports::{Grip, KeyDone, KeyNames, KeyRead, Keys, MAX_KEY_FILE_LEN};
use std::alloc::{AllocError, Global};
use std::collections::BTreeSet;
use std::fs::{DirBuilder, File};
use std::io::ErrorKind;
use std::os::unix::fs::DirBuilderExt;
use std::rt::{Clock, Files};
use std::{fs, io};

/// The keys of a home directory. Changes hold the lock of the keys' folder, and fail where another
/// program holds it for ten seconds; a read needs none. Where a key's file is a symbolic link the
/// file at its end is read and replaced, under the lock of its own folder, and neither is removed:
/// that is a fault.
#[derive(Drop)]
pub struct FolderKeys<'a, R> {
    rt: &'a R,
    folder: String,
    faults: u64,
}

impl<'a, R: Files<File = File> + Clock> FolderKeys<'a, R> {
    /// The keys under a home directory. Their folder is made by the first `replace`, and the home
    /// directory must be there by then.
    pub fn new(rt: &'a R, alloc: Global, homedir: &str) -> Result<Self, AllocError>
        ensures { IfOk result (λ keys. ⟦<FolderKeys<'a, R> as Keys>⟧.keys keys
            ≡ record { files = None; folder = None; faults = 0 }) }
    {
        Ok(FolderKeys {
            rt,
            folder: folder_path(alloc, homedir)?,
            faults: 0,
        })
    }

    fn read_key(&self, alloc: Global, grip: &Grip) -> Result<Vec<u8>, Fault>
        ensures { IfOk result (λ bytes. length bytes.items ≤ MAX_KEY_FILE_LEN) }
    {
        let path = key_path(alloc, self.folder.as_str(), grip, KEY_ENDING)?;
        let file = read_file(self.rt, alloc, path.as_str(), MAX_KEY_FILE_LEN)?;
        let WholeFile { bytes, stamp: _ } = file;
        Ok(bytes)
    }

    fn list_grips(&self, alloc: Global) -> Result<Vec<Grip>, Fault>
        ensures { IfOk result (λ grips. IsStrictlySortedBy grip_cmp grips.items) }
    {
        let mut grips = BTreeSet::new(alloc);
        for entry in fs::read_dir(&(self.rt, alloc), self.folder.as_str())? {
            match entry {
                Ok(entry) => {
                    if let Some(grip) = grip_of_name(entry.file_name()) {
                        grips.insert(grip).map_err(AllocError::from)?;
                    }
                }
                // A name that isn't UTF-8 is no key's.
                Err(error) if error.kind() == ErrorKind::InvalidFilename => {}
                Err(error) => return Err(error.into()),
            }
        }
        Ok(grips.iter().copied().collect(alloc)?)
    }

    fn replace_key(&self, alloc: Global, grip: &Grip, file: &[u8]) -> Result<(), Fault> {
        let path = key_path(alloc, self.folder.as_str(), grip, KEY_ENDING)?;
        let new_path = key_path(alloc, self.folder.as_str(), grip, NEW_KEY_ENDING)?;
        self.make_folder()?;
        let place = Place {
            folder: self.folder.as_str(),
            path: path.as_str(),
            new_path: new_path.as_str(),
            lock: Lock::Folder,
            lock_path: self.folder.as_str(),
        };
        replace_file(self.rt, alloc, place, file, None)?;
        Ok(())
    }

    fn remove_key(&self, alloc: Global, grip: &Grip) -> Result<(), Fault> {
        let path = key_path(alloc, self.folder.as_str(), grip, KEY_ENDING)?;
        let new_path = key_path(alloc, self.folder.as_str(), grip, NEW_KEY_ENDING)?;
        let folder = lock_folder(self.rt, self.folder.as_str())?;
        remove_leftover(self.rt, new_path.as_str())?;
        // Without the link the key would stay at its end.
        if fs::symlink_metadata(self.rt, path.as_str())?.is_symlink() {
            return Err(Fault::Failed);
        }
        fs::remove_file(self.rt, path.as_str())?;
        let _ = folder.sync_all();
        Ok(())
    }

    fn make_folder(&self) -> io::Result<()> {
        match DirBuilder::new()
            .mode(0o700)
            .create(self.rt, self.folder.as_str())
        {
            Err(error) if error.kind() != ErrorKind::AlreadyExists => Err(error),
            _ => Ok(()),
        }
    }
}

impl<R: Files<File = File> + Clock> Keys for FolderKeys<'_, R> {
    ghost keys = { λ k. record { files = None; folder = None; faults = k.faults } };

    fn read(&mut self, alloc: Global, grip: &Grip) -> KeyRead {
        match self.read_key(alloc, grip) {
            Ok(file) => KeyRead::Found(file),
            Err(Fault::Absent) => KeyRead::Absent,
            Err(Fault::NoMemory) => KeyRead::NoMemory,
            Err(Fault::Failed) => {
                count_fault(&mut self.faults);
                KeyRead::Failed
            }
        }
    }

    fn list(&mut self, alloc: Global) -> KeyNames {
        match self.list_grips(alloc) {
            Ok(grips) => KeyNames::Names(grips),
            // No folder yet, and so no key.
            Err(Fault::Absent) => KeyNames::Names(Vec::new(alloc)),
            Err(Fault::NoMemory) => KeyNames::NoMemory,
            Err(Fault::Failed) => {
                count_fault(&mut self.faults);
                KeyNames::Failed
            }
        }
    }

    fn replace(&mut self, alloc: Global, grip: &Grip, file: &[u8]) -> KeyDone {
        match self.replace_key(alloc, grip, file) {
            Ok(()) => KeyDone::Done,
            Err(Fault::NoMemory) => KeyDone::NoMemory,
            // Also where the home directory isn't there.
            Err(Fault::Absent | Fault::Failed) => {
                count_fault(&mut self.faults);
                KeyDone::Failed
            }
        }
    }

    fn remove(&mut self, alloc: Global, grip: &Grip) -> KeyDone {
        match self.remove_key(alloc, grip) {
            Ok(()) => KeyDone::Done,
            Err(Fault::Absent) => KeyDone::Absent,
            Err(Fault::NoMemory) => KeyDone::NoMemory,
            Err(Fault::Failed) => {
                count_fault(&mut self.faults);
                KeyDone::Failed
            }
        }
    }
}
