//! The port of the trust list over `trustlist.txt` of a home directory. It touches that file and
//! `trustlist.lock`, whose lock a change holds, and replaces no other list than the one that it
//! found. Begin with `read_list` and `replace_list`; the clauses are those of `TrustFile`, with the
//! file left unknown.

ghost use Rattle.std.specs.Prelude.{◌≡◌, ◌≤◌, length, None, IfOk};
ghost use Rattle.trust_list.specs.declared.TheConstants.{MAX_TRUST_FILE_LEN};

use crate::fault::{Fault, count_fault};
use crate::files::{Found, Lock, Place, WholeFile, read_file, replace_file};
use crate::names::{NEW_TRUST_NAME, TRUST_LOCK_NAME, TRUST_NAME, path_in};
use agent_ports::{TrustDone, TrustFile, TrustRead};
use std::alloc::{AllocError, Global};
use std::fs::File;
use std::rt::{Clock, Files};
use trust_list::MAX_TRUST_FILE_LEN;

/// Which list was found by the last read, or written since.
#[derive(Clone, Copy)]
pub struct TrustFound {
    /// None where nothing was read yet.
    found: Option<Found>,
}

impl TrustFound {
    /// No list was read yet.
    pub fn unread() -> TrustFound {
        TrustFound { found: None }
    }
}

/// The trust list of a home directory. A change holds the lock of the file `trustlist.lock` there,
/// which is made where it isn't there, and fails where another program holds it for ten seconds; a
/// read needs none. It fails too where the list was changed since it was read: a line that an
/// editor added isn't lost. Where its file is a symbolic link the file at its end is read and
/// replaced, under the lock of a file beside that. A file of more than `MAX_TRUST_FILE_LEN` bytes
/// is a fault, read or written.
#[derive(Drop)]
pub struct FolderTrust<'a, R> {
    rt: &'a R,
    homedir: String,
    found: TrustFound,
    faults: u64,
}

impl<'a, R: Files<File = File> + Clock> FolderTrust<'a, R> {
    /// The trust list of a home directory, which must be there by the first `replace`.
    pub fn new(rt: &'a R, alloc: Global, homedir: &str) -> Result<Self, AllocError>
        ensures { IfOk result (λ trust. ⟦<FolderTrust<'a, R> as TrustFile>⟧.trust trust
            ≡ record { file = None; folder = None; faults = 0 }) }
    {
        FolderTrust::found_before(rt, alloc, homedir, TrustFound::unread())
    }

    /// The same, of which another value of this type found this.
    pub fn found_before(
        rt: &'a R,
        alloc: Global,
        homedir: &str,
        found: TrustFound,
    ) -> Result<Self, AllocError>
        ensures { IfOk result (λ trust. ⟦<FolderTrust<'a, R> as TrustFile>⟧.trust trust
            ≡ record { file = None; folder = None; faults = 0 }) }
    {
        Ok(FolderTrust {
            rt,
            homedir: String::from_str(alloc, homedir)?,
            found,
            faults: 0,
        })
    }

    /// Which list was found by the last read, or written since: a change replaces no other.
    pub fn found(&self) -> TrustFound {
        self.found
    }

    fn read_list(&mut self, alloc: Global) -> Result<Vec<u8>, Fault>
        ensures small { IfOk result (λ bytes. length bytes.items ≤ MAX_TRUST_FILE_LEN) }
        ensures faults { self.new.faults ≡ self.old.faults }
    {
        let path = path_in(alloc, self.homedir.as_str(), TRUST_NAME)?;
        match read_file(self.rt, alloc, path.as_str(), MAX_TRUST_FILE_LEN) {
            Ok(WholeFile { bytes, stamp }) => {
                self.found.found = Some(Found::File(stamp));
                Ok(bytes)
            }
            Err(fault) => {
                if matches!(fault, Fault::Absent) {
                    self.found.found = Some(Found::Nothing);
                }
                Err(fault)
            }
        }
    }

    fn replace_list(&mut self, alloc: Global, file: &[u8]) -> Result<(), Fault>
        ensures within { IfOk result (λ done. length file.now ≤ MAX_TRUST_FILE_LEN) }
        ensures faults { self.new.faults ≡ self.old.faults }
    {
        // It couldn't be read again.
        if file.len() > MAX_TRUST_FILE_LEN {
            return Err(Fault::Failed);
        }
        let homedir = self.homedir.as_str();
        let path = path_in(alloc, homedir, TRUST_NAME)?;
        let new_path = path_in(alloc, homedir, NEW_TRUST_NAME)?;
        let lock_path = path_in(alloc, homedir, TRUST_LOCK_NAME)?;
        let place = Place {
            folder: homedir,
            path: path.as_str(),
            new_path: new_path.as_str(),
            // Others may open the directory, and so hold its lock.
            lock: Lock::File,
            lock_path: lock_path.as_str(),
        };
        let stamp = replace_file(self.rt, alloc, place, file, self.found.found)?;
        self.found.found = Some(Found::File(stamp));
        Ok(())
    }
}

impl<'a, R: Files<File = File> + Clock> TrustFile for FolderTrust<'a, R> {
    ghost use Rattle.agent_ports.specs.TrustFiles.{ReadsTrust, ReplacesTrust};

    ghost trust = { λ t. record { file = None; folder = None; faults = t.faults } };

    fn read(&mut self, alloc: Global) -> TrustRead
        ensures reads { ReadsTrust (⟦<FolderTrust<'a, R> as TrustFile>⟧.trust self.old) result
            (⟦<FolderTrust<'a, R> as TrustFile>⟧.trust self.new) }
        ensures small { (file : _) → result ≡ TrustRead.Found file
            → length file.items ≤ MAX_TRUST_FILE_LEN }
    {
        match self.read_list(alloc) {
            Ok(file) => TrustRead::Found(file),
            Err(Fault::Absent) => TrustRead::Absent,
            Err(Fault::NoMemory) => TrustRead::NoMemory,
            Err(Fault::Failed) => {
                count_fault(&mut self.faults);
                TrustRead::Failed
            }
        }
    }

    fn replace(&mut self, alloc: Global, file: &[u8]) -> TrustDone
        ensures replaces { ReplacesTrust (⟦<FolderTrust<'a, R> as TrustFile>⟧.trust self.old)
            file.now result (⟦<FolderTrust<'a, R> as TrustFile>⟧.trust self.new) }
        ensures within { result ≡ TrustDone.Done → length file.now ≤ MAX_TRUST_FILE_LEN }
    {
        match self.replace_list(alloc, file) {
            Ok(()) => TrustDone::Done,
            Err(Fault::NoMemory) => TrustDone::NoMemory,
            // Also where the home directory isn't there.
            Err(Fault::Absent | Fault::Failed) => {
                count_fault(&mut self.faults);
                TrustDone::Failed
            }
        }
    }
}
