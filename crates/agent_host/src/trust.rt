//! The trust list of the folder that was settled, by `key_store`. It reads `trustlist.txt` of that
//! folder and replaces it, and counts what fails. Begin with `SystemTrust`; the promise is that of
//! `TrustFile` (`agent_ports`).

ghost use Rattle.std.specs.Prelude.{◌≡◌, Some, None, IfOk};

use crate::faults::count;
use crate::no_folder::NoFolder;
use agent_ports::{Homedir, TrustDone, TrustFile, TrustRead};
use key_store::{FolderTrust, TrustFound};
use std::alloc::Global;
use std::fs::{File, Files};
use std::rt;

/// The trust list of the folder that was settled. As with the keys, what reads and writes it is
/// made for each call; which list a read found is kept for the change that follows it.
#[derive(Drop)]
pub struct SystemTrust<'a, R> {
    rt: &'a R,
    homedir: Homedir,
    found: TrustFound,
    faults: u64,
}

impl<'a, R: rt::Clock + Files<File = File>> SystemTrust<'a, R> {
    /// The trust list of this folder.
    pub fn new(rt: &'a R, homedir: &Homedir) -> Self
        ensures { ⟦<SystemTrust<'a, R> as TrustFile>⟧.trust result
            ≡ record { file = None; folder = Some homedir.now; faults = 0 } }
    {
        SystemTrust {
            rt,
            homedir: homedir.copy(),
            found: TrustFound::unread(),
            faults: 0,
        }
    }

    fn folder(&self, alloc: Global) -> Result<FolderTrust<'a, R>, NoFolder>
        ensures { IfOk result (λ folder. ⟦<FolderTrust<'a, R> as TrustFile>⟧.trust folder
            ≡ record { file = None; folder = None; faults = 0 }) }
    {
        let path = self.homedir.path().ok_or(NoFolder::Failed)?;
        FolderTrust::found_before(self.rt, alloc, path, self.found).map_err(|_| NoFolder::NoMemory)
    }
}

impl<R: rt::Clock + Files<File = File>> TrustFile for SystemTrust<'_, R> {
    ghost trust = { λ t.
        record { file = None; folder = Some t.homedir; faults = t.faults } };

    fn read(&mut self, alloc: Global) -> TrustRead {
        let answer = match self.folder(alloc) {
            Ok(mut folder) => {
                let answer = folder.read(alloc);
                self.found = folder.found();
                answer
            }
            Err(NoFolder::NoMemory) => TrustRead::NoMemory,
            Err(NoFolder::Failed) => TrustRead::Failed,
        };
        count(&mut self.faults, matches!(answer, TrustRead::Failed));
        answer
    }

    fn replace(&mut self, alloc: Global, file: &[u8]) -> TrustDone {
        let answer = match self.folder(alloc) {
            Ok(mut folder) => {
                let answer = folder.replace(alloc, file);
                self.found = folder.found();
                answer
            }
            Err(NoFolder::NoMemory) => TrustDone::NoMemory,
            Err(NoFolder::Failed) => TrustDone::Failed,
        };
        count(&mut self.faults, answer == TrustDone::Failed);
        answer
    }
}

#[cfg(test)]
mod tests {
    use super::*;
    use std::os::unix::fs::DirBuilderExt;
    use std::test::Fail;
    use std::{env, fs, process};

    #[test]
    fn a_list_that_changed_since_it_was_read_stays(rt: HostRuntime) -> Result<(), Fail> {
        let temporary = env::temp_dir(&rt)?;
        let temporary = temporary.as_path().to_str().ok_or("no text")?;
        let number = process::id(rt.process());
        let folder = format!(in rt.alloc(); "{temporary}/trusting{number}")?;
        let list = format!(in rt.alloc(); "{folder}/trustlist.txt")?;
        fs::DirBuilder::new().mode(0o700).create(&rt, &folder)?;
        let mut homedir = Homedir::new();
        homedir.settle(folder.as_bytes());
        let mut trust = SystemTrust::new(&rt, &homedir);
        assert!(rt; matches!(trust.read(rt.alloc()), TrustRead::Absent));
        // An editor makes it.
        fs::write(&rt, &list, b"one")?;
        for (answer, faults) in [(TrustDone::Failed, 1u64), (TrustDone::Done, 1)] {
            assert_eq!(rt; trust.replace(rt.alloc(), b"two"), answer);
            assert_eq!(rt; trust.faults, faults);
            assert!(rt; matches!(trust.read(rt.alloc()), TrustRead::Found(_)));
        }
        let left = fs::read(&rt, &list)?;
        assert_eq!(rt; left.as_slice(), b"two".as_slice());
        fs::remove_dir_all(&rt, &folder)?;
        Ok(())
    }
}
