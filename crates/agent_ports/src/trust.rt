//! The port of the file of trusted root certificates, `trustlist.txt`: read and replaced whole. It
//! knows bytes alone; what an entry says is the matter of `trust_list`. Begin with
//! `TrustFile::read`; definitions begin in `specs/TrustFiles`. `MemTrust` is the form in memory,
//! `key_store` the folder.

ghost use Rattle.agent_ports.specs.TrustFiles.{TrustState, ReadsTrust, ReplacesTrust};

use std::alloc::Global;

/// What a read of the trust file gave.
#[derive(Debug, Drop)]
pub enum TrustRead {
    /// The bytes of the file.
    Found(Vec<u8>),
    /// There is no such file.
    Absent,
    /// The read failed.
    Failed,
    /// There was no memory for the file.
    NoMemory,
}

/// What became of a new trust file. All but `Done` leave the one before as it was.
#[derive(Clone, Copy, Debug, PartialEq, Eq)]
pub enum TrustDone {
    /// The file was replaced.
    Done,
    /// The file couldn't be replaced.
    Failed,
    /// There was no memory for the change.
    NoMemory,
}

/// The file of the root certificates that the user trusts.
pub trait TrustFile {
    /// The file and the folder that it lies in, where they are known, and how many calls failed.
    ghost trust: { Self → TrustState };

    fn read(&mut self, alloc: Global) -> TrustRead
        ensures { ReadsTrust (trust self.old) result (trust self.new) };

    /// Makes these bytes the file, also where there is none yet.
    fn replace(&mut self, alloc: Global, file: &[u8]) -> TrustDone
        ensures { ReplacesTrust (trust self.old) file.now result (trust self.new) };
}
