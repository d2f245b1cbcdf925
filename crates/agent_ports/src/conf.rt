//! The port of the two files of options that an agent is started by: `gpg-agent.conf` of the
//! machine and of the home folder. It knows bytes alone; what a line means is the matter of
//! `agent_conf`. Begin with `ConfFiles`; definitions begin in `specs/ConfFiles`. `MemConf` is the
//! form in memory.

ghost use Rattle.agent_ports.specs.ConfFiles.{ConfState, ReadsConf};

use std::alloc::Global;

/// How many bytes a file of options has at most.
pub const MAX_CONF_LEN: usize = 65_536;

/// What a read of a file of options gave.
#[derive(Debug, Drop)]
pub enum ConfRead {
    /// The bytes of the file.
    Found(Vec<u8>),
    /// There is no such file.
    Absent,
    /// It can't be read, is none, or has more than `MAX_CONF_LEN` bytes.
    Failed,
    /// There was no memory for the file.
    NoMemory,
}

/// The files of options.
pub trait ConfFiles {
    /// The files, where they are known, and how many calls failed.
    ghost confs: { Self → ConfState };

    /// Reads the machine's file.
    fn read_machine(&mut self, alloc: Global) -> ConfRead
        ensures { ReadsConf (confs self.old).machine (confs self.old) result (confs self.new) };

    /// Reads that of the home folder, or the one that stands for it.
    fn read_home(&mut self, alloc: Global) -> ConfRead
        ensures { ReadsConf (confs self.old).home (confs self.old) result (confs self.new) };
}
