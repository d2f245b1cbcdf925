//! The two files of options that an agent is started by, as the file system has them. It reads
//! them, and says why one can't be read. Begin with `SystemConf`; the promise is that of `ConfFiles`
//! (`agent_ports`), and its tests show the rest.

ghost use Rattle.std.specs.Prelude.{◌≡◌, ◌≤◌, None, length, IfOk};
ghost use Rattle.agent_ports.specs.Counts.{Rose};
ghost use Rattle.agent_ports.specs.ConfFiles.{IsSmallConf};
ghost use Rattle.agent_ports.specs.declared.conf.TheConstants.{MAX_CONF_LEN};

use crate::saying::Voice;
use agent_ports::{ConfFiles, ConfRead, MAX_CONF_LEN};
use printable::Printable;
use std::alloc::Global;
use std::fmt::{Display, Formatter};
use std::fs::{File, Files};
use std::io::{ErrorKind, Read};
use std::rt::Clock;
use std::{fmt, fs, io};

/// The file of the machine's own options.
pub const MACHINE_CONF: &str = "/etc/gnupg/gpg-agent.conf";

/// The file of the options of a home folder.
#[derive(Drop)]
pub enum HomeConf {
    /// The one in the folder, at this path. It needn't be there.
    OfFolder(String),
    /// One that was named, at this path. It has to be there.
    Named(String),
    /// There is to be none.
    Nothing,
}

/// Why a file of options isn't read.
#[derive(Debug, Drop)]
enum ConfFault {
    /// A call of the system failed.
    System(io::Error),
    /// It has too many bytes.
    TooLong,
    /// It is a folder, a socket or a device.
    NoFile,
}

impl From<io::Error> for ConfFault {
    fn from(error: io::Error) -> ConfFault {
        ConfFault::System(error)
    }
}

impl Display for ConfFault {
    fn fmt<W: fmt::Write>(&self, f: &mut Formatter<W>) -> fmt::Result {
        match self {
            ConfFault::System(error) => write!(f, "{error}"),
            ConfFault::TooLong => write!(f, "it has more than {MAX_CONF_LEN} bytes"),
            ConfFault::NoFile => f.write_str("it is no file"),
        }
    }
}

/// The two files on this machine. What they hold isn't known. Each read that fails is told, and
/// counted.
#[derive(Drop)]
pub struct SystemConf<'a, R> {
    rt: &'a R,
    home: &'a HomeConf,
    voice: Voice<'a>,
    faults: u64,
}

impl<'a, R: Clock + Files<File = File> + Print + Eprint> SystemConf<'a, R> {
    /// The machine's file, and this one of the home folder. What can't be read is said so.
    pub fn new(rt: &'a R, home: &'a HomeConf, voice: Voice<'a>) -> Self {
        SystemConf {
            rt,
            home,
            voice,
            faults: 0,
        }
    }

    /// The file at this path, which may have to be there.
    fn read(&mut self, alloc: Global, path: &str, has_to_be: bool) -> ConfRead
        ensures small { IsSmallConf result }
        ensures failed { result ≡ ConfRead.Failed → Rose self.old.faults self.new.faults }
        ensures never_falls { self.old.faults ≤ self.new.faults }
    {
        let shown = Printable(path.as_bytes());
        match small_file(self.rt, alloc, path) {
            Ok(bytes) => return ConfRead::Found(bytes),
            Err(ConfFault::System(error)) if error.kind() == ErrorKind::OutOfMemory => {
                return ConfRead::NoMemory;
            }
            Err(ConfFault::System(error)) if error.kind() == ErrorKind::NotFound => {
                if !has_to_be {
                    return ConfRead::Absent;
                }
                self.say(&format_args!("there is no options file {shown} that can be read"));
            }
            Err(fault) => self.say(&format_args!(
                "{shown} keeps the agent from starting: it can't be read (its limits aren't known: {fault})"
            )),
        }
        self.faults = self.faults.saturating_add(1);
        ConfRead::Failed
    }

    fn say<T: Display>(&self, words: &T) {
        self.voice.say(self.rt, words);
    }
}

impl<R: Clock + Files<File = File> + Print + Eprint> ConfFiles for SystemConf<'_, R> {
    ghost confs = { λ c. record { machine = None; home = None; faults = c.faults } };

    fn read_machine(&mut self, alloc: Global) -> ConfRead {
        self.read(alloc, MACHINE_CONF, false)
    }

    fn read_home(&mut self, alloc: Global) -> ConfRead {
        match self.home {
            HomeConf::OfFolder(path) => self.read(alloc, path, false),
            HomeConf::Named(path) => self.read(alloc, path, true),
            HomeConf::Nothing => ConfRead::Absent,
        }
    }
}

/// The bytes of a file that isn't too long. It is looked at before it is opened: an open of a pipe
/// would wait for somebody who writes.
fn small_file<R: Files<File = File>>(
    rt: &R,
    alloc: Global,
    path: &str,
) -> Result<Vec<u8>, ConfFault>
    ensures { IfOk result (λ file. length file.items ≤ MAX_CONF_LEN) }
{
    if !fs::metadata(rt, path)?.is_file() {
        return Err(ConfFault::NoFile);
    }
    let mut bytes = Vec::new(alloc);
    let most = MAX_CONF_LEN as u64;
    File::open(rt, path)?
        .take(most.saturating_add(1))
        .read_to_end(&mut bytes)?;
    if bytes.len() > MAX_CONF_LEN {
        return Err(ConfFault::TooLong);
    }
    Ok(bytes)
}
