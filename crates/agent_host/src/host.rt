//! The machine that the agent runs on: the parts of each session, the folder that was settled, and
//! its two sockets, `S.gpg-agent` and `S.gpg-agent.extra`. It binds sockets there, and says on the
//! error stream why one can't be had. Begin with `SystemHost::new`; the promise is that of `Host`
//! (`agent_ports`).

ghost use Rattle.std.specs.Prelude.{◌≡◌, ◌≤◌, Some, None, IsSome, IsNone, IfOk, IfSome};
ghost use Rattle.agent_ports.specs.Counts.{Rose};
ghost use Rattle.unix_socket.specs.declared.path.SocketName.{SocketName as Named};

use crate::clock::{Start, SystemClock};
use crate::dice::SystemDice;
use crate::faults::count;
use crate::keys::SystemKeys;
use crate::launcher::PipeLauncher;
use crate::log::{Log, say};
use crate::trust::SystemTrust;
use agent_ports::{Dice, Homedir, Host, Keys, Launcher, NoGate, Parts, TrustFile};
use printable::Printable;
use std::alloc::Global;
use std::fs::{File, Files};
use std::net::Net;
use std::process::Processes;
use std::rt;
use unix_socket::{
    BindFault, Looks, SocketEar, SocketFile, SocketLink, SocketListener, SocketName,
};

/// What a session needs of this machine.
pub type SystemParts<'a, R> = Parts<
    PipeLauncher<'a, R>,
    SystemClock<'a, R>,
    SystemDice<'a, R>,
    SystemKeys<'a, R>,
>;

/// The machine that the program runs on. It listens on two Unix sockets in the folder that was
/// settled, `S.gpg-agent` and `S.gpg-agent.extra`, and has the key files and the trust list of that
/// folder. Before one was settled there are none, and each call for them fails.
#[derive(Drop)]
pub struct SystemHost<'a, R> {
    rt: &'a R,
    alloc: Global,
    pid: u32,
    start: Start,
    parts: Option<SystemParts<'a, R>>,
    homedir: Homedir,
    listens: u64,
    gate: NoGate,
    users: Option<Users<'a>>,
    /// The file of the agent's own socket, which its other listener watches too.
    file: Option<SocketFile>,
    /// What is closed once it listens.
    held: Option<File>,
}

/// What is otherwise in the users' own agent.
#[derive(Clone, Copy)]
struct Users<'a> {
    log: &'a Log,
    looks: Looks,
}

impl<'a, R: rt::Clock + rt::Env + Processes + Files<File = File> + Net + Eprint> SystemHost<'a, R> {
    /// The machine, with its server's parts and no folder yet, whose clocks begin now. `pid` is the
    /// number of the process, as `GETINFO pid` tells it.
    pub fn new(rt: &'a R, alloc: Global, pid: u32) -> Self
        ensures { IsSome (⟦<SystemHost<'a, R> as Host>⟧.server result) }
    {
        SystemHost::made(rt, alloc, pid, None)
    }

    /// The same, for the users' own agent: its listeners look so often whether clients can reach
    /// it, and its lines go into this log.
    pub fn of_users(rt: &'a R, alloc: Global, pid: u32, log: &'a Log, looks: Looks) -> Self
        ensures { IsSome (⟦<SystemHost<'a, R> as Host>⟧.server result) }
    {
        SystemHost::made(rt, alloc, pid, Some(Users { log, looks }))
    }

    fn made(rt: &'a R, alloc: Global, pid: u32, users: Option<Users<'a>>) -> Self
        ensures { IsSome (⟦<SystemHost<'a, R> as Host>⟧.server result) }
    {
        let start = Start::now(rt);
        let log = users.map(|users| users.log);
        SystemHost {
            rt,
            alloc,
            pid,
            start,
            parts: Some(new_parts(rt, alloc, start, &Homedir::new(), log)),
            homedir: Homedir::new(),
            listens: 0,
            gate: NoGate,
            users,
            file: None,
            held: None,
        }
    }

    /// Keeps this file open, and with it a lock, until it listens at its own socket or ends.
    pub fn hold_until_it_listens(&mut self, held: Option<File>)
        ensures { ⟦<SystemHost<'a, R> as Host>⟧.server self.new
            ≡ ⟦<SystemHost<'a, R> as Host>⟧.server self.old }
    {
        self.held = held;
    }
}

impl<'a, R: rt::Clock + Files<File = File> + Net + Eprint> SystemHost<'a, R> {
    fn log(&self) -> Option<&'a Log> {
        self.users.map(|users| users.log)
    }

    /// A socket of the folder that was settled. One that can't be had counts.
    fn listen_at(&mut self, name: SocketName) -> Option<SocketListener<'a, R>>
        ensures name { IfSome result (λ listener. listener.name ≡ name) }
        ensures failed { IsNone result → Rose self.old.listens self.new.listens }
        ensures listens { self.old.listens ≤ self.new.listens }
        ensures parts { self.new.parts ≡ self.old.parts }
        ensures homedir { self.new.homedir ≡ self.old.homedir }
        ensures pid { self.new.pid ≡ self.old.pid }
    {
        let listener = self.socket(name);
        count(&mut self.listens, listener.is_none());
        listener
    }

    /// The same. Why it can't be had is said on the error stream, in one line.
    fn socket(&mut self, name: SocketName) -> Option<SocketListener<'a, R>>
        ensures name { IfSome result (λ listener. listener.name ≡ name) }
        ensures listens { self.new.listens ≡ self.old.listens }
        ensures parts { self.new.parts ≡ self.old.parts }
        ensures homedir { self.new.homedir ≡ self.old.homedir }
        ensures pid { self.new.pid ≡ self.old.pid }
    {
        let folder = self.homedir.path()?;
        match self.bound(folder, name) {
            Ok((listener, file)) => {
                self.file = file;
                self.held = None;
                Some(listener)
            }
            Err(fault) => {
                self.say_why(&fault);
                None
            }
        }
    }

    /// The same, with the file that a further listener is to watch.
    fn bound(
        &self,
        folder: &str,
        name: SocketName,
    ) -> Result<(SocketListener<'a, R>, Option<SocketFile>), BindFault>
        ensures { IfOk result (λ bound. bound.0.name ≡ name) }
    {
        let mut listener = SocketListener::bind(self.rt, self.alloc, folder, name)?;
        let Some(users) = self.users else {
            return Ok((listener, None));
        };
        let file = match &self.file {
            Some(file) => file.copy(self.alloc)?,
            None => listener.file(self.alloc)?,
        };
        let further = file.copy(self.alloc)?;
        listener.watch(users.looks, file)?;
        Ok((listener, Some(further)))
    }

    fn say_why(&self, fault: &BindFault) {
        let folder = Printable(self.homedir.bytes());
        say(
            self.rt,
            self.log(),
            &format_args!("no socket in {folder}: {fault}"),
        );
    }
}

/// Parts of the system in which nothing was done, with the key files of this folder.
fn new_parts<'a, R: rt::Clock + rt::Env + Processes + Files<File = File> + Net + Eprint>(
    rt: &'a R,
    alloc: Global,
    start: Start,
    homedir: &Homedir,
    log: Option<&'a Log>,
) -> SystemParts<'a, R>
    ensures launcher { (⟦<PipeLauncher<'a, R> as Launcher>⟧.launches result.launcher).faults ≡ 0 }
    ensures dice { (⟦<SystemDice<'a, R> as Dice>⟧.draws result.dice).faults ≡ 0 }
    ensures keys { ⟦<SystemKeys<'a, R> as Keys>⟧.keys result.keys
        ≡ record { files = None; folder = Some homedir.now; faults = 0 } }
{
    let mut keys = SystemKeys::new(rt);
    keys.settle(homedir);
    Parts {
        launcher: PipeLauncher::logging(rt, alloc, log),
        clock: SystemClock::new(rt, start),
        dice: SystemDice::new(rt),
        keys,
    }
}

impl<'a, R: rt::Clock + rt::Env + Processes + Files<File = File> + Net + Eprint> Host
    for SystemHost<'a, R> {
    type Link = SocketLink;

    type Ear = SocketEar;

    type Listener = SocketListener<'a, R>;

    type Launcher = PipeLauncher<'a, R>;

    type Clock = SystemClock<'a, R>;

    type Dice = SystemDice<'a, R>;

    type Keys = SystemKeys<'a, R>;

    type Trust = SystemTrust<'a, R>;

    type Gate = NoGate;

    ghost server = { λ h. h.parts };

    ghost process = { λ h. h.pid };

    ghost homedir = { λ h. h.homedir };

    ghost is_home = { λ l. l.name ≡ Named.Standard };

    ghost is_extra = { λ l. l.name ≡ Named.Extra };

    ghost listens = { λ h. h.listens };

    fn settle(&mut self, path: &[u8]) {
        self.homedir.settle(path);
        if let Some(parts) = &mut self.parts {
            parts.keys.settle(&self.homedir);
        }
    }

    fn pid(&self) -> u32 {
        self.pid
    }

    fn server_parts(&mut self) -> SystemParts<'a, R> {
        self.parts.take().unwrap()
    }

    fn parts_back(&mut self, parts: SystemParts<'a, R>)
        ensures back { ⟦<SystemHost<'a, R> as Host>⟧.server self.new ≡ Some parts.entry }
        ensures process { ⟦<SystemHost<'a, R> as Host>⟧.process self.new
            ≡ ⟦<SystemHost<'a, R> as Host>⟧.process self.old }
        ensures listens { ⟦<SystemHost<'a, R> as Host>⟧.listens self.new
            ≡ ⟦<SystemHost<'a, R> as Host>⟧.listens self.old }
        ensures homedir { ⟦<SystemHost<'a, R> as Host>⟧.homedir self.new
            ≡ ⟦<SystemHost<'a, R> as Host>⟧.homedir self.old }
    {
        self.parts = Some(parts);
    }

    fn session_parts(&self) -> SystemParts<'a, R> {
        new_parts(self.rt, self.alloc, self.start, &self.homedir, self.log())
    }

    fn trust(&self) -> SystemTrust<'a, R> {
        SystemTrust::new(self.rt, &self.homedir)
    }

    fn listen(&mut self) -> Option<SocketListener<'a, R>> {
        self.listen_at(SocketName::Standard)
    }

    fn listen_extra(&mut self) -> Option<SocketListener<'a, R>> {
        self.listen_at(SocketName::Extra)
    }

    fn ear_back(&mut self, ear: SocketEar) {
        self.listens = self.listens.saturating_add(ear.faults());
    }

    fn gate(&self) -> &NoGate {
        &self.gate
    }
}

#[cfg(test)]
mod tests {
    use super::*;
    use agent_ports::{KeyNames, TrustRead};

    /// What the workers of a daemon want of its host, each on a thread of its own.
    fn serves_threads<H: Host + Sync>(_host: &H)
    where
        H::Link: Send + Sync,
        H::Ear: Send + Sync + Drop,
        H::Listener: Send + Sync + Drop,
        H::Launcher: Send + Sync + Drop,
        <H::Launcher as Launcher>::Child: Send + Sync,
        H::Clock: Send + Sync + Drop,
        H::Dice: Send + Sync + Drop,
        H::Keys: Send + Sync + Drop,
        H::Trust: Send + Sync + Drop,
        H::Gate: Send + Sync,
    {}

    #[test]
    fn a_host_without_a_folder_has_no_socket_and_no_files(rt: HostRuntime) {
        let mut host = SystemHost::new(&rt, rt.alloc(), 4711);
        serves_threads(&host);
        assert_eq!(rt; host.pid(), 4711);
        assert!(rt; host.listen().is_none());
        assert!(rt; host.listen_extra().is_none());
        assert_eq!(rt; host.listens, 2);
        let mut keys = host.session_parts().keys;
        assert!(rt; matches!(keys.list(rt.alloc()), KeyNames::Failed));
        assert!(rt; matches!(host.trust().read(rt.alloc()), TrustRead::Failed));
    }
}
