//! A Unix socket as the agent's listener: each client is a link, and a stop wakes all workers. It
//! is shared by `&self`, counts faults in each worker's ear (fault counter), and removes its socket
//! in the end. One that is watched gives links of its own too, and fails where no client can come
//! any more. Begin with `SocketListener::bind` and `next`; the clauses are those of `Listener`.

ghost use Rattle.std.specs.Prelude.{◌≡◌, ⊤, IfOk};
ghost use Rattle.agent_ports.specs.Listening.{NothingFailed};

use crate::accepting::{Accepted, accept_next, limit_waits};
use crate::fault::BindFault;
use crate::looking::{Look, Looks, OwnRequest, SocketFile, Watch};
use crate::path::{Bound, FileId, SocketName, bind_at, socket_path};
use agent_ports::{Ear, Link, Listener, Next, Sink, Source};
use std::alloc::Global;
use std::fs::{File, Files};
use std::net::{Net, Shutdown};
use std::os::unix::net::UnixStream;
use std::rt::Clock;
use std::sync::atomic::{AtomicBool, Ordering};
use std::{fs, io};
use std_link::StreamLink;

/// One client. Where it is gone while it is written to, the write fails; no signal is raised. So
/// does a write that it doesn't read within a minute, and at the extra socket a read for which it
/// sends nothing within ten minutes.
pub type SocketLink = StreamLink<UnixStream>;

/// How often one worker found the listener broken.
#[derive(Drop)]
pub struct SocketEar {
    faults: u64,
    /// What keeps the listener's own request open that this worker answers.
    asking: Option<UnixStream>,
}

impl SocketEar {
    /// How often the worker found the listener broken.
    pub fn faults(&self) -> u64
        ensures { result ≡ ⟦<SocketEar as Ear>⟧.faults self.now }
    {
        self.faults
    }
}

impl Ear for SocketEar {
    ghost faults = { λ ear. ear.faults };

    fn failed(&self) -> bool {
        self.faults > 0
    }
}

/// Listens at a Unix socket, which is removed when this is dropped. Several workers share it.
///
/// Each descriptor is closed in programs that the process starts, so no such program holds a client
/// or the socket.
pub struct SocketListener<'a, R: Files> {
    rt: &'a R,
    /// By which clients find it.
    pub name: SocketName,
    bound: Bound,
    path: String,
    stopped: AtomicBool,
    watch: Option<Watch>,
}

/// What a worker is to do next.
#[derive(Drop)]
enum Arrival {
    Client(UnixStream),
    Request(OwnRequest),
    Stopped,
    Failed,
}

impl<'a, R: Files<File = File> + Net> SocketListener<'a, R> {
    /// Listens at the socket of this name in this folder, which is made for its owner alone where
    /// it isn't there. Whatever had the socket's name, a folder excepted, gives way to it, and only
    /// once it listens. It fails where the path is too long for a socket (108 bytes on Linux), and
    /// then nothing was made, and where the folder isn't the user's alone, with those above it
    /// (`gnupg_home::check_home`): then nothing is made in it.
    pub fn bind(rt: &'a R, alloc: Global, folder: &str, name: SocketName) -> Result<Self, BindFault>
        ensures { IfOk result (λ listener. listener.name ≡ name) }
    {
        let path = socket_path(alloc, folder, name)?;
        Ok(SocketListener {
            rt,
            name,
            bound: bind_at(rt, alloc, folder, &path)?,
            path,
            stopped: AtomicBool::new(false),
            watch: None,
        })
    }
}

impl<R: Files + Clock> SocketListener<'_, R> {
    /// The socket's file, by which each listener of an agent can watch it.
    pub fn file(&self, alloc: Global) -> io::Result<SocketFile> {
        Ok(SocketFile {
            path: String::from_str(alloc, &self.path)?,
            id: self.bound.file,
        })
    }

    /// From now on a worker that no client comes to for so long looks whether this file is there,
    /// which is the agent's socket. While it is, it has the agent's cache take a step, which
    /// overwrites what has expired. Once it is gone or another's, and still is at the second look,
    /// the cache forgets all, and the listener fails for good. At an extra socket nobody asks the
    /// cache for anything.
    ///
    /// While each worker has a client nobody looks.
    pub fn watch(&mut self, looks: Looks, file: SocketFile) -> io::Result<()>
        ensures { self.new.name ≡ self.old.name }
    {
        let steps = self.name == SocketName::Standard;
        self.watch = Some(Watch::new(self.rt, looks, file, steps)?);
        // Linux takes it for accept too, and no client inherits it (socket(7), unix(7)).
        self.bound.waker.set_read_timeout(Some(looks.every))
    }
}

impl<R: Files + Net + Clock> SocketListener<'_, R> {
    /// Waits for a client, and looks at what is watched while nobody comes.
    fn arrival(&self) -> Arrival {
        for _ in 0..u64::MAX {
            match accept_next(self.rt, &self.bound.listener, &self.stopped) {
                Accepted::Client(client) => return Arrival::Client(client),
                Accepted::Nobody => {
                    if let Some(arrival) = self.look() {
                        return arrival;
                    }
                }
                Accepted::Stopped => return Arrival::Stopped,
                Accepted::Failed => return Arrival::Failed,
            }
        }
        Arrival::Failed
    }

    /// What comes of a look, if anything does.
    fn look(&self) -> Option<Arrival> {
        match self.watch.as_ref()?.look(self.rt) {
            Look::Nothing => None,
            Look::Step(request) => Some(Arrival::Request(request)),
            Look::Lost(request) => {
                // Accept fails from now on, for each worker.
                let _ = self.bound.waker.shutdown(Shutdown::Both);
                Some(request.map_or(Arrival::Failed, Arrival::Request))
            }
        }
    }
}

impl<R: Files> Drop for SocketListener<'_, R> {
    /// Removes the socket, but not one of that name that another process has made meanwhile.
    fn drop(self) {
        if FileId::of(self.rt, &self.path).is_ok_and(|file| file == self.bound.file) {
            let _ = fs::remove_file(self.rt, &self.path);
        }
        let Self {
            rt: _,
            name: _,
            bound: _,
            path: _,
            stopped: _,
            watch: _,
        } = self;
    }
}

impl<R: Files + Net + Clock> Listener for SocketListener<'_, R> {
    type Link = SocketLink;

    type Ear = SocketEar;

    // What the system hands out isn't known, nor what became of a shutdown.
    ghost gives = { λ _ _. ⊤ };

    ghost answers = { λ _ _ _ _. ⊤ };

    ghost is_told = { λ _. ⊤ };

    ghost tells = { λ _ _ _. ⊤ };

    ghost hears = { λ _ _. ⊤ };

    fn ear(&self) -> SocketEar {
        SocketEar {
            faults: 0,
            asking: None,
        }
    }

    fn next(&self, ear: &mut SocketEar) -> Next<SocketLink> {
        ear.asking = None;
        match self.arrival() {
            Arrival::Client(client) => {
                limit_waits(&client, self.name);
                Next::Link(StreamLink::new(client))
            }
            Arrival::Request(request) => {
                ear.asking = Some(request.asking);
                Next::Link(StreamLink::new(request.answering))
            }
            Arrival::Stopped => Next::Stopped,
            Arrival::Failed => {
                ear.faults = ear.faults.saturating_add(1);
                Next::Failed
            }
        }
    }

    fn done(&self, link: SocketLink) {
        drop(link);
    }

    /// Workers that wait are woken, for good. Clients that are queued are let go at once, also
    /// where each worker is in a session, and what they sent isn't read.
    fn stop(&self) {
        self.stopped.store(true, Ordering::SeqCst);
        if self.bound.waker.shutdown(Shutdown::Both).is_ok() {
            // No client is queued any more, and accept doesn't wait.
            drop(accept_next(self.rt, &self.bound.listener, &self.stopped));
        }
    }

    fn stop_by(&self, _ear: &mut SocketEar) {
        self.stop();
    }
}

#[cfg(test)]
mod tests {
    use super::*;
    use std::test::Fail;
    use std::{env, process};

    #[test]
    fn a_listener_that_fails_for_good_isnt_a_stopped_one(rt: HostRuntime) -> Result<(), Fail> {
        let temporary = env::temp_dir(&rt)?;
        let number = process::id(rt.process());
        let temporary = temporary.as_path().to_str().ok_or("no text")?;
        let folder = format!(in rt.alloc(); "{temporary}/us_six{number}")?;
        let listener = SocketListener::bind(&rt, rt.alloc(), &folder, SocketName::Standard)?;
        let mut ear = listener.ear();
        assert!(rt; !ear.failed());
        // Nobody has stopped it, and accept fails with EINVAL from now on.
        listener.bound.waker.shutdown(Shutdown::Both)?;
        for faults in 1..3u64 {
            assert!(rt; matches!(listener.next(&mut ear), Next::Failed));
            assert_eq!(rt; ear.faults(), faults);
        }
        assert!(rt; ear.failed());
        drop(listener);
        fs::remove_dir(&rt, &folder)?;
        Ok(())
    }
}
