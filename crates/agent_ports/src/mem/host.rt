//! A whole machine in memory, for tests of the agent and of its daemon. Its sessions' parts, trust
//! files and links come from lists behind locks, and no call reaches the system. Begin with
//! `MemHost::new`, then `with_sessions` and `with_links`; the clauses are those of `Host`.

ghost use Rattle.std.specs.Prelude.{◌≡◌, ◌≤◌, [], Some, IfSome, IsNone, true, false};
ghost use Rattle.agent_ports.specs.Counts.{Rose};

use crate::fault_plan::FaultPlan;
use crate::{
    Gate, Homedir, Host, ListClock, ListDice, ListListener, ListedLinks, MapKeys, MemEar,
    MemLauncher, MemLink, MemTrust, NoGate, Parts,
};
use std::alloc::Global;
use std::sync::{Mutex, Wait};

/// The parts of a machine in memory.
pub type MemParts = Parts<MemLauncher, ListClock, ListDice, MapKeys>;

/// A machine in memory. It gives each session of a daemon the next parts and the next trust file of
/// two lists, whose faults don't count there, and then parts that have nothing. A call for a
/// listener fails where its number, from 0, is among those that are to fail, and where there are no
/// links to listen for.
#[derive(Drop)]
pub struct MemHost<'l, W, G> {
    rt: &'l W,
    alloc: Global,
    pid: u32,
    parts: Option<MemParts>,
    homedir: Homedir,
    sessions: Mutex<Vec<MemParts>>,
    trusts: Mutex<Vec<MemTrust>>,
    links: Option<&'l Mutex<ListedLinks>>,
    extra_links: Option<&'l Mutex<ListedLinks>>,
    plan: FaultPlan,
    gate: G,
}

impl<'l, W: Wait> MemHost<'l, W, NoGate> {
    /// A machine that has these parts for the session on standard input and output, and nothing for
    /// a daemon.
    pub fn new(rt: &'l W, alloc: Global, pid: u32, parts: MemParts) -> Self
        ensures server { ⟦<MemHost<'l, W, NoGate> as Host>⟧.server result ≡ Some parts }
        ensures process { ⟦<MemHost<'l, W, NoGate> as Host>⟧.process result ≡ pid }
        ensures homedir { ⟦<MemHost<'l, W, NoGate> as Host>⟧.homedir result ≡ [] }
        ensures listens { ⟦<MemHost<'l, W, NoGate> as Host>⟧.listens result ≡ 0 }
    {
        MemHost {
            rt,
            alloc,
            pid,
            parts: Some(parts),
            homedir: Homedir::new(),
            sessions: Mutex::new(Vec::new(alloc)),
            trusts: Mutex::new(Vec::new(alloc)),
            links: None,
            extra_links: None,
            plan: FaultPlan::new(Vec::new(alloc)),
            gate: NoGate,
        }
    }

    /// With this gate.
    pub fn with_gate<N: Gate>(self, gate: N) -> MemHost<'l, W, N>
        ensures server { ⟦<MemHost<'l, W, N> as Host>⟧.server result
            ≡ ⟦<MemHost<'l, W, NoGate> as Host>⟧.server self.entry }
        ensures process { ⟦<MemHost<'l, W, N> as Host>⟧.process result
            ≡ ⟦<MemHost<'l, W, NoGate> as Host>⟧.process self.entry }
    {
        let MemHost {
            rt,
            alloc,
            pid,
            parts,
            homedir,
            sessions,
            trusts,
            links,
            extra_links,
            plan,
            gate: _,
        } = self;
        MemHost {
            rt,
            alloc,
            pid,
            parts,
            homedir,
            sessions,
            trusts,
            links,
            extra_links,
            plan,
            gate,
        }
    }
}

impl<'l, W: Wait, G: Gate> MemHost<'l, W, G> {
    /// With these parts and trust files for the sessions of a daemon.
    pub fn with_sessions(self, sessions: Vec<MemParts>, trusts: Vec<MemTrust>) -> Self
        ensures server { ⟦<MemHost<'l, W, G> as Host>⟧.server result
            ≡ ⟦<MemHost<'l, W, G> as Host>⟧.server self.entry }
        ensures process { ⟦<MemHost<'l, W, G> as Host>⟧.process result
            ≡ ⟦<MemHost<'l, W, G> as Host>⟧.process self.entry }
    {
        let mut host = self;
        host.sessions = Mutex::new(sessions);
        host.trusts = Mutex::new(trusts);
        host
    }

    /// With these links for a daemon's listener, and those for its extra one. The calls for a
    /// listener of these numbers, from 0, fail.
    pub fn with_links(
        self,
        links: &'l Mutex<ListedLinks>,
        extra: Option<&'l Mutex<ListedLinks>>,
        failing: Vec<u64>,
    ) -> Self
        ensures server { ⟦<MemHost<'l, W, G> as Host>⟧.server result
            ≡ ⟦<MemHost<'l, W, G> as Host>⟧.server self.entry }
        ensures process { ⟦<MemHost<'l, W, G> as Host>⟧.process result
            ≡ ⟦<MemHost<'l, W, G> as Host>⟧.process self.entry }
    {
        let mut host = self;
        host.links = Some(links);
        host.extra_links = extra;
        host.plan = FaultPlan::new(failing);
        host
    }

    /// The server's parts, where it has them.
    pub fn into_parts(self) -> Option<MemParts>
    where
        G: Drop,
        ensures { result ≡ ⟦<MemHost<'l, W, G> as Host>⟧.server self.entry }
    {
        let mut host = self;
        host.parts.take()
    }

    /// The path of the folder that was settled last.
    pub fn homedir(&self) -> &[u8]
        ensures { result.now ≡ ⟦<MemHost<'l, W, G> as Host>⟧.homedir self.now }
    {
        self.homedir.bytes()
    }

    /// A listener for these links, which may be those of restricted sessions, where there are some
    /// and the call isn't one that is to fail.
    fn listener_of(
        &mut self,
        links: Option<&'l Mutex<ListedLinks>>,
        extra: bool,
    ) -> Option<ListListener<'l, W>>
        ensures extra { IfSome result (λ listener. listener.extra ≡ extra) }
        ensures failed { IsNone result → Rose (⟦<MemHost<'l, W, G> as Host>⟧.listens self.old)
            (⟦<MemHost<'l, W, G> as Host>⟧.listens self.new) }
        ensures listens { ⟦<MemHost<'l, W, G> as Host>⟧.listens self.old
            ≤ ⟦<MemHost<'l, W, G> as Host>⟧.listens self.new }
        ensures server { ⟦<MemHost<'l, W, G> as Host>⟧.server self.new
            ≡ ⟦<MemHost<'l, W, G> as Host>⟧.server self.old }
        ensures process { ⟦<MemHost<'l, W, G> as Host>⟧.process self.new
            ≡ ⟦<MemHost<'l, W, G> as Host>⟧.process self.old }
        ensures homedir { ⟦<MemHost<'l, W, G> as Host>⟧.homedir self.new
            ≡ ⟦<MemHost<'l, W, G> as Host>⟧.homedir self.old }
    {
        if self.plan.next_fails() {
            return None;
        }
        let Some(links) = links else {
            self.plan.raise();
            return None;
        };
        Some(ListListener::at(self.rt, links, extra))
    }

    /// How many calls for a listener failed, and how many with the ears that came back.
    pub fn failed_listens(&self) -> u64
        ensures { result ≡ ⟦<MemHost<'l, W, G> as Host>⟧.listens self.now }
    {
        self.plan.faults()
    }
}

/// The first of the list behind the lock, where there is one.
fn first_of<W: Wait, T: Drop>(rt: &W, list: &Mutex<Vec<T>>) -> Option<T> {
    let mut left = list.lock(rt);
    if left.is_empty() {
        return None;
    }
    Some(left.remove(0))
}

impl<'l, W: Wait, G: Gate> Host for MemHost<'l, W, G> {
    type Link = MemLink;

    type Ear = MemEar;

    type Listener = ListListener<'l, W>;

    type Launcher = MemLauncher;

    type Clock = ListClock;

    type Dice = ListDice;

    type Keys = MapKeys;

    type Trust = MemTrust;

    type Gate = G;

    ghost server = { λ h. h.parts };

    ghost process = { λ h. h.pid };

    ghost homedir = { λ h. h.homedir };

    ghost is_home = { λ l. l.extra ≡ false };

    ghost is_extra = { λ l. l.extra ≡ true };

    ghost listens = { λ h. h.plan.faults };

    fn settle(&mut self, path: &[u8]) {
        self.homedir.settle(path);
    }

    fn pid(&self) -> u32 {
        self.pid
    }

    fn server_parts(&mut self) -> MemParts {
        self.parts.take().unwrap()
    }

    fn parts_back(&mut self, parts: MemParts)
        ensures back { ⟦<MemHost<'l, W, G> as Host>⟧.server self.new ≡ Some parts }
        ensures process { ⟦<MemHost<'l, W, G> as Host>⟧.process self.new
            ≡ ⟦<MemHost<'l, W, G> as Host>⟧.process self.old }
        ensures listens { ⟦<MemHost<'l, W, G> as Host>⟧.listens self.new
            ≡ ⟦<MemHost<'l, W, G> as Host>⟧.listens self.old }
        ensures homedir { ⟦<MemHost<'l, W, G> as Host>⟧.homedir self.new
            ≡ ⟦<MemHost<'l, W, G> as Host>⟧.homedir self.old }
    {
        self.parts = Some(parts);
    }

    fn session_parts(&self) -> MemParts {
        let mut parts = first_of(self.rt, &self.sessions).unwrap_or(no_parts(self.alloc));
        parts.launcher.forget_faults();
        parts.dice.forget_faults();
        parts.keys.forget_faults();
        parts
    }

    fn trust(&self) -> MemTrust {
        let mut trust = first_of(self.rt, &self.trusts).unwrap_or(MemTrust::new(
            None,
            Vec::new(self.alloc),
        ));
        trust.forget_faults();
        trust
    }

    fn listen(&mut self) -> Option<ListListener<'l, W>> {
        self.listener_of(self.links, false)
    }

    fn listen_extra(&mut self) -> Option<ListListener<'l, W>> {
        self.listener_of(self.extra_links, true)
    }

    fn ear_back(&mut self, ear: MemEar) {
        self.plan.raise_by(ear.faults());
    }

    fn gate(&self) -> &G {
        &self.gate
    }
}

/// Parts that have nothing.
fn no_parts(alloc: Global) -> MemParts {
    Parts {
        launcher: MemLauncher::new(alloc, Vec::new(alloc), Vec::new(alloc)),
        clock: ListClock::new(Vec::new(alloc)),
        dice: ListDice::new(Vec::new(alloc), Vec::new(alloc)),
        keys: MapKeys::new(alloc, Vec::new(alloc)),
    }
}
