//! The machine as one port: the parts of a session, the listeners and the folder. Begin with
//! `Host::server_parts`, for a session on standard input and output, and `session_parts`, for one
//! of a daemon; definitions begin in `specs/HostParts`. `MemHost` is the form in memory, and
//! `agent_host` the machine itself.

ghost use Rattle.std.specs.Prelude.{◌≡◌, ◌≤◌, ℕ, List, Option, Some, None, IfSome, IsSome, IsNone};
ghost use Rattle.agent_ports.specs.Counts.{Rose, RoseBy};
ghost use Rattle.agent_ports.specs.HostParts.{IsFolder, AreSettled, AreNew, kept_path};
ghost use Rattle.agent_ports.specs.declared.host.Parts.{Parts as HostParts};

use crate::{Clock, Dice, Ear, Gate, Keys, Launcher, Link, Listener, TrustFile};

/// What a session needs of the machine, beside its link.
#[derive(Drop)]
pub struct Parts<La, C, R, K> {
    /// Starts pinentries.
    pub launcher: La,
    /// Gives the time of day, in seconds.
    pub clock: C,
    /// Gives random bytes.
    pub dice: R,
    /// The user's key files.
    pub keys: K,
}

/// The machine that the agent runs on.
pub trait Host {
    type Link: Link;

    type Ear: Ear;

    type Listener: Listener<Link = Self::Link, Ear = Self::Ear>;

    type Launcher: Launcher;

    type Clock: Clock;

    type Dice: Dice;

    type Keys: Keys;

    type Trust: TrustFile;

    type Gate: Gate;

    /// The parts for the session on standard input and output, where the host has them, as a new
    /// one does.
    ghost server: { Self → Option (HostParts Self.Launcher Self.Clock Self.Dice Self.Keys) };

    /// The number of the process.
    ghost process: { Self → ℕ };

    /// The path of the folder that was settled last, without a byte where there is none.
    ghost homedir: { Self → List ℕ };

    /// Whether a listener is the daemon's own.
    ghost is_home: { Self.Listener → Type 0 };

    /// Whether it is the one for restricted sessions.
    ghost is_extra: { Self.Listener → Type 0 };

    /// How many calls for a listener failed, and how many calls with the ears that came back.
    ghost listens: { Self → ℕ };

    /// The folder that is used from now on. The server's parts are of it then, and stay as they are
    /// otherwise, as far as they show it.
    fn settle(&mut self, path: &[u8])
        ensures homedir { homedir self.new ≡ kept_path path.now }
        ensures parts { AreSettled (record {
          launches = Self.Launcher.launches;
          readings = Self.Clock.readings;
          draws = Self.Dice.draws;
          keys = Self.Keys.keys;
        }) (homedir self.new) (server self.old) (server self.new) }
        ensures process { process self.new ≡ process self.old }
        ensures listens { listens self.new ≡ listens self.old };

    /// The number of the process, or 0 where it isn't known.
    fn pid(&self) -> u32
        ensures { result ≡ process self.now };

    /// Hands out the server's parts.
    fn server_parts(&mut self) -> Parts<Self::Launcher, Self::Clock, Self::Dice, Self::Keys>
        requires { IsSome (server self.old) }
        ensures given { server self.old ≡ Some result }
        ensures gone { server self.new ≡ None }
        ensures process { process self.new ≡ process self.old }
        ensures listens { listens self.new ≡ listens self.old }
        ensures homedir { homedir self.new ≡ homedir self.old };

    /// Takes the server's parts back.
    fn parts_back(&mut self, parts: Parts<Self::Launcher, Self::Clock, Self::Dice, Self::Keys>)
        ensures back { server self.new ≡ Some parts }
        ensures process { process self.new ≡ process self.old }
        ensures listens { listens self.new ≡ listens self.old }
        ensures homedir { homedir self.new ≡ homedir self.old };

    /// New parts, for one session of a daemon, with the key files of the folder.
    fn session_parts(&self) -> Parts<Self::Launcher, Self::Clock, Self::Dice, Self::Keys>
        ensures new { AreNew (record {
          launches = Self.Launcher.launches;
          readings = Self.Clock.readings;
          draws = Self.Dice.draws;
          keys = Self.Keys.keys;
        }) result }
        ensures folder { IsFolder (homedir self.now) (Self.Keys.keys result.keys).folder };

    /// The folder's trust file, for one session of a daemon.
    fn trust(&self) -> Self::Trust
        ensures unused { (Self.Trust.trust result).faults ≡ 0 }
        ensures folder { IsFolder (homedir self.now) (Self.Trust.trust result).folder };

    /// The daemon's listener.
    fn listen(&mut self) -> Option<Self::Listener>
        ensures home { IfSome result is_home }
        ensures failed { IsNone result → Rose (listens self.old) (listens self.new) }
        ensures listens { listens self.old ≤ listens self.new }
        ensures server { server self.new ≡ server self.old }
        ensures process { process self.new ≡ process self.old }
        ensures homedir { homedir self.new ≡ homedir self.old };

    /// The listener for restricted sessions.
    fn listen_extra(&mut self) -> Option<Self::Listener>
        ensures extra { IfSome result is_extra }
        ensures failed { IsNone result → Rose (listens self.old) (listens self.new) }
        ensures listens { listens self.old ≤ listens self.new }
        ensures server { server self.new ≡ server self.old }
        ensures process { process self.new ≡ process self.old }
        ensures homedir { homedir self.new ≡ homedir self.old };

    /// Takes an ear back whose worker has returned. What failed there counts here too.
    fn ear_back(&mut self, ear: Self::Ear)
        ensures rose { RoseBy (Self.Ear.faults ear) (listens self.old) (listens self.new) }
        ensures listens { listens self.old ≤ listens self.new }
        ensures server { server self.new ≡ server self.old }
        ensures process { process self.new ≡ process self.old }
        ensures homedir { homedir self.new ≡ homedir self.old };

    /// Where the sessions of a daemon pass by.
    fn gate(&self) -> &Self::Gate;
}
