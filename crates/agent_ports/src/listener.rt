//! The port of new clients: a listener that workers share, and each one's ear (fault counter).
//! Calls go by `&self` from any thread, and what a worker was answered is known by its own ear.
//! Begin with `Listener::next`; definitions begin in `specs/Listening`.

ghost use Rattle.std.specs.Prelude.{◌≡◌, ◌<◌, ◌≤◌, ◌↔◌, ℕ, IsTrue};
ghost use Rattle.agent_ports.specs.{Counts.Rose, Listening.{IfLink, NothingFailed}};
ghost use Rattle.agent_ports.specs.declared.listener.Next.{Next};

use crate::Link;

/// What one worker heard of a listener's faults.
pub trait Ear {
    /// How many calls with it failed.
    ghost faults: { Self → ℕ };

    /// Whether a call with it failed.
    fn failed(&self) -> bool
        ensures { IsTrue result ↔ (0 < faults self.now) };
}

/// What a listener gave.
#[derive(Drop)]
pub enum Next<L> {
    /// A peer that wants a session.
    Link(L),
    /// The listener failed, which the ear has heard.
    Failed,
    /// No more links are taken.
    Stopped,
}

/// Where links come from. Several workers share it, each with an ear of its own.
///
/// What crosses threads is said where threads start: a bound here would be owed by every caller.
pub trait Listener {
    type Link: Link;

    type Ear: Ear;

    /// Which links come in at it: each listener says for itself what is so of them.
    ghost gives: { Self → Self.Link → Type 0 };

    /// What it answers that is asked with an ear, and what it leaves of the ear.
    ghost answers: { Self → Self.Ear → Next Self.Link → Self.Ear → Type 0 };

    /// Whether it was told to stop.
    ghost is_told: { Self → Type 0 };

    /// What is left of an ear whose worker told it to stop.
    ghost tells: { Self → Self.Ear → Self.Ear → Type 0 };

    /// Whether an ear is one of its own.
    ghost hears: { Self → Self.Ear → Type 0 };

    /// An ear for one more worker.
    fn ear(&self) -> Self::Ear
        ensures fresh { Self.Ear.faults result ≡ 0 }
        ensures own { hears self.now result };

    /// Waits for the next link. It is stopped only where it was told to be. That it is stopped then
    /// is in no clause, since any worker may tell it at any time.
    fn next(&self, ear: &mut Self::Ear) -> Next<Self::Link>
        ensures answers { answers self.now ear.old result ear.new }
        ensures own { hears self.now ear.old → hears self.now ear.new }
        ensures stopped { result ≡ Next.Stopped → is_told self.now }
        ensures gives { IfLink result (λ link. gives self.now link) }
        ensures link { IfLink result
            (λ link. NothingFailed (Self.Link.input link) (Self.Link.output link)) }
        ensures failed { result ≡ Next.Failed
            → Rose (Self.Ear.faults ear.old) (Self.Ear.faults ear.new) }
        ensures faults { Self.Ear.faults ear.old ≤ Self.Ear.faults ear.new };

    /// Takes a link back whose session has ended.
    fn done(&self, link: Self::Link);

    /// From now on no link is taken. Sessions whose links were taken before go on.
    fn stop(&self)
        ensures { is_told self.now };

    /// The same, for the worker whose ear this is, so that contracts see which worker told it.
    fn stop_by(&self, ear: &mut Self::Ear)
        ensures told { is_told self.now }
        ensures tells { tells self.now ear.old ear.new }
        ensures own { (whose : Self) → hears whose ear.old → hears whose ear.new }
        ensures faults { Self.Ear.faults ear.new ≡ Self.Ear.faults ear.old };
}
