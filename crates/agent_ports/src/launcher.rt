//! The port of child programs, by which a pinentry is started, talked to over a link, and finished.
//! What a child will give is known at its start, where anything is. Begin with `Launcher::launch`;
//! definitions begin in `specs/Launches`. `MemLauncher` is the form in memory, and `agent_host`
//! starts programs.

ghost use Rattle.std.specs.Prelude.{◌≡◌, ◌≤◌, ◌+◌, IfSome, IsNone, MatchOption};
ghost use Rattle.agent_ports.specs.Counts.{Rose, RoseBy};
ghost use Rattle.agent_ports.specs.Launches.{Launches, IsFresh, child_then, then_launched};
ghost use Rattle.agent_ports.specs.Launches.{then_finished};

use crate::Link;

/// Starts child programs, and takes their ends.
pub trait Launcher {
    /// The way to a child's standard input and output.
    type Child: Link;

    /// The children to come, the programs that were launched, the finished children, and how many
    /// calls failed.
    ghost launches: { Self → Launches };

    /// Starts the program. What its input then holds is all that the child gives.
    fn launch(&mut self, program: &[u8]) -> Option<Self::Child>
        ensures fresh { IfSome result
            (λ child. IsFresh (Self.Child.input child) (Self.Child.output child)) }
        ensures coming { MatchOption result
            ((launches self.new).coming ≡ (launches self.old).coming)
            (λ child. (launches self.old).coming ≡ child_then (Self.Child.input child).bytes
            (launches self.new).coming) }
        ensures launched { MatchOption result
            ((launches self.new).launched ≡ (launches self.old).launched) (λ child.
            (launches self.new).launched ≡ then_launched (launches self.old).launched program.now) }
        ensures finished { (launches self.new).finished ≡ (launches self.old).finished }
        ensures failed { IsNone result
            → Rose (launches self.old).faults (launches self.new).faults }
        ensures faults { (launches self.old).faults ≤ (launches self.new).faults };

    /// Closes the pipes and takes the child's end. What failed there counts here too.
    fn finish(&mut self, child: Self::Child)
        ensures finished { (launches self.new).finished ≡ then_finished (launches self.old).finished
            (Self.Child.input child).bytes (Self.Child.output child).bytes }
        ensures coming { (launches self.new).coming ≡ (launches self.old).coming }
        ensures launched { (launches self.new).launched ≡ (launches self.old).launched }
        ensures rose { RoseBy ((Self.Child.input child).faults + (Self.Child.output child).faults)
            (launches self.old).faults (launches self.new).faults }
        ensures faults { (launches self.old).faults ≤ (launches self.new).faults };
}
