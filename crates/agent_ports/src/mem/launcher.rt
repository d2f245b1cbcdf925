//! Child programs in memory, for tests of prompts: what each gives is planned, and what it was
//! written is kept. No program is run; a child's place in the list of the finished is taken at its
//! launch, so that finishing takes no memory. Begin with `MemLauncher::new`; definitions begin in
//! `specs/Mem/Launches`.

ghost use Rattle.std.specs.Prelude.{◌≡◌, ◌<◌, ◌≤◌, ◌+◌, ◌↔◌, ◌⊎◌, ◌∷◌, [], Some, None, IfSome};
ghost use Rattle.std.specs.Prelude.{IsNone, MatchOption, length, map, min, reverse, slice_get};
ghost use Rattle.std.specs.{Prelude.{take, refl}, Option.option_map};
ghost use Rattle.agent_ports.specs.Counts.{Rose, RoseBy};
ghost use Rattle.agent_ports.specs.Launches.{IsFresh, child_then, then_launched, then_finished};
ghost use Rattle.agent_ports.specs.Mem.Launches.{gives_of, programs_of, latest_of, latest_first};
ghost use Rattle.agent_ports.specs.Mem.Launches.{coming_children, open_child, launch_plan};
ghost use Rattle.agent_ports.specs.{Mem.Plans.planned_link, Plans.{Fails, after_call}};
ghost use Rattle.agent_ports.specs.Sides.{followed_by, with_bytes, taken_by, IfBytes, sent_part};
ghost use Rattle.agent_ports.specs.{Sides.{IfCut, IsCut}, declared.mem.launcher.Place.out-Place};

use crate::fault_plan::FaultPlan;
use crate::{Got, Launcher, Link, MemLink, MemSink, MemSource, PlannedLink, Sent, Sink, Source};
use std::alloc::Global;

/// A child to be launched.
pub type PlannedChild = PlannedLink;

/// A child's link, with a place in the list of the finished ones, so that finishing it takes no
/// memory.
#[derive(Drop)]
struct Place {
    link: MemLink,
    earlier: Option<Box<Place>>,
}

impl Place {
    /// What was written to the link this number of places before this one.
    fn written(&self, back: usize) -> Option<&[u8]>
        ensures { option_map (λ bytes. bytes.now) result
            ≡ option_map (λ child. child.written) (slice_get (latest_of self.now) back) }
    {
        if back == 0 {
            return Some(self.link.written());
        }
        match &self.earlier {
            Some(place) => place.written(back - 1),
            None => None,
        }
    }
}

/// A child that a `MemLauncher` launched.
#[derive(Drop)]
pub struct MemChild {
    place: Box<Place>,
}

impl Source for MemChild {
    ghost use Rattle.agent_ports.specs.Mem.Launches.{child_reads, child_writes};

    ghost input = { λ c. ⟦<MemLink as Source>⟧.input (out-Place c.place.value).link };

    ghost beside_input = { λ c. ⟦<MemLink as Sink>⟧.output (out-Place c.place.value).link };

    fn read(&mut self, buf: &mut [u8]) -> Got
        requires { 0 < length buf.old }
        ensures count { IfBytes result (λ n. (1 ≤ n) × (n ≤ length buf.old)) }
        ensures taken { (⟦<MemChild as Source>⟧.input self.old).bytes
            ≡ followed_by (take (taken_by result) buf.new)
            (⟦<MemChild as Source>⟧.input self.new).bytes }
        ensures end { result ≡ Got.End
            → IfSome (⟦<MemChild as Source>⟧.input self.old).bytes (λ rest. rest ≡ []) }
        ensures failed { result ≡ Got.Failed → Rose (⟦<MemChild as Source>⟧.input self.old).faults
            (⟦<MemChild as Source>⟧.input self.new).faults }
        ensures faults { (⟦<MemChild as Source>⟧.input self.old).faults
            ≤ (⟦<MemChild as Source>⟧.input self.new).faults }
        ensures beside { ⟦<MemChild as Source>⟧.beside_input self.new
            ≡ ⟦<MemChild as Source>⟧.beside_input self.old }

        // What the plan says.
        ensures planned { (result ≡ Got.Failed) ↔ Fails (child_reads self.old) }
        ensures piece { IfBytes result (λ n. IfSome (⟦<MemChild as Source>⟧.input self.old).bytes
            (λ rest. n ≡ min (min (length rest) (length buf.old)) (child_reads self.old).size)) }
        ensures calls { child_reads self.new ≡ after_call (child_reads self.old) }
        ensures writes { child_writes self.new ≡ child_writes self.old }
    {
        self.place.link.read(buf)
    }
}

impl Sink for MemChild {
    ghost use Rattle.agent_ports.specs.Mem.Launches.{child_reads, child_writes};

    ghost output = { λ c. ⟦<MemLink as Sink>⟧.output (out-Place c.place.value).link };

    ghost beside_output = { λ c. ⟦<MemLink as Source>⟧.input (out-Place c.place.value).link };

    fn put(&mut self, bytes: &[u8]) -> Sent
        ensures cut { IfCut result (λ sent. sent ≤ length bytes.now) }
        ensures written { (⟦<MemChild as Sink>⟧.output self.new).bytes
            ≡ with_bytes (⟦<MemChild as Sink>⟧.output self.old).bytes (sent_part bytes.now result) }
        ensures failed { IsCut result → Rose (⟦<MemChild as Sink>⟧.output self.old).faults
            (⟦<MemChild as Sink>⟧.output self.new).faults }
        ensures faults { (⟦<MemChild as Sink>⟧.output self.old).faults
            ≤ (⟦<MemChild as Sink>⟧.output self.new).faults }
        ensures beside { ⟦<MemChild as Sink>⟧.beside_output self.new
            ≡ ⟦<MemChild as Sink>⟧.beside_output self.old }

        // What the plan says, but where memory is wanted.
        ensures planned { Fails (child_writes self.old) → IsCut result }
        ensures kept { IfCut result (λ sent. (sent ≡ 0) ⊎ (Fails (child_writes self.old)
            × (sent ≡ min (child_writes self.old).size (length bytes.now)))) }
        ensures calls { child_writes self.new ≡ after_call (child_writes self.old) }
        ensures reads { child_reads self.new ≡ child_reads self.old }
    {
        self.place.link.put(bytes)
    }
}

impl Link for MemChild {
    ghost output_beside = { λ _. refl };

    ghost input_beside = { λ _. refl };
}

/// Launches the children of a list, one after another. A launch fails where its number, from 0, is
/// among those that are to fail, and where no child is left.
#[derive(Drop)]
pub struct MemLauncher {
    alloc: Global,
    coming: Vec<PlannedChild>,
    launched: Vec<Vec<u8>>,
    finished: Option<Box<Place>>,
    plan: FaultPlan,
}

impl MemLauncher {
    /// A launcher of these children, which fails at the launches of these numbers, from 0.
    pub fn new(alloc: Global, children: Vec<PlannedChild>, failing: Vec<u64>) -> Self
        ensures launches { ⟦<MemLauncher as Launcher>⟧.launches result ≡ record {
          coming = Some (gives_of children.items);
          launched = Some [];
          finished = Some [];
          faults = 0;
        } }
        ensures children { coming_children result ≡ map planned_link children.items }
        ensures plan { launch_plan result
            ≡ record { failing = failing.items; calls = 0; size = 0 } }
    {
        MemLauncher {
            alloc,
            coming: children,
            launched: Vec::new(alloc),
            finished: None,
            plan: FaultPlan::new(failing),
        }
    }

    /// The program of the launch of this number, counted from 0.
    pub fn launched(&self, others: usize) -> Option<&[u8]>
        ensures { IfSome (⟦<MemLauncher as Launcher>⟧.launches self.now).launched (λ programs.
            option_map (λ program. program.now) result ≡ slice_get programs others) }
    {
        match self.launched.get(others) {
            Some(program) => Some(program),
            None => None,
        }
    }

    /// The next child, or none where none is left or memory is wanted.
    fn start(&mut self, program: &[u8]) -> Option<MemChild>
        ensures fresh { IfSome result (λ child.
            IsFresh (⟦<MemChild as Source>⟧.input child) (⟦<MemChild as Sink>⟧.output child)) }
        ensures coming { MatchOption result
            (self.new.coming ≡ self.old.coming) (λ child. Some (gives_of self.old.coming.items)
            ≡ child_then (⟦<MemChild as Source>⟧.input child).bytes
            (Some (gives_of self.new.coming.items))) }
        ensures launched { MatchOption result
            (programs_of self.new.launched.items ≡ programs_of self.old.launched.items)
            (λ child. Some (programs_of self.new.launched.items)
            ≡ then_launched (Some (programs_of self.old.launched.items)) program.now) }
        ensures finished { self.new.finished ≡ self.old.finished }
        ensures plan { self.new.plan ≡ self.old.plan }
        ensures none_left { coming_children self.old ≡ [] → IsNone result }
        ensures child { MatchOption result (coming_children self.new ≡ coming_children self.old)
            (λ child. coming_children self.old ≡ open_child child ∷ coming_children self.new) }
    {
        let program = Vec::from_slice(self.alloc, program).ok()?;
        let place = Place {
            link: no_link(self.alloc),
            earlier: None,
        };
        let mut place = Box::new(self.alloc, place).ok()?;
        if self.coming.is_empty() {
            return None;
        }
        self.launched.push(program).ok()?;
        place.link = self.coming.remove(0).open(self.alloc);
        Some(MemChild { place })
    }

    /// What was written to the finished child of this number, counted from 0 at the last one.
    pub fn written(&self, back: usize) -> Option<&[u8]>
        ensures { IfSome (⟦<MemLauncher as Launcher>⟧.launches self.now).finished
            (λ finished. option_map (λ bytes. bytes.now) result
            ≡ option_map (λ child. child.written) (slice_get (reverse finished) back)) }
    {
        match &self.finished {
            Some(place) => place.written(back),
            None => None,
        }
    }
}

impl MemLauncher {
    /// No fault counts from now on.
    pub(crate) fn forget_faults(&mut self)
        ensures { ⟦<MemLauncher as Launcher>⟧.launches self.new
            ≡ record (⟦<MemLauncher as Launcher>⟧.launches self.old) { faults = 0 } }
    {
        self.plan.forget();
    }
}

impl Launcher for MemLauncher {
    type Child = MemChild;

    ghost launches = { λ l. record {
      coming = Some (gives_of l.coming.items);
      launched = Some (programs_of l.launched.items);
      finished = Some (reverse (latest_first l.finished));
      faults = l.plan.faults;
    } };

    /// Running out of memory is a fault like any other.
    fn launch(&mut self, program: &[u8]) -> Option<MemChild>
        ensures fresh { IfSome result (λ child.
            IsFresh (⟦<MemChild as Source>⟧.input child) (⟦<MemChild as Sink>⟧.output child)) }
        ensures coming { MatchOption result ((⟦<MemLauncher as Launcher>⟧.launches self.new).coming
            ≡ (⟦<MemLauncher as Launcher>⟧.launches self.old).coming)
            (λ child. (⟦<MemLauncher as Launcher>⟧.launches self.old).coming
            ≡ child_then (⟦<MemChild as Source>⟧.input child).bytes
            (⟦<MemLauncher as Launcher>⟧.launches self.new).coming) }
        ensures launched { MatchOption result
            ((⟦<MemLauncher as Launcher>⟧.launches self.new).launched
            ≡ (⟦<MemLauncher as Launcher>⟧.launches self.old).launched)
            (λ child. (⟦<MemLauncher as Launcher>⟧.launches self.new).launched
            ≡ then_launched (⟦<MemLauncher as Launcher>⟧.launches self.old).launched program.now) }
        ensures finished { (⟦<MemLauncher as Launcher>⟧.launches self.new).finished
            ≡ (⟦<MemLauncher as Launcher>⟧.launches self.old).finished }
        ensures failed { IsNone result → Rose (⟦<MemLauncher as Launcher>⟧.launches self.old).faults
            (⟦<MemLauncher as Launcher>⟧.launches self.new).faults }
        ensures faults { (⟦<MemLauncher as Launcher>⟧.launches self.old).faults
            ≤ (⟦<MemLauncher as Launcher>⟧.launches self.new).faults }

        // What the plan says, but where memory is wanted.
        ensures planned { Fails (launch_plan self.old) → IsNone result }
        ensures none_left { coming_children self.old ≡ [] → IsNone result }
        ensures child { MatchOption result (coming_children self.new ≡ coming_children self.old)
            (λ child. coming_children self.old ≡ open_child child ∷ coming_children self.new) }
        ensures calls { launch_plan self.new ≡ after_call (launch_plan self.old) }
    {
        if self.plan.next_fails() {
            return None;
        }
        let child = self.start(program);
        if child.is_none() {
            self.plan.raise();
        }
        child
    }

    fn finish(&mut self, child: MemChild)
        ensures finished { (⟦<MemLauncher as Launcher>⟧.launches self.new).finished
            ≡ then_finished (⟦<MemLauncher as Launcher>⟧.launches self.old).finished
            (⟦<MemChild as Source>⟧.input child).bytes (⟦<MemChild as Sink>⟧.output child).bytes }
        ensures coming { (⟦<MemLauncher as Launcher>⟧.launches self.new).coming
            ≡ (⟦<MemLauncher as Launcher>⟧.launches self.old).coming }
        ensures launched { (⟦<MemLauncher as Launcher>⟧.launches self.new).launched
            ≡ (⟦<MemLauncher as Launcher>⟧.launches self.old).launched }
        ensures rose { RoseBy ((⟦<MemChild as Source>⟧.input child).faults
            + (⟦<MemChild as Sink>⟧.output child).faults)
            (⟦<MemLauncher as Launcher>⟧.launches self.old).faults
            (⟦<MemLauncher as Launcher>⟧.launches self.new).faults }
        ensures faults { (⟦<MemLauncher as Launcher>⟧.launches self.old).faults
            ≤ (⟦<MemLauncher as Launcher>⟧.launches self.new).faults }

        // What the plan says.
        ensures children { coming_children self.new ≡ coming_children self.old }
        ensures calls { launch_plan self.new ≡ launch_plan self.old }
    {
        let MemChild { mut place } = child;
        let (reads, writes) = place.link.faults();
        self.plan.raise_by(reads);
        self.plan.raise_by(writes);
        place.earlier = self.finished.take();
        self.finished = Some(place);
    }
}

/// A link that gives nothing.
fn no_link(alloc: Global) -> MemLink {
    let source = MemSource::new(Vec::new(alloc), 1, Vec::new(alloc));
    MemLink::new(source, MemSink::new(alloc, 0, Vec::new(alloc)))
}
