//! Which calls of a form in memory fail, by their numbers, so that a test can make each fault
//! happen. Two counters and a list, which the form asks at each call. Begin with
//! `FaultPlan::next_fails`; contracts of the forms show it as a `Plan` (`specs/Plans`).

ghost use Rattle.std.specs.Prelude.{◌≡◌, ◌≤◌, ◌+◌, ◌^◌, ◌-◌, ◌↔◌, IsTrue, Contains, min};
ghost use Rattle.std.specs.Bool.{OnTrue, OnFalse};
ghost use Rattle.agent_ports.specs.Counts.{Rose, RoseBy};

/// The calls that are to fail, by their number from 0, and how many failed so far.
#[derive(Drop)]
pub(crate) struct FaultPlan {
    failing: Vec<u64>,
    calls: u64,
    faults: u64,
}

impl FaultPlan {
    pub(crate) fn new(failing: Vec<u64>) -> Self
        ensures failing { result.failing ≡ failing }
        ensures calls { result.calls ≡ 0 }
        ensures faults { result.faults ≡ 0 }
    {
        FaultPlan {
            failing,
            calls: 0,
            faults: 0,
        }
    }

    /// Counts a call, and says whether it is one that is to fail.
    pub(crate) fn next_fails(&mut self) -> bool
        ensures planned { IsTrue result ↔ Contains self.old.failing.items self.old.calls }
        ensures calls { self.new.calls ≡ min (self.old.calls + 1) (2 ^ 64 - 1) }
        ensures failing { self.new.failing ≡ self.old.failing }
        ensures fails { OnTrue result (Rose self.old.faults self.new.faults) }
        ensures passes { OnFalse result (self.new.faults ≡ self.old.faults) }
        ensures never_falls { self.old.faults ≤ self.new.faults }
    {
        let fails = self.failing.contains(&self.calls);
        self.calls = self.calls.saturating_add(1);
        if fails {
            self.raise();
        }
        fails
    }

    /// Counts a fault. The count stands still at the end of its type.
    pub(crate) fn raise(&mut self)
        ensures rose { Rose self.old.faults self.new.faults }
        ensures never_falls { self.old.faults ≤ self.new.faults }
        ensures calls { self.new.calls ≡ self.old.calls }
        ensures failing { self.new.failing ≡ self.old.failing }
    {
        self.raise_by(1);
    }

    /// Counts this many faults.
    pub(crate) fn raise_by(&mut self, faults: u64)
        ensures rose { RoseBy faults self.old.faults self.new.faults }
        ensures never_falls { self.old.faults ≤ self.new.faults }
        ensures calls { self.new.calls ≡ self.old.calls }
        ensures failing { self.new.failing ≡ self.old.failing }
    {
        self.faults = self.faults.saturating_add(faults);
    }

    /// No fault counts from now on.
    pub(crate) fn forget(&mut self)
        ensures faults { self.new.faults ≡ 0 }
        ensures calls { self.new.calls ≡ self.old.calls }
        ensures failing { self.new.failing ≡ self.old.failing }
    {
        self.faults = 0;
    }

    pub(crate) fn faults(&self) -> u64
        ensures { result ≡ self.now.faults }
    {
        self.faults
    }
}
