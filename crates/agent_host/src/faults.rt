//! The count of a part's failed calls, which stands still at its type's end. Pure. It has one
//! function, `count`, which all parts of the host call; `Rose` (`agent_ports`, `specs/Counts`) says
//! what it does.

ghost use Rattle.std.specs.{Prelude.◌≤◌, Bool.OnTrue};
ghost use Rattle.agent_ports.specs.Counts.{Rose};

/// Counts a call that failed.
pub fn count(faults: &mut u64, failed: bool)
    ensures rose { OnTrue failed (Rose faults.old faults.new) }
    ensures never_falls { faults.old ≤ faults.new }
{
    if failed {
        *faults = faults.saturating_add(1);
    }
}
