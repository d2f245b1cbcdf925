//! Random bytes for tests: those of a list, with draws that fail as planned. A draw changes its own
//! fields alone. Begin with `ListDice::new`; beside the port's clause, `fill` says when it fails
//! (`specs/Plans`).

ghost use Rattle.std.specs.Prelude.{◌≡◌, ◌≤◌, ◌↔◌, drop, length, vec_len, IsTrue, IfSome, Some};

use crate::Dice;
use crate::fault_plan::FaultPlan;

/// Dice that give the bytes of a list. A draw fails where its number, from 0, is among those that
/// are to fail, and where fewer bytes are left than it wants.
#[derive(Drop)]
pub struct ListDice {
    bytes: Vec<u8>,
    taken: usize,
    plan: FaultPlan,
    ghost within: { taken ≤ vec_len bytes },
}

impl ListDice {
    ghost use Rattle.agent_ports.specs.Mem.Plans.{dice_plan};

    /// Dice that give these bytes, and fail at the draws of these numbers, from 0.
    pub fn new(bytes: Vec<u8>, failing: Vec<u64>) -> Self
        ensures draws { ⟦<ListDice as Dice>⟧.draws result
            ≡ record { bytes = Some bytes.items; faults = 0 } }
        ensures plan { dice_plan result ≡ record { failing = failing.items; calls = 0; size = 0 } }
    {
        ListDice {
            bytes,
            taken: 0,
            plan: FaultPlan::new(failing),
        }
    }
}

impl ListDice {
    /// No fault counts from now on.
    pub(crate) fn forget_faults(&mut self)
        ensures { ⟦<ListDice as Dice>⟧.draws self.new ≡ record (⟦<ListDice as Dice>⟧.draws self.old)
            { faults = 0 } }
    {
        self.plan.forget();
    }
}

impl Dice for ListDice {
    ghost use Rattle.agent_ports.specs.{Draws.IsDrawn, Mem.Plans.dice_plan};
    ghost use Rattle.agent_ports.specs.Plans.{Fails, after_call};

    ghost draws = { λ d.
        record { bytes = Some (drop d.taken d.bytes.items); faults = d.plan.faults } };

    fn fill(&mut self, out: &mut [u8]) -> bool
        ensures drawn { IsDrawn (⟦<ListDice as Dice>⟧.draws self.old) result out.new
            (⟦<ListDice as Dice>⟧.draws self.new) }

        // What the plan says.
        ensures planned { IsTrue result
            ↔ ((Fails (dice_plan self.old) → ⊥) × IfSome (⟦<ListDice as Dice>⟧.draws self.old).bytes
            (λ rest. length out.old ≤ length rest)) }
        ensures calls { dice_plan self.new ≡ after_call (dice_plan self.old) }
    {
        if self.plan.next_fails() {
            out.fill(0);
            return false;
        }
        let rest = &self.bytes[self.taken..];
        if rest.len() < out.len() {
            self.plan.raise();
            out.fill(0);
            return false;
        }
        out.copy_from_slice(&rest[..out.len()]);
        self.taken += out.len();
        true
    }
}
