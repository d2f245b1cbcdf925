//! A trust list in memory, for tests: the bytes of one file, or none, with calls that fail as
//! planned. No call reaches the system. Begin with `MemTrust::new`; the clauses are those of
//! `TrustFile` and of the plan (`specs/Plans`).

ghost use Rattle.std.specs.{Prelude.{◌≡◌, ◌↔◌, Some, None}, Option.option_map};
ghost use Rattle.agent_ports.specs.Mem.Plans.{trust_plan};

use crate::fault_plan::FaultPlan;
use crate::{TrustDone, TrustFile, TrustRead};
use std::alloc::Global;

/// A trust file in memory, which lies in no folder that shows. A call fails where its number, from
/// 0, is among those that are to fail.
#[derive(Drop)]
pub struct MemTrust {
    file: Option<Vec<u8>>,
    plan: FaultPlan,
}

impl MemTrust {
    /// A file of these bytes, or none, of which the calls of these numbers, from 0, fail.
    pub fn new(file: Option<Vec<u8>>, failing: Vec<u64>) -> Self
        ensures trust { ⟦<MemTrust as TrustFile>⟧.trust result ≡ record {
          file = Some (option_map (λ bytes. bytes.items) file);
          folder = None;
          faults = 0;
        } }
        ensures plan { trust_plan result ≡ record { failing = failing.items; calls = 0; size = 0 } }
    {
        MemTrust {
            file,
            plan: FaultPlan::new(failing),
        }
    }

    /// The bytes of the file, or none where there is no file. It counts as no call.
    pub fn file(&self) -> Option<&[u8]>
        ensures { (⟦<MemTrust as TrustFile>⟧.trust self.now).file
            ≡ Some (option_map (λ bytes. bytes.now) result) }
    {
        match &self.file {
            Some(bytes) => Some(bytes),
            None => None,
        }
    }
}

impl MemTrust {
    /// No fault counts from now on.
    pub(crate) fn forget_faults(&mut self)
        ensures { ⟦<MemTrust as TrustFile>⟧.trust self.new
            ≡ record (⟦<MemTrust as TrustFile>⟧.trust self.old) { faults = 0 } }
    {
        self.plan.forget();
    }
}

impl TrustFile for MemTrust {
    ghost use Rattle.agent_ports.specs.Plans.{Fails, after_call};
    ghost use Rattle.agent_ports.specs.TrustFiles.{ReadsTrust, ReplacesTrust};

    ghost trust = { λ t. record {
      file = Some (option_map (λ bytes. bytes.items) t.file);
      folder = None;
      faults = t.plan.faults;
    } };

    fn read(&mut self, alloc: Global) -> TrustRead
        ensures reads { ReadsTrust (⟦<MemTrust as TrustFile>⟧.trust self.old) result
            (⟦<MemTrust as TrustFile>⟧.trust self.new) }

        // What the plan says.
        ensures planned { (result ≡ TrustRead.Failed) ↔ Fails (trust_plan self.old) }
        ensures calls { trust_plan self.new ≡ after_call (trust_plan self.old) }
    {
        if self.plan.next_fails() {
            return TrustRead::Failed;
        }
        let Some(file) = &self.file else {
            return TrustRead::Absent;
        };
        match Vec::from_slice(alloc, file) {
            Ok(bytes) => TrustRead::Found(bytes),
            Err(_) => TrustRead::NoMemory,
        }
    }

    fn replace(&mut self, alloc: Global, file: &[u8]) -> TrustDone
        ensures replaces { ReplacesTrust (⟦<MemTrust as TrustFile>⟧.trust self.old) file.now result
            (⟦<MemTrust as TrustFile>⟧.trust self.new) }

        // What the plan says.
        ensures planned { (result ≡ TrustDone.Failed) ↔ Fails (trust_plan self.old) }
        ensures calls { trust_plan self.new ≡ after_call (trust_plan self.old) }
    {
        if self.plan.next_fails() {
            return TrustDone::Failed;
        }
        match Vec::from_slice(alloc, file) {
            Ok(bytes) => {
                self.file = Some(bytes);
                TrustDone::Done
            }
            Err(_) => TrustDone::NoMemory,
        }
    }
}
