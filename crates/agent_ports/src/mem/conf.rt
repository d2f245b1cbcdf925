//! Files of options in memory, for tests: the bytes of each, or none, with calls that fail as
//! planned. No call reaches the system. Begin with `MemConf::new`; the clauses are those of
//! `ConfFiles` and of the plan (`specs/Plans`).

ghost use Rattle.std.specs.{Prelude.{◌≡◌, ◌≤◌, Contains, IfSome, Some, length}, Option.option_map};
ghost use Rattle.agent_ports.specs.{ConfFiles.{ConfReadSays, IsSmallConf}, Counts.Rose};
ghost use Rattle.agent_ports.specs.{Mem.Plans.conf_plan};
ghost use Rattle.agent_ports.specs.declared.conf.TheConstants.{MAX_CONF_LEN};

use crate::fault_plan::FaultPlan;
use crate::{ConfFiles, ConfRead, MAX_CONF_LEN};
use std::alloc::Global;

/// Files of options in memory. A call fails where its number, from 0, is among those that are to
/// fail, or where the file has more than `MAX_CONF_LEN` bytes.
#[derive(Drop)]
pub struct MemConf {
    machine: Option<Vec<u8>>,
    home: Option<Vec<u8>>,
    plan: FaultPlan,
}

impl MemConf {
    /// Files of these bytes, or none, of which the calls of these numbers, from 0, fail.
    pub fn new(machine: Option<Vec<u8>>, home: Option<Vec<u8>>, failing: Vec<u64>) -> Self
        ensures confs { ⟦<MemConf as ConfFiles>⟧.confs result ≡ record {
          machine = Some (option_map (λ bytes. bytes.items) machine);
          home = Some (option_map (λ bytes. bytes.items) home);
          faults = 0;
        } }
        ensures plan { conf_plan result ≡ record { failing = failing.items; calls = 0; size = 0 } }
    {
        MemConf {
            machine,
            home,
            plan: FaultPlan::new(failing),
        }
    }
}

impl ConfFiles for MemConf {
    ghost use Rattle.agent_ports.specs.{ConfFiles.ReadsConf, Plans.Fails};

    ghost confs = { λ c. record {
      machine = Some (option_map (λ bytes. bytes.items) c.machine);
      home = Some (option_map (λ bytes. bytes.items) c.home);
      faults = c.plan.faults;
    } };

    fn read_machine(&mut self, alloc: Global) -> ConfRead
        ensures reads { ReadsConf (⟦<MemConf as ConfFiles>⟧.confs self.old).machine
            (⟦<MemConf as ConfFiles>⟧.confs self.old) result
            (⟦<MemConf as ConfFiles>⟧.confs self.new) }
        // What the plan says.
        ensures planned { Fails (conf_plan self.old) → result ≡ ConfRead.Failed }
    {
        read_planned(alloc, as_slice(&self.machine), &mut self.plan)
    }

    fn read_home(&mut self, alloc: Global) -> ConfRead
        ensures reads { ReadsConf (⟦<MemConf as ConfFiles>⟧.confs self.old).home
            (⟦<MemConf as ConfFiles>⟧.confs self.old) result
            (⟦<MemConf as ConfFiles>⟧.confs self.new) }
        // What the plan says.
        ensures planned { Fails (conf_plan self.old) → result ≡ ConfRead.Failed }
    {
        read_planned(alloc, as_slice(&self.home), &mut self.plan)
    }
}

fn as_slice(file: &Option<Vec<u8>>) -> Option<&[u8]>
    ensures { option_map (λ bytes. bytes.now) result ≡ option_map (λ bytes. bytes.items) file.now }
{
    match file {
        Some(bytes) => Some(bytes),
        None => None,
    }
}

/// What a read of this file gives, by the plan and by its length.
fn read_planned(alloc: Global, file: Option<&[u8]>, plan: &mut FaultPlan) -> ConfRead
    ensures says { ConfReadSays result (option_map (λ bytes. bytes.now) file.entry) }
    ensures small { IsSmallConf result }
    ensures failed { result ≡ ConfRead.Failed → Rose plan.old.faults plan.new.faults }
    ensures never_falls { plan.old.faults ≤ plan.new.faults }
    ensures planned { Contains plan.old.failing.items plan.old.calls → result ≡ ConfRead.Failed }
{
    let is_long = file.is_some_and(|bytes| bytes.len() > MAX_CONF_LEN);
    if plan.next_fails() {
        return ConfRead::Failed;
    }
    if is_long {
        plan.raise();
        return ConfRead::Failed;
    }
    read_file(alloc, file)
}

/// What a read of a file of so many bytes gives.
fn read_file(alloc: Global, file: Option<&[u8]>) -> ConfRead
    requires { IfSome file (λ bytes. length bytes.now ≤ MAX_CONF_LEN) }
    ensures says { ConfReadSays result (option_map (λ bytes. bytes.now) file.entry) }
    ensures small { IsSmallConf result }
    ensures found { result ≡ ConfRead.Failed → ⊥ }
{
    let Some(file) = file else {
        return ConfRead::Absent;
    };
    match Vec::from_slice(alloc, file) {
        Ok(bytes) => ConfRead::Found(bytes),
        Err(_) => ConfRead::NoMemory,
    }
}
