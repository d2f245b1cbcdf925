//! Private keys in memory, for tests: a map of files by their grips, with calls that fail as
//! planned. No call reaches the system. Begin with `MapKeys::new`; definitions begin in
//! `specs/Mem/Keys` and `specs/Plans`.

ghost use Rattle.std.specs.Prelude.{◌≡◌, ◌≢◌, ◌≤◌, ◌↔◌, length, vec_len, Some, None, OnOk, OnErr};
ghost use Rattle.agent_ports.specs.declared.keys.TheConstants.{MAX_KEY_FILE_LEN};

use crate::fault_plan::FaultPlan;
use crate::{Grip, KeyDone, KeyNames, KeyRead, Keys};
use std::alloc::{AllocError, Global};
use std::collections::BTreeMap;
use std::marker::Model;

/// The bytes of a key's file.
#[derive(Drop)]
struct KeyFile {
    bytes: Vec<u8>,
}

impl Model for KeyFile {
    ghost use Rattle.std.specs.Prelude.{◌≤◌, ℕ, List, length};
    ghost use Rattle.agent_ports.specs.declared.keys.TheConstants.{MAX_KEY_FILE_LEN};

    ghost Value = { List ℕ };

    ghost view = { λ file. file.bytes.items };

    ghost invariant = { λ file. length file.bytes.items ≤ MAX_KEY_FILE_LEN };
}

impl KeyFile {
    fn new(bytes: Vec<u8>) -> KeyFile
        requires { vec_len bytes ≤ MAX_KEY_FILE_LEN }
        ensures { result ≡ bytes.items }
    {
        KeyFile { bytes }
    }

    fn as_slice(&self) -> &[u8]
        ensures bytes { result.now ≡ self.now }
        ensures small { length result.now ≤ MAX_KEY_FILE_LEN }
    {
        &self.bytes
    }
}

/// Key files in memory, which lie in no folder that shows. A call fails where its number, from 0,
/// is among those that are to fail.
#[derive(Drop)]
pub struct MapKeys {
    files: BTreeMap<Grip, KeyFile>,
    plan: FaultPlan,
}

impl MapKeys {
    ghost use Rattle.agent_ports.specs.Mem.{Keys.inserted, Plans.keys_plan};
    ghost use Rattle.std.specs.FinMap as map;

    /// No files yet. It takes no memory.
    pub fn new(alloc: Global, failing: Vec<u64>) -> Self
        ensures keys { ⟦<MapKeys as Keys>⟧.keys result
            ≡ record { files = Some map.empty; folder = None; faults = 0 } }
        ensures plan { keys_plan result ≡ record { failing = failing.items; calls = 0; size = 0 } }
    {
        MapKeys {
            files: BTreeMap::new(alloc),
            plan: FaultPlan::new(failing),
        }
    }

    /// Makes this the file of a key, as `replace` does. It counts as no call.
    pub fn insert(&mut self, grip: Grip, file: Vec<u8>) -> Result<(), AllocError>
        requires { vec_len file ≤ MAX_KEY_FILE_LEN }
        ensures ok { OnOk result (⟦<MapKeys as Keys>⟧.keys self.new ≡ inserted grip file.items
            (⟦<MapKeys as Keys>⟧.keys self.old)) }
        ensures err { OnErr result
            (⟦<MapKeys as Keys>⟧.keys self.new ≡ ⟦<MapKeys as Keys>⟧.keys self.old) }
        ensures plan { keys_plan self.new ≡ keys_plan self.old }
    {
        self.files.insert(grip, KeyFile::new(file))?;
        Ok(())
    }
}

impl MapKeys {
    /// No fault counts from now on.
    pub(crate) fn forget_faults(&mut self)
        ensures { ⟦<MapKeys as Keys>⟧.keys self.new ≡ record (⟦<MapKeys as Keys>⟧.keys self.old)
            { faults = 0 } }
    {
        self.plan.forget();
    }
}

impl Keys for MapKeys {
    ghost use Rattle.agent_ports.specs.KeyFiles.{ReadsKey, ListsKeys, ReplacesKey, RemovesKey};
    ghost use Rattle.agent_ports.specs.Mem.{Keys.files_of, Plans.keys_plan};
    ghost use Rattle.agent_ports.specs.Plans.{Fails, after_call};

    ghost keys = { λ k.
        record { files = Some (files_of k.files.entries); folder = None; faults = k.plan.faults } };

    fn read(&mut self, alloc: Global, grip: &Grip) -> KeyRead
        ensures reads { ReadsKey (⟦<MapKeys as Keys>⟧.keys self.old) grip.now result
            (⟦<MapKeys as Keys>⟧.keys self.new) }

        // What the plan says.
        ensures planned { (result ≡ KeyRead.Failed) ↔ Fails (keys_plan self.old) }
        ensures calls { keys_plan self.new ≡ after_call (keys_plan self.old) }
    {
        if self.plan.next_fails() {
            return KeyRead::Failed;
        }
        match self.files.get(grip) {
            Some(file) => match Vec::from_slice(alloc, file.as_slice()) {
                Ok(bytes) => KeyRead::Found(bytes),
                Err(_) => KeyRead::NoMemory,
            },
            None => KeyRead::Absent,
        }
    }

    fn list(&mut self, alloc: Global) -> KeyNames
        ensures lists { ListsKeys (⟦<MapKeys as Keys>⟧.keys self.old) result
            (⟦<MapKeys as Keys>⟧.keys self.new) }

        // What the plan says.
        ensures planned { (result ≡ KeyNames.Failed) ↔ Fails (keys_plan self.old) }
        ensures calls { keys_plan self.new ≡ after_call (keys_plan self.old) }
    {
        if self.plan.next_fails() {
            return KeyNames::Failed;
        }
        match self.files.keys().copied().collect(alloc) {
            Ok(names) => KeyNames::Names(names),
            Err(_) => KeyNames::NoMemory,
        }
    }

    fn replace(&mut self, alloc: Global, grip: &Grip, file: &[u8]) -> KeyDone
        requires { length file.now ≤ MAX_KEY_FILE_LEN }
        ensures replaces { ReplacesKey (⟦<MapKeys as Keys>⟧.keys self.old) grip.now file.now result
            (⟦<MapKeys as Keys>⟧.keys self.new) }

        // What the plan says.
        ensures planned { (result ≡ KeyDone.Failed) ↔ Fails (keys_plan self.old) }
        ensures calls { keys_plan self.new ≡ after_call (keys_plan self.old) }
    {
        if self.plan.next_fails() {
            return KeyDone::Failed;
        }
        let Ok(copy) = Vec::from_slice(alloc, file) else {
            return KeyDone::NoMemory;
        };
        match self.insert(*grip, copy) {
            Ok(()) => KeyDone::Done,
            Err(_) => KeyDone::NoMemory,
        }
    }

    fn remove(&mut self, _alloc: Global, grip: &Grip) -> KeyDone
        ensures removes { RemovesKey (⟦<MapKeys as Keys>⟧.keys self.old) grip.now result
            (⟦<MapKeys as Keys>⟧.keys self.new) }

        // What the plan says.
        ensures planned { (result ≡ KeyDone.Failed) ↔ Fails (keys_plan self.old) }
        ensures calls { keys_plan self.new ≡ after_call (keys_plan self.old) }
        ensures enough { result ≢ KeyDone.NoMemory }
    {
        if self.plan.next_fails() {
            return KeyDone::Failed;
        }
        match self.files.remove(grip) {
            Some(_) => KeyDone::Done,
            None => KeyDone::Absent,
        }
    }
}
