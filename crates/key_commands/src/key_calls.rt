//! Calls of the keys, as actions of a request: a file is looked for, read, replaced or
//! removed. What is read of a file is overwritten when it is dropped. Begin with `read_file` and
//! `replace_file`; the actions are `ReadsFile` and `Replaces` (`specs/KeyActions`).

ghost use Rattle.std.specs.Prelude.{◌≡◌, ◌≤◌, length, Ok, Err, IfOk, IfErr};
ghost use Rattle.agent_ports.specs.declared.keys.TheConstants.{MAX_KEY_FILE_LEN};
ghost use Rattle.secret_file.specs.Opens.{FitsFile};
ghost use Rattle.key_commands.specs.Files.{IsSomeKey};
ghost use Rattle.key_commands.specs.KeyActions.{ReadsFile, ReadsListed, Replaces, Removes};
ghost use Rattle.key_commands.specs.{KeyActions.ListsGrips, Actions.Finds};
ghost use Rattle.key_commands.specs.Steps.{DoesKeyCalls, IsChanged, unlisted};

use crate::faults::fault_code;
use crate::files::file_key;
use agent_ports::{Grip, KeyDone, KeyNames, KeyRead, Keys};
use assuan_server::Code;
use session_client::Refusal;
use sexp_canonical::Bytes;
use sexp_keys::{KeyFault, KeyList};
use std::alloc::Global;

/// The bytes of a key's file, and the key that they are.
#[derive(Drop)]
pub(crate) struct KeyFile {
    pub(crate) bytes: Bytes,
    pub(crate) key: KeyList,
}

/// Whether a key's file is there.
pub(crate) fn has_file<K: Keys>(alloc: Global, grip: &Grip, keys: &mut K) -> Result<bool, Refusal>
    ensures { DoesKeyCalls (Finds grip.now) (K.keys keys.old) result (K.keys keys.new) }
{
    match keys.read(alloc, grip) {
        KeyRead::Found(file) => {
            drop(Bytes::from(file));
            Ok(true)
        }
        KeyRead::Absent => Ok(false),
        KeyRead::Failed => Err(Refusal::Agent(Code::General)),
        KeyRead::NoMemory => Err(Refusal::Agent(Code::NoMemory)),
    }
}

/// Reads a key's file, which has to be there.
pub(crate) fn read_file<K: Keys>(
    alloc: Global,
    grip: &Grip,
    keys: &mut K,
) -> Result<KeyFile, Refusal>
    ensures reads { DoesKeyCalls (ReadsFile grip.now) (K.keys keys.old) result (K.keys keys.new) }
    ensures key { IfOk result (λ file. IsSomeKey file.bytes) }
    ensures fits { IfOk result (λ file. FitsFile file.key) }
{
    let bytes = match keys.read(alloc, grip) {
        KeyRead::Found(file) => Bytes::from(file),
        KeyRead::Absent => return Err(Refusal::Agent(Code::NoSecKey)),
        KeyRead::Failed => return Err(Refusal::Agent(Code::General)),
        KeyRead::NoMemory => return Err(Refusal::Agent(Code::NoMemory)),
    };
    match file_key(alloc, bytes.as_slice()) {
        Ok(key) => Ok(KeyFile { bytes, key }),
        Err(fault) => Err(Refusal::Agent(fault_code(fault))),
    }
}

/// Reads the file of a key that was listed. `None` where it isn't there any more, or is no key.
pub(crate) fn read_listed<K: Keys>(
    alloc: Global,
    grip: &Grip,
    keys: &mut K,
) -> Result<Option<KeyList>, Refusal>
    ensures { DoesKeyCalls (ReadsListed grip.now) (K.keys keys.old) result (K.keys keys.new) }
{
    let bytes = match keys.read(alloc, grip) {
        KeyRead::Found(file) => Bytes::from(file),
        KeyRead::Absent => return Ok(None),
        KeyRead::Failed => return Err(Refusal::Agent(Code::General)),
        KeyRead::NoMemory => return Err(Refusal::Agent(Code::NoMemory)),
    };
    match file_key(alloc, bytes.as_slice()) {
        Ok(key) => Ok(Some(key)),
        Err(fault) => unlisted(fault),
    }
}

/// A listed key whose file has this fault is passed over, unless memory was wanted.
fn unlisted(fault: KeyFault) -> Result<Option<KeyList>, Refusal>
    ensures { result ≡ unlisted fault }
{
    match fault {
        KeyFault::NoMemory => Err(Refusal::Agent(Code::NoMemory)),
        KeyFault::InvSexp | KeyFault::BadSecKey | KeyFault::Shadowed | KeyFault::NotSupported => {
            Ok(None)
        }
    }
}

/// Makes this the file of a key, also where it has none yet.
pub(crate) fn replace_file<K: Keys>(
    alloc: Global,
    grip: &Grip,
    file: &[u8],
    keys: &mut K,
) -> Result<(), Refusal>
    requires { length file.now ≤ MAX_KEY_FILE_LEN }
    ensures { DoesKeyCalls (Replaces grip.now file.now) (K.keys keys.old) result (K.keys keys.new) }
{
    changed(keys.replace(alloc, grip, file))
}

/// Removes the file of a key.
pub(crate) fn remove_file<K: Keys>(alloc: Global, grip: &Grip, keys: &mut K) -> Result<(), Refusal>
    ensures { DoesKeyCalls (Removes grip.now) (K.keys keys.old) result (K.keys keys.new) }
{
    changed(keys.remove(alloc, grip))
}

/// How a request goes on after a change of a key's file.
fn changed(done: KeyDone) -> Result<(), Refusal>
    ensures { IsChanged done result }
{
    match done {
        KeyDone::Done => Ok(()),
        KeyDone::Absent => Err(Refusal::Agent(Code::NoSecKey)),
        KeyDone::Failed => Err(Refusal::Agent(Code::General)),
        KeyDone::NoMemory => Err(Refusal::Agent(Code::NoMemory)),
    }
}

/// The keys that there are.
pub(crate) fn list_grips<K: Keys>(alloc: Global, keys: &mut K) -> Result<Vec<Grip>, Refusal>
    ensures listed { IfOk result
        (λ grips. DoesKeyCalls ListsGrips (K.keys keys.old) (Ok grips.items) (K.keys keys.new)) }
    ensures refused { IfErr result
        (λ why. DoesKeyCalls ListsGrips (K.keys keys.old) (Err why) (K.keys keys.new)) }
{
    match keys.list(alloc) {
        KeyNames::Names(grips) => Ok(grips),
        KeyNames::Failed => Err(Refusal::Agent(Code::General)),
        KeyNames::NoMemory => Err(Refusal::Agent(Code::NoMemory)),
    }
}
