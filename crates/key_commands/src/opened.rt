//! Keys that a passphrase opens, and the test of a prompt by which it does. Ciphers over memory of
//! their own, and no port; a clear key is overwritten when it is dropped. Begin with `OpensKey`,
//! the `Test` that a prompt is given, and `try_pass`; definitions are in `specs/Trials` and
//! `specs/Passphrases`.

ghost use Rattle.std.specs.Prelude.{◌≡◌, IfOk, IfSome};
ghost use Rattle.secret_file.specs.Opens.{FitsFile};
ghost use Rattle.key_commands.specs.Passphrases.{Locks, TriesPassphrase, TriesFound};
ghost use Rattle.key_commands.specs.{Steps.DoesAlone, Trials.IsUsable};

use crate::faults::fault_code;
use agent_ask::{Test, Tested};
use assuan_server::Code;
use cache_policy::Secret;
use secret_file::{Locked, Opened};
use session_client::Refusal;
use sexp_keys::KeyList;
use std::alloc::Global;

/// A clear key, which is overwritten when it is dropped.
#[derive(Drop)]
pub(crate) struct OpenedKey {
    pub(crate) key: KeyList,
    /// The passphrase by which it was opened, where it needed one.
    pub(crate) by: Option<Secret>,
}

/// A protected key by its protection, whose faults no passphrase decides.
pub(crate) fn lock_of(alloc: Global, key: KeyList) -> Result<Locked, Refusal>
    requires { FitsFile key }
    ensures { DoesAlone (Locks key) result }
{
    match Locked::of(alloc, key) {
        Ok(locked) => Ok(locked),
        Err(fault) => Err(Refusal::Agent(fault_code(fault))),
    }
}

/// Tries a passphrase on a locked key: the clear key, or none where it doesn't open it.
pub(crate) fn try_pass(
    alloc: Global,
    locked: &Locked,
    pass: Secret,
) -> Result<Option<OpenedKey>, Refusal>
    ensures tries { DoesAlone (TriesPassphrase locked.now pass) result }
    ensures usable { IfOk result (λ found. IfSome found (λ opened. IsUsable opened.key)) }
{
    match locked.open(alloc, pass.bytes()) {
        Opened::Key(key) => Ok(Some(OpenedKey {
            key,
            by: Some(pass),
        })),
        Opened::BadPassphrase => Ok(None),
        Opened::NoMemory => Err(Refusal::Agent(Code::NoMemory)),
    }
}

/// Tries a passphrase that was found, where one was.
pub(crate) fn try_found(
    alloc: Global,
    locked: &Locked,
    found: Option<Secret>,
) -> Result<Option<OpenedKey>, Refusal>
    ensures tries { DoesAlone (TriesFound locked.now found) result }
    ensures usable { IfOk result (λ found. IfSome found (λ opened. IsUsable opened.key)) }
{
    match found {
        Some(pass) => try_pass(alloc, locked, pass),
        None => Ok(None),
    }
}

/// The test of a prompt: a passphrase is right that opens a locked key. What it opened last is
/// kept.
#[derive(Drop)]
pub(crate) struct OpensKey<'l> {
    pub(crate) alloc: Global,
    pub(crate) locked: &'l Locked,
    pub(crate) opened: Option<KeyList>,
}

impl<'l> OpensKey<'l> {
    /// What it opened last.
    pub(crate) fn into_opened(self) -> Option<KeyList>
        ensures { result ≡ self.entry.opened }
    {
        let OpensKey { opened, .. } = self;
        opened
    }
}

impl<'l> Test for OpensKey<'l> {
    ghost use Rattle.key_commands.specs.{Passphrases.OpensBy, Trials.{IsTrial, trial_means}};

    ghost rule = { λ test pin. OpensBy test.locked.now pin };

    ghost tested = { λ before pin answer after.
        IsTrial before.locked.now pin answer after.locked.now after.opened };

    ghost promise = { λ before pin answer after trial.
        trial_means before.locked.now pin answer after.locked.now after.opened trial };

    fn accepts(&mut self, pin: &Secret) -> Tested {
        match self.locked.open(self.alloc, pin.bytes()) {
            Opened::Key(key) => {
                self.opened = Some(key);
                Tested::Yes
            }
            Opened::BadPassphrase => Tested::No,
            Opened::NoMemory => Tested::NoMemory,
        }
    }
}
