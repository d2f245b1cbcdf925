//! A protected file opened by a passphrase, in one call. It takes memory for the key, which is
//! overwritten, and touches no file. Begin with `unprotect`; `Opens` of `specs/Opens` says which
//! key a file opens to, and `Answers` of `specs/Answers` which fault comes first.

ghost use Rattle.std.specs.Prelude.{◌≡◌, ◌≤◌, ◌⊎◌, ℕ, length, IfOk, IfErr};
ghost use Rattle.s2k_derive.specs.declared.TheConstants.{MAX_PASSPHRASE_LEN};
ghost use Rattle.sexp_keys.specs.{Key.Key, declared.fault.KeyFault.KeyFault};
ghost use Rattle.secret_file.specs.Opens.{FitsFile, IsFile, Opens};
ghost use Rattle.secret_file.specs.Answers.{refused, unlocked, IsFileFault, Answers, AnswersKey};

use crate::locked::{Locked, Opened};
use crate::parts::front_of;
use sexp_keys::{KeyFault, KeyList};
use std::alloc::Global;

/// What became of a protected file and a passphrase.
#[derive(Drop)]
pub enum Unlocked {
    /// The clear key.
    Key(KeyList),
    /// What is decrypted isn't the key of the file.
    BadPassphrase,
    /// The key is clear already.
    NotProtected,
    /// The key is on a smartcard.
    Shadowed,
    /// The parameters or the protection are not of their form.
    BadSecKey,
    /// The form, the algorithm, the protection or its hash isn't one of those that are read.
    NotSupported,
    /// The file isn't one expression to its last byte, or no private key.
    InvSexp,
    /// There was no memory for the key.
    NoMemory,
}

/// Opens a protected key file by a passphrase: `key_of`, `Locked::of` and `Locked::open` in a row.
/// What is decrypted is overwritten, and so is the key when it is dropped.
pub fn unprotect(alloc: Global, file: &[u8], pass: &[u8]) -> Unlocked
    requires { length pass.now ≤ MAX_PASSPHRASE_LEN }

    // The key, or else the first fault. Only a lack of memory may come at any time.
    ensures answer { (result ≡ Unlocked.NoMemory) ⊎ Answers file.now pass.now result }

    // It is the key exactly where the file opens by this passphrase.
    ensures key { (key : Key) → result ≡ Unlocked.Key key → Opens file.now pass.now key }
    ensures opens { (key : Key) → Opens file.now pass.now key
        → (result ≡ Unlocked.NoMemory) ⊎ (result ≡ Unlocked.Key key) }

    // The list of the key is no longer and no deeper than that of a file.
    ensures fits { (key : Key) → result ≡ Unlocked.Key key → FitsFile key }
{
    answer_for_file(alloc, file, pass)
}

fn answer_for_file(alloc: Global, file: &[u8], pass: &[u8]) -> Unlocked
    requires { length pass.now ≤ MAX_PASSPHRASE_LEN }
    ensures answer { (result ≡ Unlocked.NoMemory) ⊎ Answers file.now pass.now result }
    ensures fits { (key : Key) → result ≡ Unlocked.Key key → FitsFile key }
{
    match key_of(alloc, file) {
        Ok(key) => answer_for_key(alloc, key, pass),
        Err(fault) => refused(fault),
    }
}

/// The key, clear or protected, that the whole file is.
pub fn key_of(alloc: Global, file: &[u8]) -> Result<KeyList, KeyFault>
    ensures found { IfOk result (IsFile file.now) }

    // Else the fault is the first one. Only a lack of memory may come at any time.
    ensures fault { IfErr result
        (λ fault. (fault ≡ KeyFault.NoMemory) ⊎ IsFileFault file.now fault) }
    ensures fits { IfOk result FitsFile }
{
    let read = front_of(alloc, file)?;
    let Some((tree, len)) = read else {
        return Err(KeyFault::InvSexp);
    };
    if len != file.len() {
        return Err(KeyFault::InvSexp);
    }
    KeyList::of(alloc, &tree)
}

fn answer_for_key(alloc: Global, key: KeyList, pass: &[u8]) -> Unlocked
    requires short { length pass.now ≤ MAX_PASSPHRASE_LEN }
    requires fits { FitsFile key }
    ensures answer { (result ≡ Unlocked.NoMemory) ⊎ AnswersKey key pass.now result }
    ensures fits { (key : Key) → result ≡ Unlocked.Key key → FitsFile key }
{
    if key.is_clear() {
        return Unlocked::NotProtected;
    }
    match Locked::of(alloc, key) {
        Ok(locked) => answer_of(locked.open(alloc, pass)),
        Err(fault) => refused(fault),
    }
}

fn refused(fault: KeyFault) -> Unlocked
    ensures { result ≡ refused fault }
{
    match fault {
        KeyFault::InvSexp => Unlocked::InvSexp,
        KeyFault::BadSecKey => Unlocked::BadSecKey,
        KeyFault::Shadowed => Unlocked::Shadowed,
        KeyFault::NotSupported => Unlocked::NotSupported,
        KeyFault::NoMemory => Unlocked::NoMemory,
    }
}

fn answer_of(opened: Opened) -> Unlocked
    ensures { result ≡ unlocked opened }
{
    match opened {
        Opened::Key(key) => Unlocked::Key(key),
        Opened::BadPassphrase => Unlocked::BadPassphrase,
        Opened::NoMemory => Unlocked::NoMemory,
    }
}
