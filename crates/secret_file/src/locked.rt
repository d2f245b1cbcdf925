//! A protected key that waits for its passphrase: its protection is read once, and it is opened as
//! often as it is asked. It takes memory for the clear key, which is overwritten. Begin with
//! `Locked::open`; `AnswersOpening` of `specs/Answers` says what comes of it.

ghost use Rattle.std.specs.Prelude.{◌≡◌, ◌≤◌, ◌⊎◌, length, IfOk, IfErr};
ghost use Rattle.s2k_derive.specs.declared.TheConstants.{MAX_PASSPHRASE_LEN, MAX_COUNT};
ghost use Rattle.{sexp_canonical.specs.Spelling.most_bytes, sexp_keys.specs.Key.Key};
ghost use Rattle.sexp_keys.specs.{declared.fault.KeyFault.KeyFault, Lists.key_list_of};
ghost use Rattle.secret_file.specs.Opens.{FitsFile, IsLocked};
ghost use Rattle.secret_file.specs.{Answers.{IsLockedFault, AnswersOpening}, Protection.AreOctets};
ghost use Rattle.secret_file.specs.Steps.{IsOpening, opening_of};

use crate::cipher::Cipher;
use crate::protection::{Protection, protection_of};
use crate::sealed::unsealed_key;
use crate::secrets::decrypted_key;
use sexp_keys::{KeyFault, KeyList};
use std::alloc::Global;
use std::marker::Model;

/// A protected key whose protection is one that is read. It is opened as often as it is asked.
/// Contracts see the key and the parts of its protection.
#[derive(Drop)]
pub struct Locked {
    key: KeyList,
    salt: [u8; 8],
    count: u64,
    cipher: Cipher,
    encrypted: Vec<u8>,
}

impl Model for Locked {
    ghost use Rattle.secret_file.specs.{Opens.{LockedKey, FitsFile, IsLocked}, Codes.locked_code};

    ghost Value = { LockedKey };

    ghost coded = { locked_code };

    ghost view = { λ l. record {
      key = l.key;
      protection = record {
        salt = l.salt;
        count = l.count;
        cipher = l.cipher;
        encrypted = l.encrypted.items;
      };
    } };

    ghost invariant = { λ l. IsLocked (record {
      key = l.key;
      protection = record {
        salt = l.salt;
        count = l.count;
        cipher = l.cipher;
        encrypted = l.encrypted.items;
      };
    }) × FitsFile l.key };
}

/// What became of a locked key and a passphrase.
#[derive(Drop)]
pub enum Opened {
    /// The clear key.
    Key(KeyList),
    /// What is decrypted isn't the locked key.
    BadPassphrase,
    /// There was no memory for the clear key.
    NoMemory,
}

impl Locked {
    /// A protected key by its protection, whose faults no passphrase decides. A clear key is a bad
    /// one here.
    pub fn of(alloc: Global, key: KeyList) -> Result<Locked, KeyFault>
        requires { FitsFile key }
        ensures found { IfOk result (λ locked. (locked.key ≡ key) × IsLocked locked) }

        // Else the fault is the first one. Only a lack of memory may come at any time.
        ensures fault { IfErr result
            (λ fault. (fault ≡ KeyFault.NoMemory) ⊎ IsLockedFault key fault) }
    {
        if key.is_clear() {
            return Err(KeyFault::BadSecKey);
        }
        let protection = match protection_of(key.private()) {
            Ok(protection) => protection,
            Err(fault) => return Err(fault),
        };
        let Protection {
            salt,
            count,
            cipher,
            encrypted,
        } = protection;
        let encrypted = Vec::from_slice(alloc, encrypted)?;
        Ok(Locked {
            key,
            salt,
            count,
            cipher,
            encrypted,
        })
    }

    /// Opens the key by a passphrase. What is decrypted is overwritten, and so is the clear key
    /// when it is dropped.
    pub fn open(&self, alloc: Global, pass: &[u8]) -> Opened
        requires { length pass.now ≤ MAX_PASSPHRASE_LEN }

        // The clear key exactly where the key opens by this passphrase. Only a lack of memory may
        // come at any time.
        ensures answer { (result ≡ Opened.NoMemory) ⊎ AnswersOpening self.now pass.now result }

        // Its list is no longer and no deeper than that of a file.
        ensures fits { (key : Key) → result ≡ Opened.Key key → FitsFile key }
    {
        let protection = self.protection();
        opening_of(opened_key(alloc, &self.key, &protection, pass))
    }

    fn protection(&self) -> Protection<'_>
        ensures parts { self.now.protection ≡ record {
          salt = result.salt;
          count = result.count;
          cipher = result.cipher;
          encrypted = result.encrypted.now;
        } }
        ensures locked { IsLocked self.now }
        ensures fits { FitsFile self.now.key }
        ensures bounded { result.count ≤ MAX_COUNT }
        ensures octets { AreOctets result.cipher result.encrypted.now }
        ensures short { length result.encrypted.now ≤ most_bytes }
    {
        Protection {
            salt: self.salt,
            count: self.count,
            cipher: self.cipher,
            encrypted: self.encrypted.as_slice(),
        }
    }
}

// The clear key, where the locked one opens by the passphrase.
fn opened_key(
    alloc: Global,
    locked: &KeyList,
    protection: &Protection<'_>,
    pass: &[u8],
) -> Result<Option<KeyList>, KeyFault>
    requires short { length pass.now ≤ MAX_PASSPHRASE_LEN }
    requires bounded { protection.now.count ≤ MAX_COUNT }
    requires octets { AreOctets protection.now.cipher protection.now.encrypted.now }
    requires within { length protection.now.encrypted.now ≤ most_bytes }
    requires list { length (key_list_of locked.now) ≤ most_bytes }
    ensures found { IfOk result (IsOpening (record {
      key = locked.now;
      protection = record {
        salt = protection.now.salt;
        count = protection.now.count;
        cipher = protection.now.cipher;
        encrypted = protection.now.encrypted.now;
      };
    }) pass.now) }
    ensures fault { IfErr result (λ fault. fault ≡ KeyFault.NoMemory) }
{
    match &protection.cipher {
        Cipher::Cbc(iv) => decrypted_key(alloc, locked, protection, iv, pass),
        Cipher::Ocb(iv) => unsealed_key(alloc, locked, protection, iv, pass),
    }
}

fn opening_of(found: Result<Option<KeyList>, KeyFault>) -> Opened
    ensures { result ≡ opening_of found }
{
    match found {
        Ok(Some(key)) => Opened::Key(key),
        Ok(None) => Opened::BadPassphrase,
        Err(_) => Opened::NoMemory,
    }
}
