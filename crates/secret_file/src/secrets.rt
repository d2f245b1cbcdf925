//! What is decrypted by CBC: the secret parameters of a key, and the digest of the clear key. It
//! decrypts in memory that is overwritten, and touches nothing else. Begin with `decrypted_key`;
//! `AreSecrets` and `IsOpening` of `specs/Steps` say which bytes open, and to which key.

ghost use Rattle.std.specs.Prelude.{◌≡◌, ◌↔◌, ◌≤◌, ◌%◌, ℕ, List, length, IfOk, IfErr, IfSome};
ghost use Rattle.std.specs.{Prelude.{IfNone, IsTrue}, Option.option_copied};
ghost use Rattle.{sha1.specs.Sha1.sha1, s2k_derive.specs.S2k.derived_key};
ghost use Rattle.s2k_derive.specs.declared.TheConstants.{MAX_PASSPHRASE_LEN, MAX_COUNT};
ghost use Rattle.{aes_modes.specs.Cbc.cbc_decrypted, sexp_canonical.specs.Tree.Tree};
ghost use Rattle.sexp_canonical.specs.View.{tree_of, trees};
ghost use Rattle.sexp_canonical.specs.Spelling.{most_bytes, most_depth, depth};
ghost use Rattle.sexp_keys.specs.{Key.Key, Lists.hashed_list_of, declared.fault.KeyFault.KeyFault};
ghost use Rattle.secret_file.specs.Opens.{hash_tree, secret_tree, AreSpelled};
ghost use Rattle.secret_file.specs.{Steps.{AreSecrets, IsOpening}, declared.cipher.Cipher.Cipher};

use crate::parts::{behind_name, both, front_of, only_atom};
use crate::protection::{HASH_NAME, Protection, time_of};
use aes_modes::cbc_decrypt;
use s2k_derive::derive;
use sexp_canonical::{Bytes, Items, Sexp};
use sexp_keys::{KeyFault, KeyList};
use sha1::Sha1;
use std::alloc::{AllocError, Global};
use wiping::wipe;

// The most bytes behind the expression: a block, which GnuPG adds where the expression fills its
// last one.
const MAX_PADDING: usize = 16;

/// The two lists that are decrypted.
#[derive(Drop)]
pub(crate) struct Secrets {
    pub(crate) secret: Items,
    pub(crate) hash: Sexp,
}

/// The lists that these bytes are, with some padding.
fn secrets_of(alloc: Global, bytes: &[u8]) -> Result<Option<Secrets>, KeyFault>
    requires { length bytes.now ≤ most_bytes }
    ensures found { IfOk result (λ found.
        IfSome found (λ s. AreSpelled bytes.now (secret_tree s.secret (tree_of s.hash)))) }
    ensures none { IfOk result
        (λ found. IfNone found ((secret : List Tree) (hash : Tree) → depth (secret_tree secret hash)
        ≤ most_depth → AreSpelled bytes.now (secret_tree secret hash) → ⊥)) }
    ensures fault { IfErr result (λ fault. fault ≡ KeyFault.NoMemory) }
{
    let read = front_of(alloc, bytes)?;
    let Some((tree, len)) = read else {
        return Ok(None);
    };
    if bytes.len() - len > MAX_PADDING {
        return Ok(None);
    }
    Ok(two_lists(tree))
}

fn two_lists(tree: Sexp) -> Option<Secrets>
    ensures found { IfSome result (λ s. tree_of tree ≡ secret_tree s.secret (tree_of s.hash)) }
    ensures none { IfNone result
        ((secret : List Tree) (hash : Tree) → tree_of tree ≡ secret_tree secret hash → ⊥) }
{
    let Sexp::List(items) = tree else {
        return None;
    };
    let (first, hash) = both(items.into_vec())?;
    let Sexp::List(secret) = first else {
        return None;
    };
    Some(Secrets { secret, hash })
}

// Whether this is `(hash sha1 digest)`.
fn is_hash(tree: &Sexp, digest: &[u8]) -> bool
    ensures { IsTrue result ↔ (tree_of tree.now ≡ hash_tree digest.now) }
{
    match hash_in(tree) {
        Some(found) => found == digest,
        None => false,
    }
}

fn hash_in(tree: &Sexp) -> Option<&[u8]>
    ensures found { IfSome result (λ digest. tree_of tree.now ≡ hash_tree digest.now) }
    ensures none { IfNone result ((digest : List ℕ) → tree_of tree.now ≡ hash_tree digest → ⊥) }
{
    let behind = behind_name(b"hash", tree.items())?;
    let behind = behind_name(HASH_NAME, behind)?;
    let digest = only_atom(behind)?;
    Some(digest)
}

/// The digest of a clear key and the time of its protection.
pub(crate) fn digest_of(
    alloc: Global,
    key: &KeyList,
    time: Option<&[u8]>,
) -> Result<[u8; 20], AllocError>
    requires { IsTrue key.now.is_clear }
    ensures digest { IfOk result
        (λ digest. digest ≡ sha1 (hashed_list_of key.now (option_copied time.entry))) }
    ensures len { IfOk result (λ digest. length digest ≡ 20) }
{
    let text = Bytes::from(key.hashed_list(alloc, time)?);
    Ok(Sha1::digest(text.as_slice()))
}

// The clear key, where these bytes are its secret parameters and its digest.
fn clear_key(alloc: Global, locked: &KeyList, bytes: &[u8]) -> Result<Option<KeyList>, KeyFault>
    requires { length bytes.now ≤ most_bytes }
    ensures found { IfOk result (λ found. IfSome found (AreSecrets locked.now bytes.now)) }
    ensures none { IfOk result
        (λ found. IfNone found ((key : Key) → AreSecrets locked.now bytes.now key → ⊥)) }
    ensures fault { IfErr result (λ fault. fault ≡ KeyFault.NoMemory) }
{
    let secrets = secrets_of(alloc, bytes)?;
    let Some(secrets) = secrets else {
        return Ok(None);
    };
    let Secrets { secret, hash } = secrets;
    let found = locked.with_secret(alloc, secret)?;
    let Some(key) = found else {
        return Ok(None);
    };
    let digest = digest_of(alloc, &key, time_of(locked.private()))?;
    if !is_hash(&hash, &digest) {
        return Ok(None);
    }
    Ok(Some(key))
}

// What the octets are decrypted to by CBC under the key of the passphrase.
fn decrypted(
    alloc: Global,
    protection: &Protection<'_>,
    iv: &[u8; 16],
    pass: &[u8],
) -> Result<Bytes, AllocError>
    requires short { length pass.now ≤ MAX_PASSPHRASE_LEN }
    requires bounded { protection.now.count ≤ MAX_COUNT }
    requires whole { length protection.now.encrypted.now % 16 ≡ 0 }
    ensures value { IfOk result (λ bytes. bytes ≡ cbc_decrypted (derived_key pass.now
        protection.now.salt protection.now.count) iv.now protection.now.encrypted.now) }
    ensures len { IfOk result (λ bytes. length bytes ≡ length protection.now.encrypted.now) }
{
    let mut bytes = Vec::from_slice(alloc, protection.encrypted)?;
    let mut key = derive(pass, &protection.salt, protection.count);
    cbc_decrypt(&key, iv, bytes.as_mut_slice());
    wipe(&mut key);
    Ok(Bytes::from(bytes))
}

/// The clear key of a locked one that is protected by CBC, where it opens by the passphrase.
pub(crate) fn decrypted_key(
    alloc: Global,
    locked: &KeyList,
    protection: &Protection<'_>,
    iv: &[u8; 16],
    pass: &[u8],
) -> Result<Option<KeyList>, KeyFault>
    requires short { length pass.now ≤ MAX_PASSPHRASE_LEN }
    requires bounded { protection.now.count ≤ MAX_COUNT }
    requires whole { length protection.now.encrypted.now % 16 ≡ 0 }
    requires within { length protection.now.encrypted.now ≤ most_bytes }
    ensures found { IfOk result (IsOpening (record {
      key = locked.now;
      protection = record {
        salt = protection.now.salt;
        count = protection.now.count;
        cipher = Cipher.Cbc iv.now;
        encrypted = protection.now.encrypted.now;
      };
    }) pass.now) }
    ensures fault { IfErr result (λ fault. fault ≡ KeyFault.NoMemory) }
{
    let bytes = decrypted(alloc, protection, iv, pass)?;
    clear_key(alloc, locked, bytes.as_slice())
}
