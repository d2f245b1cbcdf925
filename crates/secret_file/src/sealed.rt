//! What is encrypted by OCB: the secret parameters of a key. It decrypts in memory that is
//! overwritten, and touches nothing else. Begin with `unsealed_key`; `AreSealed` of `specs/Opens`
//! says which bytes open, and `IsOpening` of `specs/Steps` to which key.

ghost use Rattle.std.specs.Prelude.{◌≡◌, ◌<◌, ◌≤◌, ℕ, List, [], ◌∷◌, ◌++◌, length, false, IsTrue};
ghost use Rattle.std.specs.Prelude.{IfOk, IfErr, IfSome, IfNone};
ghost use Rattle.s2k_derive.specs.S2k.{derived_key};
ghost use Rattle.s2k_derive.specs.declared.TheConstants.{MAX_PASSPHRASE_LEN, MAX_COUNT};
ghost use Rattle.sexp_canonical.specs.{Tree.{Tree, list_of}, View.{tree_of, trees}};
ghost use Rattle.sexp_canonical.specs.Spelling.{most_bytes, most_depth, depth, spelling};
ghost use Rattle.sexp_keys.specs.{Lists.key_list_of, declared.fault.KeyFault.KeyFault};
ghost use Rattle.secret_file.specs.{Opens.{sealed_tree, AreSealed}, Steps.IsOpening};
ghost use Rattle.secret_file.specs.declared.cipher.Cipher.{Cipher};

use crate::parts::{array_of, front_of, only};
use crate::protection::{Protection, TAG_LEN, time_of};
use aes_modes::ocb_decrypt;
use s2k_derive::derive;
use sexp_canonical::{Bytes, Items, Sexp};
use sexp_keys::{KeyFault, KeyList};
use std::alloc::{AllocError, Global};
use wiping::wipe;

// Decrypts bytes in their place, and answers whether the tag is theirs.
fn unseal(key: &[u8; 16], iv: &[u8; 12], assoc: &[u8], bytes: &mut [u8], tag: &[u8; 16]) -> bool
    requires assoc { length assoc.now ≤ most_bytes }
    requires within { length bytes.old ≤ most_bytes }
    ensures sealed { IsTrue result
        → AreSealed key.now iv.now assoc.now (bytes.old ++ tag.now) bytes.new }
    ensures none { result ≡ false → (plain : List ℕ)
        → AreSealed key.now iv.now assoc.now (bytes.old ++ tag.now) plain → ⊥ }
{
    ocb_decrypt(key, iv, assoc, bytes, tag)
}

// The bytes behind which their tag stands, where it is theirs under the key of the passphrase.
fn unsealed(
    alloc: Global,
    protection: &Protection<'_>,
    iv: &[u8; 12],
    assoc: &[u8],
    pass: &[u8],
) -> Result<Option<Bytes>, AllocError>
    requires short { length pass.now ≤ MAX_PASSPHRASE_LEN }
    requires bounded { protection.now.count ≤ MAX_COUNT }
    requires assoc { length assoc.now ≤ most_bytes }
    requires long { 16 < length protection.now.encrypted.now }
    requires within { length protection.now.encrypted.now ≤ most_bytes }
    ensures found { IfOk result (λ found. IfSome found (AreSealed (derived_key pass.now
        protection.now.salt protection.now.count) iv.now assoc.now protection.now.encrypted.now)) }
    ensures none { IfOk result (λ found. IfNone found ((plain : List ℕ)
        → AreSealed (derived_key pass.now protection.now.salt protection.now.count) iv.now assoc.now
        protection.now.encrypted.now plain → ⊥)) }
    ensures len { IfOk result
        (λ found. IfSome found (λ bytes. length bytes ≤ length protection.now.encrypted.now)) }
{
    let (bytes, tag) = protection
        .encrypted
        .split_at(protection.encrypted.len() - TAG_LEN);
    let Some(tag) = array_of(tag) else {
        return Ok(None);
    };
    let mut bytes = Vec::from_slice(alloc, bytes)?;
    let mut key = derive(pass, &protection.salt, protection.count);
    let is_own = unseal(&key, iv, assoc, bytes.as_mut_slice(), &tag);
    wipe(&mut key);
    if !is_own {
        return Ok(None);
    }
    Ok(Some(Bytes::from(bytes)))
}

// The list that is alone in the list that these bytes are.
fn sealed_list(alloc: Global, bytes: &[u8]) -> Result<Option<Items>, KeyFault>
    requires { length bytes.now ≤ most_bytes }
    ensures found { IfOk result
        (λ found. IfSome found (λ secret. bytes.now ≡ spelling (sealed_tree secret))) }
    ensures none { IfOk result
        (λ found. IfNone found ((secret : List Tree) → depth (sealed_tree secret) ≤ most_depth
        → bytes.now ≡ spelling (sealed_tree secret) → ⊥)) }
    ensures fault { IfErr result (λ fault. fault ≡ KeyFault.NoMemory) }
{
    let read = front_of(alloc, bytes)?;
    let Some((tree, len)) = read else {
        return Ok(None);
    };
    if len != bytes.len() {
        return Ok(None);
    }
    Ok(one_list(tree))
}

fn one_list(tree: Sexp) -> Option<Items>
    ensures found { IfSome result (λ secret. tree_of tree ≡ sealed_tree secret) }
    ensures none { IfNone result ((secret : List Tree) → tree_of tree ≡ sealed_tree secret → ⊥) }
{
    let Sexp::List(items) = tree else {
        return None;
    };
    let Sexp::List(secret) = only(items.into_vec())? else {
        return None;
    };
    Some(secret)
}

/// The clear key of a locked one that is protected by OCB, where it opens by the passphrase.
pub(crate) fn unsealed_key(
    alloc: Global,
    locked: &KeyList,
    protection: &Protection<'_>,
    iv: &[u8; 12],
    pass: &[u8],
) -> Result<Option<KeyList>, KeyFault>
    requires short { length pass.now ≤ MAX_PASSPHRASE_LEN }
    requires bounded { protection.now.count ≤ MAX_COUNT }
    requires long { 16 < length protection.now.encrypted.now }
    requires within { length protection.now.encrypted.now ≤ most_bytes }
    requires list { length (key_list_of locked.now) ≤ most_bytes }
    ensures found { IfOk result (IsOpening (record {
      key = locked.now;
      protection = record {
        salt = protection.now.salt;
        count = protection.now.count;
        cipher = Cipher.Ocb iv.now;
        encrypted = protection.now.encrypted.now;
      };
    }) pass.now) }
    ensures fault { IfErr result (λ fault. fault ≡ KeyFault.NoMemory) }
{
    let assoc = locked.associated_list(alloc, time_of(locked.private()))?;
    let found = unsealed(alloc, protection, iv, assoc.as_slice(), pass)?;
    let Some(bytes) = found else {
        return Ok(None);
    };
    let list = sealed_list(alloc, bytes.as_slice())?;
    let Some(secret) = list else {
        return Ok(None);
    };
    Ok(locked.with_secret(alloc, secret)?)
}
