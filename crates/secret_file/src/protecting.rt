//! A clear key is protected: its secret parameters are spelled, encrypted under the passphrase's
//! key, and put in a file's list. It takes memory, and overwrites keys and clear texts; salts and
//! vectors are the caller's. Begin with `protect`; `protected_file` of `specs/Protects` is the
//! file.

ghost use Rattle.std.specs.Prelude.{◌≡◌, ◌≤◌, ◌%◌, ◌+◌, ◌<◌, ℕ, [], ◌∷◌, ◌++◌, length, IfOk};
ghost use Rattle.std.specs.{Prelude.{IfSome, OnOk, IsTrue}, List.flat_map, Option.option_copied};
ghost use Rattle.sexp_canonical.specs.{Tree.{leaf, list_of}, declared.tree.Sexp.Sexp};
ghost use Rattle.sexp_canonical.specs.View.{tree_of, trees};
ghost use Rattle.sexp_canonical.specs.Spelling.{most_depth, depth, spelling, numeral};
ghost use Rattle.s2k_derive.specs.S2k.{derived_key};
ghost use Rattle.s2k_derive.specs.declared.TheConstants.{MAX_PASSPHRASE_LEN, MIN_COUNT, MAX_COUNT};
ghost use Rattle.aes_modes.specs.{Cbc.{cbc_encrypted, cbc_decrypted}, Ocb.ocb_sealed};
ghost use Rattle.sexp_keys.specs.{Names.time_name, Key.key_tree, Lists.{key_list_of, time_lists}};
ghost use Rattle.secret_file.specs.Protection.{iv_of, hashing_tree, derivation_tree};
ghost use Rattle.secret_file.specs.Opens.{hash_tree, AreSealed, Opens};
ghost use Rattle.secret_file.specs.Protects.{padded, secret_text, sealed_text, written_protection};
ghost use Rattle.secret_file.specs.Protects.{cbc_protection, ocb_protection, protected_file};

use crate::cipher::Cipher;
use crate::protection::{HASH_NAME, PROTECTED, Protection, protection_name};
use crate::secrets::digest_of;
use aes_modes::{cbc_encrypt, decryption_undoes_encryption, ocb_encrypt};
use itoa::Buffer;
use s2k_derive::derive;
use sexp_canonical::{Bytes, Sexp, append_atom, append_list};
use sexp_keys::KeyList;
use std::alloc::{AllocError, Global};
use wiping::wipe;

const BLOCK_LEN: usize = 16;

/// `((secret..)(hash sha1 digest))`
fn secret_text(alloc: Global, key: &KeyList, time: Option<&[u8]>) -> Result<Bytes, AllocError>
    requires { IsTrue key.now.is_clear }
    ensures text { IfOk result (λ text. text ≡ secret_text key.now (option_copied time.entry)) }
    ensures len { IfOk result
        (λ text. length text ≤ length (flat_map spelling key.now.private) + 52) }
{
    let digest = digest_of(alloc, key, time)?;
    let mut text = Bytes::new(alloc);
    text.extend_from_slice(b"(")?;
    append_list(&mut text, key.private())?;
    append_hash(&mut text, &digest)?;
    text.extend_from_slice(b")")?;
    Ok(text)
}

fn append_hash(text: &mut Bytes, digest: &[u8]) -> Result<(), AllocError>
    ensures { OnOk result (text.new ≡ text.old ++ spelling (hash_tree digest.now)) }
{
    text.extend_from_slice(b"(")?;
    append_atom(text, b"hash")?;
    append_atom(text, HASH_NAME)?;
    append_atom(text, digest)?;
    text.extend_from_slice(b")")?;
    Ok(())
}

// The text with the fewest bytes that fill its last block.
fn pad(text: &mut Bytes, padding: &[u8; 16]) -> Result<(), AllocError>
    ensures padded { OnOk result (text.new ≡ padded text.old padding.now) }
    ensures whole { OnOk result (length text.new % 16 ≡ 0) }
{
    let len = (BLOCK_LEN - text.as_slice().len() % BLOCK_LEN) % BLOCK_LEN;
    text.extend_from_slice(&padding[..len])
}

// A fact: decryption gives these bytes back.
fn is_undone(key: &[u8; 16], iv: &[u8; 16], plain: &[u8])
    requires { length plain.now % 16 ≡ 0 }
    ensures { cbc_decrypted key.now iv.now (cbc_encrypted key.now iv.now plain.now) ≡ plain.now }
{
    decryption_undoes_encryption();
}

// Encrypts the bytes in their place.
fn encrypted_by(pass: &[u8], salt: &[u8; 8], count: u64, iv: &[u8; 16], plain: Bytes) -> Vec<u8>
    requires short { length pass.now ≤ MAX_PASSPHRASE_LEN }
    requires bounded { count ≤ MAX_COUNT }
    requires whole { length plain % 16 ≡ 0 }
    ensures value { result.items
        ≡ cbc_encrypted (derived_key pass.now salt.now count) iv.now plain }
    ensures undone { let key = derived_key pass.now salt.now count in
        cbc_decrypted key iv.now (cbc_encrypted key iv.now plain) ≡ plain }
    ensures len { length result.items ≡ length plain }
{
    let mut bytes = plain.into_vec();
    let mut key = derive(pass, salt, count);
    is_undone(&key, iv, bytes.as_slice());
    cbc_encrypt(&key, iv, bytes.as_mut_slice());
    wipe(&mut key);
    bytes
}

/// `((secret..))`
fn sealed_text(alloc: Global, key: &KeyList) -> Result<Bytes, AllocError>
    ensures { IfOk result (λ text. text ≡ sealed_text key.now) }
{
    let mut text = Bytes::new(alloc);
    text.extend_from_slice(b"(")?;
    append_list(&mut text, key.private())?;
    text.extend_from_slice(b")")?;
    Ok(text)
}

// Encrypts the bytes in their place, and appends their tag.
fn sealed_by(
    pass: &[u8],
    salt: &[u8; 8],
    count: u64,
    iv: &[u8; 12],
    assoc: &[u8],
    plain: Bytes,
) -> Result<Vec<u8>, AllocError>
    requires pass { length pass.now ≤ MAX_PASSPHRASE_LEN }
    requires bounded { count ≤ MAX_COUNT }
    requires assoc { length assoc.now ≤ 65536 }
    requires short { length plain ≤ 65536 }
    ensures value { IfOk result (λ bytes.
        bytes.items ≡ ocb_sealed (derived_key pass.now salt.now count) iv.now assoc.now plain) }
    ensures sealed { IfOk result (λ bytes.
        AreSealed (derived_key pass.now salt.now count) iv.now assoc.now bytes.items plain) }
    ensures len { IfOk result (λ bytes. length bytes.items ≡ length plain + 16) }
{
    let mut bytes = plain.into_vec();
    let mut key = derive(pass, salt, count);
    let tag = ocb_encrypt(&key, iv, assoc, bytes.as_mut_slice());
    wipe(&mut key);
    bytes.extend_from_slice(&tag)?;
    Ok(bytes)
}

fn count_atom(alloc: Global, count: u64) -> Result<Sexp, AllocError>
    ensures { IfOk result (λ tree. tree ≡ Sexp.Atom (numeral count)) }
{
    let mut buffer = Buffer::new();
    let tree = Sexp::atom(alloc, buffer.format(count).as_bytes())?;
    Ok(tree)
}

fn hashing_list(alloc: Global, salt: &[u8; 8], count: u64) -> Result<Sexp, AllocError>
    ensures { IfOk result (λ tree. tree_of tree ≡ hashing_tree salt.now (numeral count)) }
{
    let items = vec![in alloc;
        Sexp::atom(alloc, HASH_NAME)?,
        Sexp::atom(alloc, salt)?,
        count_atom(alloc, count)?,
    ]?;
    Ok(Sexp::list(items))
}

fn iv_of(cipher: &Cipher) -> &[u8]
    ensures { result.now ≡ iv_of cipher.now }
{
    match cipher {
        Cipher::Cbc(iv) => iv,
        Cipher::Ocb(iv) => iv,
    }
}

fn derivation_list(alloc: Global, hashing: Sexp, cipher: &Cipher) -> Result<Sexp, AllocError>
    ensures { IfOk result
        (λ tree. tree_of tree ≡ derivation_tree (tree_of hashing) (iv_of cipher.now)) }
{
    let items = vec![in alloc; hashing, Sexp::atom(alloc, iv_of(cipher))?]?;
    Ok(Sexp::list(items))
}

fn protection_list(alloc: Global, p: &Protection<'_>) -> Result<Sexp, AllocError>
    ensures { IfOk result (λ tree. tree_of tree ≡ written_protection (record {
      salt = p.now.salt;
      count = p.now.count;
      cipher = p.now.cipher;
      encrypted = p.now.encrypted.now;
    })) }
{
    let hashing = hashing_list(alloc, &p.salt, p.count)?;
    let derivation = derivation_list(alloc, hashing, &p.cipher)?;
    let items = vec![in alloc;
        Sexp::atom(alloc, PROTECTED)?,
        Sexp::atom(alloc, protection_name(p.cipher))?,
        derivation,
        Sexp::atom(alloc, p.encrypted)?,
    ]?;
    Ok(Sexp::list(items))
}

fn time_list(alloc: Global, time: &[u8]) -> Result<Sexp, AllocError>
    ensures { IfOk result (λ tree. tree_of tree ≡ list_of (leaf time_name ∷ leaf time.now ∷ [])) }
{
    let items = vec![in alloc;
        Sexp::atom(alloc, b"protected-at")?,
        Sexp::atom(alloc, time)?,
    ]?;
    Ok(Sexp::list(items))
}

// The lists of a protected key.
fn private_lists(
    alloc: Global,
    p: &Protection<'_>,
    time: Option<&[u8]>,
) -> Result<Vec<Sexp>, AllocError>
    ensures { IfOk result (λ lists. trees lists.items ≡ written_protection (record {
      salt = p.now.salt;
      count = p.now.count;
      cipher = p.now.cipher;
      encrypted = p.now.encrypted.now;
    }) ∷ time_lists (option_copied time.entry)) }
{
    let protection = protection_list(alloc, p)?;
    match time {
        Some(time) => Ok(vec![in alloc; protection, time_list(alloc, time)?]?),
        None => Ok(vec![in alloc; protection]?),
    }
}

fn slice_of(time: Option<&[u8; 15]>) -> Option<&[u8]>
    ensures value { option_copied result ≡ option_copied time.entry }
    ensures len { IfSome (option_copied result) (λ time. length time ≡ 15) }
{
    match time {
        Some(time) => Some(bytes_of(time)),
        None => None,
    }
}

fn bytes_of(time: &[u8; 15]) -> &[u8]
    ensures value { result.now ≡ time.now }
    ensures len { length result.now ≡ 15 }
{
    time
}

// The file of a key that is protected so.
fn file_of(
    alloc: Global,
    key: &KeyList,
    p: &Protection<'_>,
    time: Option<&[u8]>,
) -> Result<Vec<u8>, AllocError>
    ensures { IfOk result (λ file. file.items ≡ protected_file key.now (record {
      salt = p.now.salt;
      count = p.now.count;
      cipher = p.now.cipher;
      encrypted = p.now.encrypted.now;
    }) (option_copied time.entry)) }
{
    let lists = private_lists(alloc, p, time)?;
    key.protected_list(alloc, lists.as_slice())
}

/// A protected key file of a clear key, by OCB. The salt and the initialization vector should be
/// random, and no vector is used twice under a passphrase and a salt. The count is that of the
/// bytes that are hashed; the time is one of ISO 8601, as `20240101T000000`.
pub fn protect(
    alloc: Global,
    key: &KeyList,
    pass: &[u8],
    salt: &[u8; 8],
    iv: &[u8; 12],
    count: u64,
    time: Option<&[u8; 15]>,
) -> Result<Vec<u8>, AllocError>
    requires clear { IsTrue key.now.is_clear }
    requires short { length (key_list_of key.now) ≤ 65000 }
    requires shallow { depth (key_tree key.now) ≤ most_depth }
    requires pass { length pass.now ≤ MAX_PASSPHRASE_LEN }
    requires least { MIN_COUNT ≤ count }
    requires greatest { count ≤ MAX_COUNT }
    ensures file { IfOk result (λ file. file.items ≡ protected_file key.now
        (ocb_protection key.now pass.now salt.now iv.now count (option_copied time.entry))
        (option_copied time.entry)) }

    // The file opens by the passphrase to the key.
    ensures opens { IfOk result (λ file. Opens file.items pass.now key.now) }
{
    let is_clear = key.is_clear();
    prove!(is_clear);
    let time = slice_of(time);
    let text = sealed_text(alloc, key)?;
    let assoc = key.associated_list(alloc, time)?;
    let encrypted = sealed_by(pass, salt, count, iv, assoc.as_slice(), text)?;
    let protection = Protection {
        salt: *salt,
        count,
        cipher: Cipher::Ocb(*iv),
        encrypted: encrypted.as_slice(),
    };
    file_of(alloc, key, &protection, time)
}

/// A protected key file of a clear key, by CBC, as it was written before. The padding, of which the
/// fewest bytes are taken, should be random too.
pub fn protect_cbc(
    alloc: Global,
    key: &KeyList,
    pass: &[u8],
    salt: &[u8; 8],
    iv: &[u8; 16],
    padding: &[u8; 16],
    count: u64,
    time: Option<&[u8; 15]>,
) -> Result<Vec<u8>, AllocError>
    requires clear { IsTrue key.now.is_clear }
    requires short { length (key_list_of key.now) ≤ 65000 }
    requires shallow { depth (key_tree key.now) ≤ most_depth }
    requires pass { length pass.now ≤ MAX_PASSPHRASE_LEN }
    requires least { MIN_COUNT ≤ count }
    requires greatest { count ≤ MAX_COUNT }
    ensures file { IfOk result
        (λ file. file.items ≡ protected_file key.now (cbc_protection key.now pass.now salt.now
        iv.now padding.now count (option_copied time.entry)) (option_copied time.entry)) }

    // The file opens by the passphrase to the key.
    ensures opens { IfOk result (λ file. Opens file.items pass.now key.now) }
{
    let is_clear = key.is_clear();
    prove!(is_clear);
    let time = slice_of(time);
    let mut text = secret_text(alloc, key, time)?;
    pad(&mut text, padding)?;
    let encrypted = encrypted_by(pass, salt, count, iv, text);
    let protection = Protection {
        salt: *salt,
        count,
        cipher: Cipher::Cbc(*iv),
        encrypted: encrypted.as_slice(),
    };
    file_of(alloc, key, &protection, time)
}
