//! How a protected key is protected: the name of the protection, the salt and count by which a
//! passphrase gives the key, and what is encrypted. Pure, over slices of the key's lists. Begin
//! with `protection_of`; `IsProtection` of `specs/Protection` has the form.

ghost use Rattle.std.specs.Prelude.{◌≡◌, ℕ, List, [], ◌∷◌, drop, length, IfOk, IfErr, IfSome};
ghost use Rattle.std.specs.{Prelude.{IfNone, IsTrue, ◌↔◌}, Option.option_copied};
ghost use Rattle.sexp_canonical.specs.{View.{tree_of, trees}, Tree.Tree};
ghost use Rattle.secret_file.specs.Protection.{hash_name, protection_name, derivation_tree};
ghost use Rattle.secret_file.specs.Protection.{is_other, is_unknown, first_items, has_other_name};
ghost use Rattle.secret_file.specs.Protection.{AreOctets, IsCount, IsHashing, IsProtection};
ghost use Rattle.secret_file.specs.Protection.{IsProtectionFault};
ghost use Rattle.secret_file.specs.{Opens.{first_of, time_in, time_of}, Steps.IsCipher};
ghost use Rattle.secret_file.specs.declared.cipher.Cipher.{Cipher};
ghost use Rattle.secret_file.specs.Protection as parts;

use crate::cipher::Cipher;
use crate::parts::{array_of, behind_name, only_atom, split_atom, split_tree};
use assuan_text::number_of;
use itoa::Buffer;
use s2k_derive::count_of;
use sexp_canonical::Sexp;
use sexp_keys::KeyFault;

pub(crate) const PROTECTED: &[u8] = b"protected";

const CBC_NAME: &[u8] = b"openpgp-s2k3-sha1-aes-cbc";

const OCB_NAME: &[u8] = b"openpgp-s2k3-ocb-aes";

pub(crate) const HASH_NAME: &[u8] = b"sha1";

/// How many bytes the tag of OCB has.
pub(crate) const TAG_LEN: usize = 16;

/// The name of a protection.
pub(crate) fn protection_name(cipher: Cipher) -> &'static [u8]
    ensures { result.now ≡ protection_name cipher }
{
    match cipher {
        Cipher::Cbc(_) => CBC_NAME,
        Cipher::Ocb(_) => OCB_NAME,
    }
}

fn is_other(name: &[u8], lists: &[Sexp]) -> bool
    ensures { result ≡ is_other name.now (trees lists.now) }
{
    match lists {
        [Sexp::Atom(first), ..] => first.as_slice() != name,
        _ => false,
    }
}

fn first_items(lists: &[Sexp]) -> &[Sexp]
    ensures { trees result.now ≡ first_items (trees lists.now) }
{
    match lists {
        [first, ..] => first.items(),
        [] => &[],
    }
}

fn has_other_name(tree: &Sexp) -> bool
    ensures { result ≡ has_other_name (tree_of tree.now) }
{
    match tree.items() {
        [_, others @ ..] => is_unknown(others) || has_other_hash(others),
        [] => false,
    }
}

fn is_unknown(others: &[Sexp]) -> bool
    ensures { result ≡ is_unknown (trees others.now) }
{
    is_other(CBC_NAME, others) && is_other(OCB_NAME, others)
}

// The same of the items behind the first.
fn has_other_hash(others: &[Sexp]) -> bool
    ensures { result ≡ is_other hash_name (first_items (first_items (drop 1 (trees others.now)))) }
{
    match others {
        [_, lists @ ..] => is_other(HASH_NAME, first_items(first_items(lists))),
        [] => false,
    }
}

// The count of bytes to hash, as it is written.
fn count_in(digits: &[u8]) -> Option<u64>
    ensures found { IfSome result (IsCount digits.now) }
    ensures none { IfNone result ((count : ℕ) → IsCount digits.now count → ⊥) }
{
    let number = number_of(digits)?;
    let mut buffer = Buffer::new();
    if buffer.format(number).as_bytes() != digits {
        return None;
    }
    count_of(number)
}

// The salt and the count of `(sha1 salt count)`.
fn hashing_of(list: &Sexp) -> Option<([u8; 8], u64)>
    ensures found { IfSome result (λ h. IsHashing (tree_of list.now) h.0 h.1) }
    ensures none { IfNone result
        ((salt : List ℕ) (count : ℕ) → IsHashing (tree_of list.now) salt count → ⊥) }
{
    let behind = behind_name(HASH_NAME, list.items())?;
    let (salt, behind) = split_atom(behind)?;
    let digits = only_atom(behind)?;
    Some((array_of(salt)?, count_in(digits)?))
}

// The first list of `(hashing iv)`, and the initialization vector.
fn derivation_of(list: &Sexp) -> Option<(&Sexp, &[u8])>
    ensures found { IfSome result
        (λ d. tree_of list.now ≡ derivation_tree (tree_of d.0.now) d.1.now) }
    ensures none { IfNone result
        ((hashing : Tree) (iv : List ℕ) → tree_of list.now ≡ derivation_tree hashing iv → ⊥) }
{
    let (hashing, behind) = split_tree(list.items())?;
    Some((hashing, only_atom(behind)?))
}

// The cipher of this name and this initialization vector.
fn cipher_of(name: &[u8], iv: &[u8]) -> Option<Cipher>
    ensures found { IfSome result (λ cipher. IsCipher name.now iv.now cipher) }
    ensures none { IfNone result ((cipher : Cipher) → IsCipher name.now iv.now cipher → ⊥) }
{
    if name == CBC_NAME {
        Some(Cipher::Cbc(array_of(iv)?))
    } else if name == OCB_NAME {
        Some(Cipher::Ocb(array_of(iv)?))
    } else {
        None
    }
}

/// The time of a protection, where there is one.
pub(crate) fn time_of(lists: &[Sexp]) -> Option<&[u8]>
    ensures { option_copied result ≡ time_of (trees lists.now) }
{
    match lists {
        [_, list, ..] => time_in(list.items()),
        _ => None,
    }
}

fn time_in(items: &[Sexp]) -> Option<&[u8]>
    ensures { option_copied result ≡ time_in (trees items.now) }
{
    match items {
        [_, Sexp::Atom(time), ..] => Some(time.as_slice()),
        _ => None,
    }
}

/// The parts of a protection.
#[derive(Clone, Copy)]
pub(crate) struct Protection<'a> {
    pub(crate) salt: [u8; 8],
    pub(crate) count: u64,
    pub(crate) cipher: Cipher,
    pub(crate) encrypted: &'a [u8],
}

/// The protection that the first of the lists of a protected key is.
pub(crate) fn protection_of(lists: &[Sexp]) -> Result<Protection<'_>, KeyFault>
    ensures found { IfOk result (λ p. IsProtection (first_of (trees lists.now)) (record {
      salt = p.salt;
      count = p.count;
      cipher = p.cipher;
      encrypted = p.encrypted.now;
    })) }
    ensures fault { IfErr result (IsProtectionFault (first_of (trees lists.now))) }
{
    let Some((list, _)) = split_tree(lists) else {
        return Err(KeyFault::BadSecKey);
    };
    protection_in(list)
}

fn protection_in(list: &Sexp) -> Result<Protection<'_>, KeyFault>
    ensures found { IfOk result (λ p. IsProtection (tree_of list.now) (record {
      salt = p.salt;
      count = p.count;
      cipher = p.cipher;
      encrypted = p.encrypted.now;
    })) }
    ensures fault { IfErr result (IsProtectionFault (tree_of list.now)) }
{
    if has_other_name(list) {
        return Err(KeyFault::NotSupported);
    }
    match shaped(list) {
        Some(protection) => Ok(protection),
        None => Err(KeyFault::BadSecKey),
    }
}

// The protection, where the list has all its parts.
fn shaped(list: &Sexp) -> Option<Protection<'_>>
    ensures found { IfSome result (λ p. IsProtection (tree_of list.now) (record {
      salt = p.salt;
      count = p.count;
      cipher = p.cipher;
      encrypted = p.encrypted.now;
    })) }
    ensures none { IfNone result ((p : parts.Protection) → IsProtection (tree_of list.now) p → ⊥) }
{
    let behind = behind_name(PROTECTED, list.items())?;
    let (name, behind) = split_atom(behind)?;
    let (derivation, behind) = split_tree(behind)?;
    let encrypted = only_atom(behind)?;
    let (hashing, iv) = derivation_of(derivation)?;
    let cipher = cipher_of(name, iv)?;
    let (salt, count) = hashing_of(hashing)?;
    if !are_octets(cipher, encrypted) {
        return None;
    }
    Some(Protection {
        salt,
        count,
        cipher,
        encrypted,
    })
}

fn are_octets(cipher: Cipher, bytes: &[u8]) -> bool
    ensures { IsTrue result ↔ AreOctets cipher bytes.now }
{
    match cipher {
        Cipher::Cbc(_) => !bytes.is_empty() && bytes.len().is_multiple_of(16),
        Cipher::Ocb(_) => bytes.len() > TAG_LEN,
    }
}
