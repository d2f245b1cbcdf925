//! The names of passphrases: the id that a word is, and the one that an askpass makes of its text,
//! by SHA-1. Pure. Begin with `id_of` and `askpass_id`; the form of an id is `is_id` (`specs/Ids`).

ghost use Rattle.std.specs.Prelude.{◌≡◌, true, false, codes, ◌++◌, IfOk, IfErr, length, None, Some};
ghost use Rattle.std.specs.{Prelude.MatchResult, List.list_all};
ghost use Rattle.{hex.specs.Hex.encode_lower, sha1.specs.Sha1.sha1};
ghost use Rattle.passphrase_words.specs.Faults.{fault_text};
ghost use Rattle.passphrase_words.specs.Ids.{is_from, is_id_byte, has_id_form, is_id, askpass_id};
ghost use Rattle.passphrase_words.specs.{Refusals.id_fault, Spelling.begins_with_dash};

use crate::WordsFault;
use crate::task::Id;
use sha1::Sha1;

/// The id that a word is.
pub(crate) fn id_of(word: &str) -> Result<Id, WordsFault<'_>>
    ensures read { IfOk result (λ id. (id.items ≡ word.entry.now) × (is_id id.items ≡ true)) }
    ensures refused { IfErr result (λ _. is_id word.entry.now ≡ false) }
    ensures told { MatchResult result (λ _. id_fault word.entry.now ≡ None)
        (λ fault. id_fault word.entry.now ≡ Some (fault_text fault)) }
{
    if !has_id_form(word) {
        return Err(WordsFault::Id(word));
    }
    let mut id = Id::new();
    match id.try_extend_from_slice(word.as_bytes()) {
        Ok(()) => Ok(id),
        Err(_) => Err(WordsFault::LongId(word)),
    }
}

fn has_id_form(word: &str) -> bool
    ensures { result ≡ has_id_form word.now }
{
    if word.is_empty() {
        return false;
    }
    if word == "X" || begins_with_dash(word) {
        return false;
    }
    has_id_bytes(word.as_bytes())
}

/// Whether the word begins with a dash.
pub(crate) fn begins_with_dash(word: &str) -> bool
    ensures { result ≡ begins_with_dash word.now }
{
    match word.as_bytes().first() {
        Some(byte) => *byte == b'-',
        None => false,
    }
}

fn has_id_bytes(bytes: &[u8]) -> bool
    ensures { result ≡ list_all is_id_byte bytes.now }
{
    bytes.iter().all(|byte| is_id_byte(*byte))
}

fn is_id_byte(byte: u8) -> bool
    ensures { result ≡ is_id_byte byte }
{
    matches!(byte, b'-'..=b':' | b'@'..=b'Z' | b'_' | b'a'..=b'z')
}

/// The id of what an askpass is called for with this text.
pub(crate) fn askpass_id(text: &str) -> Id
    ensures value { result.items ≡ askpass_id text.now }
    ensures id { is_id result.items ≡ true }
{
    id_of_digest(Sha1::digest(text.as_bytes()).as_slice())
}

fn id_of_digest(digest: &[u8]) -> Id
    requires { length digest.now ≡ 20 }
    ensures value { result.items ≡ codes "askpass:" ++ encode_lower digest.now }
    ensures id { is_id result.items ≡ true }
{
    let mut digits = [0; 40];
    hex::encode_to_slice(digest, &mut digits).unwrap();
    let mut id = Id::new();
    id.try_extend_from_slice(b"askpass:").unwrap();
    id.try_extend_from_slice(&digits).unwrap();
    id
}
