//! Laws of both modes: what was encrypted comes back, and OCB has one plaintext for all bytes.
//! Functions without a body, whose contracts are facts about `specs/Cbc` and `specs/Ocb`; they
//! touch nothing. Begin with `ocb_decryption_undoes_encryption`.

ghost use Rattle.std.specs.Prelude.{◌≡◌, ◌%◌, ℕ, List, length};
ghost use Rattle.aes_block.specs.Aes.{IsBytes};
ghost use Rattle.aes_modes.specs.Cbc.{cbc_encrypted, cbc_decrypted};
ghost use Rattle.aes_modes.specs.Ocb.{ocb_encrypted, ocb_decrypted, ocb_tag};

/// A law: the decryption of chained blocks undoes their encryption, for every key and
/// initialization vector.
pub fn decryption_undoes_encryption()
    ensures { (key iv plain : List ℕ) → IsBytes 16 key
        → IsBytes 16 iv → IsBytes (length plain) plain
        → length plain % 16 ≡ 0 → cbc_decrypted key iv (cbc_encrypted key iv plain) ≡ plain }
{}

/// A law: decryption by OCB undoes encryption, for every key, nonce and plaintext.
pub fn ocb_decryption_undoes_encryption()
    ensures len { (key nonce plain : List ℕ) → IsBytes 16 key → IsBytes (length plain) plain
        → IsBytes (length plain) (ocb_encrypted key nonce plain) }
    ensures tag { (key nonce assoc plain : List ℕ) → IsBytes 16 key → IsBytes (length assoc) assoc
        → IsBytes (length plain) plain → IsBytes 16 (ocb_tag key nonce assoc plain) }
    ensures undone { (key nonce plain : List ℕ) → IsBytes 16 key → IsBytes (length plain) plain
        → ocb_decrypted key nonce (ocb_encrypted key nonce plain) ≡ plain }
{}

/// A law: all bytes are the encryption by OCB of what they are decrypted to. So they have one
/// plaintext, and where its tag is theirs, they were made by its encryption.
pub fn ocb_plaintext_was_encrypted()
    ensures len { (key nonce bytes : List ℕ) → IsBytes 16 key → IsBytes (length bytes) bytes
        → IsBytes (length bytes) (ocb_decrypted key nonce bytes) }
    ensures restored { (key nonce bytes : List ℕ) → IsBytes 16 key → IsBytes (length bytes) bytes
        → ocb_encrypted key nonce (ocb_decrypted key nonce bytes) ≡ bytes }
{}
