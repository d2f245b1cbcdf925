//! Laws of the cipher, for whoever composes it in a mode: functions without a body, whose contracts
//! are facts about the definitions. They touch nothing. Begin with `encrypted` and `decrypted` of
//! `specs/Aes`, of which they speak.

ghost use Rattle.std.specs.Prelude.{◌≡◌, ℕ, List, length};
ghost use Rattle.aes_block.specs.Aes.{IsBytes, xor_of, encrypted, decrypted};

/// A law: decryption and encryption undo each other, for every key and block, and an exclusive or
/// undoes itself.
pub fn decryption_undoes_encryption()
    ensures block { (key block : List ℕ) → IsBytes 16 key → IsBytes 16 block
        → IsBytes 16 (encrypted key block) }
    ensures undone { (key block : List ℕ) → IsBytes 16 key → IsBytes 16 block
        → decrypted key (encrypted key block) ≡ block }
    ensures plain { (key block : List ℕ) → IsBytes 16 key → IsBytes 16 block
        → IsBytes 16 (decrypted key block) }
    ensures restored { (key block : List ℕ) → IsBytes 16 key → IsBytes 16 block
        → encrypted key (decrypted key block) ≡ block }
    ensures xor { (left right : List ℕ) → length left ≡ length right
        → xor_of (xor_of left right) right ≡ left }
{}
