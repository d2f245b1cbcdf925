//! Cipher block chaining (SP 800-38A, 6.2) with AES-128. It works in place on the caller's whole
//! blocks and takes no memory; padding is the caller's. Begin with `cbc_encrypt`; the definitions
//! stand in `specs/Cbc`.

ghost use Rattle.std.specs.Prelude.{◌≡◌, ℕ, ◌%◌, List, length};
ghost use Rattle.aes_block.specs.Aes.{IsBytes};
ghost use Rattle.aes_modes.specs.Cbc.{cbc_encrypted, cbc_decrypted};

use crate::blocks::{BLOCK_LEN, block_at, put_block};
use aes_block::{Aes128, xor};

/// Encrypts whole blocks under a key and an initialization vector.
pub fn cbc_encrypt(key: &[u8; 16], iv: &[u8; 16], bytes: &mut [u8])
    requires { length bytes.old % 16 ≡ 0 }
    ensures { bytes.new ≡ cbc_encrypted key.now iv.now bytes.old }
{
    let mut cipher = Aes128::new(key);
    let mut previous = *iv;
    for i in 0..bytes.len() / BLOCK_LEN {
        let plain = block_at(bytes, BLOCK_LEN * i);
        previous = cipher.encrypt(&xor(&plain, &previous));
        put_block(bytes, BLOCK_LEN * i, &previous);
    }
    cipher.clear();
}

/// Decrypts whole blocks under a key and an initialization vector.
pub fn cbc_decrypt(key: &[u8; 16], iv: &[u8; 16], bytes: &mut [u8])
    requires { length bytes.old % 16 ≡ 0 }
    ensures value { bytes.new ≡ cbc_decrypted key.now iv.now bytes.old }

    // It undoes the encryption of all bytes under this key and this vector.
    ensures undoes { (plain : List ℕ) → IsBytes (length bytes.old) plain
        → bytes.old ≡ cbc_encrypted key.now iv.now plain → bytes.new ≡ plain }
{
    let mut cipher = Aes128::new(key);
    let mut previous = *iv;
    for i in 0..bytes.len() / BLOCK_LEN {
        let encrypted = block_at(bytes, BLOCK_LEN * i);
        let plain = xor(&cipher.decrypt(&encrypted), &previous);
        put_block(bytes, BLOCK_LEN * i, &plain);
        previous = encrypted;
    }
    cipher.clear();
}
