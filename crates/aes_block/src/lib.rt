//! AES with keys of 128 bits (FIPS 197), by tables and without memory of its own.
//!
//! Begin with [`Aes128::new`]: `encrypt` and `decrypt` are the standard's cipher and inverse
//! cipher, and each undoes the other ([`decryption_undoes_encryption`]). `clear` overwrites the
//! expanded key where it lies. The time of a call depends on the key and the block, as it does for
//! every cipher by tables. Definitions begin in `specs/Aes`.
#![tactic(auto)]

ghost use Rattle.std.specs.Prelude.{◌≡◌};
ghost use Rattle.aes_block.specs.Aes.{xor_of};

mod cipher;
mod laws;
mod mixed;
mod schedule;
mod state;
mod tables;
mod unmixed;

pub use cipher::Aes128;
pub use laws::decryption_undoes_encryption;

/// The exclusive or of two arrays, byte by byte: the addition of FIPS 197, SP 800-38A and RFC 3394.
pub fn xor<const N: usize>(left: &[u8; N], right: &[u8; N]) -> [u8; N]
    ensures { result ≡ xor_of left.now right.now }
{
    let mut sum = *left;
    for (i, byte) in right.iter().enumerate() {
        sum[i] ^= *byte;
    }
    sum
}
