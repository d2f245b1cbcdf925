//! AES-128 under one key: its expansion, and the encryption and decryption of single blocks (FIPS
//! 197). It works on the block and on its own round keys, and takes no memory. Begin with
//! `Aes128::encrypt`, which is the standard's rounds; `decrypt` is the equivalent inverse cipher
//! (5.3.5).

ghost use Rattle.std.specs.Prelude.{◌≡◌, ℕ, ◌+◌, ◌<◌, List, map, replicate, slice_index_or, []};
ghost use Rattle.std.specs.List.{range_with_len};
ghost use Rattle.aes_block.specs.Columns.{bytes_of};
ghost use Rattle.aes_block.specs.Aes.{IsBytes, inv_mix_columns, round_key, encrypted, decrypted};

use crate::schedule::{write_round_keys, write_unmixed_keys};
use crate::state::{add, block_of, mix, shift_and_restore, state_of, substitute_and_shift, unmix};
use std::marker::Model;
use std::{fmt, hint};

/// A key of 128 bits, expanded once for any number of blocks. A contract sees its 16 bytes.
///
/// A move leaves the expanded key where it was, as in Rust, and `drop` is given its value by a
/// move: `clear` overwrites it where it lies. What the compiler keeps of it in other places while
/// it works isn't overwritten.
pub struct Aes128 {
    round_keys: [[u32; 4]; 11],

    // The keys of rounds 1 to 9, unmixed: what the equivalent inverse cipher adds (FIPS 197,
    // 5.3.5).
    unmixed_keys: [[u32; 4]; 9],
}

impl Model for Aes128 {
    ghost Value = { List ℕ };

    ghost view = { λ cipher. bytes_of (slice_index_or cipher.round_keys 0 []) };

    ghost invariant = { λ cipher. let key = bytes_of (slice_index_or cipher.round_keys 0 []) in
        IsBytes 16 key
        × ((r : ℕ) → r < 11 → bytes_of (slice_index_or cipher.round_keys r []) ≡ round_key key r)
        × ((r : ℕ) → r < 9 → bytes_of (slice_index_or cipher.unmixed_keys r [])
        ≡ inv_mix_columns (round_key key (r + 1))) };
}

impl Aes128 {
    /// Expands a key.
    #[inline(never)]
    pub fn new(key: &[u8; 16]) -> Aes128
        ensures { result ≡ key.now }
    {
        let mut round_keys = [[0; 4]; 11];
        write_round_keys(key, &mut round_keys);
        let mut unmixed_keys = [[0; 4]; 9];
        write_unmixed_keys(&round_keys, &mut unmixed_keys);
        let cipher = Aes128 {
            round_keys,
            unmixed_keys,
        };
        wipe(&mut round_keys, &mut unmixed_keys);
        cipher
    }

    /// Overwrites the expanded key where it lies, by that of a key of zeros.
    // Inlined, so that the frame of this `new` lies where that of the first lay, and overwrites
    // what it left.
    #[inline(always)]
    pub fn clear(&mut self)
        ensures { self.new ≡ replicate 16 0 }
    {
        self.replace(Aes128::new(&[0; 16]));
    }

    // A call that stays, for the reason that stands at `wipe`.
    #[inline(never)]
    fn replace(&mut self, other: Aes128)
        ensures { self.new ≡ other }
    {
        *self = other;
        hint::spin_loop();
    }

    /// The encryption of one block (FIPS 197, 5.1).
    pub fn encrypt(&self, block: &[u8; 16]) -> [u8; 16]
        ensures { result ≡ encrypted self.now block.now }
    {
        let mut state = add(&state_of(block), &self.round_keys[0]);
        for round in 1..10 {
            state = add(&mix(&state), &self.round_keys[round]);
        }
        block_of(&add(&substitute_and_shift(&state), &self.round_keys[10]))
    }

    /// The decryption of one block (FIPS 197, 5.3).
    pub fn decrypt(&self, block: &[u8; 16]) -> [u8; 16]
        ensures value { result ≡ decrypted self.now block.now }

        // It undoes the encryption of every block under this key.
        ensures undoes { (plain : List ℕ) → IsBytes 16 plain → block.now ≡ encrypted self.now plain
            → result ≡ plain }
    {
        let mut state = add(&state_of(block), &self.round_keys[10]);
        for round in (1..10).rev() {
            state = add(&unmix(&state), &self.unmixed_keys[round - 1]);
        }
        block_of(&add(&shift_and_restore(&state), &self.round_keys[0]))
    }
}

impl fmt::Debug for Aes128 {
    fn fmt<W: fmt::Write>(&self, f: &mut fmt::Formatter<W>) -> fmt::Result {
        f.write_str("Aes128 { .. }")
    }
}

impl Drop for Aes128 {
    fn drop(mut self) {
        wipe(&mut self.round_keys, &mut self.unmixed_keys);
        let Aes128 {
            round_keys: _,
            unmixed_keys: _,
        } = self;
    }
}

// The toolchain has no volatile write. A call that is not inlined, and that has an effect which the
// optimiser may not drop, stands in for it: so the call stays, and its writes with it.
#[inline(never)]
fn wipe(round_keys: &mut [[u32; 4]; 11], unmixed_keys: &mut [[u32; 4]; 9])
    ensures rounds { round_keys.new ≡ map (λ _. map (λ _. 0) (range_with_len 0 4))
        (range_with_len 0 11) }
    ensures unmixed { unmixed_keys.new ≡ map (λ _. map (λ _. 0) (range_with_len 0 4))
        (range_with_len 0 9) }
{
    *round_keys = [[0; 4]; 11];
    *unmixed_keys = [[0; 4]; 9];
    hint::spin_loop();
}
