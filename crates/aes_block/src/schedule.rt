//! The key schedule (FIPS 197, 5.2), and the keys that the equivalent inverse cipher adds (5.3.5).
//! It writes into its caller's arrays, and keeps nothing. Begin with `write_round_keys`;
//! `round_key` of `specs/Aes` says which keys these are.

ghost use Rattle.std.specs.Prelude.{◌≡◌, ℕ, ◌+◌, ◌-◌, ◌<◌, ◌≤◌, List, [], length, slice_index_or};
ghost use Rattle.std.specs.Int.{w32, to_le_bytes};
ghost use Rattle.aes_block.specs.{Columns.bytes_of, Aes.{inv_mix_columns, turned_word, round_key}};

use crate::state::{state_of, substituted_word, unmix_columns};
use crate::tables::round_constant;

// The word turned left by one byte and substituted, with the constant of the round added.
fn turned_word(word: u32, round: usize) -> u32
    requires first { 1 ≤ round }
    requires last { round ≤ 10 }
    ensures { to_le_bytes w32 result ≡ turned_word (to_le_bytes w32 word) round }
{
    let [a, b, c, d] = word.to_le_bytes();
    substituted_word(b, c, d, a) ^ u32::from(round_constant(round))
}

// The key of a round from the key of the round before.
fn next_round_key(previous: &[u32; 4], round: usize) -> [u32; 4]
    requires first { 1 ≤ round }
    requires last { round ≤ 10 }
    ensures { (key : List ℕ) → length key ≡ 16 → bytes_of previous.now ≡ round_key key (round - 1)
        → bytes_of result ≡ round_key key round }
{
    let a = previous[0] ^ turned_word(previous[3], round);
    let b = previous[1] ^ a;
    let c = previous[2] ^ b;
    let d = previous[3] ^ c;
    [a, b, c, d]
}

/// Writes the keys of rounds 0 to 10.
pub(crate) fn write_round_keys(key: &[u8; 16], keys: &mut [[u32; 4]; 11])
    ensures { (r : ℕ) → r < 11 → bytes_of (slice_index_or keys.new r []) ≡ round_key key.now r }
{
    keys[0] = state_of(key);
    for round in 1..11 {
        keys[round] = next_round_key(&keys[round - 1], round);
    }
}

/// Writes the keys of rounds 1 to 9, each by the inverse of MixColumns.
pub(crate) fn write_unmixed_keys(round_keys: &[[u32; 4]; 11], keys: &mut [[u32; 4]; 9])
    ensures { (r : ℕ) → r < 9 → bytes_of (slice_index_or keys.new r [])
        ≡ inv_mix_columns (bytes_of (slice_index_or round_keys.now (r + 1) [])) }
{
    for round in 0..9 {
        keys[round] = unmix_columns(&round_keys[round + 1]);
    }
}
