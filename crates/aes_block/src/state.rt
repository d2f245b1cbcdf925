//! The steps of a round on the state: a word for each column, its byte of the first row lowest.
//! Pure functions, of which some do several of the standard's transformations by one look-up. Begin
//! with `mix`, a whole round but for its key; `specs/Columns` says how words are columns.

ghost use Rattle.std.specs.{Prelude.{◌≡◌, [], ◌∷◌, slice_index}, Int.{w32, to_le_bytes}};
ghost use Rattle.aes_block.specs.{Field.{sub_byte, inv_sub_byte}, Columns.bytes_of};
ghost use Rattle.aes_block.specs.Aes.{xor_of, sub_bytes, inv_sub_bytes, shift_rows, inv_shift_rows};
ghost use Rattle.aes_block.specs.Aes.{mix_column, inv_mix_column, mix_columns, inv_mix_columns};

use crate::mixed::{mixed_first, mixed_fourth, mixed_second, mixed_third};
use crate::tables::{original, substitute};
use crate::unmixed::{unmixed_first, unmixed_fourth, unmixed_second, unmixed_third};

pub(crate) fn state_of(block: &[u8; 16]) -> [u32; 4]
    ensures { bytes_of result ≡ block.now }
{
    let b = block;
    [
        u32::from_le_bytes([b[0], b[1], b[2], b[3]]),
        u32::from_le_bytes([b[4], b[5], b[6], b[7]]),
        u32::from_le_bytes([b[8], b[9], b[10], b[11]]),
        u32::from_le_bytes([b[12], b[13], b[14], b[15]]),
    ]
}

pub(crate) fn block_of(state: &[u32; 4]) -> [u8; 16]
    ensures { result ≡ bytes_of state.now }
{
    let [a, b, c, d] = *state;
    let [a0, a1, a2, a3] = a.to_le_bytes();
    let [b0, b1, b2, b3] = b.to_le_bytes();
    let [c0, c1, c2, c3] = c.to_le_bytes();
    let [d0, d1, d2, d3] = d.to_le_bytes();
    [
        a0, a1, a2, a3, b0, b1, b2, b3, c0, c1, c2, c3, d0, d1, d2, d3,
    ]
}

/// AddRoundKey.
pub(crate) fn add(state: &[u32; 4], key: &[u32; 4]) -> [u32; 4]
    ensures { bytes_of result ≡ xor_of (bytes_of state.now) (bytes_of key.now) }
{
    [
        state[0] ^ key[0],
        state[1] ^ key[1],
        state[2] ^ key[2],
        state[3] ^ key[3],
    ]
}

fn mixed_column(a: u8, b: u8, c: u8, d: u8) -> u32
    ensures { to_le_bytes w32 result ≡ mix_column (sub_byte a) (sub_byte b) (sub_byte c)
        (sub_byte d) }
{
    mixed_first(a) ^ mixed_second(b) ^ mixed_third(c) ^ mixed_fourth(d)
}

/// SubBytes, ShiftRows and MixColumns.
pub(crate) fn mix(state: &[u32; 4]) -> [u32; 4]
    ensures { bytes_of result ≡ mix_columns (shift_rows (sub_bytes (bytes_of state.now))) }
{
    let [a0, a1, a2, a3] = state[0].to_le_bytes();
    let [b0, b1, b2, b3] = state[1].to_le_bytes();
    let [c0, c1, c2, c3] = state[2].to_le_bytes();
    let [d0, d1, d2, d3] = state[3].to_le_bytes();
    [
        mixed_column(a0, b1, c2, d3),
        mixed_column(b0, c1, d2, a3),
        mixed_column(c0, d1, a2, b3),
        mixed_column(d0, a1, b2, c3),
    ]
}

/// SubBytes and ShiftRows.
pub(crate) fn substitute_and_shift(state: &[u32; 4]) -> [u32; 4]
    ensures { bytes_of result ≡ shift_rows (sub_bytes (bytes_of state.now)) }
{
    let [a0, a1, a2, a3] = state[0].to_le_bytes();
    let [b0, b1, b2, b3] = state[1].to_le_bytes();
    let [c0, c1, c2, c3] = state[2].to_le_bytes();
    let [d0, d1, d2, d3] = state[3].to_le_bytes();
    [
        substituted_word(a0, b1, c2, d3),
        substituted_word(b0, c1, d2, a3),
        substituted_word(c0, d1, a2, b3),
        substituted_word(d0, a1, b2, c3),
    ]
}

/// The word of four bytes, each substituted.
pub(crate) fn substituted_word(a: u8, b: u8, c: u8, d: u8) -> u32
    ensures { to_le_bytes w32 result ≡ sub_byte a ∷ sub_byte b ∷ sub_byte c ∷ sub_byte d ∷ [] }
{
    u32::from_le_bytes([substitute(a), substitute(b), substitute(c), substitute(d)])
}

fn unmixed_column(a: u8, b: u8, c: u8, d: u8) -> u32
    ensures { to_le_bytes w32 result ≡ inv_mix_column (inv_sub_byte a) (inv_sub_byte b)
        (inv_sub_byte c) (inv_sub_byte d) }
{
    unmixed_first(a) ^ unmixed_second(b) ^ unmixed_third(c) ^ unmixed_fourth(d)
}

/// The inverses of ShiftRows, SubBytes and MixColumns.
pub(crate) fn unmix(state: &[u32; 4]) -> [u32; 4]
    ensures { bytes_of result
        ≡ inv_mix_columns (inv_sub_bytes (inv_shift_rows (bytes_of state.now))) }
{
    let [a0, a1, a2, a3] = state[0].to_le_bytes();
    let [b0, b1, b2, b3] = state[1].to_le_bytes();
    let [c0, c1, c2, c3] = state[2].to_le_bytes();
    let [d0, d1, d2, d3] = state[3].to_le_bytes();
    [
        unmixed_column(a0, d1, c2, b3),
        unmixed_column(b0, a1, d2, c3),
        unmixed_column(c0, b1, a2, d3),
        unmixed_column(d0, c1, b2, a3),
    ]
}

/// The inverses of ShiftRows and SubBytes.
pub(crate) fn shift_and_restore(state: &[u32; 4]) -> [u32; 4]
    ensures { bytes_of result ≡ inv_sub_bytes (inv_shift_rows (bytes_of state.now)) }
{
    let [a0, a1, a2, a3] = state[0].to_le_bytes();
    let [b0, b1, b2, b3] = state[1].to_le_bytes();
    let [c0, c1, c2, c3] = state[2].to_le_bytes();
    let [d0, d1, d2, d3] = state[3].to_le_bytes();
    [
        restored_word(a0, d1, c2, b3),
        restored_word(b0, a1, d2, c3),
        restored_word(c0, b1, a2, d3),
        restored_word(d0, c1, b2, a3),
    ]
}

fn restored_word(a: u8, b: u8, c: u8, d: u8) -> u32
    ensures { to_le_bytes w32 result
        ≡ inv_sub_byte a ∷ inv_sub_byte b ∷ inv_sub_byte c ∷ inv_sub_byte d ∷ [] }
{
    u32::from_le_bytes([original(a), original(b), original(c), original(d)])
}

/// The inverse of MixColumns.
pub(crate) fn unmix_columns(state: &[u32; 4]) -> [u32; 4]
    ensures { bytes_of result ≡ inv_mix_columns (bytes_of state.now) }
{
    [
        unmixed_word(state[0]),
        unmixed_word(state[1]),
        unmixed_word(state[2]),
        unmixed_word(state[3]),
    ]
}

fn unmixed_word(word: u32) -> u32
    ensures { let bytes = to_le_bytes w32 word in
        to_le_bytes w32 result ≡ inv_mix_column (slice_index bytes 0) (slice_index bytes 1)
        (slice_index bytes 2) (slice_index bytes 3) }
{
    let [a, b, c, d] = word.to_le_bytes();
    unmixed_column(substitute(a), substitute(b), substitute(c), substitute(d))
}
