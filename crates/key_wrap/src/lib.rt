//! The key wrap of RFC 3394 with AES-128 and the default initial value.
//!
//! Begin with [`wrap`] and [`unwrap`]. Each is exactly the standard's, what was wrapped comes back
//! ([`unwrapping_undoes_wrapping`]), and a wrong length and a wrong check are told apart
//! ([`WrapFault`]). The definitions stand in `specs/KeyWrap`.
#![tactic(auto)]

ghost use Rattle.std.specs.Prelude.{◌≡◌, ◌≢◌, ◌⊎◌, ℕ, ◌+◌, ◌*◌, ◌/◌, ◌-◌, ◌%◌, ◌≤◌, ◌↔◌, List};
ghost use Rattle.std.specs.{Prelude.{true, false, length, IfOk, MatchResult, IsTrue}, List.concat};
ghost use Rattle.aes_block.specs.Aes.{IsBytes};
ghost use Rattle.key_wrap.specs.KeyWrap.{Registers, initial_value, wrapped_of, unwrapped_of};
ghost use Rattle.key_wrap.specs.KeyWrap.{is_wrapped_length};
ghost use Rattle.key_wrap.specs.declared.WrapFault.TheVariants.{NoMemory};

use aes_block::Aes128;
use std::alloc::{AllocError, Global};
use std::error::Error;
use std::fmt;
use wiping::wipe;

mod laws;
mod passes;

pub use laws::unwrapping_undoes_wrapping;
use passes::{INITIAL_VALUE, joined_registers, unwrap_passes, wrap_passes};

/// Why bytes were not unwrapped.
#[derive(Clone, Copy, Debug, PartialEq, Eq, Hash)]
pub enum WrapFault {
    /// The length is not a multiple of 8 from 24 to 65,544.
    Length,
    /// The bytes were not wrapped under this key, or were changed since.
    Check,
    /// There was no memory for the unwrapped bytes.
    NoMemory,
}

impl fmt::Display for WrapFault {
    fn fmt<W: fmt::Write>(&self, f: &mut fmt::Formatter<W>) -> fmt::Result {
        f.write_str(match self {
            WrapFault::Length => "not a length of wrapped bytes",
            WrapFault::Check => "the integrity check of the wrapped bytes failed",
            WrapFault::NoMemory => "out of memory",
        })
    }
}

impl Error for WrapFault {}

impl From<AllocError> for WrapFault {
    ghost from_gives = { λ _ fault. fault ≡ NoMemory };

    fn from(_: AllocError) -> WrapFault {
        WrapFault::NoMemory
    }
}

/// Wraps the bytes of a key under another key (RFC 3394, 2.2.1), which makes them 8 bytes longer.
pub fn wrap(alloc: Global, key: &[u8; 16], bytes: &[u8]) -> Result<Vec<u8>, AllocError>
    requires whole { length bytes.now % 8 ≡ 0 }
    requires least { 16 ≤ length bytes.now }
    requires most { length bytes.now ≤ 65536 }
    ensures wrapped { IfOk result (λ wrapped. wrapped.items ≡ wrapped_of key.now bytes.now) }
    ensures len { IfOk result (λ wrapped. length wrapped.items ≡ length bytes.now + 8) }
{
    let (blocks, _) = bytes.as_chunks::<8>();
    let mut blocks = Vec::from_slice(alloc, blocks)?;
    let mut cipher = Aes128::new(key);
    let check = wrap_passes(&cipher, &mut blocks);
    cipher.clear();
    joined_registers(alloc, &check, &blocks)
}

/// Unwraps what `wrap` made under the same key (RFC 3394, 2.2.2). What is found where the check
/// fails is overwritten; the bytes that are given are the caller's to overwrite.
pub fn unwrap(alloc: Global, key: &[u8; 16], bytes: &[u8]) -> Result<Vec<u8>, WrapFault>
    ensures unwrapped { IfOk result
        (λ plain. plain.items ≡ concat (unwrapped_of key.now bytes.now).blocks) }
    ensures shorter { IfOk result (λ plain. length plain.items + 8 ≡ length bytes.now) }

    // Each answer but `NoMemory`, which may come in place of `Ok` and `Check`, has its cause.
    ensures ok { IfOk result (λ _. IsTrue (is_wrapped_length (length bytes.now))
        × ((unwrapped_of key.now bytes.now).check ≡ initial_value)) }
    ensures length { (result ≡ Err WrapFault.Length)
        ↔ (is_wrapped_length (length bytes.now) ≡ false) }
    ensures check { result ≡ Err WrapFault.Check → IsTrue (is_wrapped_length (length bytes.now))
        × ((unwrapped_of key.now bytes.now).check ≢ initial_value) }
    ensures refused { IsTrue (is_wrapped_length (length bytes.now))
        → (unwrapped_of key.now bytes.now).check ≢ initial_value
        → (result ≡ Err WrapFault.Check) ⊎ (result ≡ Err WrapFault.NoMemory) }

    // It undoes the wrapping of all bytes under this key.
    ensures undoes { (plain : List ℕ) → IsBytes (length plain) plain → length plain % 8 ≡ 0
        → 16 ≤ length plain → length plain ≤ 65536 → bytes.now ≡ wrapped_of key.now plain
        → MatchResult result
        (λ unwrapped. unwrapped.items ≡ plain) (λ fault. fault ≡ WrapFault.NoMemory) }
{
    if !is_wrapped_len(bytes.len()) {
        return Err(WrapFault::Length);
    }
    let unwrapped = unwrapped_registers(alloc, key, bytes)?;
    if unwrapped.check != INITIAL_VALUE {
        return Err(WrapFault::Check);
    }
    let plain = joined_registers(alloc, &[], &unwrapped.blocks)?;
    Ok(plain)
}

// What the registers hold at the end of an unwrapping: a clear key, so they are overwritten.
struct Unwrapped {
    check: [u8; 8],
    blocks: Vec<[u8; 8]>,
}

impl Drop for Unwrapped {
    fn drop(self) {
        let Unwrapped {
            check: _,
            mut blocks,
        } = self;
        wipe(blocks.as_mut_slice().as_flattened_mut());
    }
}

fn unwrapped_registers(alloc: Global, key: &[u8; 16], bytes: &[u8]) -> Result<Unwrapped, AllocError>
    requires least { 8 ≤ length bytes.now }
    requires most { length bytes.now ≤ 65544 }
    ensures registers { IfOk result (λ registers. unwrapped_of key.now bytes.now
        ≡ record { check = registers.check; blocks = registers.blocks.items }) }
    ensures count { IfOk result
        (λ registers. length registers.blocks.items ≡ length bytes.now / 8 - 1) }
{
    let (blocks, _) = bytes.as_chunks::<8>();
    let first = blocks[0];
    let mut blocks = Vec::from_slice(alloc, &blocks[1..])?;
    let mut cipher = Aes128::new(key);
    let check = unwrap_passes(&cipher, first, &mut blocks);
    cipher.clear();
    Ok(Unwrapped { check, blocks })
}

fn is_wrapped_len(len: usize) -> bool
    ensures { result ≡ is_wrapped_length len }
{
    len % 8 == 0 && (24..=65_544).contains(&len)
}
