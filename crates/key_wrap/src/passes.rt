//! Passes over the registers (RFC 3394, 2.2.1 and 2.2.2), six of a wrapping and six of an
//! unwrapping. They work in place on the caller's blocks, by a cipher that they were lent. Begin
//! with `wrap_passes`, and with its namesake in `specs/KeyWrap`.

ghost use Rattle.std.specs.Prelude.{◌≡◌, ◌+◌, ◌*◌, ◌^◌, ◌<◌, ◌≤◌, ◌++◌, length, take, drop, IfOk};
ghost use Rattle.std.specs.List.{concat};
ghost use Rattle.key_wrap.specs.KeyWrap.{Registers, initial_value, wrap_pass, unwrap_pass};
ghost use Rattle.key_wrap.specs.KeyWrap.{wrap_passes, unwrap_passes};

use aes_block::{Aes128, xor};
use std::alloc::{AllocError, Global};

/// What the register A begins with (RFC 3394, 2.2.3.1).
pub(crate) const INITIAL_VALUE: [u8; 8] = [0xA6; 8];

/// The six passes of a wrapping.
pub(crate) fn wrap_passes(cipher: &Aes128, blocks: &mut [[u8; 8]]) -> [u8; 8]
    requires { length blocks.old ≤ 8192 }
    ensures { let before : Registers = record { check = initial_value; blocks = blocks.old } in
        record { check = result; blocks = blocks.new } ≡ wrap_passes cipher.now
        (length blocks.old) 6 before }
{
    let mut check = INITIAL_VALUE;
    for pass in 0..6 {
        let first_step = (blocks.len() * pass + 1) as u64;
        let after = wrap_pass(cipher, check, first_step, blocks);
        check = after;
    }
    check
}

/// The six passes of an unwrapping.
pub(crate) fn unwrap_passes(cipher: &Aes128, first: [u8; 8], blocks: &mut [[u8; 8]]) -> [u8; 8]
    requires { length blocks.old ≤ 8192 }
    ensures { let before : Registers = record { check = first; blocks = blocks.old } in
        record { check = result; blocks = blocks.new } ≡ unwrap_passes cipher.now
        (length blocks.old) 6 before }
{
    let mut check = first;
    for pass in (0..6).rev() {
        let first_step = (blocks.len() * pass + 1) as u64;
        let after = unwrap_pass(cipher, check, first_step, blocks);
        check = after;
    }
    check
}

fn wrap_pass(
    cipher: &Aes128,
    mut check: [u8; 8],
    first_step: u64,
    blocks: &mut [[u8; 8]],
) -> [u8; 8]
    requires { first_step + length blocks.old < 2 ^ 64 }
    ensures { record { check = result; blocks = blocks.new }
        ≡ wrap_pass cipher.now check first_step blocks.old }
{
    for (i, block) in blocks.iter_mut().enumerate() {
        let both = cipher.encrypt(&joined(&check, block));
        let (left, right) = halves(&both);
        check = xor(&left, &(first_step + i as u64).to_be_bytes());
        *block = right;
    }
    check
}

fn unwrap_pass(
    cipher: &Aes128,
    mut check: [u8; 8],
    first_step: u64,
    blocks: &mut [[u8; 8]],
) -> [u8; 8]
    requires { first_step + length blocks.old < 2 ^ 64 }
    ensures { record { check = result; blocks = blocks.new }
        ≡ unwrap_pass cipher.now check first_step blocks.old }
{
    for i in (0..blocks.len()).rev() {
        let step = xor(&check, &(first_step + i as u64).to_be_bytes());
        let both = cipher.decrypt(&joined(&step, &blocks[i]));
        let (left, right) = halves(&both);
        check = left;
        blocks[i] = right;
    }
    check
}

fn joined(left: &[u8; 8], right: &[u8; 8]) -> [u8; 16]
    ensures { result ≡ left.now ++ right.now }
{
    let mut both = [0; 16];
    both[..8].copy_from_slice(left);
    both[8..].copy_from_slice(right);
    both
}

fn halves(both: &[u8; 16]) -> ([u8; 8], [u8; 8])
    ensures left { result.0 ≡ take 8 both.now }
    ensures right { result.1 ≡ drop 8 both.now }
{
    let mut left = [0; 8];
    left.copy_from_slice(&both[..8]);
    let mut right = [0; 8];
    right.copy_from_slice(&both[8..]);
    (left, right)
}

/// The registers one after another, after `front`.
pub(crate) fn joined_registers(
    alloc: Global,
    front: &[u8],
    blocks: &[[u8; 8]],
) -> Result<Vec<u8>, AllocError>
    requires few { length blocks.now ≤ 8192 }
    requires short { length front.now ≤ 8 }
    ensures items { IfOk result (λ bytes. bytes.items ≡ front.now ++ concat blocks.now) }
    ensures len { IfOk result
        (λ bytes. length bytes.items ≡ length front.now + 8 * length blocks.now) }
{
    let registers = blocks.as_flattened();
    // The whole length at once: a vector that grows would leave bytes behind where it was.
    let mut bytes = Vec::with_capacity(alloc, front.len() + registers.len())?;
    bytes.extend_from_slice(front)?;
    bytes.extend_from_slice(registers)?;
    Ok(bytes)
}
