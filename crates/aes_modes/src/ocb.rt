//! OCB (RFC 7253): each block is added an offset, encrypted, and added the offset again; the sum of
//! the plaintext gives the tag. It works in place on the caller's bytes and takes no memory. Begin
//! with `ocb_encrypt`; the definitions stand in `specs/Ocb`.

ghost use Rattle.std.specs.Prelude.{◌≡◌, ◌↔◌, [], ◌∷◌, ℕ, ◌+◌, ◌*◌, ◌/◌, ◌<◌, ◌≤◌, List, ◌++◌};
ghost use Rattle.std.specs.{Prelude.{length, take, drop, replicate, IsTrue, false}, List.concat};
ghost use Rattle.aes_block.specs.Aes.{IsBytes, xor_of, encrypted};
ghost use Rattle.aes_modes.specs.Cbc.{blocks_of};
ghost use Rattle.aes_modes.specs.Ocb.{zeros, partial_block, padded, offset, offset_after};
ghost use Rattle.aes_modes.specs.Ocb.{last_offset, masked_blocks, masked, checksum, hash, sum_from};
ghost use Rattle.aes_modes.specs.Ocb.{hashed_blocks, ocb_encrypted, ocb_decrypted, ocb_tag};
ghost use Rattle.aes_modes.specs.{Ocb.l_dollar, Masks.{masks_of, cipher_of}};

use crate::blocks::{BLOCK_LEN, block_at, put_block};
use crate::masks::{Masks, first_offset};
use aes_block::{Aes128, xor};
use wiping::wipe;

/// Encrypts bytes under a key and a nonce, and answers their tag (RFC 7253, 4.2). The tag speaks
/// for the associated data too.
///
/// A nonce is used once under a key.
pub fn ocb_encrypt(key: &[u8; 16], nonce: &[u8; 12], assoc: &[u8], bytes: &mut [u8]) -> [u8; 16]
    requires assoc { length assoc.now ≤ 65536 }
    requires bytes { length bytes.old ≤ 65536 }
    ensures bytes { bytes.new ≡ ocb_encrypted key.now nonce.now bytes.old }
    ensures tag { result ≡ ocb_tag key.now nonce.now assoc.now bytes.old }
{
    let mut cipher = Aes128::new(key);
    let masks = Masks::new(&cipher);
    let first = first_offset(&cipher, nonce);
    let sum = checksum(bytes);
    let last = mask(&cipher, &masks, Direction::Encrypt, &first, bytes);
    let tag = tag_of(&cipher, &masks, &last, &sum, assoc);
    cipher.clear();
    tag
}

/// Decrypts bytes under a key and a nonce, and answers whether the tag is that of the plaintext and
/// the associated data (RFC 7253, 4.3). The bytes are zeros where it isn't.
///
/// Tags are compared without an early exit.
pub fn ocb_decrypt(
    key: &[u8; 16],
    nonce: &[u8; 12],
    assoc: &[u8],
    bytes: &mut [u8],
    tag: &[u8; 16],
) -> bool
    requires assoc { length assoc.now ≤ 65536 }
    requires bytes { length bytes.old ≤ 65536 }
    ensures opens { IsTrue result ↔ (ocb_tag key.now nonce.now assoc.now
        (ocb_decrypted key.now nonce.now bytes.old) ≡ tag.now) }
    ensures plain { IsTrue result → bytes.new ≡ ocb_decrypted key.now nonce.now bytes.old }
    ensures zeros { result ≡ false → bytes.new ≡ replicate (length bytes.old) 0 }

    // It is true of all bytes that were encrypted under this key and this nonce with this data, and
    // undoes their encryption.
    ensures undoes { (plain : List ℕ) → IsBytes (length bytes.old) plain
        → bytes.old ≡ ocb_encrypted key.now nonce.now plain → tag.now
        ≡ ocb_tag key.now nonce.now assoc.now plain → IsTrue result × (bytes.new ≡ plain) }

    // Where it is true, the bytes and the tag are the encryption of what it leaves.
    ensures encrypted { IsTrue result → (bytes.old ≡ ocb_encrypted key.now nonce.now bytes.new)
        × (tag.now ≡ ocb_tag key.now nonce.now assoc.now bytes.new) }
{
    let mut cipher = Aes128::new(key);
    let masks = Masks::new(&cipher);
    let first = first_offset(&cipher, nonce);
    let last = mask(&cipher, &masks, Direction::Decrypt, &first, bytes);
    let sum = checksum(bytes);
    let own_tag = tag_of(&cipher, &masks, &last, &sum, assoc);
    cipher.clear();
    let is_own = are_equal(&own_tag, tag);
    if !is_own {
        wipe(bytes);
    }
    is_own
}

#[derive(Clone, Copy)]
enum Direction {
    Encrypt,
    Decrypt,
}

// Adds their offsets to all bytes, with the cipher between in whole blocks, and answers the last
// offset.
fn mask(
    cipher: &Aes128,
    masks: &Masks,
    direction: Direction,
    first: &[u8; 16],
    bytes: &mut [u8],
) -> [u8; 16]
    requires { masks.now ≡ masks_of cipher.now }
    ensures bytes { bytes.new
        ≡ masked (cipher_of direction cipher.now) cipher.now first.now bytes.old }
    ensures last { result ≡ last_offset cipher.now first.now bytes.old }
    ensures old { IsBytes (length bytes.old) bytes.old }
{
    let last = mask_blocks(cipher, masks, direction, first, bytes);
    mask_rest(cipher, masks, &last, bytes)
}

fn mask_blocks(
    cipher: &Aes128,
    masks: &Masks,
    direction: Direction,
    first: &[u8; 16],
    bytes: &mut [u8],
) -> [u8; 16]
    requires { masks.now ≡ masks_of cipher.now }
    ensures bytes { bytes.new
        ≡ concat (masked_blocks (cipher_of direction cipher.now) cipher.now first.now 0
        (blocks_of bytes.old)) ++ partial_block bytes.old }
    ensures offset { result ≡ offset cipher.now first.now (length bytes.old / 16) }
    ensures old { IsBytes (length bytes.old) bytes.old }
{
    let mut offset = *first;
    for i in 0..bytes.len() / BLOCK_LEN {
        offset = xor(&offset, &masks.of_block(i + 1));
        let block = xor(&block_at(bytes, BLOCK_LEN * i), &offset);
        let between = match direction {
            Direction::Encrypt => cipher.encrypt(&block),
            Direction::Decrypt => cipher.decrypt(&block),
        };
        put_block(bytes, BLOCK_LEN * i, &xor(&between, &offset));
    }
    offset
}

fn mask_rest(cipher: &Aes128, masks: &Masks, before: &[u8; 16], bytes: &mut [u8]) -> [u8; 16]
    requires { masks.now ≡ masks_of cipher.now }
    ensures bytes { let last = offset_after cipher.now before.now (partial_block bytes.old) in
        bytes.new ≡ take (16 * (length bytes.old / 16)) bytes.old
        ++ xor_of (partial_block bytes.old) (encrypted cipher.now last) }
    ensures last { result ≡ offset_after cipher.now before.now (partial_block bytes.old) }
{
    let start = bytes.len() / BLOCK_LEN * BLOCK_LEN;
    if start == bytes.len() {
        return *before;
    }
    let last = xor(before, &masks.star);
    add(&mut bytes[start..], &cipher.encrypt(&last));
    last
}

// Adds the first bytes of a block to as many bytes.
fn add(bytes: &mut [u8], block: &[u8; 16])
    requires { length bytes.old ≤ 16 }
    ensures { bytes.new ≡ xor_of bytes.old block.now }
{
    for (i, byte) in bytes.iter_mut().enumerate() {
        *byte ^= block[i];
    }
}

fn checksum(plain: &[u8]) -> [u8; 16]
    ensures { result ≡ checksum plain.now }
{
    let (blocks, rest) = plain.as_chunks::<BLOCK_LEN>();
    let mut sum = [0; BLOCK_LEN];
    for block in blocks {
        sum = xor(&sum, block);
    }
    if rest.is_empty() {
        sum
    } else {
        xor(&sum, &padded(rest))
    }
}

// The rest with a bit 1 and zeros after it.
fn padded(rest: &[u8]) -> [u8; 16]
    requires some { 0 < length rest.now }
    requires fits { length rest.now < 16 }
    ensures { padded rest.now ≡ result ∷ [] }
{
    let mut block = [0; BLOCK_LEN];
    block[..rest.len()].copy_from_slice(rest);
    block[rest.len()] = 0x80;
    block
}

fn hash(cipher: &Aes128, masks: &Masks, assoc: &[u8]) -> [u8; 16]
    requires masks { masks.now ≡ masks_of cipher.now }
    requires len { length assoc.now ≤ 65536 }
    ensures { result ≡ hash cipher.now assoc.now }
{
    let (blocks, rest) = assoc.as_chunks::<BLOCK_LEN>();
    let mut offset = [0; BLOCK_LEN];
    let mut sum = [0; BLOCK_LEN];
    for (i, block) in blocks.iter().enumerate() {
        offset = xor(&offset, &masks.of_block(i + 1));
        sum = xor(&sum, &cipher.encrypt(&xor(block, &offset)));
    }
    if rest.is_empty() {
        return sum;
    }
    let last = xor(&offset, &masks.star);
    xor(&sum, &cipher.encrypt(&xor(&padded(rest), &last)))
}

fn tag_of(cipher: &Aes128, masks: &Masks, last: &[u8; 16], sum: &[u8; 16], assoc: &[u8]) -> [u8; 16]
    requires masks { masks.now ≡ masks_of cipher.now }
    requires len { length assoc.now ≤ 65536 }
    ensures { result
        ≡ xor_of (encrypted cipher.now (xor_of (xor_of sum.now last.now) (l_dollar cipher.now)))
        (hash cipher.now assoc.now) }
{
    let masked = xor(&xor(sum, last), &masks.dollar);
    xor(&cipher.encrypt(&masked), &hash(cipher, masks, assoc))
}

// The time that it takes doesn't depend on where they differ.
fn are_equal(left: &[u8; 16], right: &[u8; 16]) -> bool
    ensures { IsTrue result ↔ (left.now ≡ right.now) }
{
    let mut differences = 0;
    for byte in &xor(left, right) {
        differences |= *byte;
    }
    differences == 0
}
