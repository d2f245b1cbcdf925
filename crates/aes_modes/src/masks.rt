//! What is added to the blocks of OCB: the masks L of a key, and the first offset of a nonce (RFC
//! 7253, 4.1 and 4.2). Pure but for the masks, which are overwritten when they are dropped. Begin
//! with `Masks::new` and `first_offset`; the definitions stand in `specs/Masks`.

ghost use Rattle.std.specs.{Prelude.{◌≡◌, ℕ, ◌+◌, ◌/◌, ◌<◌, List}, Int.{w64, trailing_zeros}};
ghost use Rattle.aes_modes.specs.Ocb.{block_from, double, l_mask, stretch, first_offset};
ghost use Rattle.aes_modes.specs.{Ocb.eight_bits, Masks.masks_of};

use aes_block::{Aes128, xor};
use wiping::wipe;

const STRETCH_LEN: usize = 24;

/// The masks of a key from which the others are made: L_*, L_$ and L_0.
pub(crate) struct Masks {
    pub(crate) star: [u8; 16],
    pub(crate) dollar: [u8; 16],
    first: [u8; 16],
}

impl Masks {
    pub(crate) fn new(cipher: &Aes128) -> Masks
        ensures { result ≡ masks_of cipher.now }
    {
        let star = cipher.encrypt(&[0; 16]);
        let dollar = double(&star);
        let first = double(&dollar);
        Masks {
            star,
            dollar,
            first,
        }
    }

    /// The mask of a block by its number, counted from 1.
    // It is made again for each block, by one doubling on average, in place of a table on the
    // stack.
    pub(crate) fn of_block(&self, number: usize) -> [u8; 16]
        ensures { (key : List ℕ) → self.now ≡ masks_of key
            → result ≡ l_mask key (trailing_zeros w64 number) }
    {
        let mut mask = self.first;
        for _ in 0..number.trailing_zeros() {
            mask = double(&mask);
        }
        mask
    }
}

impl Drop for Masks {
    fn drop(self) {
        let Masks {
            mut star,
            mut dollar,
            mut first,
        } = self;
        wipe(&mut star);
        wipe(&mut dollar);
        wipe(&mut first);
    }
}

/// The offset before the first block, of a nonce.
pub(crate) fn first_offset(cipher: &Aes128, nonce: &[u8; 12]) -> [u8; 16]
    ensures { result ≡ first_offset cipher.now nonce.now }
{
    let mut block = [0; 16];
    block[3] = 1;
    block[4..].copy_from_slice(nonce);
    let bottom = block[15] % 64;
    block[15] -= bottom;
    block_from(&stretch(&cipher.encrypt(&block)), bottom as usize)
}

fn stretch(top: &[u8; 16]) -> [u8; 24]
    ensures { result ≡ stretch top.now }
{
    let mut first = [0; 8];
    first.copy_from_slice(&top[..8]);
    let mut second = [0; 8];
    second.copy_from_slice(&top[1..9]);
    let mut stretch = [0; STRETCH_LEN];
    stretch[..16].copy_from_slice(top);
    stretch[16..].copy_from_slice(&xor(&first, &second));
    stretch
}

fn double(block: &[u8; 16]) -> [u8; 16]
    ensures { result ≡ double block.now }
{
    let mut wide = [0; STRETCH_LEN];
    wide[..16].copy_from_slice(block);
    let mut doubled = block_from(&wide, 1);
    // No branch: the bit is secret.
    doubled[15] ^= (block[0] >> 7) * 0x87;
    doubled
}

/// The 128 bits from a bit on, counted from the highest of the first byte.
fn block_from(bytes: &[u8; 24], bit: usize) -> [u8; 16]
    requires { bit < 64 }
    ensures { result ≡ block_from bytes.now bit }
{
    let mut block = [0; 16];
    for (k, byte) in block.iter_mut().enumerate() {
        *byte = eight_bits(bytes, bit + 8 * k);
    }
    block
}

fn eight_bits(bytes: &[u8; 24], bit: usize) -> u8
    requires { bit / 8 + 1 < 24 }
    ensures { result ≡ eight_bits bytes.now bit }
{
    let both = u16::from_be_bytes([bytes[bit / 8], bytes[bit / 8 + 1]]);
    ((both >> (8 - bit % 8)) % 256) as u8
}
