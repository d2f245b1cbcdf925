//! A few bytes with their count, in the value itself, for ids and short passphrases in slots. No
//! memory is taken, and `fill` and `clear` overwrite what lay there. Begin with `Packed::fill`;
//! contracts see the list of bytes.

ghost use Rattle.std.specs.Prelude.{◌≡◌, ◌<◌, ◌≤◌, ◌↔◌, [], true, false, length, IsTrue};

use std::marker::Model;
use wiping::wipe;

/// At most `N` bytes, with their count in one byte. Behind them there are zeros.
///
/// `fill` and `clear` overwrite what was there, which a drop doesn't: it is given its value by a
/// move.
pub(crate) struct Packed<const N: usize> {
    len: u8,
    bytes: [u8; N],
}

impl<const N: usize> Model for Packed<N> {
    ghost use Rattle.std.specs.Prelude.{◌≡◌, ℕ, ◌≤◌, ◌-◌, List, take, drop, replicate};

    ghost Value = { List ℕ };

    ghost view = { λ packed. take packed.len packed.bytes };

    ghost invariant = { λ packed. (packed.len ≤ N)
        × (drop packed.len packed.bytes ≡ replicate (N - packed.len) 0) };
}

impl<const N: usize> Packed<N> {
    /// No bytes.
    pub(crate) fn new() -> Self
        ensures { result ≡ [] }
    {
        Packed {
            len: 0,
            bytes: [0; N],
        }
    }

    /// Takes these bytes in place of its own, and answers whether it did: more than `N`, or more
    /// than 255, it doesn't take.
    pub(crate) fn fill(&mut self, from: &[u8]) -> bool
        ensures within { IsTrue result ↔ ((length from.now ≤ N) × (length from.now < 256)) }
        ensures taken { result ≡ true → self.new ≡ from.now }
        ensures unchanged { result ≡ false → self.new ≡ self.old }
    {
        let Ok(len) = u8::try_from(from.len()) else {
            return false;
        };
        if N < from.len() {
            return false;
        }
        wipe(&mut self.bytes);
        self.bytes[..from.len()].copy_from_slice(from);
        self.len = len;
        true
    }

    pub(crate) fn bytes(&self) -> &[u8]
        ensures value { result.now ≡ self.now }
        ensures within { length self.now ≤ N }
    {
        &self.bytes[..usize::from(self.len)]
    }

    pub(crate) fn clear(&mut self)
        ensures { self.new ≡ [] }
    {
        self.fill(b"");
    }
}

impl<const N: usize> Drop for Packed<N> {
    fn drop(self) {
        let Packed { len: _, mut bytes } = self;
        wipe(&mut bytes);
    }
}
