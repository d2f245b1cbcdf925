//! A buffer of at most `N` bytes in the value itself, which is overwritten: the place for lines,
//! secrets and what is made of them. No memory is taken. Begin with `Wiped::of` and `Wiped::clear`;
//! contracts see a list of bytes.

ghost use Rattle.std.specs.Prelude.{◌≡◌, ◌↔◌, ◌+◌, ◌<◌, ◌≤◌, [], ◌∷◌, ◌++◌, length, IsOk, IsTrue};
ghost use Rattle.std.specs.Prelude.{OnOk, OnErr, IsSome, IfSome};

use crate::wipe;
use arrayvec::{ArrayVec, CapacityError};
use std::marker::Model;

/// At most `N` bytes, in the value itself. They are overwritten when it is dropped, and it is
/// neither cloned nor printed.
pub struct Wiped<const N: usize> {
    bytes: ArrayVec<u8, N>,
}

impl<const N: usize> Model for Wiped<N> {
    ghost use Rattle.std.specs.Prelude.{ℕ, ◌≤◌, List, length};

    ghost Value = { List ℕ };

    ghost view = { λ w. w.bytes.items };

    ghost invariant = { λ w. length w.bytes.items ≤ N };
}

impl<const N: usize> Wiped<N> {
    /// A buffer with no byte.
    pub fn new() -> Self
        ensures { result ≡ [] }
    {
        Wiped {
            bytes: ArrayVec::new(),
        }
    }

    /// A buffer with these bytes, or `None` where they are more than `N`.
    pub fn of(bytes: &[u8]) -> Option<Self>
        ensures within { IsSome result ↔ (length bytes.now ≤ N) }
        ensures bytes { IfSome result (λ buffer. buffer ≡ bytes.now) }
    {
        let mut buffer = Wiped::new();
        buffer.try_extend_from_slice(bytes).ok()?;
        Some(buffer)
    }

    /// Its bytes, at most `N`.
    #[inline]
    pub fn bytes(&self) -> &[u8]
        ensures value { result.now ≡ self.now }
        ensures within { length self.now ≤ N }
    {
        self.bytes.as_slice()
    }

    /// How many bytes it has.
    #[inline]
    pub fn len(&self) -> usize
        ensures value { result ≡ length self.now }
        ensures within { length self.now ≤ N }
    {
        self.bytes.len()
    }

    /// Whether it has no byte.
    #[inline]
    pub fn is_empty(&self) -> bool
        ensures { IsTrue result ↔ (self.now ≡ []) }
    {
        self.bytes().is_empty()
    }

    /// Whether there is no room for a further byte.
    #[inline]
    pub fn is_full(&self) -> bool
        ensures full { IsTrue result ↔ (length self.now ≡ N) }
        ensures within { length self.now ≤ N }
    {
        self.bytes.is_full()
    }

    /// Appends a byte. There must be room.
    #[inline]
    pub fn push(&mut self, byte: u8)
        requires { length self.old < N }
        ensures { self.new ≡ self.old ++ byte ∷ [] }
    {
        self.bytes.push(byte);
    }

    /// Appends all of the bytes, or none where they don't fit.
    pub fn try_extend_from_slice(&mut self, bytes: &[u8]) -> Result<(), CapacityError>
        ensures within { IsOk result ↔ (length self.old + length bytes.now ≤ N) }
        ensures ok { OnOk result (self.new ≡ self.old ++ bytes.now) }
        ensures err { OnErr result (self.new ≡ self.old) }
    {
        self.bytes.try_extend_from_slice(bytes)
    }

    /// Overwrites all bytes where they lie, and removes them.
    pub fn clear(&mut self)
        ensures { self.new ≡ [] }
    {
        wipe(self.bytes.as_mut_slice());
        self.bytes.clear();
    }
}

impl<const N: usize> Drop for Wiped<N> {
    fn drop(self) {
        let Wiped { mut bytes } = self;
        wipe(bytes.as_mut_slice());
    }
}
