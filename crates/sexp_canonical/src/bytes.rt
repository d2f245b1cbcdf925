//! The bytes of atoms and of written texts: a vector that is overwritten when it is dropped, and
//! where it was when it grows, since a secret key may lie in it. It works on its own memory. Begin
//! with `Bytes::extend_from_slice`; contracts see a list.

ghost use Rattle.std.specs.Prelude.{◌≡◌, [], ◌++◌, length, replicate, OnOk, OnErr};

use std::alloc::{AllocError, Global};
use std::marker::Model;
use std::{hint, mem};

/// The least room that bytes grow into, so that an atom read byte by byte is seldom moved, and
/// overwritten, more than once.
const MIN_CAPACITY: usize = 32;

/// The bytes of an atom, or a text that is written. Contracts see them as a list.
///
/// They are overwritten with zeros when they are dropped, and where they grow into a larger place,
/// the old one is overwritten. A move of the value itself copies no byte. No proof says that wiped
/// bytes are gone from the machine.
pub struct Bytes(pub Vec<u8>);

impl Model for Bytes {
    ghost use Rattle.std.specs.Prelude.{List, ℕ};

    ghost Value = { List ℕ };

    ghost view = { λ bytes. bytes.0.items };
}

impl Bytes {
    /// No bytes yet. It takes no memory.
    pub fn new(alloc: Global) -> Bytes
        ensures { result ≡ [] }
    {
        Bytes(Vec::new(alloc))
    }

    /// The bytes, in place.
    pub fn as_slice(&self) -> &[u8]
        ensures { result.now ≡ self.now }
    {
        self.0.as_slice()
    }

    /// Appends bytes.
    pub fn extend_from_slice(&mut self, bytes: &[u8]) -> Result<(), AllocError>
        ensures ok { OnOk result (self.new ≡ self.old ++ bytes.now) }
        ensures err { OnErr result (self.new ≡ self.old) }
    {
        let len = self.0.len() + bytes.len();
        let capacity = self.0.capacity();
        if capacity < len {
            self.move_to(len.max(capacity.saturating_mul(2)).max(MIN_CAPACITY))?;
        }
        self.0.extend_from_slice(bytes)
    }

    // Moves the bytes to another place, and overwrites the old one.
    fn move_to(&mut self, capacity: usize) -> Result<(), AllocError>
        ensures { self.new ≡ self.old }
    {
        let mut place = Vec::with_capacity(*self.0.allocator(), capacity)?;
        place.extend_from_slice(&self.0)?;
        let mut left = mem::replace(&mut self.0, place);
        wipe(left.as_mut_slice());
        Ok(())
    }

    /// The vector that holds the bytes, which is no longer overwritten. It takes no memory.
    pub fn into_vec(self) -> Vec<u8>
        ensures { result.items ≡ self }
    {
        let Bytes(bytes) = self;
        bytes
    }
}

/// Takes no memory.
impl From<Vec<u8>> for Bytes {
    ghost from_gives = { λ bytes result. result ≡ bytes.items };

    fn from(bytes: Vec<u8>) -> Bytes {
        Bytes(bytes)
    }
}

impl Drop for Bytes {
    fn drop(self) {
        let Bytes(mut bytes) = self;
        wipe(bytes.as_mut_slice());
    }
}

// The toolchain has no volatile write. A call that is not inlined, and that has an effect which the
// optimiser may not drop, stands in for it: so the call stays, and its writes with it.
#[inline(never)]
fn wipe(bytes: &mut [u8])
    ensures { bytes.new ≡ replicate (length bytes.old) 0 }
{
    bytes.fill(0);
    hint::spin_loop();
}
