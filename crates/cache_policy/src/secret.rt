//! A passphrase, or any bytes that may be one: at most 255, in the value itself and overwritten. No
//! memory is taken. Begin with `Secret::of`; contracts see the bytes.

ghost use Rattle.std.specs.Prelude.{◌≡◌, ◌≤◌, ◌↔◌, [], length, IsSome, IfSome};

use std::marker::Model;
use wiping::Wiped;

/// How many bytes a passphrase has at most.
pub const MAX_SECRET_LEN: usize = 255;

/// A passphrase: at most 255 bytes, maybe none.
///
/// It is neither cloned nor printed nor compared, and its bytes are overwritten with zeros when it
/// is dropped. A move leaves the bytes where they were, as in Rust, and `drop` is given its value
/// by a move. No proof says that wiped bytes are gone from the machine.
#[derive(Drop)]
pub struct Secret {
    bytes: Wiped<MAX_SECRET_LEN>,
}

impl Model for Secret {
    ghost use Rattle.std.specs.Prelude.{ℕ, ◌≤◌, List, length};
    ghost use Rattle.cache_policy.specs.declared.secret.TheConstants.{MAX_SECRET_LEN};

    ghost Value = { List ℕ };

    ghost view = { λ secret. secret.bytes };

    ghost invariant = { λ secret. length secret.bytes ≤ MAX_SECRET_LEN };
}

impl Secret {
    /// `None` for more than 255 bytes.
    pub fn of(bytes: &[u8]) -> Option<Secret>
        ensures within { IsSome result ↔ (length bytes.now ≤ MAX_SECRET_LEN) }
        ensures bytes { IfSome result (λ secret. secret ≡ bytes.now) }
    {
        let bytes = Wiped::of(bytes)?;
        Some(Secret { bytes })
    }

    /// Its bytes, at most `MAX_SECRET_LEN`.
    pub fn bytes(&self) -> &[u8]
        ensures value { result.now ≡ self.now }
        ensures within { length self.now ≤ MAX_SECRET_LEN }
    {
        self.bytes.bytes()
    }

    /// Overwrites the bytes where they lie, which a drop doesn't: it is given its value by a move.
    pub fn clear(&mut self)
        ensures { self.new ≡ [] }
    {
        self.bytes.clear();
    }

    /// The same passphrase once more, without taking memory. Each copy is overwritten when it is
    /// dropped.
    pub fn copy(&self) -> Secret
        ensures { result ≡ self.now }
    {
        let mut bytes = Wiped::new();
        let _ = bytes.try_extend_from_slice(self.bytes());
        Secret { bytes }
    }
}
