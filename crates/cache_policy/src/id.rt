//! The cache id that a client names: 1 to 50 bytes, in the value itself. Pure, without memory.
//! Begin with `CacheId::of`; contracts see the bytes.

ghost use Rattle.std.specs.Prelude.{◌≡◌, ◌<◌, ◌≤◌, ◌↔◌, length, IsSome, IfSome};

use arrayvec::ArrayVec;
use std::marker::Model;

/// How many bytes a cache id has at most.
pub const MAX_ID_LEN: usize = 50;

/// The name of a passphrase in the cache: 1 to 50 bytes.
#[derive(PartialEq, Eq, Drop)]
pub struct CacheId {
    bytes: ArrayVec<u8, MAX_ID_LEN>,
}

impl Model for CacheId {
    ghost use Rattle.std.specs.Prelude.{ℕ, ◌≤◌, ◌<◌, List, length};
    ghost use Rattle.cache_policy.specs.declared.id.TheConstants.{MAX_ID_LEN};

    ghost Value = { List ℕ };

    ghost view = { λ id. id.bytes.items };

    ghost invariant = { λ id. (0 < length id.bytes.items) × (length id.bytes.items ≤ MAX_ID_LEN) };

    ghost inverse = { λ bytes. record { bytes = record { items = bytes } } };
}

impl CacheId {
    /// `None` for no bytes, and for more than 50.
    pub fn of(bytes: &[u8]) -> Option<CacheId>
        ensures within { IsSome result
            ↔ ((0 < length bytes.now) × (length bytes.now ≤ MAX_ID_LEN)) }
        ensures bytes { IfSome result (λ id. id ≡ bytes.now) }
    {
        if bytes.is_empty() {
            return None;
        }
        let bytes = ArrayVec::try_from(bytes).ok()?;
        Some(CacheId { bytes })
    }

    /// Its bytes, from 1 to `MAX_ID_LEN`.
    pub fn bytes(&self) -> &[u8]
        ensures value { result.now ≡ self.now }
        ensures some { 0 < length self.now }
        ensures within { length self.now ≤ MAX_ID_LEN }
    {
        self.bytes.as_slice()
    }

    /// The same id once more, without taking memory.
    pub fn copy(&self) -> CacheId
        ensures { result ≡ self.now }
    {
        let mut bytes = ArrayVec::new();
        let _ = bytes.try_extend_from_slice(self.bytes());
        CacheId { bytes }
    }
}
