//! What is kept of an inquiry's bytes: all of them in memory up to a limit, a secret in place, or
//! their number alone. Each works on its own bytes, and overwrites them where it keeps some. Begin
//! with `Buffer::add`; `specs/Buffers` says what each has of the bytes that came.

ghost use Rattle.std.specs.Prelude.{◌≡◌, ◌≤◌, ◌<◌, ◌+◌, ◌++◌, [], false, ℕ, List, length, vec_len};
ghost use Rattle.std.specs.Prelude.{OnOk, OnErr, MatchOption};
ghost use Rattle.cache_policy.specs.declared.secret.TheConstants.{MAX_SECRET_LEN};
ghost use Rattle.assuan_server.specs.Buffers.{IsVecOf, IsSecretOf, IsCountOf};

use assuan_escape::data_of;
use assuan_line::{Line, LineFilter};
use assuan_text::is_idle;
use cache_policy::{MAX_SECRET_LEN, Secret};
use std::alloc::{AllocError, Global};
use wiping::{Wiped, wipe};

/// Keeps the bytes that an inquiry's data lines carry.
pub(crate) trait Buffer {
    /// What is kept of these bytes.
    ghost keeps: { Self → List ℕ → Type 0 };

    /// How many bytes may be kept.
    ghost limit: { Self → ℕ };

    fn add(&mut self, bytes: &[u8])
        ensures keeps { (before : List ℕ) → keeps self.old before
            → keeps self.new (before ++ bytes.now) }
        ensures limit { limit self.new ≡ limit self.old };
}

/// The lines that an inquiry skips. A buffer takes what they carry.
#[derive(Drop)]
pub(crate) struct InquiryLines<B: Drop> {
    pub(crate) buffer: B,
}

impl<B: Buffer + Drop> LineFilter for InquiryLines<B> {
    ghost use Rattle.std.specs.List.{flat_map};
    ghost use Rattle.assuan_escape.specs.DataLines.{carried};
    ghost use Rattle.assuan_server.specs.Inquiries.{is_skipped};

    ghost skips = { λ _ line. is_skipped line };

    ghost keeps = { λ filter lines. B.keeps filter.buffer (flat_map carried lines) };

    ghost limit = { λ filter. B.limit filter.buffer };

    fn skip(&mut self, line: &Line) -> bool {
        let mut data = data_of(line.bytes());
        match &mut data {
            Some(bytes) => {
                self.buffer.add(bytes.bytes());
                bytes.clear();
                true
            }
            None => is_idle(line.bytes()),
        }
    }
}

/// Why bytes of an inquiry aren't kept. Further ones are dropped.
#[derive(Clone, Copy, PartialEq, Eq)]
pub(crate) enum Overflow {
    /// They are all kept.
    None,
    /// They went past the limit.
    TooMuch,
    /// There was no memory for them.
    NoMemory,
}

/// Keeps bytes in memory, up to a limit. They are overwritten when it is dropped.
pub(crate) struct VecBuffer {
    alloc: Global,
    pub(crate) bytes: Vec<u8>,
    pub(crate) limit: usize,
    pub(crate) overflow: Overflow,
    ghost within: { vec_len bytes ≤ limit },
}

impl VecBuffer {
    pub(crate) fn new(alloc: Global, limit: usize) -> VecBuffer
        ensures bytes { result.bytes.items ≡ [] }
        ensures limit { result.limit ≡ limit }
        ensures overflow { result.overflow ≡ Overflow.None }
    {
        VecBuffer {
            alloc,
            bytes: Vec::new(alloc),
            limit,
            overflow: Overflow::None,
        }
    }

    pub(crate) fn into_bytes(self) -> Vec<u8>
        ensures bytes { result.items ≡ self.bytes.items }
        ensures within { vec_len result ≤ self.limit }
    {
        let VecBuffer {
            alloc: _,
            bytes,
            limit: _,
            overflow: _,
        } = self;
        bytes
    }
}

impl VecBuffer {
    /// Appends the bytes. Where they need another place in memory, the one before it is
    /// overwritten.
    fn extend(&mut self, bytes: &[u8]) -> Result<(), AllocError>
        requires { vec_len self.old.bytes + length bytes.now ≤ self.old.limit }
        ensures ok { OnOk result (self.new.bytes.items ≡ self.old.bytes.items ++ bytes.now) }
        ensures err { OnErr result (self.new.bytes.items ≡ self.old.bytes.items) }
        ensures limit { self.new.limit ≡ self.old.limit }
        ensures overflow { self.new.overflow ≡ self.old.overflow }
    {
        let len = self.bytes.len() + bytes.len();
        if self.bytes.capacity() < len {
            let capacity = len.max(self.bytes.len().saturating_mul(2)).min(self.limit);
            let mut larger = Vec::with_capacity(self.alloc, capacity)?;
            larger.extend_from_slice(&self.bytes)?;
            wipe(self.bytes.as_mut_slice());
            self.bytes = larger;
        }
        self.bytes.extend_from_slice(bytes)
    }
}

impl Drop for VecBuffer {
    fn drop(self) {
        let VecBuffer {
            alloc: _,
            mut bytes,
            limit: _,
            overflow: _,
        } = self;
        wipe(bytes.as_mut_slice());
    }
}

impl Buffer for VecBuffer {
    ghost keeps = { λ buffer bytes. IsVecOf buffer.limit buffer.bytes.items buffer.overflow bytes };

    ghost limit = { λ buffer. buffer.limit };

    fn add(&mut self, bytes: &[u8]) {
        if self.overflow != Overflow::None {
            return;
        }
        if bytes.len() > self.limit - self.bytes.len() {
            self.overflow = Overflow::TooMuch;
            return;
        }
        if self.extend(bytes).is_err() {
            self.overflow = Overflow::NoMemory;
        }
    }
}

/// Keeps bytes without taking memory, up to as many as a secret has. They are overwritten where
/// they lie by `Wiped::clear`.
#[derive(Drop)]
pub(crate) struct SecretBuffer {
    pub(crate) bytes: Wiped<MAX_SECRET_LEN>,
    pub(crate) too_much: bool,
}

impl SecretBuffer {
    pub(crate) fn new() -> SecretBuffer
        ensures bytes { result.bytes ≡ [] }
        ensures too_much { result.too_much ≡ false }
    {
        SecretBuffer {
            bytes: Wiped::new(),
            too_much: false,
        }
    }

    /// A copy of the bytes, if they can be a secret.
    pub(crate) fn secret(&self) -> Option<Secret>
        ensures { (bytes : List ℕ) → IsSecretOf self.now.bytes self.now.too_much bytes
            → MatchOption result (MAX_SECRET_LEN < length bytes)
            (λ secret. (secret ≡ bytes) × (length bytes ≤ MAX_SECRET_LEN)) }
    {
        if self.too_much {
            None
        } else {
            Secret::of(self.bytes.bytes())
        }
    }
}

impl Buffer for SecretBuffer {
    ghost keeps = { λ buffer bytes. IsSecretOf buffer.bytes buffer.too_much bytes };

    ghost limit = { λ _. MAX_SECRET_LEN };

    fn add(&mut self, bytes: &[u8]) {
        if !self.too_much && self.bytes.try_extend_from_slice(bytes).is_err() {
            self.too_much = true;
        }
    }
}

/// Counts bytes up to a limit, and keeps none.
#[derive(Drop)]
pub(crate) struct ByteCounter {
    pub(crate) limit: usize,
    /// How many more may come.
    pub(crate) left: usize,
    pub(crate) past: bool,
}

impl ByteCounter {
    pub(crate) fn new(limit: usize) -> ByteCounter
        ensures limit { result.limit ≡ limit }
        ensures left { result.left ≡ limit }
        ensures past { result.past ≡ false }
    {
        ByteCounter {
            limit,
            left: limit,
            past: false,
        }
    }
}

impl Buffer for ByteCounter {
    ghost keeps = { λ counter bytes. IsCountOf counter.limit counter.left counter.past bytes };

    ghost limit = { λ counter. counter.limit };

    fn add(&mut self, bytes: &[u8]) {
        if bytes.len() > self.left {
            self.past = true;
        } else {
            self.left -= bytes.len();
        }
    }
}
