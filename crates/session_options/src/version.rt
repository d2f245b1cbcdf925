//! The version that an agent tells its clients (GETINFO of gpg-agent). Plain data, whose type keeps
//! its form, so that no byte of it is escaped in a line. Begin with `Version`; `is_version` of
//! `specs/Versions` says which bytes are one.

ghost use Rattle.std.specs.{Prelude.{◌≡◌, true, codes, IsSome, IfSome, ◌↔◌}, List.list_all};
ghost use Rattle.session_options.specs.Versions.{is_version, is_version_byte, is_version_len};

use crate::text::copied;
use arrayvec::ArrayVec;

/// How many bytes a version has at most.
pub const MAX_VERSION_LEN: usize = 20;

/// The version where nothing is said.
pub const DEFAULT_VERSION: &[u8] = b"2.4.0";

/// A version of letters and digits of ASCII and of dots, of which there is one at least.
#[derive(Drop)]
pub struct Version {
    /// Its text.
    pub bytes: ArrayVec<u8, MAX_VERSION_LEN>,
    ghost in_form: { is_version bytes.items ≡ true },
}

impl Default for Version {
    ghost use Rattle.session_options.specs.Defaults.{default_version};

    ghost is_default = { λ version. version ≡ default_version };

    /// The version where nothing is said.
    fn default() -> Version {
        let mut bytes = ArrayVec::new();
        bytes.try_extend_from_slice(DEFAULT_VERSION).unwrap();
        Version { bytes }
    }
}

impl Version {
    /// The version of this text, if it is in form.
    pub fn new(text: &[u8]) -> Option<Version>
        ensures some { IsSome result ↔ (is_version text.now ≡ true) }
        ensures text { IfSome result (λ version. version.bytes.items ≡ text.now) }
    {
        if !is_version(text) {
            return None;
        }
        let mut bytes = ArrayVec::new();
        bytes.try_extend_from_slice(text).ok()?;
        Some(Version { bytes })
    }

    /// The same version again.
    pub fn copied(&self) -> Version
        ensures { result ≡ self.now }
    {
        Version {
            bytes: copied(&self.bytes),
        }
    }
}

fn is_version(text: &[u8]) -> bool
    ensures { result ≡ is_version text.now }
{
    is_version_len(text.len()) && all_version_bytes(text)
}

fn is_version_len(len: usize) -> bool
    ensures { result ≡ is_version_len len }
{
    1 <= len && len <= MAX_VERSION_LEN
}

fn all_version_bytes(text: &[u8]) -> bool
    ensures { result ≡ list_all is_version_byte text.now }
{
    text.iter().all(|byte| is_version_byte(*byte))
}

fn is_version_byte(byte: u8) -> bool
    ensures { result ≡ is_version_byte byte }
{
    byte.is_ascii_alphanumeric() || byte == b'.'
}
