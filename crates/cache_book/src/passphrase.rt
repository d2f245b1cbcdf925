//! The passphrase of a slot: in the slot where it is short, else in memory that was taken
//! beforehand. It is overwritten where it lies, by `clear`. Begin with `Passphrase::fill`;
//! contracts see its `bytes_of` (`specs/Passphrases`).

ghost use Rattle.std.specs.Prelude.{◌≡◌, ◌≤◌, [], true, length};
ghost use Rattle.cache_book.specs.declared.passphrase.TheConstants.{MAX_SHORT_LEN};
ghost use Rattle.cache_book.specs.Passphrases.{bytes_of, is_short};

use crate::packed::Packed;
use cache_policy::Secret;

/// How many bytes a passphrase has at most that stands in its slot.
pub(crate) const MAX_SHORT_LEN: usize = 22;

/// The passphrase of a slot.
#[derive(Drop)]
pub(crate) enum Passphrase {
    /// In the slot itself.
    Short(Packed<MAX_SHORT_LEN>),
    /// In memory of its own: a `Secret` has room for 255 bytes, and few passphrases need it.
    Long(Box<Secret>),
}

impl Passphrase {
    /// None.
    pub(crate) fn new() -> Passphrase
        ensures { bytes_of result ≡ [] }
    {
        Passphrase::Short(Packed::new())
    }

    /// Copies `secret` to where none lies yet: into the slot where it fits, else into `long`.
    pub(crate) fn fill(&mut self, secret: &Secret, mut long: Box<Secret>)
        requires none { bytes_of self.old ≡ [] }
        requires bare { long.value ≡ [] }
        ensures bytes { bytes_of self.new ≡ secret.now }
        ensures short { is_short self.old ≡ true → length secret.now ≤ MAX_SHORT_LEN
            → is_short self.new ≡ true }
    {
        if let Passphrase::Short(short) = self {
            if short.fill(secret.bytes()) {
                return;
            }
        }
        *long = secret.copy();
        *self = Passphrase::Long(long);
    }

    pub(crate) fn copy(&self) -> Secret
        ensures { result ≡ bytes_of self.now }
    {
        match self {
            Passphrase::Short(short) => {
                let Some(secret) = Secret::of(short.bytes()) else {
                    unreachable!()
                };
                secret
            }
            Passphrase::Long(secret) => secret.copy(),
        }
    }

    /// Overwrites the bytes where they lie.
    pub(crate) fn clear(&mut self)
        ensures bytes { bytes_of self.new ≡ [] }
        ensures place { is_short self.new ≡ is_short self.old }
    {
        match self {
            Passphrase::Short(short) => short.clear(),
            Passphrase::Long(secret) => secret.clear(),
        }
    }
}
