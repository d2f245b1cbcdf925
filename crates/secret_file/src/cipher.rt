//! Which of two ciphers a key file is protected by, with its initialization vector (keyformat.txt,
//! "Protected Private Key Format"). Plain data. Begin with `IsCipher` of `specs/Steps`, by which a
//! name in the file is one of these.

/// How the secret parameters of a key are encrypted under the key of a passphrase, with the
/// initialization vector.
#[derive(Clone, Copy)]
pub(crate) enum Cipher {
    /// Cipher block chaining, with a digest among what is encrypted.
    Cbc([u8; 16]),
    /// OCB, with a tag behind what is encrypted.
    Ocb([u8; 12]),
}
