//! Modes of operation of AES-128, in place and without memory: cipher block chaining (SP 800-38A,
//! 6.2) and the authenticated encryption OCB (RFC 7253).
//!
//! Begin with [`ocb_encrypt`] and [`ocb_decrypt`], or with [`cbc_encrypt`] and [`cbc_decrypt`].
//! Each is exactly its standard's, and what was encrypted comes back. OCB's decryption is true
//! exactly where the tag is that of the plaintext and the data, and else leaves zeros. Definitions
//! begin in `specs/Ocb` and `specs/Cbc`.
#![tactic(auto)]

mod blocks;
mod cbc;
mod laws;
mod masks;
mod ocb;

pub use cbc::{cbc_decrypt, cbc_encrypt};
pub use laws::{
    decryption_undoes_encryption, ocb_decryption_undoes_encryption, ocb_plaintext_was_encrypted,
};
pub use ocb::{ocb_decrypt, ocb_encrypt};
