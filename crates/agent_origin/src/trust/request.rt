//! The requests on the trust list (GnuPG manual, "Agent's Assuan protocol"), as lines are read: a
//! fingerprint, what it is trusted for, and its owner's name. Plain data of fixed size. Begin with
//! `TrustRequest`; which one a line is says `trust_request_of` (`specs/TrustRequests`).

ghost use Rattle.std.specs.Prelude.{◌≡◌};
ghost use Rattle.agent_origin.specs.TrustExchanges.{flag_of};

use agent_ports::Grip;
use arrayvec::ArrayVec;
use assuan_server::Code;

/// How many bytes the name of a certificate's owner has at most.
pub const MAX_NAME_LEN: usize = 900;

/// The name of a certificate's owner.
pub type OwnerName = ArrayVec<u8, MAX_NAME_LEN>;

/// What a line with a command on the trust list asks for (GnuPG manual, "Agent's Assuan protocol").
#[derive(Drop)]
pub enum TrustRequest {
    /// Whether the certificate of this fingerprint, a SHA-1 of 20 bytes, is trusted.
    IsTrusted {
        fingerprint: Grip,
    },
    /// The certificate is to be trusted.
    MarkTrusted {
        fingerprint: Grip,
        purpose: TrustPurpose,
        /// The name of its owner, which the user is shown.
        name: OwnerName,
    },
    /// The line is refused.
    Bad(Code),
}

/// What a certificate is trusted for, by the flag of its entry (GnuPG manual, "Agent
/// Configuration", `trustlist.txt`).
#[derive(Clone, Copy, PartialEq, Eq)]
pub enum TrustPurpose {
    /// `S`: as the root of a chain of X.509 certificates.
    X509,
    /// `P`: as an OpenPGP key.
    OpenPgp,
}

impl TrustPurpose {
    /// The flag of its entries in the trust list.
    pub(crate) fn flag(self) -> u8
        ensures { result ≡ flag_of self }
    {
        match self {
            TrustPurpose::X509 => b'S',
            TrustPurpose::OpenPgp => b'P',
        }
    }
}
