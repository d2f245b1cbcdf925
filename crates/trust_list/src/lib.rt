//! The list of the root certificates that the user trusts, the agent's file `trustlist.txt` (GnuPG
//! manual, "Agent Configuration"): what it says of a fingerprint, and a new entry at its end.
//!
//! Begin with [`trusted`]: the first entry for a fingerprint decides ([`first_entry_decides`]).
//! [`add_trust`] gives exactly the file with a new entry at its end, by which no other fingerprint
//! is judged otherwise ([`adding_decides`]). Definitions begin in `specs/Trust`, how an entry is
//! written in `specs/Written`.
#![tactic(auto)]

mod adding;
mod fault;
mod laws;
mod lines;

ghost use Rattle.std.specs.Prelude.{◌≡◌};
ghost use Rattle.trust_list.specs.Trust.{trust};

use agent_ports::Grip;
use lines::judgement_of;

/// How many bytes the file has at most.
pub const MAX_TRUST_FILE_LEN: usize = 65_536;

pub use adding::add_trust;
pub use fault::TrustFault;
pub use laws::{adding_decides, entries_are_read, first_entry_decides};

/// Whether the file says that the certificate of this fingerprint is trusted, or that it is not.
/// `None` where it says nothing of it. A file that is absent is empty. The time is linear in the
/// file.
pub fn trusted(file: &[u8], fingerprint: &Grip) -> Option<bool>
    ensures { result ≡ trust file.now fingerprint.now.0 }
{
    let digits = fingerprint.text();
    for line in file.split(|byte| *byte == b'\n') {
        let judgement = judgement_of(&digits, line);
        if judgement.is_some() {
            return judgement;
        }
    }
    None
}
