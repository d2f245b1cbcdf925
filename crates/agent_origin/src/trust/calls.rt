//! The calls of the trust file, as actions of a request: it is read, and put in place anew.
//! Nothing but the file is called. Begin with `trusted_now` and `store_unsaid`; these are
//! `TrustedNow` and `StoresUnsaid` (`specs/TrustExchanges`).

ghost use Rattle.std.specs.Prelude.{◌≡◌, IfOk, IfErr};
ghost use Rattle.agent_origin.specs.TrustExchanges.{Stores, StoresUnsaid, TrustedNow};
ghost use Rattle.agent_origin.specs.{TrustActions.{ReadsFile, Replaces}, TrustStates.DoesAtFile};

use super::TrustPurpose;
use agent_ports::{Grip, TrustDone, TrustFile, TrustRead};
use assuan_server::Code;
use session_client::Refusal;
use std::alloc::Global;
use trust_list::{TrustFault, add_trust, trusted};

/// Reads the file. One that is absent is empty.
pub(crate) fn read_file<T: TrustFile>(alloc: Global, trust: &mut T) -> Result<Vec<u8>, Refusal>
    ensures read { IfOk result
        (λ file. DoesAtFile ReadsFile (T.trust trust.old) (Ok file.items) (T.trust trust.new)) }
    ensures refused { IfErr result
        (λ why. DoesAtFile ReadsFile (T.trust trust.old) (Err why) (T.trust trust.new)) }
{
    match trust.read(alloc) {
        TrustRead::Found(file) => Ok(file),
        TrustRead::Absent => Ok(Vec::new(alloc)),
        TrustRead::Failed => Err(Refusal::Agent(Code::General)),
        TrustRead::NoMemory => Err(Refusal::Agent(Code::NoMemory)),
    }
}

/// The certificate is trusted by what the file says now.
pub(crate) fn trusted_now<T: TrustFile>(
    alloc: Global,
    fingerprint: &Grip,
    trust: &mut T,
) -> Result<(), Refusal>
    ensures { DoesAtFile (TrustedNow fingerprint.now) (T.trust trust.old) result
        (T.trust trust.new) }
{
    let file = read_file(alloc, trust)?;
    if trusted(&file, fingerprint).unwrap_or(false) {
        Ok(())
    } else {
        Err(Refusal::Agent(Code::NotTrusted))
    }
}

/// The certificate is trusted from now on, unless the file says by now whether it is.
pub(crate) fn store_unsaid<T: TrustFile>(
    alloc: Global,
    fingerprint: &Grip,
    purpose: TrustPurpose,
    trust: &mut T,
) -> Result<(), Refusal>
    ensures { DoesAtFile (StoresUnsaid fingerprint.now purpose) (T.trust trust.old) result
        (T.trust trust.new) }
{
    let file = read_file(alloc, trust)?;
    match trusted(&file, fingerprint) {
        Some(true) => Ok(()),
        Some(false) => Err(Refusal::Agent(Code::NotTrusted)),
        None => store(alloc, &file, fingerprint, purpose, trust),
    }
}

/// Puts the file with an entry for the certificate in the place of this one.
fn store<T: TrustFile>(
    alloc: Global,
    file: &[u8],
    fingerprint: &Grip,
    purpose: TrustPurpose,
    trust: &mut T,
) -> Result<(), Refusal>
    ensures { DoesAtFile (Stores fingerprint.now purpose file.now) (T.trust trust.old) result
        (T.trust trust.new) }
{
    match add_trust(alloc, file, fingerprint, purpose.flag()) {
        Ok(new) => replace(alloc, &new, trust),
        Err(TrustFault::TooLong) => Err(Refusal::Agent(Code::TooMuch)),
        Err(TrustFault::NoMemory) => Err(Refusal::Agent(Code::NoMemory)),
    }
}

fn replace<T: TrustFile>(alloc: Global, file: &[u8], trust: &mut T) -> Result<(), Refusal>
    ensures { DoesAtFile (Replaces file.now) (T.trust trust.old) result (T.trust trust.new) }
{
    match trust.replace(alloc, file) {
        TrustDone::Done => Ok(()),
        TrustDone::Failed => Err(Refusal::Agent(Code::General)),
        TrustDone::NoMemory => Err(Refusal::Agent(Code::NoMemory)),
    }
}
