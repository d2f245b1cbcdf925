//! A new entry at the end of a trust list (GnuPG manual, "Agent's Assuan protocol", MARKTRUSTED).
//! It takes memory for the new file alone, and touches none on disk. Begin with `add_trust`;
//! `with_entry` of `specs/Trust` is the file.

ghost use Rattle.std.specs.Prelude.{◌≡◌, ◌<◌, ◌≤◌, ◌↔◌, length, vec_len, IfOk};
ghost use Rattle.trust_list.specs.Trust.{missing_end, with_entry, IsNewFlag};

use crate::MAX_TRUST_FILE_LEN;
use crate::fault::TrustFault;
use agent_ports::Grip;
use std::alloc::Global;

/// The file with an entry at its end by which the certificate of this fingerprint is trusted. An LF
/// comes before it where the last line of the file lacks one. The flag is `S` or `P` (GnuPG manual,
/// "Agent's Assuan protocol", MARKTRUSTED).
pub fn add_trust(
    alloc: Global,
    file: &[u8],
    fingerprint: &Grip,
    flag: u8,
) -> Result<Vec<u8>, TrustFault>
    requires { IsNewFlag flag }
    ensures added { IfOk result (λ new. new.items ≡ with_entry file.now fingerprint.now.0 flag) }
    ensures fits { IfOk result (λ new. vec_len new ≤ MAX_TRUST_FILE_LEN) }

    // Only a lack of memory may come at any other time.
    ensures too_long { (result ≡ Err TrustFault.TooLong)
        ↔ (MAX_TRUST_FILE_LEN < length (with_entry file.now fingerprint.now.0 flag)) }
{
    let digits = fingerprint.text();
    let line_end = missing_end(file);
    let len = file.len() + line_end.len() + digits.len() + 3;
    if len > MAX_TRUST_FILE_LEN {
        return Err(TrustFault::TooLong);
    }
    let mut new = Vec::with_capacity(alloc, len)?;
    new.extend_from_slice(file)?;
    new.extend_from_slice(line_end)?;
    new.extend_from_slice(&digits)?;
    new.extend_from_slice(&[b' ', flag, b'\n'])?;
    Ok(new)
}

/// The LF that the last line of the file lacks, if it lacks one.
fn missing_end(file: &[u8]) -> &[u8]
    ensures { result.now ≡ missing_end file.now }
{
    match file {
        [] | [.., b'\n'] => b"",
        _ => b"\n",
    }
}
