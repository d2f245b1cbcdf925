//! The passphrase of `--store`, read from standard input: one line of at most 255 bytes. It reads,
//! and overwrites what it read. Begin with `take_secret`; what it takes is `TakesSecret`
//! (`specs/Inputs`).

ghost use Rattle.std.specs.Prelude.{◌≡◌, ◌≤◌, ◌<◌, ◌++◌, length, take, [], MatchResult, IfSome};
ghost use Rattle.std.specs.Prelude.{IfOk, IfErr, Err};
ghost use Rattle.agent_ports.specs.{Counts.Rose, Sides.followed_by};
ghost use Rattle.passphrase_client.specs.Inputs.{TakesSecret, without_end, secret_of};

use crate::verdict::is_one_line;
use agent_ports::{Got, Source};
use cache_policy::{MAX_SECRET_LEN, Secret};
use wiping::wipe;

/// How many bytes are read at most: those of a passphrase, its line feed, and one that is too many.
const MAX_READ: usize = MAX_SECRET_LEN + 2;

/// Why what stands on standard input is refused.
#[derive(Clone, Copy, Debug, PartialEq, Eq)]
pub enum InputFault {
    /// It can't be read.
    Unread,
    /// It has no passphrase.
    Empty,
    /// It has more than 255 bytes.
    TooLong,
    /// It has a NUL, or more than one line.
    NotOneLine,
}

/// Takes the passphrase that stands on the input. The bytes that were read are overwritten.
pub(crate) fn take_secret<I: Source>(input: &mut I) -> Result<Secret, InputFault>
    ensures { TakesSecret (I.input input.old) result (I.input input.new) }
{
    let mut bytes = [0; MAX_READ];
    let count = fill(input, &mut bytes);
    let secret = secret_read(&bytes, count);
    wipe(&mut bytes);
    secret
}

/// The passphrase of so many bytes, where they were read.
fn secret_read(bytes: &[u8], count: Result<usize, InputFault>) -> Result<Secret, InputFault>
    requires { IfOk count (λ count. count ≤ length bytes.now) }
    ensures read { MatchResult count
        (λ count. result ≡ secret_of (without_end (take count bytes.now)))
        (λ fault. result ≡ Err fault) }
{
    match count {
        Ok(count) => secret_of(without_end(&bytes[..count])),
        Err(fault) => Err(fault),
    }
}

/// Reads until the buffer is full or the input has ended, and returns how many bytes came.
fn fill<I: Source>(input: &mut I, buffer: &mut [u8]) -> Result<usize, InputFault>
    ensures within { IfOk result (λ count. count ≤ length buffer.old) }
    ensures same { length buffer.new ≡ length buffer.old }
    ensures taken { IfOk result (λ count. (I.input input.old).bytes
        ≡ followed_by (take count buffer.new) (I.input input.new).bytes) }
    ensures end { IfOk result (λ count. count < length buffer.old
        → IfSome (I.input input.new).bytes (λ rest. rest ≡ [])) }
    ensures fault { IfErr result (λ fault. fault ≡ InputFault.Unread) }
    ensures failed { IfErr result
        (λ _. Rose (I.input input.old).faults (I.input input.new).faults) }
    ensures faults { (I.input input.old).faults ≤ (I.input input.new).faults }
{
    if buffer.is_empty() {
        return Ok(0);
    }
    match input.read(buffer) {
        Got::Bytes(count) => {
            let more = fill(input, &mut buffer[count..])?;
            Ok(count + more)
        }
        Got::End => Ok(0),
        Got::Failed => Err(InputFault::Unread),
    }
}

/// The bytes without a line feed at their end.
fn without_end(bytes: &[u8]) -> &[u8]
    ensures { result.now ≡ without_end bytes.now }
{
    match bytes.split_last() {
        Some((b'\n', text)) => text,
        _ => bytes,
    }
}

/// The passphrase of this text.
fn secret_of(text: &[u8]) -> Result<Secret, InputFault>
    ensures { result ≡ secret_of text.now }
{
    if text.is_empty() {
        return Err(InputFault::Empty);
    }
    let Some(secret) = Secret::of(text) else {
        return Err(InputFault::TooLong);
    };
    if !is_one_line(text) {
        return Err(InputFault::NotOneLine);
    }
    Ok(secret)
}
