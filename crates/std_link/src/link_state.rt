//! How a reader and a writer of std are used as a link: a read again after a signal, a write in as
//! many pieces as it takes, and a flush. It touches those two and its own counts of faults. Begin
//! with `LinkState::read` and `LinkState::put`, which both adapters call.

ghost use Rattle.std.specs.Prelude.{◌≡◌, ◌≤◌, ◌<◌, ◌↔◌, ◌⊎◌, true, false, length, take, IfSome};
ghost use Rattle.std.specs.{Prelude.IfNone, Io.KnownBytes.{Keeps, Appends, Consumes, IsAtEnd}};
ghost use Rattle.agent_ports.specs.Counts.{Rose};
ghost use Rattle.agent_ports.specs.Sides.{taken_by, IfBytes, sent_part, IfCut, IsCut};

use agent_ports::{Got, Sent};
use std::io::{ErrorKind, Read, Write};

/// How a link stands beside what it reads and writes: whether all was read, and how many of its
/// calls failed.
#[derive(Drop)]
pub(crate) struct LinkState {
    pub(crate) ended: bool,
    pub(crate) read_faults: u64,
    pub(crate) write_faults: u64,
}

impl LinkState {
    pub(crate) fn new() -> Self
        ensures { result ≡ record { ended = false; read_faults = 0; write_faults = 0 } }
    {
        LinkState {
            ended: false,
            read_faults: 0,
            write_faults: 0,
        }
    }

    /// Reads, as a link does: what the reader gave is what this gives. Behind the end the reader
    /// isn't asked again.
    #[tactic(auto, using(crate::proofs::KnownBytes::consumes_nothing, crate::proofs::KnownBytes::keeps_and_consumes_nothing))]
    pub(crate) fn read<R: Read>(&mut self, reader: &mut R, buf: &mut [u8]) -> Got
        requires { 0 < length buf.old }
        ensures count { IfBytes result (λ n. (1 ≤ n) × (n ≤ length buf.old)) }
        ensures taken { Consumes (R.remaining reader.old) (R.remaining reader.new)
            (take (taken_by result) buf.new) }
        ensures end { result ≡ Got.End
            → (self.old.ended ≡ true) ⊎ IsAtEnd (R.remaining reader.new) }
        ensures ended { (result ≡ Got.End) ↔ (self.new.ended ≡ true) }
        ensures ever_after { self.old.ended ≡ true
            → (self.new ≡ self.old) × (reader.new ≡ reader.old) }
        ensures failed { result ≡ Got.Failed → Rose self.old.read_faults self.new.read_faults }
        ensures faults { self.old.read_faults ≤ self.new.read_faults }
        ensures beside { self.new.write_faults ≡ self.old.write_faults }
    {
        if self.ended {
            return Got::End;
        }
        match read_some(reader, buf) {
            Some(0) => {
                self.ended = true;
                Got::End
            }
            Some(count) => Got::Bytes(count),
            None => {
                self.read_faults = self.read_faults.saturating_add(1);
                Got::Failed
            }
        }
    }

    /// Writes and flushes, as a link does: what the writer was given is what this says.
    pub(crate) fn put<W: Write>(&mut self, writer: &mut W, bytes: &[u8]) -> Sent
        ensures cut { IfCut result (λ sent. sent ≤ length bytes.now) }
        ensures written { Appends (W.contents writer.old) (W.contents writer.new)
            (sent_part bytes.now result) }
        ensures failed { IsCut result → Rose self.old.write_faults self.new.write_faults }
        ensures faults { self.old.write_faults ≤ self.new.write_faults }
        ensures beside { (self.new.read_faults ≡ self.old.read_faults)
            × (self.new.ended ≡ self.old.ended) }
    {
        let sent = write_and_flush(writer, bytes);
        if sent != Sent::All {
            self.write_faults = self.write_faults.saturating_add(1);
        }
        sent
    }
}

/// Reads once, and again where a signal came in between. `None`: the read failed.
fn read_some<R: Read>(reader: &mut R, buf: &mut [u8]) -> Option<usize>
    ensures within { IfSome result (λ count. count ≤ length buf.new) }
    // What it took from the reader is what it gives, and nothing only at the end.
    ensures read { IfSome result
        (λ count. Consumes (R.remaining reader.old) (R.remaining reader.new) (take count buf.new)
        × (count ≡ 0 → 0 < length buf.new → IsAtEnd (R.remaining reader.new))) }
    ensures failed { IfNone result (Keeps (R.remaining reader.old) (R.remaining reader.new)) }
{
    for _ in 0..u64::MAX {
        match reader.read(buf) {
            Ok(count) => return Some(count),
            Err(error) if error.kind() == ErrorKind::Interrupted => {}
            Err(_) => break,
        }
    }
    None
}

/// Writes the bytes, and flushes the writer where it took them all.
fn write_and_flush<W: Write>(writer: &mut W, bytes: &[u8]) -> Sent
    ensures cut { IfCut result (λ sent. sent ≤ length bytes.now) }
    ensures written { Appends (W.contents writer.old) (W.contents writer.new)
        (sent_part bytes.now result) }
{
    let sent = write_some(writer, bytes);
    if sent == bytes.len() && writer.flush().is_ok() {
        return Sent::All;
    }
    Sent::Failed { sent }
}

/// Writes as many of the bytes as the writer takes, and says how many that were.
fn write_some<W: Write>(writer: &mut W, bytes: &[u8]) -> usize
    ensures within { result ≤ length bytes.now }
    ensures written { Appends (W.contents writer.old) (W.contents writer.new)
        (take result bytes.now) }
{
    let mut sent = 0;
    for _ in 0..u64::MAX {
        if sent == bytes.len() {
            break;
        }
        match writer.write(&bytes[sent..]) {
            Ok(0) => break,
            Ok(count) => sent += count,
            Err(error) if error.kind() == ErrorKind::Interrupted => {}
            Err(_) => break,
        }
    }
    sent
}
