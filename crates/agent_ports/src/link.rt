//! The ports of bytes: a source, a sink, and both to one peer as a link. A read takes from the
//! front of the input and a write adds to the end of the output; neither touches the other side,
//! and a fault is counted. Begin with `Source::read` and `Sink::put`; a side's bytes and faults are
//! a `Side` (`specs/Sides`).

ghost use Rattle.std.specs.Prelude.{◌≡◌, ◌<◌, ◌≤◌, length, take, IfSome, []};
ghost use Rattle.agent_ports.specs.{Counts.Rose, Writing.whole_of};
ghost use Rattle.agent_ports.specs.Sides.{Side, followed_by, with_bytes, taken_by, IfBytes};
ghost use Rattle.agent_ports.specs.Sides.{sent_part, IfCut, IsCut};

/// What a read gave.
#[derive(Clone, Copy, Debug, PartialEq, Eq)]
pub enum Got {
    /// That many bytes, at the front of the buffer: from 1 to its length.
    Bytes(usize),
    /// No more bytes come, now and ever after.
    End,
    /// The read failed, and took no byte.
    Failed,
}

/// What became of the bytes of a write.
#[derive(Clone, Copy, Debug, PartialEq, Eq)]
pub enum Sent {
    /// All of them went.
    All,
    /// The write failed after that many first bytes.
    Failed { sent: usize },
}

/// A write failed.
#[derive(Clone, Copy, Debug, PartialEq, Eq)]
pub struct WriteFault;

impl Sent {
    /// Whether all of the bytes went. How many of them did otherwise is left out.
    pub fn whole(self) -> Result<(), WriteFault>
        ensures { result ≡ whole_of self }
    {
        match self {
            Sent::All => Ok(()),
            Sent::Failed { .. } => Err(WriteFault),
        }
    }
}

/// Where bytes come from.
pub trait Source {
    /// The bytes that it still gives, and how many reads failed.
    ghost input: { Self → Side };

    /// What a read leaves alone: where the same object takes bytes too, that side of it.
    ghost beside_input: { Self → Side };

    /// Puts the next bytes at the front of the buffer.
    fn read(&mut self, buf: &mut [u8]) -> Got
        requires { 0 < length buf.old }
        ensures count { IfBytes result (λ n. (1 ≤ n) × (n ≤ length buf.old)) }
        ensures taken { (input self.old).bytes ≡ followed_by (take (taken_by result) buf.new)
            (input self.new).bytes }
        ensures end { result ≡ Got.End → IfSome (input self.old).bytes (λ rest. rest ≡ []) }
        ensures failed { result ≡ Got.Failed
            → Rose (input self.old).faults (input self.new).faults }
        ensures faults { (input self.old).faults ≤ (input self.new).faults }
        ensures beside { beside_input self.new ≡ beside_input self.old };
}

/// Where bytes go.
pub trait Sink {
    /// The bytes that it was given so far, and how many writes failed.
    ghost output: { Self → Side };

    /// What a write leaves alone: where the same object gives bytes too, that side of it.
    ghost beside_output: { Self → Side };

    /// Appends the bytes, or where the write fails some first ones of them.
    fn put(&mut self, bytes: &[u8]) -> Sent
        ensures cut { IfCut result (λ sent. sent ≤ length bytes.now) }
        ensures written { (output self.new).bytes ≡ with_bytes (output self.old).bytes
            (sent_part bytes.now result) }
        ensures failed { IsCut result → Rose (output self.old).faults (output self.new).faults }
        ensures faults { (output self.old).faults ≤ (output self.new).faults }
        ensures beside { beside_output self.new ≡ beside_output self.old };
}

/// Both ways to one peer.
pub trait Link: Source + Sink {
    /// A read leaves the output as it is.
    ghost output_beside: { (link : Self) → Self.beside_input link ≡ Self.output link };

    /// A write leaves the input as it is.
    ghost input_beside: { (link : Self) → Self.beside_output link ≡ Self.input link };
}
