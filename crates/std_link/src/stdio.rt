//! A reader and a writer as one link, as standard input and output are. It owns both, and touches
//! nothing else. Begin with `StdLink::read` and `StdLink::put`, whose clauses say what was taken
//! and given; the tests below have readers and writers that stop short.

ghost use Rattle.std.specs.Prelude.{◌≡◌, ◌≤◌, ◌<◌, ◌↔◌, ◌⊎◌, None, false, length, refl, take, true};
ghost use Rattle.std.specs.Io.KnownBytes.{Appends, Consumes, IsAtEnd};
ghost use Rattle.agent_ports.specs.Counts.{Rose};
ghost use Rattle.agent_ports.specs.Sides.{taken_by, IfBytes, sent_part, IfCut, IsCut};

use crate::link_state::LinkState;
use agent_ports::{Got, Link, Sent, Sink, Source};
use std::io::{Read, Write};
use std::marker::Model;

/// A reader and a writer as a link. As a link it doesn't show what they hold; its own calls say
/// what they do to them.
#[derive(Drop)]
pub struct StdLink<R, W> {
    reader: R,
    writer: W,
    state: LinkState,
}

impl<R, W> Model for StdLink<R, W> {
    ghost use Rattle.std_link.specs.Streams.{AtStdio};

    ghost Value = { AtStdio R W };

    ghost view = { λ link. record {
      reader = link.reader;
      writer = link.writer;
      ended = link.state.ended;
      read_faults = link.state.read_faults;
      write_faults = link.state.write_faults;
    } };
}

impl<R: Read, W: Write> StdLink<R, W> {
    /// A link over these, of which no call has failed.
    pub fn new(reader: R, writer: W) -> Self
        ensures link { result ≡ record {
          reader = reader;
          writer = writer;
          ended = false;
          read_faults = 0;
          write_faults = 0;
        } }
        ensures input { ⟦<StdLink<R, W> as Source>⟧.input result
            ≡ record { bytes = None; faults = 0 } }
        ensures output { ⟦<StdLink<R, W> as Sink>⟧.output result
            ≡ record { bytes = None; faults = 0 } }
    {
        StdLink {
            reader,
            writer,
            state: LinkState::new(),
        }
    }

    /// How many reads failed, and how many writes.
    pub fn faults(&self) -> (u64, u64)
        ensures reads { result.0 ≡ (⟦<StdLink<R, W> as Source>⟧.input self.now).faults }
        ensures writes { result.1 ≡ (⟦<StdLink<R, W> as Sink>⟧.output self.now).faults }
    {
        (self.state.read_faults, self.state.write_faults)
    }
}

impl<R: Read, W: Write> Source for StdLink<R, W> {
    ghost input = { λ link. record { bytes = None; faults = link.read_faults } };

    ghost beside_input = { λ link. record { bytes = None; faults = link.write_faults } };

    /// What the reader gave is what this gives. Behind the end the reader isn't asked again.
    fn read(&mut self, buf: &mut [u8]) -> Got
        requires { 0 < length buf.old }
        ensures count { IfBytes result (λ n. (1 ≤ n) × (n ≤ length buf.old)) }
        ensures taken { Consumes (R.remaining self.old.reader) (R.remaining self.new.reader)
            (take (taken_by result) buf.new) }
        ensures end { result ≡ Got.End
            → (self.old.ended ≡ true) ⊎ IsAtEnd (R.remaining self.new.reader) }
        ensures ended { (result ≡ Got.End) ↔ (self.new.ended ≡ true) }
        ensures ever_after { self.old.ended ≡ true → self.new ≡ self.old }
        ensures failed { result ≡ Got.Failed → Rose self.old.read_faults self.new.read_faults }
        ensures faults { self.old.read_faults ≤ self.new.read_faults }
        ensures beside { (self.new.writer ≡ self.old.writer)
            × (self.new.write_faults ≡ self.old.write_faults) }
    {
        self.state.read(&mut self.reader, buf)
    }
}

impl<R: Read, W: Write> Sink for StdLink<R, W> {
    ghost output = { λ link. record { bytes = None; faults = link.write_faults } };

    ghost beside_output = { λ link. record { bytes = None; faults = link.read_faults } };

    /// The writer is given the bytes and flushed, or given a prefix of them where it failed.
    fn put(&mut self, bytes: &[u8]) -> Sent
        ensures cut { IfCut result (λ sent. sent ≤ length bytes.now) }
        ensures written { Appends (W.contents self.old.writer) (W.contents self.new.writer)
            (sent_part bytes.now result) }
        ensures failed { IsCut result → Rose self.old.write_faults self.new.write_faults }
        ensures faults { self.old.write_faults ≤ self.new.write_faults }
        ensures beside { (self.new.reader ≡ self.old.reader)
            × (self.new.read_faults ≡ self.old.read_faults) × (self.new.ended ≡ self.old.ended) }
    {
        self.state.put(&mut self.writer, bytes)
    }
}

impl<R: Read, W: Write> Link for StdLink<R, W> {
    ghost output_beside = { λ _. refl };

    ghost input_beside = { λ _. refl };
}

#[cfg(test)]
mod tests {
    use super::*;
    use std::alloc::{AllocError, Global};
    use std::io;
    use std::io::ErrorKind;
    use std::test::Fail;

    /// Takes one byte a call, and counts its flushes.
    #[derive(Drop)]
    struct OneByteWriter {
        bytes: Vec<u8>,
        flushes: u32,
    }

    impl Write for OneByteWriter {
        fn write(&mut self, buf: &[u8]) -> io::Result<usize> {
            match buf.first() {
                Some(byte) => {
                    self.bytes.push(*byte)?;
                    Ok(1)
                }
                None => Ok(0),
            }
        }

        fn flush(&mut self) -> io::Result<()> {
            self.flushes = self.flushes.saturating_add(1);
            Ok(())
        }
    }

    /// Gives at most so many bytes a call, nothing once where they are out, and then a byte more.
    #[derive(Drop)]
    struct ReaderBehindItsEnd<'a> {
        bytes: &'a [u8],
        piece: usize,
        ended: bool,
    }

    impl Read for ReaderBehindItsEnd<'_> {
        fn read(&mut self, buf: &mut [u8]) -> io::Result<usize> {
            if self.ended {
                buf.fill(b'x');
                return Ok(buf.len().min(1));
            }
            let count = self.bytes.len().min(buf.len()).min(self.piece);
            let (front, rest) = self.bytes.split_at(count);
            buf[..count].copy_from_slice(front);
            self.bytes = rest;
            self.ended = count == 0;
            Ok(count)
        }
    }

    /// Takes all, and can't be flushed.
    #[derive(Drop)]
    struct UnflushedWriter {
        bytes: Vec<u8>,
    }

    impl Write for UnflushedWriter {
        fn write(&mut self, buf: &[u8]) -> io::Result<usize> {
            self.bytes.extend_from_slice(buf)?;
            Ok(buf.len())
        }

        fn flush(&mut self) -> io::Result<()> {
            Err(ErrorKind::BrokenPipe.into())
        }
    }

    /// A signal interrupts each other call, the first one too, and the rest moves at most three
    /// bytes.
    #[derive(Drop)]
    struct Interrupted<'a> {
        bytes: &'a [u8],
        written: Vec<u8>,
        calls: u32,
    }

    impl<'a> Interrupted<'a> {
        fn new(alloc: Global, bytes: &'a [u8]) -> Self {
            Interrupted {
                bytes,
                written: Vec::new(alloc),
                calls: 0,
            }
        }

        fn is_interrupted(&mut self) -> bool {
            self.calls = self.calls.saturating_add(1);
            self.calls % 2 == 1
        }
    }

    impl Read for Interrupted<'_> {
        fn read(&mut self, buf: &mut [u8]) -> io::Result<usize> {
            if self.is_interrupted() {
                return Err(ErrorKind::Interrupted.into());
            }
            let count = self.bytes.len().min(buf.len()).min(3);
            let (front, rest) = self.bytes.split_at(count);
            buf[..count].copy_from_slice(front);
            self.bytes = rest;
            Ok(count)
        }
    }

    impl Write for Interrupted<'_> {
        fn write(&mut self, buf: &[u8]) -> io::Result<usize> {
            if self.is_interrupted() {
                return Err(ErrorKind::Interrupted.into());
            }
            let count = buf.len().min(3);
            self.written.extend_from_slice(&buf[..count])?;
            Ok(count)
        }

        fn flush(&mut self) -> io::Result<()> {
            Ok(())
        }
    }

    /// All that a link gives, by a buffer of this size, and how many reads that took.
    fn read_to_end<R: Read, W: Write>(
        alloc: Global,
        link: &mut StdLink<R, W>,
        size: usize,
    ) -> Result<(Vec<u8>, usize), AllocError> {
        let mut all = Vec::new(alloc);
        let mut reads = 0usize;
        let mut buf = [0u8; 4096];
        let room = &mut buf[..size.clamp(1, 4096)];
        for _ in 0..10_000u32 {
            reads = reads.saturating_add(1);
            match link.read(room) {
                Got::Bytes(count) if count <= room.len() => all.extend_from_slice(&room[..count])?,
                _ => break,
            }
        }
        Ok((all, reads))
    }

    #[test]
    fn what_is_read_and_written_has_any_length(rt: HostRuntime) -> Result<(), Fail> {
        let alloc = rt.alloc();
        let text: Vec<u8> = (0..4096usize).map(|n| (n % 251) as u8).collect(alloc)?;
        for (len, size, piece, reads) in [
            (0usize, 7usize, 9usize, 1usize),
            (1, 1, 9, 2),
            (100, 7, 3, 35),
            (1001, 1002, 4096, 2),
            (1001, 1002, 1000, 3),
            (4095, 4096, 4096, 2),
            (4096, 4096, 4096, 2),
            (4096, 4096, 1, 4097),
            (4096, 1000, 4096, 6),
        ] {
            let bytes = &text[..len.min(text.len())];
            let reader = ReaderBehindItsEnd {
                bytes,
                piece,
                ended: false,
            };
            let writer = OneByteWriter {
                bytes: Vec::new(alloc),
                flushes: 0,
            };
            let mut link = StdLink::new(reader, writer);
            let (got, count) = read_to_end(alloc, &mut link, size)?;
            assert!(rt; got.as_slice() == bytes, "{len}");
            assert_eq!(rt; count, reads, "{len}");
            // What the reader gives behind its end isn't asked for.
            assert_eq!(rt; link.read(&mut [0u8; 4]), Got::End);
            assert_eq!(rt; link.put(bytes), Sent::All);
            assert!(rt; link.writer.bytes.as_slice() == bytes, "{len}");
            assert_eq!(rt; link.writer.flushes, 1);
            assert_eq!(rt; link.faults(), (0, 0));
        }
        Ok(())
    }

    #[test]
    fn a_flush_that_fails_is_a_failed_write(rt: HostRuntime) -> Result<(), Fail> {
        let writer = UnflushedWriter {
            bytes: Vec::new(rt.alloc()),
        };
        let mut link = StdLink::new(b"".as_slice(), writer);
        assert_eq!(rt; link.put(b"OK\n"), Sent::Failed { sent: 3 });
        assert_eq!(rt; link.writer.bytes.as_slice(), b"OK\n".as_slice());
        assert_eq!(rt; link.faults(), (0, 1));
        Ok(())
    }

    #[test]
    fn a_write_goes_whole_and_is_flushed(rt: HostRuntime) -> Result<(), Fail> {
        let writer = OneByteWriter {
            bytes: Vec::new(rt.alloc()),
            flushes: 0,
        };
        let mut link = StdLink::new(b"abc".as_slice(), writer);
        assert_eq!(rt; link.put(b"hello\n"), Sent::All);
        assert_eq!(rt; link.put(b""), Sent::All);
        assert_eq!(rt; link.writer.bytes.as_slice(), b"hello\n".as_slice());
        assert_eq!(rt; link.writer.flushes, 2);
        let mut buf = [0u8; 2];
        assert_eq!(rt; link.read(&mut buf), Got::Bytes(2));
        assert_eq!(rt; buf, *b"ab");
        assert_eq!(rt; link.read(&mut buf), Got::Bytes(1));
        assert_eq!(rt; link.read(&mut buf), Got::End);
        assert_eq!(rt; link.read(&mut buf), Got::End);
        Ok(())
    }

    #[test]
    fn a_call_that_a_signal_interrupts_is_made_again(rt: HostRuntime) -> Result<(), Fail> {
        let alloc = rt.alloc();
        let reader = Interrupted::new(alloc, b"abcdefg");
        let mut link = StdLink::new(reader, Interrupted::new(alloc, b""));
        let (got, reads) = read_to_end(alloc, &mut link, 7)?;
        assert_eq!(rt; got.as_slice(), b"abcdefg".as_slice());
        assert_eq!(rt; reads, 4);
        assert_eq!(rt; link.put(b"hello\n"), Sent::All);
        assert_eq!(rt; link.writer.written.as_slice(), b"hello\n".as_slice());
        assert_eq!(rt; link.faults(), (0, 0));
        Ok(())
    }
}
