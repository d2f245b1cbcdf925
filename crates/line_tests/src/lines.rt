//! Tests of the line reader: the same lines come of the same bytes in any pieces, with few reads,
//! and before a fault that stands behind them. Begin with `answers` and `given`.

ghost use Rattle.std.specs.Prelude.{◌≡◌};

use agent_ports::{Got, MemSink, MemSource, Sent, Source};
use assuan_line::{Line, LineReader, Took, write_line};
use std::alloc::{AllocError, Global};
use std::test::Fail;

/// A source that counts its reads.
#[derive(Drop)]
struct Counting {
    source: MemSource,
    reads: u64,
}

impl Source for Counting {
    ghost input = { λ s. ⟦<MemSource as Source>⟧.input s.source };

    ghost beside_input = { λ s. ⟦<MemSource as Source>⟧.beside_input s.source };

    fn read(&mut self, buf: &mut [u8]) -> Got {
        self.reads = self.reads.saturating_add(1);
        self.source.read(buf)
    }
}

/// A reader with this budget, with a ring or, as where there is no memory for one, without.
fn reader_of(alloc: Global, ring: bool, budget: u64) -> LineReader {
    if ring {
        LineReader::new(alloc, budget)
    } else {
        LineReader::without_memory(budget)
    }
}

/// The lengths of the lines that a reader gives, and its first two answers that are no line.
fn answers<S: Source>(
    alloc: Global,
    reader: &mut LineReader,
    source: &mut S,
) -> Result<String, AllocError> {
    let mut all = String::new(alloc);
    for _ in 0..200 {
        match reader.next(source) {
            Took::Line(line) => all.push_str(format!(in alloc;
                "{} ",
                line.bytes().len()
            )?.as_str())?,
            took => {
                all.push_str(name(&took))?;
                all.push_str(name(&reader.next(source)))?;
                break;
            }
        }
    }
    Ok(all)
}

fn name(took: &Took) -> &'static str {
    match took {
        Took::Line(_) => "line",
        Took::TooLong => "long",
        Took::End => "end",
        Took::Spent => "spent",
        Took::ReadFault => "fault",
    }
}

/// So many bytes, and then the others.
fn text(alloc: Global, len: usize, end: &[u8]) -> Result<Vec<u8>, AllocError> {
    let mut bytes = vec![in alloc; b'x'; len]?;
    bytes.extend_from_slice(end)?;
    Ok(bytes)
}

#[test]
fn lines_are_the_same_in_any_pieces(rt: HostRuntime) -> Result<(), Fail> {
    let alloc = rt.alloc();
    let much = 1 << 40;
    let cases: [(usize, &[u8], u64, &str); 13] = [
        (1000, b"\n", much, "1000 endend"),
        (1000, b"\r\n", much, "1000 endend"),
        (1001, b"\n", much, "longlong"),
        (1001, b"\r\n", much, "longlong"),
        (1002, b"", much, "longlong"),
        (1001, b"", much, "endend"),
        (0, b"\n\r\n\r\r\nab", much, "0 0 1 endend"),
        (3, b"\nxx\nx", much, "3 2 endend"),
        (0, b"", much, "endend"),
        (0, b"ab\ncd\nef", 5, "2 spentspent"),
        (0, b"ab\ncd\n", 6, "2 2 spentspent"),
        (5000, b"\n", 1001, "spentspent"),
        (5000, b"\n", 1002, "longlong"),
    ];
    for (len, end, budget, want) in cases {
        for piece in [1, 7, 4096] {
            for ring in [true, false] {
                let bytes = text(alloc, len, end)?;
                let mut source = MemSource::new(bytes, piece, Vec::new(alloc));
                let mut reader = reader_of(alloc, ring, budget);
                let got = answers(alloc, &mut reader, &mut source)?;
                assert_eq!(rt;
                    got.as_str(),
                    want,
                    "{len} bytes in pieces of {piece}, {ring}"
                );
            }
        }
    }
    Ok(())
}

#[test]
fn a_line_is_given_before_the_fault_behind_it(rt: HostRuntime) -> Result<(), Fail> {
    let alloc = rt.alloc();
    for (piece, failing, ring) in [(6, 1, true), (1, 6, true), (4096, 6, false)] {
        let bytes = text(alloc, 0, b"NOP\nNO")?;
        let mut source = MemSource::new(bytes, piece, vec![in alloc; failing]?);
        let mut reader = reader_of(alloc, ring, 9);
        let got = answers(alloc, &mut reader, &mut source)?;
        assert_eq!(rt; got.as_str(), "3 faultfault", "in pieces of {piece}");
    }
    Ok(())
}

#[test]
fn reads_are_few(rt: HostRuntime) -> Result<(), Fail> {
    let alloc = rt.alloc();
    let mut bytes = Vec::new(alloc);
    let mut want = String::new(alloc);
    for len in 0..150usize {
        bytes.extend_from_slice(text(alloc, len, b"\n")?.as_slice())?;
        want.push_str(format!(in alloc; "{len} ")?.as_str())?;
    }
    want.push_str("endend")?;
    for (ring, most) in [(true, 19), (false, 12_000)] {
        let source = MemSource::new(bytes.clone()?, usize::MAX, Vec::new(alloc));
        let mut counting = Counting { source, reads: 0 };
        let mut reader = reader_of(alloc, ring, 1 << 40);
        let got = answers(alloc, &mut reader, &mut counting)?;
        assert_eq!(rt; got.as_str(), want.as_str());
        assert!(rt; counting.reads <= most, "{} reads", counting.reads);
    }
    Ok(())
}

/// What a client sends that has a passphrase asked for.
const SESSION: &[u8] =
    b"RESET\nOPTION ttyname=/dev/pts/1\nOPTION ttytype=xterm\nOPTION lc-ctype=C.UTF-8\nOPTION lc-messages=C.UTF-8\n\
    GETINFO version\nOPTION allow-pinentry-notify\nOPTION agent-awareness=2.1.0\n\
    GET_PASSPHRASE --data --repeat=0 -- S1234 X X Enter+passphrase%0AFor+backup\nEND\nBYE\n";

/// The lines that a reader gives, each with a line feed.
fn given<S: Source>(
    alloc: Global,
    reader: &mut LineReader,
    source: &mut S,
) -> Result<Vec<u8>, AllocError> {
    let mut all = Vec::new(alloc);
    for _ in 0..200 {
        match reader.next(source) {
            Took::Line(line) => {
                all.extend_from_slice(line.bytes())?;
                all.push(b'\n')?;
            }
            _ => break,
        }
    }
    Ok(all)
}

#[test]
fn a_session_comes_whole_and_with_a_ring_in_few_reads(rt: HostRuntime) -> Result<(), Fail> {
    let alloc = rt.alloc();
    // Whether there is a ring, the most bytes that a read gives, and how many reads there are at
    // least and at most.
    for (ring, piece, least, most) in [
        (true, 1usize, 201u64, 400u64),
        (true, 7, 20, 60),
        (true, 4096, 1, 19),
        (false, 1, 201, 400),
        (false, 7, 201, 400),
        (false, 4096, 201, 400),
    ] {
        let source = MemSource::new(Vec::from_slice(alloc, SESSION)?, piece, Vec::new(alloc));
        let mut counting = Counting { source, reads: 0 };
        let mut reader = reader_of(alloc, ring, 1 << 40);
        let lines = given(alloc, &mut reader, &mut counting)?;
        assert_eq!(rt; lines.as_slice(), SESSION, "in pieces of {piece}, {ring}");
        assert_eq!(rt; name(&reader.next(&mut counting)), "end");
        let reads = counting.reads;
        assert!(rt;
            least <= reads && reads <= most,
            "{reads} reads, {piece}, {ring}"
        );
    }
    Ok(())
}

#[test]
fn a_line_is_written_with_its_end(rt: HostRuntime) -> Result<(), Fail> {
    let alloc = rt.alloc();
    let mut sink = MemSink::new(alloc, 2, vec![in alloc; 1u64]?);
    let line = Line::of(b"BYE").ok_or("a line")?;
    assert_eq!(rt; write_line(&mut sink, &line), Sent::All);
    assert_eq!(rt; write_line(&mut sink, &line), Sent::Failed { sent: 2 });
    assert_eq!(rt; sink.written(), b"BYE\nBY".as_slice());
    assert!(rt; Line::of(b"a\nb").is_none());
    assert!(rt; Line::of(&[b'x'; 1001]).is_none());
    assert!(rt; Line::of(&[b'x'; 1000]).is_some());
    Ok(())
}
