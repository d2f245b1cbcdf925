//! Tests of a client's side of the protocol, over children in memory: what each answer is, in any
//! pieces, at each limit, and cut behind each byte. Begin with `talk` and `check`.

ghost use Rattle.std.specs.Prelude.{◌≡◌};
ghost use Rattle.assuan_client.specs.Answers.{state_after};

use agent_ports::{MemLink, MemSink, MemSource};
use assuan_client::{Answer, Peer};
use assuan_line::{Breach, Line};
use std::alloc::{AllocError, Global};
use std::test::Fail;

/// A link to a child that gives these bytes, in pieces of at most `piece`.
fn link(alloc: Global, bytes: &[u8], piece: usize) -> Result<MemLink, AllocError> {
    let source = MemSource::new(Vec::from_slice(alloc, bytes)?, piece, Vec::new(alloc));
    Ok(MemLink::new(source, MemSink::new(alloc, 0, Vec::new(alloc))))
}

/// What a child broke by.
fn broken_by(alloc: Global, breach: &Breach) -> Result<String, AllocError> {
    let text = match breach {
        Breach::Line(line) => return with_text(alloc, "line ", line.bytes()),
        Breach::Ended => "ended",
        Breach::TooLong => "too long",
        Breach::Spent => "spent",
        Breach::Many => "many",
        Breach::TooMuch => "too much",
        Breach::Code(_) => "code",
        Breach::Data => "data",
        Breach::Inquiry => "inquiry",
    };
    String::from_str(alloc, text)
}

fn with_text(alloc: Global, word: &str, bytes: &[u8]) -> Result<String, AllocError> {
    let mut text = String::from_str(alloc, word)?;
    text.push_str(String::from_utf8_lossy(alloc, bytes)?.as_str())?;
    Ok(text)
}

/// What an answer is, in words.
fn said(alloc: Global, answer: &Answer) -> Result<String, Fail> {
    Ok(match answer {
        Answer::Ok => String::from_str(alloc, "ok")?,
        Answer::Got(secret) if secret.bytes().len() > 9 => format!(in alloc;
            "{} bytes",
            secret.bytes().len()
        )?,
        Answer::Got(secret) => with_text(alloc, "got ", secret.bytes())?,
        Answer::Err(number) => format!(in alloc; "err {number}")?,
        Answer::Asked { word, text } => {
            let mut asked = with_text(alloc, "asked ", word.bytes())?;
            asked.push_str(with_text(alloc, "/", text.bytes())?.as_str())?;
            asked
        }
        Answer::Broken(breach) => broken_by(alloc, breach)?,
        Answer::ReadFault => String::from_str(alloc, "read fault")?,
        Answer::WriteFault => String::from_str(alloc, "write fault")?,
    })
}

/// The next call after an answer: `QUALITY` is replied to, and any other inquiry cancelled. `None`
/// where nothing may be said.
fn next_answer(peer: &mut Peer<MemLink>, answer: &Answer, line: &Line) -> Option<Answer>
    requires { peer.old.state ≡ state_after answer.now }
    ensures { (next : Answer) → result ≡ Some next → peer.new.state ≡ state_after next }
{
    match answer {
        Answer::Ok | Answer::Got(_) | Answer::Err(_) => Some(peer.command(line)),
        Answer::Asked { word, .. } if word.bytes() == b"QUALITY".as_slice() => Some(peer.reply(
            b"3",
        )),
        Answer::Asked { .. } => Some(peer.cancel()),
        Answer::Broken(_) | Answer::ReadFault | Answer::WriteFault => None,
    }
}

/// What a child says to a greeting and then to `GETPIN` again and again, up to what breaks it, and
/// what it was written.
fn talk(alloc: Global, link: MemLink, budget: u64) -> Result<(String, MemLink), Fail> {
    let line = Line::of(b"GETPIN").ok_or("a line")?;
    let mut peer = Peer::new(alloc, link, budget);
    let mut answer = peer.hello();
    let mut text = said(alloc, &answer)?;
    for _ in 0..8 {
        match next_answer(&mut peer, &answer, &line) {
            Some(next) => answer = next,
            None => break,
        }
        text.push_str(", ")?;
        text.push_str(said(alloc, &answer)?.as_str())?;
    }
    Ok((text, peer.into_link()))
}

/// What children say that give these bytes, in pieces of each length.
fn check(alloc: Global, bytes: &[u8], want: &str, written: &[u8]) -> Result<(), Fail> {
    for piece in [1, 7, 4096] {
        if piece < 7 && bytes.len() > 9_999 {
            continue;
        }
        let (text, link) = talk(alloc, link(alloc, bytes, piece)?, 1 << 40)?;
        if text.as_str() != want {
            return Err(text.as_str().into());
        }
        if link.written() != written {
            return Err("other bytes were written".into());
        }
    }
    Ok(())
}

#[test]
fn each_child_has_its_answers(rt: HostRuntime) -> Result<(), Fail> {
    let alloc = rt.alloc();
    let rows: [(&[u8], &str, &[u8]); 10] = [
        (
            b"OK\nD 7\nOK\nOK\nD ab\nOK\n",
            "ok, got 7, ok, got ab, ended",
            b"GETPIN\nGETPIN\nGETPIN\nGETPIN\n",
        ),
        (b"HELLO\n", "line HELLO", b""),
        (
            b"OK\nINQUIRE OTHER x\nERR 99 no\n",
            "ok, asked OTHER/x, err 99, ended",
            b"GETPIN\nCAN\nGETPIN\n",
        ),
        (
            b"OK\nD a\nINQUIRE QUALITY a%20b\r\nD %62\nOK\n",
            "ok, asked QUALITY/a%20b, got ab, ended",
            b"GETPIN\nD 3\nEND\nGETPIN\n",
        ),
        (
            b"# x\nS\nS x y\nS\tx\nOK to you\nOK\tx\n",
            "ok, ok, ended",
            b"GETPIN\nGETPIN\n",
        ),
        (
            b"OK\nD\nd \nOK\nd x\nD y\nOK\n",
            "ok, ok, got xy, ended",
            b"GETPIN\nGETPIN\nGETPIN\n",
        ),
        (
            b"OK\nERR 4294967295\nERR 0000000001 x\n",
            "ok, err 4294967295, err 1, ended",
            b"GETPIN\nGETPIN\nGETPIN\n",
        ),
        (
            b"OK\nINQUIRE x\nERR 4294967296\n",
            "ok, asked x/, line ERR 4294967296",
            b"GETPIN\nCAN\n",
        ),
        (
            b"OK\nD a\nINQUIRE x\nERR 1\nOK\n",
            "ok, asked x/, err 1, ok, ended",
            b"GETPIN\nCAN\nGETPIN\nGETPIN\n",
        ),
        (b"OK\nD a\n# x", "ok, ended", b"GETPIN\n"),
    ];
    for (bytes, want, written) in rows {
        check(alloc, bytes, want, written)?;
    }
    let foreign: [&[u8]; 17] = [
        b"",
        b" ",
        b" # x",
        b"OKAY",
        b"ok",
        b"SX",
        b"s",
        b"DX",
        b"D\tx",
        b"ERR",
        b"ERR x",
        b"ERR 7x",
        b"ERR 00000000001",
        b"ERR  7",
        b"INQUIRE",
        b"INQUIRE  x",
        b"END",
    ];
    for line in foreign {
        let mut bytes = Vec::from_slice(alloc, line)?;
        bytes.extend_from_slice(b"\nOK\n")?;
        check(
            alloc,
            bytes.as_slice(),
            with_text(alloc, "line ", line)?.as_str(),
            b"",
        )?;
    }
    Ok(())
}

#[test]
fn a_child_may_end_after_each_byte(rt: HostRuntime) -> Result<(), Fail> {
    let alloc = rt.alloc();
    let bytes = b"OK x\n# y\nD a\nS z\nINQUIRE QUALITY a\nD b\nOK\nERR 99 x\n";
    for end in 0..bytes.len() {
        let (text, _) = talk(alloc, link(alloc, &bytes[..end], 7)?, 1 << 40)?;
        assert!(rt; text.as_str().ends_with("ended"), "{text}");
        let (text, _) = talk(alloc, link(alloc, bytes, 7)?, end as u64)?;
        assert!(rt; text.as_str().ends_with("spent"), "{text}");
    }
    Ok(())
}

/// These bytes, and then a part so many times, and then more.
fn repeated(
    alloc: Global,
    front: &[u8],
    part: &[u8],
    times: usize,
    back: &[u8],
) -> Result<Vec<u8>, AllocError> {
    let mut bytes = Vec::from_slice(alloc, front)?;
    for _ in 0..times {
        bytes.extend_from_slice(part)?;
    }
    bytes.extend_from_slice(back)?;
    Ok(bytes)
}

#[test]
fn each_limit_is_met_at_its_line(rt: HostRuntime) -> Result<(), Fail> {
    let alloc = rt.alloc();
    let rows: [(&[u8], &[u8], usize, &[u8], &str, &[u8]); 13] = [
        (b"", b"#\n", 10_000, b"OK\n", "ok, ended", b"GETPIN\n"),
        (b"", b"#\n", 10_001, b"OK\n", "many", b""),
        (
            b"OK\n",
            b"S\n",
            10_000,
            b"INQUIRE x\n",
            "ok, many",
            b"GETPIN\n",
        ),
        (
            b"OK\n",
            b"S\n",
            9_999,
            b"INQUIRE x\nOK\n",
            "ok, asked x/, ok, ended",
            b"GETPIN\nCAN\nGETPIN\n",
        ),
        (
            b"OK\n",
            b"S\n",
            9_999,
            b"INQUIRE x\n#\nOK\n",
            "ok, asked x/, many",
            b"GETPIN\nCAN\n",
        ),
        (
            b"OK\nINQUIRE QUALITY\n",
            b"S\n",
            10_000,
            b"",
            "ok, asked QUALITY/, many",
            b"GETPIN\nD 3\nEND\n",
        ),
        (
            b"OK\nD ",
            b"a",
            255,
            b"\nOK\n",
            "ok, 255 bytes, ended",
            b"GETPIN\nGETPIN\n",
        ),
        (b"OK\nD ", b"a", 256, b"\nOK\n", "ok, too much", b"GETPIN\n"),
        (
            b"OK\nD a\nINQUIRE x\nD ",
            b"%20",
            254,
            b"\nOK\n",
            "ok, asked x/, 255 bytes, ended",
            b"GETPIN\nCAN\nGETPIN\n",
        ),
        (
            b"OK\nD a\nINQUIRE x\nD ",
            b"%20",
            255,
            b"\nOK\n",
            "ok, asked x/, too much",
            b"GETPIN\nCAN\n",
        ),
        (
            b"OK\n#",
            b"x",
            999,
            b"\nOK\n",
            "ok, ok, ended",
            b"GETPIN\nGETPIN\n",
        ),
        (
            b"OK\n#",
            b"x",
            1_000,
            b"\nOK\n",
            "ok, too long",
            b"GETPIN\n",
        ),
        (b"#", b"x", 2_000, b"", "too long", b""),
    ];
    for (front, part, times, back, want, written) in rows {
        check(
            alloc,
            repeated(alloc, front, part, times, back)?.as_slice(),
            want,
            written,
        )?;
    }
    Ok(())
}

#[test]
fn a_fault_is_none_of_the_childs(rt: HostRuntime) -> Result<(), Fail> {
    let alloc = rt.alloc();
    let source = MemSource::new(
        Vec::from_slice(alloc, b"OK\nO")?,
        4096,
        vec![in alloc; 1u64]?,
    );
    let (text, reads) = talk(
        alloc,
        MemLink::new(source, MemSink::new(alloc, 0, Vec::new(alloc))),
        99,
    )?;
    assert_eq!(rt; text.as_str(), "ok, read fault");
    assert_eq!(rt; reads.written(), b"GETPIN\n".as_slice());
    let bytes = b"OK\nINQUIRE QUALITY\nOK\n";
    for (failing, want, written) in [
        (0, "ok, write fault", b"GET".as_slice()),
        (
            1,
            "ok, asked QUALITY/, write fault",
            b"GETPIN\nD 3".as_slice(),
        ),
        (
            2,
            "ok, asked QUALITY/, write fault",
            b"GETPIN\nD 3\nEND".as_slice(),
        ),
    ] {
        let source = MemSource::new(Vec::from_slice(alloc, bytes)?, 7, Vec::new(alloc));
        let (text, writes) = talk(
            alloc,
            MemLink::new(source, MemSink::new(alloc, 3, vec![in alloc; failing]?)),
            99,
        )?;
        assert_eq!(rt; text.as_str(), want);
        assert_eq!(rt; writes.written(), written);
    }
    Ok(())
}
