//! One failure at each place of a session: what is answered there, and that what follows is
//! answered as ever. Links and children are in memory, and cut or failing behind each byte. Begin
//! with `TALKS` and `the_input_may_end_or_fail_behind_each_byte`.

use crate::prompts::{AFTER_GPG, Opening, PIN, QUALITY};
use crate::rows::{PLAIN, Row, served, text_of};
use agent_ports::{MemLink, MemSink, MemSource, PlannedChild};
use std::alloc::{AllocError, Global};
use std::sync::Wait;
use std::test::Fail;

/// A line that a client sends, what is written behind it, and what the child of a prompt was
/// written behind its opening where the input ends then.
type Turn = (&'static str, &'static str, &'static str);

/// A session line by line, and its child.
#[derive(Clone, Copy)]
struct Talk {
    turns: &'static [Turn],
    child: Option<(Opening, &'static str)>,
}

const TALKS: [Talk; 2] = [
    // The client gives the passphrase itself.
    Talk {
        turns: &[
            ("OPTION pinentry-mode=loopback\n", "OK\n", ""),
            (
                "GET_PASSPHRASE --data id1 X X X\n",
                "S INQUIRE_MAXLEN 255\nINQUIRE PASSPHRASE\n",
                "",
            ),
            ("D se\n", "", ""),
            ("D cre\n", "", ""),
            ("D t\n", "", ""),
            ("END\n", "D secret\nOK\n", ""),
        ],
        child: None,
    },
    // The session of gpg.
    Talk {
        turns: &[
            ("RESET\n", "OK\n", ""),
            ("OPTION ttyname=/dev/pts/1\n", "OK\n", ""),
            ("OPTION ttytype=xterm\n", "OK\n", ""),
            ("OPTION lc-ctype=C.UTF-8\n", "OK\n", ""),
            ("OPTION lc-messages=C.UTF-8\n", "OK\n", ""),
            ("GETINFO version\n", "D 2.4.0\nOK\n", ""),
            ("OPTION allow-pinentry-notify\n", "OK\n", ""),
            ("OPTION agent-awareness=2.1.0\n", "OK\n", ""),
            (
                "GET_PASSPHRASE --data --repeat=0 -- S1234 X X Enter+passphrase%0AFor+backup\n",
                "INQUIRE PINENTRY_LAUNCHED 4711\n",
                "BYE\n",
            ),
            ("END\n", "D correct horse\nOK\n", "GETPIN\nBYE\n"),
            ("BYE\n", "OK closing connection\n", "GETPIN\nBYE\n"),
        ],
        child: Some((AFTER_GPG, "D correct horse\nOK\n")),
    },
];

/// A session whose client may give passphrases itself.
const TALKING: Row = Row {
    allow_loopback: true,
    ..PLAIN
};

/// All that the client sends, and all that it is written.
fn whole(alloc: Global, talk: &Talk) -> Result<(Vec<u8>, String), AllocError> {
    let mut sent = Vec::new(alloc);
    let mut written = String::from_str(alloc, TALKING.greeting)?;
    for (line, answered, _) in talk.turns.iter() {
        sent.extend_from_slice(line.as_bytes())?;
        written.push_str(answered)?;
    }
    Ok((sent, written))
}

/// What is to come where the client's input has so many bytes, and the session ends with this
/// status.
fn wanted_behind(alloc: Global, talk: &Talk, len: usize, status: u8) -> Result<String, AllocError> {
    let mut written = String::from_str(alloc, TALKING.greeting)?;
    let mut told = "";
    let mut left = len;
    for (line, answered, child) in talk.turns.iter() {
        let Some(rest) = left.checked_sub(line.len()) else {
            break;
        };
        left = rest;
        written.push_str(answered)?;
        told = child;
    }
    match talk.child {
        Some(((_, opening), _)) if !told.is_empty() => {
            format!(in alloc; "{written}{status}\n/usr/bin/pinentry {opening}{told}")
        }
        _ => format!(in alloc; "{written}{status}"),
    }
}

fn child_of(alloc: Global, opening: Opening, behind: &str) -> Result<PlannedChild, AllocError> {
    let (gives, _) = opening;
    let gives = format!(in alloc; "{gives}{behind}")?;
    Ok(PlannedChild {
        gives: text_of(alloc, &gives)?.into_bytes(),
        piece: 4096,
        failing_reads: Vec::new(alloc),
        failing_writes: Vec::new(alloc),
    })
}

/// What comes of a talk with this client.
fn talked<W: Wait>(
    rt: &W,
    alloc: Global,
    talk: &Talk,
    client: &mut MemLink,
) -> Result<String, AllocError> {
    let mut children = Vec::new(alloc);
    if let Some((opening, behind)) = talk.child {
        children.push(child_of(alloc, opening, behind)?)?;
    }
    served(rt, alloc, &TALKING, children, client)
}

/// What comes of a talk whose client's input ends behind so many bytes, or can't be read there.
fn cut_short<W: Wait>(
    rt: &W,
    alloc: Global,
    talk: &Talk,
    sent: &[u8],
    fails: bool,
) -> Result<String, AllocError> {
    let mut reads = Vec::new(alloc);
    if fails {
        // The read behind the one that gives all.
        reads.push(sent.len().min(1) as u64)?;
    }
    let source = MemSource::new(Vec::from_slice(alloc, sent)?, sent.len(), reads);
    let sink = MemSink::new(alloc, 0, Vec::new(alloc));
    talked(rt, alloc, talk, &mut MemLink::new(source, sink))
}

#[test]
fn the_input_may_end_or_fail_behind_each_byte(rt: HostRuntime) -> Result<(), Fail> {
    let alloc = rt.alloc();
    for talk in TALKS {
        let (sent, _) = whole(alloc, &talk)?;
        for len in 0..sent.len() {
            for (fails, status) in [(false, 0u8), (true, 3)] {
                let got = cut_short(&rt, alloc, &talk, &sent[..len], fails)?;
                assert_eq!(rt; got, wanted_behind(alloc, &talk, len, status)?);
            }
        }
    }
    Ok(())
}

/// How many bytes are written where the write of this number fails behind at most so many, or none
/// where there is no such write.
fn written_before<W: Wait>(
    rt: &W,
    alloc: Global,
    talk: &Talk,
    number: u64,
    kept: usize,
) -> Result<Option<usize>, Fail> {
    let (sent, written) = whole(alloc, talk)?;
    let source = MemSource::new(sent, 4096, Vec::new(alloc));
    let sink = MemSink::new(alloc, kept, vec![in alloc; number]?);
    let mut client = MemLink::new(source, sink);
    let got = talked(rt, alloc, talk, &mut client)?;
    let len = client.written().len();
    let Some(rest) = got.strip_prefix(&written) else {
        return cut_text(&got, &written, len);
    };
    if rest.starts_with("0") {
        return Ok(None);
    }
    cut_text(&got, &written, len)
}

/// The length, where so much of what is to be written was written, the status is that of a failed
/// write, and a child was told to go.
fn cut_text(got: &str, written: &str, len: usize) -> Result<Option<usize>, Fail> {
    let (Some(front), Some(wanted)) = (got.get(..len), written.get(..len)) else {
        return Err(Fail::new("more than is to be written"));
    };
    let Some(rest) = got.get(len..).and_then(|rest| rest.strip_prefix("4")) else {
        return Err(Fail::new("another status"));
    };
    if front != wanted {
        return Err(Fail::new("something else is written"));
    }
    if rest.is_empty() || rest.ends_with("BYE\n") {
        return Ok(Some(len));
    }
    Err(Fail::new("a child stays"))
}

#[test]
fn the_output_may_fail_behind_each_byte(rt: HostRuntime) -> Result<(), Fail> {
    let alloc = rt.alloc();
    for talk in TALKS {
        let (_, written) = whole(alloc, &talk)?;
        let mut next = 0;
        for number in 0..100u64 {
            let Some(start) = written_before(&rt, alloc, &talk, number, 0)? else {
                break;
            };
            assert_eq!(rt; start, next);
            for kept in 1..=written.len() {
                let Some(len) = written_before(&rt, alloc, &talk, number, kept)? else {
                    break;
                };
                if len == next {
                    break;
                }
                assert_eq!(rt; Some(len), start.checked_add(kept));
                next = len;
            }
        }
        assert_eq!(rt; next, written.len());
    }
    Ok(())
}

/// A prompt whose child fails. Nothing is cached then, and the next request prompts.
const THRICE: Row = Row {
    sent: "GET_PASSPHRASE --data --qualitybar id1 X X X\nGET_PASSPHRASE --no-ask id1\nGET_PASSPHRASE --data id1 X X X\n",
    ..PLAIN
};

const FAILED: &str =
    "OK Pleased to meet you\nERR 67108950 No pinentry <GPG Agent>\nERR 67108922 No data <GPG Agent>\nD pin\nOK\n0\n";

const NOT_FAILED: &str = "OK Pleased to meet you\nD abc\nOK\nOK 616263\nD abc\nOK\n0\n";

/// What is given behind the opening of a prompt where nothing fails.
const ANSWER: &str = "INQUIRE QUALITY abc\nD abc\nOK\n";

/// The session's outcome with this first child, and one whose user types `pin`.
fn asked_thrice<W: Wait>(rt: &W, alloc: Global, first: PlannedChild) -> Result<String, AllocError> {
    let second = child_of(alloc, PIN, "D pin\nOK\n")?;
    let children = vec![in alloc; first, second]?;
    let sent = Vec::from_slice(alloc, THRICE.sent.as_bytes())?;
    let source = MemSource::new(sent, 4096, Vec::new(alloc));
    let sink = MemSink::new(alloc, 0, Vec::new(alloc));
    served(
        rt,
        alloc,
        &THRICE,
        children,
        &mut MemLink::new(source, sink),
    )
}

/// How many children have ended.
fn ended(text: &str) -> usize {
    text.matches("\n/usr/bin/pinentry ").count()
}

#[test]
fn a_childs_output_may_fail_at_each_byte(rt: HostRuntime) -> Result<(), Fail> {
    let alloc = rt.alloc();
    let whole = child_of(alloc, QUALITY, ANSWER)?.gives.len();
    for number in 0..=whole as u64 {
        let mut child = child_of(alloc, QUALITY, ANSWER)?;
        child.piece = 1;
        child.failing_reads.push(number)?;
        let text = asked_thrice(&rt, alloc, child)?;
        let (wanted, children) = if number < whole as u64 {
            (FAILED, 2)
        } else {
            (NOT_FAILED, 1)
        };
        assert!(rt; text.starts_with(wanted), "{number}: {text}");
        assert_eq!(rt; ended(&text), children);
    }
    Ok(())
}

/// The lines to a child, each a write: five settings, the question, and two that answer its
/// inquiry. Behind them it is told to go, and whether that can be written is all one.
#[test]
fn a_childs_input_may_fail_at_each_write(rt: HostRuntime) -> Result<(), Fail> {
    let alloc = rt.alloc();
    for number in 0..=8u64 {
        let mut child = child_of(alloc, QUALITY, ANSWER)?;
        child.failing_writes.push(number)?;
        let text = asked_thrice(&rt, alloc, child)?;
        let (wanted, children) = if number < 8 {
            (FAILED, 2)
        } else {
            (NOT_FAILED, 1)
        };
        assert!(rt; text.starts_with(wanted), "{number}: {text}");
        assert_eq!(rt; ended(&text), children);
    }
    Ok(())
}

/// What a child gives behind the opening of a prompt that breaks it.
const HOSTILE: [&str; 12] = [
    // It ends.
    "",
    "D pi",
    "D pin\n",
    "D pin\nOK",
    "INQUIRE QUALITY abc\n",
    // Too many comments, status lines and inquiries.
    "{# x\n*10001}D pin\nOK\n",
    "{S x\n*10001}D pin\nOK\n",
    "{INQUIRE QUALITY abc\n*10001}D pin\nOK\n",
    // Too long a passphrase, in one line and in two.
    "D {a*256}\nOK\n",
    "D {a*255}\nD a\nOK\n",
    // Too long a line.
    "D {a*999}\nOK\n",
    // Another program.
    "HELLO\n",
];

#[test]
fn a_hostile_child_has_broken_its_prompt_alone(rt: HostRuntime) -> Result<(), Fail> {
    for gives in HOSTILE {
        let child = child_of(rt.alloc(), QUALITY, gives)?;
        let text = asked_thrice(&rt, rt.alloc(), child)?;
        assert!(rt; text.starts_with(FAILED), "{gives}: {text}");
        assert_eq!(rt; ended(&text), 2);
    }
    Ok(())
}
