//! Contacts with agents in memory, in rows: what is told, and what the agent was written, with
//! reads of each length. Begin with `Row` and `first_wrong`.

ghost use Rattle.std.specs.Prelude.{◌≡◌, ◌≤◌, length};
ghost use Rattle.session_options.specs.declared.TheConstants.{MAX_VALUE_LEN};

use agent_ports::PlannedLink;
use arrayvec::ArrayVec;
use assuan_line::Line;
use passphrase_talk::{Agents, Connector, Loss, MemConnector, Place, Told, Waits, visit};
use session_options::{Env, MAX_VALUE_LEN};
use std::alloc::{AllocError, Global};
use std::test::Fail;

/// A contact, and what it comes to.
#[derive(Clone, Copy)]
struct Row {
    waits: Waits,
    /// What the agent gives, in two parts, and how often it gives the second one.
    gives: &'static str,
    again: &'static str,
    times: usize,
    /// The calls of the connector that fail, and of the link's reads and writes.
    connects: &'static [u64],
    reads: &'static [u64],
    writes: &'static [u64],
    /// What is told, what the agent was written, and what is handed on of the first pinentry.
    told: &'static str,
    written: &'static str,
    launched: &'static str,
}

/// A request for which nobody has to type.
const ROW: Row = Row {
    waits: Waits::Answer,
    gives: "OK\n",
    again: "",
    times: 0,
    connects: &[],
    reads: &[],
    writes: &[],
    told: "",
    written: "CLEAR_PASSPHRASE id\n",
    launched: "",
};

/// A value of a terminal.
fn word(text: &[u8]) -> ArrayVec<u8, MAX_VALUE_LEN>
    requires short { length text.now ≤ MAX_VALUE_LEN }
    ensures { result.items ≡ text.now }
{
    let mut word = ArrayVec::new();
    word.try_extend_from_slice(text).unwrap();
    word
}

/// A terminal, of which one locale isn't known.
fn terminal() -> Env {
    Env {
        ttyname: word(b"/dev/pts/1"),
        ttytype: word(b"xterm"),
        lc_ctype: word(b""),
        lc_messages: word(b"C"),
    }
}

/// The link of a row.
fn planned(alloc: Global, row: &Row, piece: usize) -> Result<PlannedLink, AllocError> {
    let mut gives = Vec::from_slice(alloc, row.gives.as_bytes())?;
    for _ in 0..row.times {
        gives.extend_from_slice(row.again.as_bytes())?;
    }
    Ok(PlannedLink {
        gives,
        piece,
        failing_reads: Vec::from_slice(alloc, row.reads)?,
        failing_writes: Vec::from_slice(alloc, row.writes)?,
    })
}

/// What is told, in words.
fn in_words(alloc: Global, told: &Told) -> Result<String, AllocError> {
    match told {
        Told::Passphrase(secret) if secret.bytes().len() > 99 => {
            format!(in alloc; "{} bytes", secret.bytes().len())
        }
        Told::Passphrase(secret) => {
            format!(in alloc;
                "passphrase {}",
                String::from_utf8_lossy(alloc, secret.bytes())?
            )
        }
        Told::Done => String::from_str(alloc, "done"),
        Told::Refused {
            code,
            launched: true,
        } => format!(in alloc; "refused {code} behind a pinentry"),
        Told::Refused { code, .. } => format!(in alloc; "refused {code}"),
        Told::Cancelled(Some(code)) => format!(in alloc; "cancelled {code}"),
        Told::Cancelled(None) => String::from_str(alloc, "cancelled"),
        Told::NoMemory => String::from_str(alloc, "no memory"),
        Told::Lost(Loss::Unmet) => String::from_str(alloc, "unmet"),
        Told::Lost(Loss::Read) => String::from_str(alloc, "not read"),
        Told::Lost(Loss::Write) => String::from_str(alloc, "not written"),
        Told::Lost(Loss::Ended) => String::from_str(alloc, "ended"),
        Told::Lost(Loss::Broken) => String::from_str(alloc, "broken"),
    }
}

/// What the last agent was written, if it was the one that was meant, and was waited for as was
/// meant.
fn last_written(connector: &MemConnector, waits: Waits) -> &[u8] {
    match connector.opened(0) {
        Some((Place::Beside, opened)) if opened == waits => {}
        Some(_) => return b"another connection",
        None => {}
    }
    match connector.contact(0) {
        Some(contact) if contact.place() == Place::Beside => contact.written(),
        Some(_) => b"the other agent's",
        None => b"",
    }
}

/// How the row comes out, with reads of at most so many bytes: what is told, what the agent was
/// written, and what was handed on of the first pinentry that it launched.
fn come_out(alloc: Global, row: &Row, piece: usize) -> Result<String, AllocError> {
    let mut links = Vec::new(alloc);
    links.push(planned(alloc, row, piece)?)?;
    let failing = Vec::from_slice(alloc, row.connects)?;
    let mut connector = MemConnector::new(alloc, Agents::One, terminal(), links, failing);
    let Some(line) = Line::of(b"CLEAR_PASSPHRASE id") else {
        return String::from_str(alloc, "no line");
    };
    let told = visit(alloc, &mut connector, Place::Beside, row.waits, &line);
    let written = last_written(&connector, row.waits);
    let launched = connector.launch(0).unwrap_or(&[]);
    format!(in alloc;
        "{}/{}/{}",
        in_words(alloc, &told)?,
        String::from_utf8_lossy(alloc, written)?,
        String::from_utf8_lossy(alloc, launched)?
    )
}

/// The first row that comes out otherwise, and how.
fn first_wrong(alloc: Global, rows: &[Row]) -> Result<Option<String>, AllocError> {
    for row in rows {
        let wanted = format!(in alloc; "{}/{}/{}", row.told, row.written, row.launched)?;
        for piece in [1, 1000] {
            if piece == 1 && row.times > 99 {
                continue;
            }
            let came = come_out(alloc, row, piece)?;
            if came != wanted {
                return Ok(Some(came));
            }
        }
    }
    Ok(None)
}

/// What the agent answers is told.
#[test]
fn an_answer_is_told(rt: HostRuntime) -> Result<(), Fail> {
    let rows = [
        Row {
            gives: "OK Pleased\nOK\n",
            told: "done",
            ..ROW
        },
        Row {
            gives: "# a word\nOK\nS PROGRESS 1\nD a%25\nD b\nOK and more\n",
            told: "passphrase a%b",
            ..ROW
        },
        Row {
            gives: "OK\nERR 67108922 No data <GPG Agent>\n",
            told: "refused 67108922",
            ..ROW
        },
        Row {
            gives: "OK\nD x\nERR 67108922\n",
            told: "refused 67108922",
            ..ROW
        },
        Row {
            gives: "OK\nINQUIRE PINENTRY_LAUNCHED 7 gtk2 1.2.1\nD x\nOK\n",
            told: "passphrase x",
            written: "CLEAR_PASSPHRASE id\nEND\n",
            ..ROW
        },
        Row {
            gives: "OK\nINQUIRE PINENTRY_LAUNCHED 7\nERR 83886179 Operation cancelled\n",
            told: "refused 83886179 behind a pinentry",
            written: "CLEAR_PASSPHRASE id\nEND\n",
            ..ROW
        },
        Row {
            gives: "OK\nINQUIRE PASSPHRASE\nERR 277 IPC call was cancelled\n",
            told: "cancelled 277",
            written: "CLEAR_PASSPHRASE id\nCAN\n",
            ..ROW
        },
        Row {
            gives: "OK\nD x\nINQUIRE PASSPHRASE\nINQUIRE PINENTRY_LAUNCHED\nD y\nOK\n",
            told: "cancelled",
            written: "CLEAR_PASSPHRASE id\nCAN\nEND\n",
            ..ROW
        },
    ];
    assert_eq!(rt; first_wrong(rt.alloc(), &rows)?, None);
    Ok(())
}

/// An agent is told the terminal where a user may have to type, and what it says of a pinentry is
/// handed on there.
#[test]
fn a_prompt_has_a_terminal(rt: HostRuntime) -> Result<(), Fail> {
    let whole = Row {
        waits: Waits::Prompt,
        gives: "OK\nOK\nOK\nERR 67109115 Unknown option\nOK\nD x\nOK\n",
        told: "passphrase x",
        written: "OPTION allow-pinentry-notify\nOPTION ttyname=/dev/pts/1\nOPTION ttytype=xterm\n\
            OPTION lc-messages=C\nCLEAR_PASSPHRASE id\n",
        ..ROW
    };
    let asked = Row {
        written: "OPTION allow-pinentry-notify\nOPTION ttyname=/dev/pts/1\nOPTION ttytype=xterm\n\
            OPTION lc-messages=C\nCLEAR_PASSPHRASE id\nEND\n",
        launched: "7",
        ..whole
    };
    let rows = [
        whole,
        Row {
            gives: "OK\nOK\nOK\nOK\nOK\nINQUIRE PINENTRY_LAUNCHED 7 gtk2 1.2.1\nD x\nOK\n",
            launched: "7 gtk2 1.2.1",
            ..asked
        },
        Row {
            gives: "OK\nOK\nOK\nOK\nOK\nINQUIRE PINENTRY_LAUNCHED 7\nERR 83886179\n",
            told: "refused 83886179 behind a pinentry",
            ..asked
        },
        Row {
            gives: "OK\nOK\nOK\nOK\nOK\nINQUIRE PINENTRY_LAUNCHED 7\n",
            told: "ended",
            ..asked
        },
        Row {
            gives: "OK\nOK\nINQUIRE PINENTRY_LAUNCHED\nOK\n",
            told: "broken",
            written: "OPTION allow-pinentry-notify\nOPTION ttyname=/dev/pts/1\n",
            ..whole
        },
        Row {
            gives: "OK\nD x\nOK\nOK\nOK\nOK\nOK\n",
            told: "broken",
            written: "OPTION allow-pinentry-notify\n",
            ..whole
        },
        Row {
            writes: &[2],
            told: "not written",
            written: "OPTION allow-pinentry-notify\nOPTION ttyname=/dev/pts/1\n",
            ..whole
        },
    ];
    assert_eq!(rt; first_wrong(rt.alloc(), &rows)?, None);
    Ok(())
}

/// Whoever breaks the protocol is told nothing more.
#[test]
fn a_broken_agent_is_left(rt: HostRuntime) -> Result<(), Fail> {
    let early = Row {
        told: "broken",
        written: "",
        ..ROW
    };
    let late = Row {
        gives: "OK\n",
        told: "broken",
        ..ROW
    };
    let rows = [
        Row {
            gives: "ERR 1 busy\nOK\nOK\n",
            ..early
        },
        Row {
            gives: "D x\nOK\nOK\n",
            ..early
        },
        Row {
            gives: "INQUIRE PINENTRY_LAUNCHED\nOK\nOK\n",
            ..early
        },
        Row {
            gives: "HELLO\nOK\nOK\n",
            ..early
        },
        Row {
            gives: "OK\nERR no number\nOK\n",
            ..late
        },
        Row {
            gives: "OK\nD ",
            again: "1234567890",
            times: 100,
            ..late
        },
        Row {
            again: "# nothing\n",
            times: 10_001,
            ..late
        },
        Row {
            again: "S 1234567890123456789012345678901234567890123456789012345678901234567890123456789\n",
            times: 14_000,
            ..late
        },
    ];
    assert_eq!(rt; first_wrong(rt.alloc(), &rows)?, None);
    Ok(())
}

/// An agent that ends the connection did not break the protocol.
#[test]
fn an_end_is_told(rt: HostRuntime) -> Result<(), Fail> {
    let ended = Row {
        gives: "OK\n",
        told: "ended",
        ..ROW
    };
    let rows = [
        ended,
        Row {
            gives: "",
            written: "",
            ..ended
        },
        Row {
            gives: "OK",
            written: "",
            ..ended
        },
        Row {
            gives: "OK\nD x\n",
            ..ended
        },
        Row {
            gives: "OK\nINQUIRE PINENTRY_LAUNCHED 7\n",
            written: "CLEAR_PASSPHRASE id\nEND\n",
            ..ended
        },
        Row {
            waits: Waits::Prompt,
            gives: "OK\nOK\n",
            written: "OPTION allow-pinentry-notify\nOPTION ttyname=/dev/pts/1\n",
            ..ended
        },
    ];
    assert_eq!(rt; first_wrong(rt.alloc(), &rows)?, None);
    Ok(())
}

/// What was sought, and how it came out.
fn in_sought(alloc: Global, connector: &MemConnector) -> Result<String, AllocError> {
    match connector.sought(0) {
        Some(sought) => format!(in alloc;
            "{} {} {}",
            sought.folder().unwrap_or("no folder"),
            sought.seconds().unwrap_or(0),
            match sought.found() {
                Agents::One => "one",
                Agents::Both => "both",
            }
        ),
        None => String::from_str(alloc, "nothing"),
    }
}

/// What is sought is known, unless nothing was found.
#[test]
fn what_is_sought_is_kept(rt: HostRuntime) -> Result<(), Fail> {
    let rows: [(Option<&str>, Option<u32>, Agents, &[u64], &str); 3] = [
        (Some("/x"), Some(7), Agents::Both, &[], "/x 7 both"),
        (None, None, Agents::One, &[1], "no folder 0 one"),
        (Some("/x"), None, Agents::One, &[0], "nothing"),
    ];
    for (folder, seconds, agents, failing, wanted) in rows {
        let failing = Vec::from_slice(rt.alloc(), failing)?;
        let links = Vec::new(rt.alloc());
        let mut connector = MemConnector::new(rt.alloc(), agents, terminal(), links, failing);
        let found = connector.find(folder, seconds);
        assert_eq!(rt; found.is_ok(), wanted != "nothing");
        let came = in_sought(rt.alloc(), &connector)?;
        assert_eq!(rt; came.as_str(), wanted);
    }
    Ok(())
}

/// What fails is told, and what was written until then.
#[test]
fn a_failure_is_told(rt: HostRuntime) -> Result<(), Fail> {
    let asked = Row {
        gives: "OK\nINQUIRE PINENTRY_LAUNCHED\nD x\nOK\n",
        written: "CLEAR_PASSPHRASE id\nEND\n",
        ..ROW
    };
    let rows = [
        Row {
            connects: &[0],
            told: "unmet",
            written: "",
            ..asked
        },
        Row {
            reads: &[0],
            told: "not read",
            written: "",
            ..asked
        },
        Row {
            writes: &[0],
            told: "not written",
            written: "",
            ..asked
        },
        Row {
            writes: &[1],
            told: "not written",
            written: "CLEAR_PASSPHRASE id\n",
            ..asked
        },
        Row {
            writes: &[2],
            told: "passphrase x",
            ..asked
        },
    ];
    assert_eq!(rt; first_wrong(rt.alloc(), &rows)?, None);
    Ok(())
}
