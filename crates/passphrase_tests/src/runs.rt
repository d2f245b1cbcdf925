//! Whole runs over agents in memory, in rows: status, output, what is said on the error stream, and
//! what the last agent was written. Begin with `Row` and `first_wrong`.

use agent_ports::{MemSink, MemSource, PlannedLink};
use arrayvec::ArrayVec;
use passphrase_client::{run_askpass, run_passphrase};
use passphrase_talk::{Agents, MemConnector};
use session_options::Env;
use std::alloc::{AllocError, Global};
use std::test::Fail;

/// A run, and what it comes to.
#[derive(Clone, Copy)]
struct Row {
    /// The words, without the program's name.
    words: &'static [&'static str],
    /// They are those of an askpass.
    is_askpass: bool,
    /// What stands on standard input.
    input: &'static str,
    agents: Agents,
    /// What each link to an agent gives behind the greeting, or with `!` in front from the start.
    links: &'static [&'static str],
    /// The calls of the connector that fail, and of each link's reads.
    failing: &'static [u64],
    reads: &'static [u64],
    /// The write of the output fails behind one byte.
    is_cut: bool,
    status: u8,
    /// What is written to standard output, and what the error stream has behind `passphrase: `.
    output: &'static str,
    says: &'static str,
    /// What the last agent was written, where it is looked at.
    sent: &'static str,
}

const PLAIN: Row = Row {
    words: &["id"],
    is_askpass: false,
    input: "",
    agents: Agents::One,
    links: &[],
    failing: &[],
    reads: &[],
    is_cut: false,
    status: 0,
    output: "",
    says: "",
    sent: "",
};

const GREETING: &str = "OK Pleased to meet you\n";

const NO_DATA: &str = "ERR 67108922 No data <GPG Agent>\n";

/// A terminal without a name.
fn no_terminal() -> Env {
    Env {
        ttyname: ArrayVec::new(),
        ttytype: ArrayVec::new(),
        lc_ctype: ArrayVec::new(),
        lc_messages: ArrayVec::new(),
    }
}

fn planned(alloc: Global, row: &Row, piece: usize) -> Result<Vec<PlannedLink>, AllocError> {
    let mut links = Vec::new(alloc);
    for text in row.links {
        let mut gives = Vec::new(alloc);
        match text.strip_prefix("!") {
            Some(text) => gives.extend_from_slice(text.as_bytes())?,
            None => {
                gives.extend_from_slice(GREETING.as_bytes())?;
                gives.extend_from_slice(text.as_bytes())?;
            }
        }
        links.push(PlannedLink {
            gives,
            piece,
            failing_reads: Vec::from_slice(alloc, row.reads)?,
            failing_writes: Vec::new(alloc),
        })?;
    }
    Ok(links)
}

/// What the last agent was written, where the row looks at it.
fn last_written<'a>(row: &Row, connector: &'a MemConnector) -> &'a [u8] {
    if row.sent.is_empty() {
        return b"";
    }
    match connector.contact(0) {
        Some(contact) => contact.written(),
        None => b"",
    }
}

/// How the row's run comes out, with reads of at most so many bytes: its status, its output, what
/// is said, and what the last agent was written.
fn come_out(alloc: Global, row: &Row, piece: usize) -> Result<String, AllocError> {
    let mut words = Vec::new(alloc);
    for word in row.words {
        words.push(String::from_str(alloc, word)?)?;
    }
    let links = planned(alloc, row, piece)?;
    let failing = Vec::from_slice(alloc, row.failing)?;
    let mut connector = MemConnector::new(alloc, row.agents, no_terminal(), links, failing);
    let bytes = Vec::from_slice(alloc, row.input.as_bytes())?;
    let mut input = MemSource::new(bytes, piece, Vec::new(alloc));
    let mut cuts = Vec::new(alloc);
    if row.is_cut {
        cuts.push(0)?;
    }
    let mut output = MemSink::new(alloc, 1, cuts);
    let mut errors = MemSink::new(alloc, 0, Vec::new(alloc));
    let (to, from) = (&mut connector, &mut input);
    let status = if row.is_askpass {
        run_askpass(alloc, &words, to, from, &mut output, &mut errors)
    } else {
        run_passphrase(alloc, &words, to, from, &mut output, &mut errors)
    };
    let sent = last_written(row, &connector);
    format!(in alloc;
        "{status}/{}/{}/{}",
        String::from_utf8_lossy(alloc, output.written())?,
        String::from_utf8_lossy(alloc, errors.written())?,
        String::from_utf8_lossy(alloc, sent)?
    )
}

/// The first row that comes out otherwise, and how.
fn first_wrong(alloc: Global, rows: &[Row]) -> Result<Option<String>, AllocError> {
    for row in rows {
        let says = if row.says.is_empty() {
            String::new(alloc)
        } else {
            format!(in alloc; "passphrase: {}\n", row.says)?
        };
        let wanted = format!(in alloc; "{}/{}/{says}/{}", row.status, row.output, row.sent)?;
        for piece in [1, 1000] {
            let came = come_out(alloc, row, piece)?;
            if came != wanted {
                return Ok(Some(came));
            }
        }
    }
    Ok(None)
}

/// The version is the one that the changes name last.
#[test]
fn the_version_is_told(rt: HostRuntime) -> Result<(), Fail> {
    let rows = [Row {
        words: &["--version"],
        output: "passphrase (Dogwoodcatch) 0.2.0\n",
        ..PLAIN
    }];
    assert_eq!(rt; first_wrong(rt.alloc(), &rows)?, None);
    Ok(())
}

/// What is kept is given, and else what is typed.
#[test]
fn a_passphrase_is_given(rt: HostRuntime) -> Result<(), Fail> {
    let rows = [
        Row {
            links: &["D secret\nOK\n"],
            output: "secret\n",
            sent: "GET_PASSPHRASE --data --no-ask id X X Passphrase+id\n",
            ..PLAIN
        },
        Row {
            words: &["--null", "id"],
            links: &["D sec\nD ret%25\nOK\n"],
            output: "secret%",
            ..PLAIN
        },
        Row {
            words: &["--prompt", "Which?", "id", "two words"],
            links: &[NO_DATA, "OK\nINQUIRE PINENTRY_LAUNCHED 12\nD typed\nOK\n"],
            output: "typed\n",
            sent: "OPTION allow-pinentry-notify\nGET_PASSPHRASE --data id X Which? two+words\nEND\n",
            ..PLAIN
        },
        Row {
            words: &["--new", "id"],
            links: &["OK\n", "OK\nD new\nOK\n"],
            output: "new\n",
            sent: "OPTION allow-pinentry-notify\nGET_PASSPHRASE --data --repeat=1 id X X New+passphrase+for+id\n",
            ..PLAIN
        },
        Row {
            words: &["--ttl", "60", "id"],
            links: &[
                NO_DATA,
                "INQUIRE PASSPHRASE\nERR 67109141 IPC\n",
                "OK\nD ab\nOK\n",
                "OK\n",
            ],
            output: "ab\n",
            sent: "PRESET_PASSPHRASE id 60 6162\n",
            ..PLAIN
        },
        Row {
            words: &["--ttl", "60", "id"],
            links: &["D ab\nOK\n"],
            output: "ab\n",
            says: "id is kept already, and its end wasn't changed: --new --ttl asks anew",
            ..PLAIN
        },
        Row {
            words: &["--new", "--ttl", "60", "id"],
            links: &[
                "INQUIRE PASSPHRASE\nERR 67109141 IPC\n",
                "OK\n",
                "OK\nD ab\nOK\n",
                "OK\n",
            ],
            output: "ab\n",
            sent: "PRESET_PASSPHRASE id 60 6162\n",
            ..PLAIN
        },
        Row {
            agents: Agents::Both,
            links: &[NO_DATA, "D other\nOK\n"],
            output: "other\n",
            ..PLAIN
        },
        Row {
            words: &["Password for x:"],
            is_askpass: true,
            links: &["D secret\nOK\n"],
            output: "secret\n",
            sent: "GET_PASSPHRASE --data --no-ask askpass:94c177092139b46e0de7cbb44a4b2f7cadc4c820 X X Password+for+x:\n",
            ..PLAIN
        },
        Row {
            words: &["USERname for x:"],
            is_askpass: true,
            links: &["D me\nOK\n"],
            output: "me\n",
            sent: "GET_PASSPHRASE --data --no-ask askpass:f4c7aa5c698f330c2b59e9da54859083a7948e5d X User+name: USERname+for+x:\n",
            ..PLAIN
        },
    ];
    assert_eq!(rt; first_wrong(rt.alloc(), &rows)?, None);
    Ok(())
}

/// What isn't given is said, and nothing is written.
#[test]
fn what_is_refused_is_said(rt: HostRuntime) -> Result<(), Fail> {
    let rows = [
        Row {
            words: &["--no-ask", "id"],
            links: &[NO_DATA],
            status: 1,
            says: "nothing is kept as id",
            ..PLAIN
        },
        Row {
            links: &[NO_DATA, "OK\nERR 67108950 No pinentry <GPG Agent>\n"],
            status: 1,
            says: "nothing is kept as id, and there is no terminal to ask in",
            ..PLAIN
        },
        Row {
            links: &[
                NO_DATA,
                "OK\nINQUIRE PINENTRY_LAUNCHED 12\nERR 83886179 canceled\n",
            ],
            status: 1,
            says: "the prompt for id was cancelled",
            ..PLAIN
        },
        Row {
            links: &[NO_DATA, "OK\nERR 67108926 Timeout <GPG Agent>\n"],
            status: 1,
            says: "another prompt is open, and was for a minute",
            ..PLAIN
        },
        Row {
            links: &[
                NO_DATA,
                "OK\nINQUIRE PINENTRY_LAUNCHED 12\nERR 83886142 Timeout\n",
            ],
            status: 1,
            says: "nothing was typed for id in time",
            ..PLAIN
        },
        Row {
            links: &["D a%0Ab\nOK\n"],
            status: 1,
            says: "the passphrase of id has a NUL or a line feed",
            ..PLAIN
        },
        Row {
            links: &[NO_DATA, "OK\nOK\n", "OK\n"],
            status: 1,
            says: "the passphrase of id is empty, and is forgotten",
            sent: "CLEAR_PASSPHRASE id\n",
            ..PLAIN
        },
        Row {
            words: &["--ttl", "60", "id"],
            links: &[NO_DATA, "ERR 67108924 Not supported <GPG Agent>\n"],
            status: 1,
            says: "the agent takes no presets: --ttl wants allow-preset-passphrase in its gpg-agent.conf, or passphrase --homedir DIR with that line in DIR/gpg-agent.conf",
            ..PLAIN
        },
        Row {
            words: &["--ttl", "60", "id"],
            links: &[NO_DATA, "ERR 67108933 Not implemented <GPG Agent>\n"],
            status: 1,
            says: "the agent takes no presets with an end, as GnuPG's own doesn't: --ttl wants passphrase --homedir DIR, with allow-preset-passphrase in DIR/gpg-agent.conf",
            ..PLAIN
        },
        Row {
            words: &["--ttl", "60", "id"],
            links: &["D ab\nOK\n"],
            is_cut: true,
            status: 2,
            output: "a",
            says: "standard output can't be written",
            ..PLAIN
        },
        Row {
            links: &[
                NO_DATA,
                "OK\nINQUIRE PINENTRY_LAUNCHED 12\nERR 67108950 No pinentry <GPG Agent>\n",
            ],
            status: 1,
            says: "nothing is kept as id, and its prompt was closed: there is no terminal to ask in, or this program was stopped",
            ..PLAIN
        },
        Row {
            words: &["--forget", "id"],
            links: &["ERR 67109115 Forbidden <GPG Agent>\n"],
            status: 1,
            says: "the agent refused the request for id: its socket for other machines forbids it (error 251)",
            ..PLAIN
        },
        Row {
            words: &["--forget-all"],
            links: &["ERR 67109139 Unknown IPC command <GPG Agent>\n"],
            status: 1,
            says: "the agent refused the request for all: it doesn't know it (error 275)",
            sent: "RELOADAGENT\n",
            ..PLAIN
        },
        Row {
            links: &["D secret\nOK\n"],
            is_cut: true,
            status: 2,
            output: "s",
            says: "standard output can't be written",
            ..PLAIN
        },
        Row {
            failing: &[0],
            status: 3,
            says: "it is planned",
            ..PLAIN
        },
        Row {
            words: &["--no-ask", "id"],
            links: &["D secret\nOK\n"],
            reads: &[0],
            status: 3,
            says: "it is planned",
            ..PLAIN
        },
    ];
    assert_eq!(rt; first_wrong(rt.alloc(), &rows)?, None);
    Ok(())
}

/// Where an agent fails, the other one is looked at, and nothing else is done.
#[test]
fn a_failed_look_is_noted(rt: HostRuntime) -> Result<(), Fail> {
    let rows = [
        Row {
            links: &[""],
            status: 3,
            says: "the agent ended the connection",
            ..PLAIN
        },
        Row {
            links: &["D secret\n"],
            status: 3,
            says: "the agent ended the connection",
            ..PLAIN
        },
        Row {
            agents: Agents::Both,
            links: &["", "D other\nOK\n"],
            output: "other\n",
            ..PLAIN
        },
        Row {
            agents: Agents::Both,
            links: &["", NO_DATA],
            status: 3,
            says: "the agent ended the connection",
            ..PLAIN
        },
        Row {
            agents: Agents::Both,
            links: &[NO_DATA, "", "OK\nD typed\nOK\n"],
            output: "typed\n",
            ..PLAIN
        },
        Row {
            words: &["--no-ask", "id"],
            agents: Agents::Both,
            links: &[NO_DATA, ""],
            status: 3,
            says: "the agent ended the connection",
            ..PLAIN
        },
        Row {
            links: &["OK\n", ""],
            status: 3,
            says: "the agent ended the connection",
            ..PLAIN
        },
        // The reason is that of the failure which is noted, whatever fails behind it.
        Row {
            words: &["--no-ask", "id"],
            agents: Agents::Both,
            failing: &[1, 2],
            status: 3,
            says: "it is planned",
            ..PLAIN
        },
        Row {
            agents: Agents::Both,
            failing: &[1, 2],
            status: 3,
            says: "it is planned",
            ..PLAIN
        },
        Row {
            words: &["--no-ask", "id"],
            agents: Agents::Both,
            links: &[NO_DATA],
            failing: &[2],
            status: 3,
            says: "it is planned beside",
            ..PLAIN
        },
    ];
    assert_eq!(rt; first_wrong(rt.alloc(), &rows)?, None);
    Ok(())
}

/// An agent that breaks the protocol gives nothing.
#[test]
fn a_hostile_agent_is_lost(rt: HostRuntime) -> Result<(), Fail> {
    let hostile: [&'static [&'static str]; 4] = [
        &["!ERR 1 no\n"],
        &["!D secret\nOK\n"],
        &["INQUIRE PASSPHRASE\nD secret\nOK\n"],
        &["what is this\n"],
    ];
    for links in hostile {
        let row = Row {
            words: &["--no-ask", "id"],
            links,
            status: 3,
            says: "the agent broke the protocol",
            ..PLAIN
        };
        assert_eq!(rt; first_wrong(rt.alloc(), &[row])?, None);
    }
    Ok(())
}

/// What is kept is forgotten, told of and stored.
#[test]
fn what_is_kept_is_looked_after(rt: HostRuntime) -> Result<(), Fail> {
    let rows = [
        Row {
            words: &["--forget", "id"],
            links: &["OK\n"],
            sent: "CLEAR_PASSPHRASE id\n",
            ..PLAIN
        },
        Row {
            words: &["--forget", "id"],
            agents: Agents::Both,
            links: &["OK\n", "OK\n"],
            ..PLAIN
        },
        Row {
            words: &["--forget-all"],
            agents: Agents::Both,
            links: &["OK\n", "OK\n"],
            sent: "RELOADAGENT\n",
            ..PLAIN
        },
        Row {
            words: &["--forget", "Password for x:"],
            is_askpass: true,
            links: &["OK\n"],
            sent: "CLEAR_PASSPHRASE askpass:94c177092139b46e0de7cbb44a4b2f7cadc4c820\n",
            ..PLAIN
        },
        Row {
            words: &["--cached", "id"],
            links: &["D secret\nOK\n"],
            ..PLAIN
        },
        Row {
            words: &["--cached", "id"],
            links: &[NO_DATA],
            status: 1,
            ..PLAIN
        },
        Row {
            words: &["--store", "id"],
            input: "secret\n",
            links: &["OK\n"],
            sent: "PRESET_PASSPHRASE id -1 736563726574\n",
            ..PLAIN
        },
        Row {
            words: &["--store", "id"],
            input: "two\nlines\n",
            status: 2,
            says: "a passphrase is one line without NUL",
            ..PLAIN
        },
        Row {
            words: &["--store", "id"],
            input: "\n",
            status: 2,
            says: "standard input has no passphrase",
            ..PLAIN
        },
    ];
    assert_eq!(rt; first_wrong(rt.alloc(), &rows)?, None);
    Ok(())
}

/// No byte that a terminal would obey is said, wherever it stands in a word.
#[test]
fn what_is_said_can_be_printed(rt: HostRuntime) -> Result<(), Fail> {
    let refused = Row { status: 2, ..PLAIN };
    let rows = [
        Row {
            words: &["x\x1b]0;OWN\x07"],
            says: "an ID is letters, digits and :._@/- (and neither X alone nor begins with -): x?]0;OWN?",
            ..refused
        },
        Row {
            words: &["--\r\n\x7f~ \u{9b}2J", "id"],
            says: "there is no option --???~ ??2J",
            ..refused
        },
        Row {
            words: &[
                "--aaaaaaaaaaaaaaaaaaaaaaaaaaaaaaaaaaaaaaaaaaaaaaaaaaaaaaaaaaaaaaaaaaaaaaaaaaaaaaaaaaaaaaaaaaaaaaaaaaaaaaaaaaaaaaaaaaaaaaaaaaaaaaaaaaaaaaaaaaaaaaaaaaaaaaaaaaaaaaaaaaaaaaaaaaaaaaaaaaaaaaaaaaaaaaaaaaaaaaaaaaaaaaaaaaaaaaaaaaaaaaaaaaaaaaaaaaaaaaaaaaaaaaaaaaaaaaaaaaaaaaaaaaaaaaaaaaaaaaaaaaaaaaaaaaaaaaaaaaaa\x1b",
                "id",
            ],
            says: "there is no option --aaaaaaaaaaaaaaaaaaaaaaaaaaaaaaaaaaaaaaaaaaaaaaaaaaaaaaaaaaaaaaaaaaaaaaaaaaaaaaaaaaaaaaaaaaaaaaaaaaaaaaaaaaaaaaaaaaaaaaaaaaaaaaaaaaaaaaaaaaaaaaaaaaaaaaaaaaaaaaaaaaaaaaaaaaaaaaaaaaaaaaaaaaaaaaaaaaaaaaaaaaaaaaaaaaaaaaaaaaaaaaaaaaaaaaaaaaaaaaaaaaaaaaaaaaaaaaaaaaaaaaaaaaaaaaaaaaaaaaaaaaaaaaaaaaaaaaaaaaaa?",
            ..refused
        },
    ];
    assert_eq!(rt; first_wrong(rt.alloc(), &rows)?, None);
    Ok(())
}
