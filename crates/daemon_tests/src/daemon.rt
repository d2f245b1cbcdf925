//! The daemon over links in memory: what it answers, and with what status and summary it ends. Its
//! workers are threads, but links and machine are in memory. Begin with `ROWS`, and with
//! `AT_TWO_DOORS` for restricted sessions.

use crate::serving::{host_of, parts, planned, preset_rules};
use agent_ports::{
    HoldGate, ListListener, ListedLinks, Listener, MemLink, MemParts, MemSink, MemSource, Next,
};
use agent_top::{run_agent, run_lawful_daemon};
use session_options::Rules;
use std::alloc::{AllocError, Global};
use std::rt;
use std::sync::{Mutex, Wait};
use std::test::Fail;
use std::thread::Threads;

/// What a client sends, and what it is answered.
type Client = (&'static str, &'static str);

/// A daemon: its links, and what comes of it.
#[derive(Clone, Copy)]
struct Row {
    workers: u32,
    /// In the order in which their sessions end. Those that aren't taken have no answer.
    links: &'static [Client],
    /// Those of the extra listener, where it is asked for.
    extra: Option<&'static [Client]>,
    /// The calls that fail, by their number from 0: for a listener, for a link, reads and writes of
    /// the first link, and writes of the summary.
    listens: &'static [u64],
    nexts: &'static [u64],
    reads: &'static [u64],
    writes: &'static [u64],
    summaries: &'static [u64],
    status: u8,
    summary: &'static str,
}

const NOTHING: &str = "marks 0 given 0 empty 0 opened 0 stored 0 cleared 0 flushed 0\n";

/// The one that a client stops has a mark of the stop.
const STOPPED: &str = "marks 1 given 0 empty 0 opened 0 stored 0 cleared 0 flushed 0\n";

const PLAIN: Row = Row {
    workers: 1,
    links: &[],
    extra: None,
    listens: &[],
    nexts: &[],
    reads: &[],
    writes: &[],
    summaries: &[],
    status: 5,
    summary: NOTHING,
};

/// The folder that the words of a daemon say.
const FOLDER: &str = "/h";

const GREETING: &str = "OK Pleased to meet you\n";

const NOP: Client = ("NOP\n", "OK Pleased to meet you\nOK\n");

const KILL: Client = (
    "KILLAGENT\n",
    "OK Pleased to meet you\nOK closing connection\n",
);

const ROWS: [Row; 15] = [
    // A passphrase that one client presets is another's until it is forgotten. Behind KILLAGENT no
    // link is taken.
    Row {
        links: &[
            (
                "PRESET_PASSPHRASE id1 -1 736563726574\nBYE\n",
                "OK Pleased to meet you\nOK\nOK closing connection\n",
            ),
            (
                "GET_PASSPHRASE --no-ask --data id1\n",
                "OK Pleased to meet you\nD secret\nOK\n",
            ),
            ("RELOADAGENT\n", "OK Pleased to meet you\nOK\n"),
            (
                "GET_PASSPHRASE --no-ask id1\nKILLAGENT\n",
                "OK Pleased to meet you\nERR 67108922 No data <GPG Agent>\nOK closing connection\n",
            ),
            ("NOP\n", ""),
        ],
        status: 0,
        summary: "marks 5 given 1 empty 1 opened 0 stored 1 cleared 0 flushed 1\n",
        ..PLAIN
    },
    // What is typed for one client is given to the next.
    Row {
        links: &[
            (
                "GET_PASSPHRASE --data id1 X X X\n",
                "OK Pleased to meet you\nD pin\nOK\n",
            ),
            (
                "GET_PASSPHRASE --no-ask --data id1\n",
                "OK Pleased to meet you\nD pin\nOK\n",
            ),
            KILL,
        ],
        status: 0,
        summary: "marks 4 given 1 empty 0 opened 1 stored 1 cleared 0 flushed 0\n",
        ..PLAIN
    },
    // No link comes any more.
    PLAIN,
    Row {
        links: &[NOP, NOP, NOP],
        workers: 2,
        ..PLAIN
    },
    // There is no listener: nothing is written.
    Row {
        links: &[("KILLAGENT\n", "")],
        listens: &[0],
        summary: "",
        ..PLAIN
    },
    // A call for a link fails.
    Row {
        links: &[("KILLAGENT\n", "")],
        nexts: &[0],
        ..PLAIN
    },
    Row {
        links: &[NOP, ("KILLAGENT\n", "")],
        nexts: &[1],
        ..PLAIN
    },
    // The link of the one that stops the agent is gone before its answer, or its read fails.
    Row {
        links: &[("KILLAGENT\n", GREETING), ("NOP\n", "")],
        writes: &[1],
        status: 0,
        summary: STOPPED,
        ..PLAIN
    },
    Row {
        links: &[("KILLAGENT\n", GREETING), NOP],
        reads: &[0],
        ..PLAIN
    },
    // A client's read fails while it is told of a prompt: its passphrase isn't asked, and the seat
    // is free.
    Row {
        links: &[
            (
                "OPTION allow-pinentry-notify\nGET_PASSPHRASE id1 X X X\n",
                "OK Pleased to meet you\nOK\nINQUIRE PINENTRY_LAUNCHED 9\n",
            ),
            (
                "GET_PASSPHRASE --no-ask id1\nGET_PASSPHRASE --data id1 X X X\nKILLAGENT\n",
                "OK Pleased to meet you\nERR 67108922 No data <GPG Agent>\nD pin\nOK\nOK closing connection\n",
            ),
        ],
        reads: &[8],
        status: 0,
        summary: "marks 6 given 0 empty 1 opened 2 stored 1 cleared 0 flushed 0\n",
        ..PLAIN
    },
    // A passphrase can't be written to its client once it is typed: it is kept, and given to the
    // next one.
    Row {
        links: &[
            ("GET_PASSPHRASE --data id1 X X X\n", GREETING),
            (
                "GET_PASSPHRASE --no-ask --data id1\nKILLAGENT\n",
                "OK Pleased to meet you\nD pin\nOK\nOK closing connection\n",
            ),
        ],
        writes: &[1],
        status: 0,
        summary: "marks 4 given 1 empty 0 opened 1 stored 1 cleared 0 flushed 0\n",
        ..PLAIN
    },
    // No worker is given a link.
    Row {
        workers: 2,
        links: &[("KILLAGENT\n", "")],
        nexts: &[0, 1],
        ..PLAIN
    },
    // The summary can't be written.
    Row {
        links: &[KILL],
        summaries: &[0],
        status: 4,
        summary: "",
        ..PLAIN
    },
    Row {
        summaries: &[0],
        status: 4,
        summary: "",
        ..PLAIN
    },
    // With more workers than clients.
    Row {
        workers: 64,
        links: &[KILL],
        status: 0,
        summary: STOPPED,
        ..PLAIN
    },
];

/// Daemons at whose first link a prompt is open until another session has ended. One that ends with
/// status 0 has stopped both its listeners.
const AT_TWO_DOORS: [Row; 5] = [
    // A restricted session is served beside a prompt. It may not stop the agent: a session at home
    // does, and no link is taken at either door.
    Row {
        links: &[
            (
                "GET_PASSPHRASE --data id1 X X X\nKILLAGENT\n",
                "OK Pleased to meet you\nD pin\nOK\nOK closing connection\n",
            ),
            ("NOP\n", ""),
        ],
        extra: Some(&[RESTRICTED]),
        status: 0,
        summary: "marks 3 given 0 empty 0 opened 1 stored 1 cleared 0 flushed 0\n",
        ..PLAIN
    },
    // No link comes any more at either door.
    Row {
        workers: 64,
        links: &[NOP, NOP],
        extra: Some(&[RESTRICTED, NOP]),
        ..PLAIN
    },
    // Sessions at home go on where the extra listener has failed.
    Row {
        links: &[NOP, KILL],
        extra: Some(&[]),
        status: 0,
        summary: STOPPED,
        ..PLAIN
    },
    // One of the listeners is wanting: nothing is written.
    Row {
        links: &[("KILLAGENT\n", "")],
        extra: Some(&[]),
        listens: &[0],
        summary: "",
        ..PLAIN
    },
    Row {
        links: &[("KILLAGENT\n", "")],
        extra: Some(&[("NOP\n", "")]),
        listens: &[1],
        summary: "",
        ..PLAIN
    },
];

const RESTRICTED: Client = (
    "RELOADAGENT\nGET_PASSPHRASE --no-ask id1\nKILLAGENT\nFOO\n",
    "OK Pleased to meet you\nERR 67109115 Forbidden <GPG Agent>\nERR 67109115 Forbidden <GPG Agent>\nERR 67109115 Forbidden <GPG Agent>\nERR 67109139 Unknown IPC command <GPG Agent>\n",
);

/// Links with these clients, whose first has the faults of the row.
fn links_of(alloc: Global, clients: &[Client], row: &Row) -> Result<ListedLinks, AllocError> {
    let mut links = Vec::new(alloc);
    let (mut reads, mut writes) = (row.reads, row.writes);
    for (sent, _) in clients {
        links.push(planned(alloc, sent, reads, writes)?)?;
        (reads, writes) = (&[], &[]);
    }
    ListedLinks::new(alloc, links, Vec::from_slice(alloc, row.nexts)?)
}

/// The clients of the extra listener.
fn extra_of(row: &Row) -> &'static [Client] {
    row.extra.unwrap_or(&[])
}

/// Parts for each session.
fn sessions_of(alloc: Global, row: &Row) -> Result<Vec<MemParts>, AllocError> {
    let mut all = Vec::new(alloc);
    for _ in row.links.iter().chain(extra_of(row)) {
        all.push(parts(alloc)?)?;
    }
    Ok(all)
}

/// What is to come of a row: what each link is written that is taken, the summary, and the status.
fn wanted(alloc: Global, row: &Row) -> Result<String, AllocError> {
    let mut all = String::new(alloc);
    for (_, answered) in row.links.iter().chain(extra_of(row)) {
        all.push_str(answered)?;
    }
    format!(in alloc; "{all}{}{}", row.summary, row.status)
}

/// The words that ask for the daemon of a row, in a folder of its own.
fn words_of(alloc: Global, row: &Row) -> Result<Vec<String>, AllocError> {
    let mut words = Vec::new(alloc);
    for word in ["--daemon", "--homedir", FOLDER, "--allow-preset-passphrase"] {
        words.push(String::from_str(alloc, word)?)?;
    }
    words.push(format!(in alloc; "--workers={}", row.workers)?)?;
    if row.extra.is_some() {
        words.push(String::from_str(alloc, "--extra-socket")?)?;
    }
    Ok(words)
}

/// The rules of the same daemon.
fn rules_of(row: &Row) -> Rules {
    let mut rules = preset_rules();
    rules.workers = row.workers.clamp(1, 64);
    rules.extra = row.extra.is_some();
    rules
}

/// What comes of it, as `run_agent` is asked for it by words, or as `run_lawful_daemon`
/// is given rules.
fn outcome<W: Threads + Wait + rt::Clock + Sync>(
    rt: &W,
    alloc: Global,
    row: &Row,
    links: &Mutex<ListedLinks>,
    extra: &Mutex<ListedLinks>,
    gate: HoldGate,
    by_words: bool,
) -> Result<String, AllocError> {
    let listens = Vec::from_slice(alloc, row.listens)?;
    let summaries = Vec::from_slice(alloc, row.summaries)?;
    let sessions = sessions_of(alloc, row)?;
    let further = row.extra.map(|_| extra);
    let mut host = host_of(rt, alloc, links, further, sessions, listens, gate)?;
    let source = MemSource::new(Vec::new(alloc), 1, Vec::new(alloc));
    let mut stdio = MemLink::new(source, MemSink::new(alloc, 0, summaries));
    let status = if by_words {
        run_agent(rt, alloc, &words_of(alloc, row)?, &mut stdio, &mut host)
    } else {
        run_lawful_daemon(rt, alloc, &rules_of(row), &mut stdio, &mut host)
    };
    let settled = if by_words { FOLDER.as_bytes() } else { b"" };
    if host.homedir() != settled {
        return format!(in alloc; "another folder");
    }
    let answered = answered_text(rt, alloc, links)?;
    let further = answered_text(rt, alloc, extra)?;
    let summary = String::from_utf8_lossy(alloc, stdio.written())?;
    format!(in alloc; "{answered}{further}{summary}{status}")
}

/// What the links were written whose sessions have ended.
fn answered_text<W: Wait>(
    rt: &W,
    alloc: Global,
    links: &Mutex<ListedLinks>,
) -> Result<String, AllocError> {
    let links = links.lock(rt);
    let mut all = String::new(alloc);
    for place in 0..9usize {
        let written = links.written(place).unwrap_or(b"");
        all.push_str(&String::from_utf8_lossy(alloc, written)?)?;
    }
    Ok(all)
}

/// Whether no link is given any more since the listener was stopped.
fn is_stopped<W: Wait>(rt: &W, links: &Mutex<ListedLinks>) -> bool {
    let listener = ListListener::new(rt, links);
    matches!(listener.next(&mut listener.ear()), Next::Stopped)
}

/// Each row, to be given as rules and to be asked for by words.
fn twice<'a>(alloc: Global, rows: &'a [Row]) -> Result<Vec<(&'a Row, bool)>, AllocError> {
    let mut all = Vec::new(alloc);
    for row in rows {
        all.push((row, false))?;
        all.push((row, true))?;
    }
    Ok(all)
}

#[test]
fn daemons_end_as_their_rows_say(rt: HostRuntime) -> Result<(), Fail> {
    let alloc = rt.alloc();
    for (row, by_words) in twice(alloc, &ROWS)? {
        let links = Mutex::new(links_of(alloc, row.links, row)?);
        let extra = Mutex::new(links_of(alloc, extra_of(row), row)?);
        let gate = HoldGate::new(0);
        let got = outcome(&rt, alloc, row, &links, &extra, gate, by_words)?;
        assert_eq!(rt; got, wanted(alloc, row)?);
    }
    Ok(())
}

#[test]
fn restricted_sessions_are_served_at_a_door_of_their_own(rt: HostRuntime) -> Result<(), Fail> {
    let alloc = rt.alloc();
    for (row, by_words) in twice(alloc, &AT_TWO_DOORS)? {
        let links = Mutex::new(links_of(alloc, row.links, row)?);
        let extra = Mutex::new(links_of(alloc, extra_of(row), row)?);
        let gate = HoldGate::new(2_000_000_000);
        let got = outcome(&rt, alloc, row, &links, &extra, gate, by_words)?;
        assert_eq!(rt; got, wanted(alloc, row)?);
        assert_eq!(rt; is_stopped(&rt, &links), row.status == 0);
        assert_eq!(rt; is_stopped(&rt, &extra), row.status == 0);
    }
    Ok(())
}
