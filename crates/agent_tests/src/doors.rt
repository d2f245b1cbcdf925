//! Sessions by the door that they came in, over a trust list in memory: what is answered, what the
//! list has behind them, and what the user was asked. Begin with `Row`.

use crate::rows::text_of;
use agent_core::Solo;
use agent_origin::{Door, serve_door};
use agent_ports::{
    ListClock, ListDice, MapKeys, MemLauncher, MemLink, MemSink, MemSource, MemTrust, PlannedChild,
    SessionId,
};
use cache_policy::Limits;
use pinentry_client::{Pinentry, Word};
use session_options::Rules;
use std::alloc::{AllocError, Global};
use std::test::Fail;

/// A session at a door. In a text `{part*3}` stands for three times that part.
#[derive(Clone, Copy)]
struct Row {
    door: Door,
    /// The trust list before the session and behind it, where there is one.
    before: Option<&'static str>,
    after: Option<&'static str>,
    sent: &'static str,
    /// Behind the greeting.
    answered: &'static str,
    /// The children, and how many of them were launched.
    children: &'static [Child],
    launched: usize,
    /// The launches and the calls of the trust list that fail, by their numbers from 0.
    launches: &'static [u64],
    faults: &'static [u64],
}

const PLAIN: Row = Row {
    door: Door::Home,
    before: None,
    after: None,
    sent: "",
    answered: "",
    children: &[],
    launched: 0,
    launches: &[],
    faults: &[],
};

/// What a child with the number 9 is to ask, as it is written to it, what it gives behind that, and
/// what it is written then.
type Child = (&'static str, &'static str, &'static str);

/// What it gives before that.
const OPENING: &str = "OK\nD 9\nOK\nOK\nOK\n";

/// The prompts of MARKTRUSTED for a certificate of `Root CA`. The user agrees.
const TRUST: Child = ("Trust Root CA?", "OK\n", "CONFIRM\nBYE\n");

const RIGHT: Child = (
    "Is {A*40} the right fingerprint of Root CA?",
    "OK\n",
    "CONFIRM\nBYE\n",
);

/// The second one, to which the user doesn't agree.
const WRONG: Child = (
    "Is {A*40} the right fingerprint of Root CA?",
    "ERR 83886194\n",
    "CONFIRM\nBYE\n",
);

/// The same, of which the client takes no note.
const UNSEEN_TRUST: Child = ("Trust Root CA?", "", "BYE\n");

const UNSEEN_RIGHT: Child = ("Is {A*40} the right fingerprint of Root CA?", "", "BYE\n");

/// The prompt of GET_CONFIRMATION. The user agrees.
const OTHER: Child = ("Really send", "OK\n", "CONFIRM\nBYE\n");

const NOT_TRUSTED: &str = "ERR 67108962 Not trusted <GPG Agent>\n";

/// Of requests on the list alone.
const LISTS: [Row; 14] = [
    // There is no list; digits are of either case, and further words are skipped.
    Row {
        sent: "ISTRUSTED {A*40}\n",
        answered: NOT_TRUSTED,
        ..PLAIN
    },
    Row {
        before: Some("# mine\n{AA:*19}aa S\n"),
        after: Some("# mine\n{AA:*19}aa S\n"),
        sent: "istrusted {a*40} x\nISTRUSTED {B*40}\n",
        answered: "OK\nERR 67108962 Not trusted <GPG Agent>\n",
        ..PLAIN
    },
    Row {
        before: Some("!{A*40} S\n{A*40} S"),
        after: Some("!{A*40} S\n{A*40} S"),
        sent: "ISTRUSTED {A*40}\nMARKTRUSTED {A*40} S Root\n",
        answered: "ERR 67108962 Not trusted <GPG Agent>\nERR 67108962 Not trusted <GPG Agent>\n",
        ..PLAIN
    },
    // One that is trusted is so without a prompt.
    Row {
        before: Some("{A*40} *"),
        after: Some("{A*40} *"),
        sent: "MARKTRUSTED {A*40} P Root\n",
        answered: "OK\n",
        ..PLAIN
    },
    Row {
        sent: "ISTRUSTED\nISTRUSTED {A*39}\nISTRUSTED {G*40}\nMARKTRUSTED {A*40} S\nMARKTRUSTED {A*40} s Root\nMARKTRUSTED {A*40} S {n*901}\n",
        answered: "{ERR 67109144 IPC parameter error <GPG Agent>\n*6}",
        ..PLAIN
    },
    // A read that fails.
    Row {
        sent: "ISTRUSTED {A*40}\nISTRUSTED {A*40}\nMARKTRUSTED {A*40} S Root\nNOP\n",
        answered: "ERR 67108865 General error <GPG Agent>\nERR 67108962 Not trusted <GPG Agent>\nERR 67108865 General error <GPG Agent>\nOK\n",
        faults: &[0, 2],
        ..PLAIN
    },
    // In other modes there is no prompt.
    Row {
        sent: "OPTION pinentry-mode=cancel\nMARKTRUSTED {A*40} S Root\nOPTION pinentry-mode=error\nMARKTRUSTED {A*40} S Root\nOPTION pinentry-mode=loopback\nMARKTRUSTED {A*40} S Root\nNOP\n",
        answered: "OK\nERR 67108963 Operation cancelled <GPG Agent>\n{OK\nERR 67108950 No pinentry <GPG Agent>\n*2}OK\n",
        ..PLAIN
    },
    // The list comes first there too.
    Row {
        before: Some("{A*40} S\n!{B*40} S\n"),
        after: Some("{A*40} S\n!{B*40} S\n"),
        sent: "OPTION pinentry-mode=loopback\nMARKTRUSTED {A*40} P Root\nMARKTRUSTED {B*40} P Root\nMARKTRUSTED {B*40} * Root\n",
        answered: "OK\nOK\nERR 67108962 Not trusted <GPG Agent>\nERR 67109144 IPC parameter error <GPG Agent>\n",
        ..PLAIN
    },
    // What is forbidden at the outer door is so before its form is looked at, and leaves all as it
    // was.
    Row {
        door: Door::Outer,
        before: Some("{A*40} S\n"),
        after: Some("{A*40} S\n"),
        sent: "MARKTRUSTED\nISTRUSTED {A*40}\nOPTION pinentry-mode=ask\nOPTION pinentry-mode\nKEYINFO --list\nGETINFO pid\nGET_PASSPHRASE {a*51}\nGET_PASSPHRASE X\nFOO\n",
        answered: "ERR 67109115 Forbidden <GPG Agent>\nOK\n{ERR 67109115 Forbidden <GPG Agent>\n*5}ERR 67108922 No data <GPG Agent>\nERR 67109139 Unknown IPC command <GPG Agent>\n",
        ..PLAIN
    },
    Row {
        door: Door::Outer,
        sent: "OPTION --pinentry-mode = ask\nGETINFO\nGETINFO s2k_count\nGET_PASSPHRASE --no-ask id1\nGET_PASSPHRASE --repeat=17 X\nPRESET_PASSPHRASE id1 -1 61\nCLEAR_PASSPHRASE id1\nRELOADAGENT\nKILLAGENT\nkeyinfo --list {A*40}\nHAVEKEY --list\nHAVEKEY --list=1000\nHAVEKEY --list=0 {A*40}\nKEYWRAP_KEY --export\nIMPORT_KEY\nEXPORT_KEY {A*40}\nPASSWD {A*40}\nDELETE_KEY --force {A*40}\nMARKTRUSTED {A*40} S Root\n",
        answered: "{ERR 67109115 Forbidden <GPG Agent>\n*19}",
        ..PLAIN
    },
    // All else is answered as at home.
    Row {
        door: Door::Outer,
        sent: "NOP\nOPTION ttyname=/dev/pts/1\nOPTION foo=1\nOPTION\nGETINFO cmd_has_option KEYINFO list\nGETINFO cmd_has_option KEYINFO x\nHAVEKEY {A*40}\nHAVEKEY\nKEYINFO {A*40}\nISTRUSTED\nFOO\n",
        answered: "OK\nOK\nERR 67109038 Unknown option <GPG Agent>\nERR 67109144 IPC parameter error <GPG Agent>\nOK\nERR 67108924 Not supported <GPG Agent>\nERR 67108881 No secret key <GPG Agent>\nERR 67109144 IPC parameter error <GPG Agent>\nERR 67108881 No secret key <GPG Agent>\nERR 67109144 IPC parameter error <GPG Agent>\nERR 67109139 Unknown IPC command <GPG Agent>\n",
        ..PLAIN
    },
    // At a door HELP names two commands more.
    Row {
        door: Door::Outer,
        sent: "HELP\n",
        answered: "# NOP\n# RESET\n# BYE\n# HELP\n# OPTION\n# GETINFO\n# GET_PASSPHRASE\n# PRESET_PASSPHRASE\n# CLEAR_PASSPHRASE\n# GET_CONFIRMATION\n# RELOADAGENT\n# KILLAGENT\n# HAVEKEY\n# KEYINFO\n# KEYWRAP_KEY\n# IMPORT_KEY\n# EXPORT_KEY\n# PASSWD\n# DELETE_KEY\n# ISTRUSTED\n# MARKTRUSTED\nOK\n",
        ..PLAIN
    },
    // A restricted session may ask the user.
    Row {
        door: Door::Outer,
        sent: "GET_CONFIRMATION Really+send\nGETINFO version\nRESET\nBYE\n",
        answered: "OK\nD 2.4.0\nOK\nOK\nOK closing connection\n",
        children: &[OTHER],
        launched: 1,
        ..PLAIN
    },
    // Its prompt isn't told the terminal and the language of the other machine.
    Row {
        door: Door::Outer,
        sent: "OPTION ttyname=/home/a/.bashrc\noption --ttytype = dumb\nOPTION lc-ctype=C\nOPTION lc-messages=C\nOPTION ttyname={a*256}\nGET_CONFIRMATION Really+send\n",
        answered: "{OK\n*6}",
        children: &[OTHER],
        launched: 1,
        ..PLAIN
    },
];

/// Of MARKTRUSTED with its two prompts.
const MARKS: [Row; 18] = [
    // One that isn't trusted is so once the user has agreed twice.
    Row {
        after: Some("{A*40} S\n"),
        sent: "ISTRUSTED {A*40}\nMARKTRUSTED {A*40} S Root+CA\nISTRUSTED {A*40}\n",
        answered: "ERR 67108962 Not trusted <GPG Agent>\nOK\nOK\n",
        children: &[TRUST, RIGHT],
        launched: 2,
        ..PLAIN
    },
    // The second consent is refused: there is no list, and the seat is free for the next prompt.
    Row {
        sent: "MARKTRUSTED {A*40} S Root+CA\nISTRUSTED {A*40}\nGET_CONFIRMATION Really+send\n",
        answered: "ERR 83886194 Not confirmed <Pinentry>\nERR 67108962 Not trusted <GPG Agent>\nOK\n",
        children: &[TRUST, WRONG, OTHER],
        launched: 3,
        ..PLAIN
    },
    // And then it is given.
    Row {
        after: Some("{A*40} S\n"),
        sent: "ISTRUSTED {A*40}\nMARKTRUSTED {A*40} S Root+CA\nISTRUSTED {A*40}\nMARKTRUSTED {A*40} S Root+CA\nISTRUSTED {A*40}\n",
        answered: "ERR 67108962 Not trusted <GPG Agent>\nERR 83886194 Not confirmed <Pinentry>\nERR 67108962 Not trusted <GPG Agent>\nOK\nOK\n",
        children: &[TRUST, WRONG, TRUST, RIGHT],
        launched: 4,
        ..PLAIN
    },
    // The first one is: the second child isn't started.
    Row {
        sent: "MARKTRUSTED {A*40} S Root+CA\n",
        answered: "ERR 83886179 Operation cancelled <Pinentry>\n",
        children: &[
            (
                "Trust Root CA?",
                "ERR 83886179 cancelled\n",
                "CONFIRM\nBYE\n",
            ),
            RIGHT,
        ],
        launched: 1,
        ..PLAIN
    },
    Row {
        sent: "MARKTRUSTED {A*40} S Root+CA\nMARKTRUSTED {A*40} S Root+CA\nISTRUSTED {A*40}\n",
        answered: "ERR 83886194 Not confirmed <Pinentry>\nERR 83886142 Timeout <Pinentry>\nERR 67108962 Not trusted <GPG Agent>\n",
        children: &[
            ("Trust Root CA?", "ERR 114\n", "CONFIRM\nBYE\n"),
            ("Trust Root CA?", "ERR 62\n", "CONFIRM\nBYE\n"),
            RIGHT,
        ],
        launched: 2,
        ..PLAIN
    },
    // A child breaks its prompt.
    Row {
        sent: "MARKTRUSTED {A*40} S Root+CA\nMARKTRUSTED {A*40} S Root+CA\nISTRUSTED {A*40}\n",
        answered: "ERR 67108950 No pinentry <GPG Agent>\nERR 67108950 No pinentry <GPG Agent>\nERR 67108962 Not trusted <GPG Agent>\n",
        children: &[
            ("Trust Root CA?", "", "CONFIRM\n"),
            TRUST,
            (
                "Is {A*40} the right fingerprint of Root CA?",
                "D x\nOK\n",
                "CONFIRM\n",
            ),
        ],
        launched: 3,
        ..PLAIN
    },
    // The first child can't be launched, and then the second: nobody is trusted. The next time both
    // can be.
    Row {
        before: Some("# mine\n"),
        after: Some("# mine\n{A*40} S\n"),
        sent: "MARKTRUSTED {A*40} S Root+CA\nISTRUSTED {A*40}\nMARKTRUSTED {A*40} S Root+CA\nISTRUSTED {A*40}\nMARKTRUSTED {A*40} S Root+CA\nISTRUSTED {A*40}\n",
        answered: "{ERR 67108950 No pinentry <GPG Agent>\nERR 67108962 Not trusted <GPG Agent>\n*2}OK\nOK\n",
        children: &[TRUST, TRUST, RIGHT],
        launched: 3,
        launches: &[0, 2],
        ..PLAIN
    },
    Row {
        before: Some("# mine"),
        after: Some("# mine"),
        sent: "MARKTRUSTED {A*40} S Root+CA\nGET_CONFIRMATION Really+send\n",
        answered: "ERR 67108950 No pinentry <GPG Agent>\nOK\n",
        children: &[TRUST, OTHER],
        launched: 2,
        launches: &[1],
        ..PLAIN
    },
    // The client is told of each prompt, and its answer decides.
    Row {
        after: Some("{A*40} S\n"),
        sent: "OPTION allow-pinentry-notify\nMARKTRUSTED {A*40} S Root+CA\nNOP\nISTRUSTED {A*40}\nMARKTRUSTED {A*40} S Root+CA\nEND\nCAN\nISTRUSTED {A*40}\nMARKTRUSTED {A*40} S Root+CA\nD seen\nEND\n\n# x\nend now\nISTRUSTED {A*40}\n",
        answered: "OK\nINQUIRE PINENTRY_LAUNCHED 9\nERR 67109138 Unexpected IPC command <GPG Agent>\nERR 67108962 Not trusted <GPG Agent>\n{INQUIRE PINENTRY_LAUNCHED 9\n*2}ERR 67108963 Operation cancelled <GPG Agent>\nERR 67108962 Not trusted <GPG Agent>\n{INQUIRE PINENTRY_LAUNCHED 9\n*2}OK\nOK\n",
        children: &[UNSEEN_TRUST, TRUST, UNSEEN_RIGHT, TRUST, RIGHT],
        launched: 5,
        ..PLAIN
    },
    // Its input ends there.
    Row {
        sent: "OPTION allow-pinentry-notify\nMARKTRUSTED {A*40} S Root+CA\n",
        answered: "OK\nINQUIRE PINENTRY_LAUNCHED 9\n",
        children: &[UNSEEN_TRUST, RIGHT],
        launched: 1,
        ..PLAIN
    },
    Row {
        sent: "OPTION allow-pinentry-notify\nMARKTRUSTED {A*40} S Root+CA\nEND\nEND",
        answered: "OK\n{INQUIRE PINENTRY_LAUNCHED 9\n*2}",
        children: &[TRUST, UNSEEN_RIGHT],
        launched: 2,
        ..PLAIN
    },
    // A line feed is put behind a last line that lacks one; the longest name.
    Row {
        before: Some("# x\r\n!{B*40} *"),
        after: Some("# x\r\n!{B*40} *\n{A*40} P\n"),
        sent: "MARKTRUSTED {a*40} P {n*900} more\n",
        answered: "OK\n",
        children: &[
            ("Trust {n*900}?", "OK\n", "CONFIRM\nBYE\n"),
            (
                "Is {A*40} the right fingerprint of {n*900}?",
                "OK\n",
                "CONFIRM\nBYE\n",
            ),
        ],
        launched: 2,
        ..PLAIN
    },
    // The escapes of a name are read. What doesn't fit in the line to a child is cut behind a whole
    // escape.
    Row {
        after: Some("{A*40} S\n"),
        sent: "MARKTRUSTED {A*40} S Root%2BCA+%25%0a\n",
        answered: "OK\n",
        children: &[
            ("Trust Root+CA %25%0A?", "OK\n", "CONFIRM\nBYE\n"),
            (
                "Is {A*40} the right fingerprint of Root+CA %25%0A?",
                "OK\n",
                "CONFIRM\nBYE\n",
            ),
        ],
        launched: 2,
        ..PLAIN
    },
    Row {
        after: Some("{A*40} S\n"),
        sent: "MARKTRUSTED {A*40} S {é*450}\n",
        answered: "OK\n",
        children: &[
            ("Trust {%C3%A9*164}", "OK\n", "CONFIRM\nBYE\n"),
            (
                "Is {A*40} the right fingerprint of {%C3%A9*153}%C3",
                "OK\n",
                "CONFIRM\nBYE\n",
            ),
        ],
        launched: 2,
        ..PLAIN
    },
    // The file can't be written, and can the next time.
    Row {
        after: Some("{A*40} S\n"),
        sent: "MARKTRUSTED {A*40} S Root+CA\nMARKTRUSTED {A*40} S Root+CA\n",
        answered: "ERR 67108865 General error <GPG Agent>\nOK\n",
        children: &[TRUST, RIGHT, TRUST, RIGHT],
        launched: 4,
        faults: &[2],
        ..PLAIN
    },
    // It can't be read again under the ticket.
    Row {
        sent: "MARKTRUSTED {A*40} S Root+CA\nNOP\n",
        answered: "ERR 67108865 General error <GPG Agent>\nOK\n",
        children: &[TRUST, RIGHT],
        launched: 2,
        faults: &[1],
        ..PLAIN
    },
    // A list of 65,536 bytes has no place for an entry; one of 65,492 that lacks its last line feed
    // has.
    Row {
        before: Some("{# a comment\n*5461}#23\n"),
        after: Some("{# a comment\n*5461}#23\n"),
        sent: "MARKTRUSTED {A*40} S Root+CA\n",
        answered: "ERR 67109137 Too much data for IPC layer <GPG Agent>\n",
        children: &[TRUST, RIGHT],
        launched: 2,
        ..PLAIN
    },
    Row {
        before: Some("{# a comment\n*5457}# a comm"),
        after: Some("{# a comment\n*5457}# a comm\n{A*40} S\n"),
        sent: "MARKTRUSTED {A*40} S Root+CA\n",
        answered: "OK\n",
        children: &[TRUST, RIGHT],
        launched: 2,
        ..PLAIN
    },
];

/// The manual's lifetimes.
const LIMITS: Limits = Limits {
    ttl: 600,
    max: 7200,
    ttl_ssh: 1800,
    max_ssh: 7200,
};

const ALICE: SessionId = SessionId { pass: 0, count: 0 };

fn children_of(alloc: Global, row: &Row) -> Result<Vec<PlannedChild>, AllocError> {
    let mut children = Vec::new(alloc);
    for (_, gives, _) in row.children.iter() {
        children.push(PlannedChild {
            gives: format!(in alloc; "{OPENING}{gives}")?.into_bytes(),
            piece: 5,
            failing_reads: Vec::new(alloc),
            failing_writes: Vec::new(alloc),
        })?;
    }
    Ok(children)
}

fn list_of(alloc: Global, text: Option<&'static str>) -> Result<Option<Vec<u8>>, AllocError> {
    match text {
        Some(text) => Ok(Some(text_of(alloc, text)?.into_bytes())),
        None => Ok(None),
    }
}

/// How many children were launched, and what those were written that have ended.
fn told(alloc: Global, launcher: &MemLauncher) -> Result<String, AllocError> {
    let launched = (0..8)
        .filter(|place| launcher.launched(*place).is_some())
        .count();
    let mut all = format!(in alloc; "{launched} launched\n")?;
    for back in (0..8usize).rev() {
        let written = launcher.written(back).unwrap_or(b"");
        all.push_str(&String::from_utf8_lossy(alloc, written)?)?;
    }
    Ok(all)
}

/// What is to be told.
fn wanted_told(alloc: Global, row: &Row) -> Result<String, AllocError> {
    let mut all = format!(in alloc; "{} launched\n", row.launched)?;
    for (question, _, behind) in row.children.iter().take(row.launched) {
        all.push_str("GETINFO pid\nSETKEYINFO --clear\nSETDESC ")?;
        all.push_str(&text_of(alloc, question)?)?;
        all.push('\n')?;
        all.push_str(behind)?;
    }
    Ok(all)
}

/// What comes of a row: what is written, the children, and the list.
fn outcome(alloc: Global, row: &Row) -> Result<String, Fail> {
    let launches = Vec::from_slice(alloc, row.launches)?;
    let mut launcher = MemLauncher::new(alloc, children_of(alloc, row)?, launches);
    let sent = text_of(alloc, row.sent)?.into_bytes();
    let source = MemSource::new(sent, 7, Vec::new(alloc));
    let mut link = MemLink::new(source, MemSink::new(alloc, 0, Vec::new(alloc)));
    let mut keys = MapKeys::new(alloc, Vec::new(alloc));
    let mut dice = ListDice::new(Vec::new(alloc), Vec::new(alloc));
    let mut trust = MemTrust::new(
        list_of(alloc, row.before)?,
        Vec::from_slice(alloc, row.faults)?,
    );
    let rules = Rules::default();
    let mut clock = ListClock::new(Vec::new(alloc));
    let mut desk = Solo::new(alloc, LIMITS, &mut clock, ALICE, Vec::new(alloc))?;
    let mut pinentry = Pinentry::new(alloc, &mut launcher, Word::new());
    serve_door(
        alloc,
        row.door,
        &rules,
        &mut link,
        &mut desk,
        &mut pinentry,
        &mut keys,
        &mut dice,
        &mut trust,
    );
    desk.end();
    let _ = pinentry.into_launcher();
    let children = told(alloc, &launcher)?;
    let written = String::from_utf8_lossy(alloc, link.written())?;
    let list = match trust.file() {
        Some(bytes) => String::from_utf8_lossy(alloc, bytes)?,
        None => String::from_str(alloc, "no list")?,
    };
    Ok(format!(in alloc; "{written}{children}{list}")?)
}

/// What is to come of it.
fn wanted(alloc: Global, row: &Row) -> Result<String, AllocError> {
    let answered = text_of(alloc, row.answered)?;
    let list = match row.after {
        Some(text) => text_of(alloc, text)?,
        None => String::from_str(alloc, "no list")?,
    };
    let children = wanted_told(alloc, row)?;
    format!(in alloc; "OK Pleased to meet you\n{answered}{children}{list}")
}

#[test]
fn the_list_is_asked(rt: HostRuntime) -> Result<(), Fail> {
    for row in LISTS {
        assert_eq!(rt; outcome(rt.alloc(), &row)?, wanted(rt.alloc(), &row)?);
    }
    Ok(())
}

#[test]
fn certificates_are_marked_by_two_consents(rt: HostRuntime) -> Result<(), Fail> {
    for row in MARKS {
        assert_eq!(rt; outcome(rt.alloc(), &row)?, wanted(rt.alloc(), &row)?);
    }
    Ok(())
}
