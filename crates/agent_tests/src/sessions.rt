//! Sessions and runs of the agent go as their rows say: requests and their answers, and the words
//! of a run, its status and what it launched. All is in memory. Begin with `ANSWERS` and
//! `SESSIONS`, and with `WORDS` for whole runs.

use crate::dialogues::DIALOGUES;
use crate::key_files::WITH_A_KEY;
use crate::prompts::{CONSENT, PIN, PROMPTS};
use crate::rows::{
    PLAIN, Row, children_text, client, first_wrong, keys_of, machine, planned, rules_of, wrong,
};
use agent_ports::{Got, Link, MemHost, NoGate, Sent, Sink, Source};
use agent_top::{Status, run_agent, run_server};
use std::alloc::{AllocError, Global};
use std::rt;
use std::sync::Wait;
use std::test::Fail;
use std::thread::Threads;

const NO_DATA: &str = "ERR 67108922 No data <GPG Agent>\n";

const TOO_LONG: &str = "ERR 67109127 Line passed to IPC too long <GPG Agent>\n";

/// What is sent, and what is answered. Presets are allowed.
const ANSWERS: [(&str, &str); 48] = [
    (
        "PRESET_PASSPHRASE id1 -1 736563726574\nGET_PASSPHRASE --no-ask --data id1\nBYE\nNOP\n",
        "OK\nD secret\nOK\nOK closing connection\n",
    ),
    ("GET_PASSPHRASE --no-ask id1\n", NO_DATA),
    ("get_passphrase --data id1\n", NO_DATA),
    ("GET_PASSPHRASE X\n", NO_DATA),
    (
        "PRESET_PASSPHRASE X -1 61\nGET_PASSPHRASE --no-ask X\n",
        "OK\nERR 67108922 No data <GPG Agent>\n",
    ),
    (
        "PRESET_PASSPHRASE id1 -1 25\nGET_PASSPHRASE --no-ask --data id1\n",
        "OK\nD %25\nOK\n",
    ),
    (
        "PRESET_PASSPHRASE id1 -1 c3A9\nGET_PASSPHRASE --no-ask --data id1\nGET_PASSPHRASE id1\n",
        "OK\nD %C3%A9\nOK\nOK C3A9\n",
    ),
    (
        "OPTION --ttyname = /dev/pts/1\nOPTION s2k-count=65535\ngetinfo version\n",
        "OK\nERR 67109144 IPC parameter error <GPG Agent>\nD 2.4.0\nOK\n",
    ),
    (
        "OPTION foo=1\nOPTION pinentry-mode=loopback\nRESET\n",
        "ERR 67109038 Unknown option <GPG Agent>\nERR 67108924 Not supported <GPG Agent>\nOK\n",
    ),
    ("FOO\n", "ERR 67109139 Unknown IPC command <GPG Agent>\n"),
    (
        "PRESET_PASSPHRASE id1 -1 61\nCLEAR_PASSPHRASE id1\nGET_PASSPHRASE --no-ask id1\nCLEAR_PASSPHRASE id1\n",
        "OK\nOK\nERR 67108922 No data <GPG Agent>\nOK\n",
    ),
    (
        "PRESET_PASSPHRASE id1 0 61\nCLEAR_PASSPHRASE id2\nGET_PASSPHRASE --no-ask id1\n",
        "OK\nOK\nOK 61\n",
    ),
    (
        "CLEAR_PASSPHRASE --mode=x id1\nCLEAR_PASSPHRASE --mode= id1\nCLEAR_PASSPHRASE\n",
        "ERR 67109144 IPC parameter error <GPG Agent>\nERR 67109144 IPC parameter error <GPG Agent>\nERR 67109144 IPC parameter error <GPG Agent>\n",
    ),
    (
        "PRESET_PASSPHRASE id1 -1 61\nPRESET_PASSPHRASE id2 60 62\nRELOADAGENT\nGET_PASSPHRASE id1\nGET_PASSPHRASE id2\n",
        "OK\nOK\nOK\nERR 67108922 No data <GPG Agent>\nERR 67108922 No data <GPG Agent>\n",
    ),
    (
        "GETINFO pid\nGETINFO s2k_count\n",
        "D 0\nOK\nD 4194304\nOK\n",
    ),
    (
        "OPTION s2k-count=65536\nGETINFO s2k_count\n",
        "OK\nD 4194304\nOK\n",
    ),
    ("GETINFO cmd_has_option GET_PASSPHRASE repeat\n", "OK\n"),
    ("GETINFO cmd_has_option CLEAR_PASSPHRASE mode\n", "OK\n"),
    (
        "GETINFO cmd_has_option KEYINFO list\nGETINFO cmd_has_option PASSWD passwd-nonce\nGETINFO cmd_has_option DELETE_KEY stub-only\n",
        "OK\nOK\nERR 67108924 Not supported <GPG Agent>\n",
    ),
    (
        "GETINFO cmd_has_option GET_PASSPHRASE\n",
        "ERR 67109144 IPC parameter error <GPG Agent>\n",
    ),
    (
        // No child can be launched.
        "GET_PASSPHRASE --data id1 X X X\nGET_CONFIRMATION X\n",
        "ERR 67108950 No pinentry <GPG Agent>\nERR 67108950 No pinentry <GPG Agent>\n",
    ),
    (
        "GET_PASSPHRASE --data id1 X X\n",
        "ERR 67109144 IPC parameter error <GPG Agent>\n",
    ),
    (
        "PRESET_PASSPHRASE --inquire id1 60\nD a\nEND\nGET_PASSPHRASE id1\n",
        "S INQUIRE_MAXLEN 255\nINQUIRE PASSPHRASE\nOK\nOK 61\n",
    ),
    (
        "PRESET_PASSPHRASE id1 0 6\n",
        "ERR 67109144 IPC parameter error <GPG Agent>\n",
    ),
    ("", ""),
    ("NOP", ""),
    ("NOP\r\n", "OK\n"),
    ("\n \t\n# x\n  # y\n  nop x\n", "OK\n"),
    ("BYE x\nFOO\n", "OK closing connection\n"),
    (
        "PRESET_PASSPHRASE a -1 31\nPRESET_PASSPHRASE a -1 32\nGET_PASSPHRASE --no-ask --data a\n",
        "OK\nOK\nD 2\nOK\n",
    ),
    // The client is asked for a preset.
    (
        "PRESET_PASSPHRASE --inquire id1 -1\nD se\nD cret\nEND\nGET_PASSPHRASE --no-ask --data id1\n",
        "S INQUIRE_MAXLEN 255\nINQUIRE PASSPHRASE\nOK\nD secret\nOK\n",
    ),
    (
        "PRESET_PASSPHRASE --inquire id1 -1\nD a%0ab\n\n# x\nd\nend now\nGET_PASSPHRASE id1\n",
        "S INQUIRE_MAXLEN 255\nINQUIRE PASSPHRASE\nOK\nOK 610A62\n",
    ),
    (
        "PRESET_PASSPHRASE --inquire id1 -1\nEND\nGET_PASSPHRASE --data id1\n",
        "S INQUIRE_MAXLEN 255\nINQUIRE PASSPHRASE\nOK\nOK\n",
    ),
    (
        "PRESET_PASSPHRASE --inquire id1 -1\nD se\nCAN\nGET_PASSPHRASE id1\n",
        "S INQUIRE_MAXLEN 255\nINQUIRE PASSPHRASE\nERR 67108963 Operation cancelled <GPG Agent>\nERR 67108922 No data <GPG Agent>\n",
    ),
    (
        "PRESET_PASSPHRASE --inquire id1 -1\nD se\n",
        "S INQUIRE_MAXLEN 255\nINQUIRE PASSPHRASE\n",
    ),
    (
        "PRESET_PASSPHRASE --inquire id1 -1\nD se\nEND",
        "S INQUIRE_MAXLEN 255\nINQUIRE PASSPHRASE\n",
    ),
    (
        "PRESET_PASSPHRASE --inquire id1 -1\n",
        "S INQUIRE_MAXLEN 255\nINQUIRE PASSPHRASE\n",
    ),
    // No line of an inquiry is run.
    (
        "PRESET_PASSPHRASE --inquire id1 -1\nD se\nNOP\nGET_PASSPHRASE id1\n",
        "S INQUIRE_MAXLEN 255\nINQUIRE PASSPHRASE\nERR 67109138 Unexpected IPC command <GPG Agent>\nERR 67108922 No data <GPG Agent>\n",
    ),
    (
        "PRESET_PASSPHRASE --inquire id1 -1\nBYE\nGET_PASSPHRASE id1\n",
        "S INQUIRE_MAXLEN 255\nINQUIRE PASSPHRASE\nERR 67109138 Unexpected IPC command <GPG Agent>\nERR 67108922 No data <GPG Agent>\n",
    ),
    // A passphrase has up to 255 bytes.
    (
        "PRESET_PASSPHRASE --inquire id1 -1\nD {a*255}\nEND\n",
        "S INQUIRE_MAXLEN 255\nINQUIRE PASSPHRASE\nOK\n",
    ),
    (
        "PRESET_PASSPHRASE --inquire id1 -1\nD {a*256}\nEND\nNOP\n",
        "S INQUIRE_MAXLEN 255\nINQUIRE PASSPHRASE\nERR 67109137 Too much data for IPC layer <GPG Agent>\nOK\n",
    ),
    (
        "PRESET_PASSPHRASE id1 -1 {61*255}\nGET_PASSPHRASE --no-ask id1\n",
        "OK\nOK {61*255}\n",
    ),
    // A cache id has up to 50 bytes.
    ("GET_PASSPHRASE --no-ask {a*50}\n", NO_DATA),
    (
        "GET_PASSPHRASE --no-ask {a*51}\n",
        "ERR 67109144 IPC parameter error <GPG Agent>\n",
    ),
    ("CLEAR_PASSPHRASE {a*50}\n", "OK\n"),
    (
        "CLEAR_PASSPHRASE {a*51}\n",
        "ERR 67109144 IPC parameter error <GPG Agent>\n",
    ),
    // A line has up to 1,000 bytes.
    ("NOP{ *997}\nNOP\n", "OK\nOK\n"),
    ("NOP{ *997}\r\n", "OK\n"),
];

/// Sessions with other rules, clocks and faults.
const SESSIONS: &[Row] = &[
    // A line that is too long ends a session.
    Row {
        sent: "NOP{ *998}\nNOP\n",
        answered: TOO_LONG,
        status: 7,
        ..PLAIN
    },
    Row {
        sent: "NOP{ *999}",
        answered: TOO_LONG,
        status: 7,
        ..PLAIN
    },
    Row {
        sent: "PRESET_PASSPHRASE --inquire id1 -1\nD {a*999}\nEND\n",
        answered: "S INQUIRE_MAXLEN 255\nINQUIRE PASSPHRASE\nERR 67109127 Line passed to IPC too long <GPG Agent>\n",
        status: 7,
        ..PLAIN
    },
    // The version is the rules' own.
    Row {
        sent: "GETINFO version\n",
        answered: "D 2.2.40\nOK\n",
        version: b"2.2.40",
        ..PLAIN
    },
    // A preset needs the word that allows it.
    Row {
        sent: "PRESET_PASSPHRASE id1 -1 61\nPRESET_PASSPHRASE --inquire id1 -1\nGET_PASSPHRASE --no-ask id1\n",
        answered: "ERR 67108924 Not supported <GPG Agent>\nERR 67108924 Not supported <GPG Agent>\nERR 67108922 No data <GPG Agent>\n",
        allow_preset: false,
        ..PLAIN
    },
    // A passphrase is given up to its lifetimes.
    Row {
        sent: "PRESET_PASSPHRASE a -1 7E20\n{GET_PASSPHRASE --no-ask --data a\n*2}",
        answered: "OK\n{D ~ \nOK\n*1}ERR 67108922 No data <GPG Agent>\n",
        readings: &[0, 7200, 7201],
        ..PLAIN
    },
    Row {
        sent: "PRESET_PASSPHRASE a 0 7E20\n{GET_PASSPHRASE --no-ask --data a\n*3}",
        answered: "OK\n{D ~ \nOK\n*2}ERR 67108922 No data <GPG Agent>\n",
        readings: &[0, 600, 1200, 1801],
        ..PLAIN
    },
    Row {
        sent: "PRESET_PASSPHRASE a 0 7E20\n{GET_PASSPHRASE --no-ask --data a\n*16}",
        answered: "OK\n{D ~ \nOK\n*15}ERR 67108922 No data <GPG Agent>\n",
        readings: &[
            0, 500, 1000, 1500, 2000, 2500, 3000, 3500, 4000, 4500, 5000, 5500, 6000, 6500, 7000,
            7200, 7201,
        ],
        ..PLAIN
    },
    Row {
        sent: "PRESET_PASSPHRASE a 10 7E20\n{GET_PASSPHRASE --no-ask --data a\n*3}",
        answered: "OK\n{D ~ \nOK\n*2}ERR 67108922 No data <GPG Agent>\n",
        readings: &[0, 10, 20, 31],
        ..PLAIN
    },
    Row {
        sent: "PRESET_PASSPHRASE a 0 7E20\nGET_PASSPHRASE --no-ask --data a\n",
        answered: "OK\nERR 67108922 No data <GPG Agent>\n",
        readings: &[0, 601],
        ..PLAIN
    },
    // The preset and 131,071 requests fill the history, behind which the cache begins empty again.
    Row {
        sent: "PRESET_PASSPHRASE a -1 31\n{GET_PASSPHRASE a\n*131072}",
        answered: "OK\n{OK 31\n*131071}ERR 67108922 No data <GPG Agent>\n",
        pieces: &[4096],
        ..PLAIN
    },
    // The line that came before the read that fails is answered.
    Row {
        sent: "NOP\nNO",
        answered: "OK\n",
        status: 3,
        reads: &[6],
        pieces: &[1],
        ..PLAIN
    },
    Row {
        sent: "NOP\nNO",
        answered: "OK\n",
        status: 3,
        reads: &[1],
        pieces: &[7, 4096],
        ..PLAIN
    },
    Row {
        sent: "NOP\nNO",
        answered: "OK",
        status: 4,
        writes: &[1],
        pieces: &[4096],
        ..PLAIN
    },
    Row {
        sent: "NOP\nNO",
        greeting: "OK",
        status: 4,
        writes: &[0],
        pieces: &[4096],
        ..PLAIN
    },
    // The seat is free behind a launch that failed. Nothing is cached by it, and what was cached
    // stays.
    Row {
        sent: "PRESET_PASSPHRASE id2 -1 61\nGET_PASSPHRASE --data id1 X X X\nGET_PASSPHRASE --no-ask id1\nGET_PASSPHRASE id2\nGET_PASSPHRASE --data id1 X X X\n",
        answered: "OK\nERR 67108950 No pinentry <GPG Agent>\nERR 67108922 No data <GPG Agent>\nOK 61\nD pin\nOK\n",
        children: &[(PIN, "D pin\nOK\n", "GETPIN\nBYE\n")],
        launches: &[0],
        ..PLAIN
    },
    // The client isn't told of it.
    Row {
        sent: "OPTION allow-pinentry-notify\nGET_CONFIRMATION Really+send\nGET_PASSPHRASE --check --repeat X X X X\nGET_CONFIRMATION Really+send\nEND\nGET_CONFIRMATION Really+send\nNOP\n",
        answered: "OK\n{ERR 67108950 No pinentry <GPG Agent>\n*2}INQUIRE PINENTRY_LAUNCHED 9\nOK\nERR 67108950 No pinentry <GPG Agent>\nOK\n",
        children: &[(CONSENT, "OK\n", "CONFIRM\nBYE\n")],
        launches: &[0, 1],
        ..PLAIN
    },
    // A line of a child that is too long.
    Row {
        sent: "GET_PASSPHRASE id1 X X X\n",
        answered: "ERR 67108950 No pinentry <GPG Agent>\n",
        children: &[(PIN, "D {a*999}\nOK\n", "GETPIN\n")],
        ..PLAIN
    },
];

#[test]
fn sessions_go_as_their_rows_say(rt: HostRuntime) -> Result<(), Fail> {
    assert_eq!(rt; first_wrong(&rt, rt.alloc(), SESSIONS)?, None);
    Ok(())
}

#[test]
fn requests_are_answered_as_in_the_protocol(rt: HostRuntime) -> Result<(), Fail> {
    for (answers, plain) in [
        (ANSWERS.as_slice(), PLAIN),
        (DIALOGUES.as_slice(), WITH_A_KEY),
    ] {
        for (sent, answered) in answers {
            let row = Row {
                sent,
                answered,
                ..plain
            };
            assert_eq!(rt; wrong(&rt, rt.alloc(), &row)?, None);
        }
    }
    Ok(())
}

#[test]
fn prompts_go_as_their_rows_say(rt: HostRuntime) -> Result<(), Fail> {
    for (sent, answered, children) in PROMPTS {
        let row = Row {
            sent,
            answered,
            children,
            allow_preset: false,
            allow_loopback: true,
            ..PLAIN
        };
        assert_eq!(rt; wrong(&rt, rt.alloc(), &row)?, None);
    }
    Ok(())
}

const PRESETS: &str =
    "GETINFO pid\nPRESET_PASSPHRASE id1 -1 736563726574\nGET_PASSPHRASE --no-ask --data id1\nBYE\nNOP\n";

/// The words, what the client sends, the status, and a part of what it is answered, with the
/// programs that were launched.
const WORDS: [(&[&str], &str, u8, &str); 11] = [
    (
        &["--server", "--allow-preset-passphrase"],
        PRESETS,
        0,
        "D secret\n",
    ),
    (
        &["--allow-preset-passphrase", "--server"],
        PRESETS,
        0,
        "D secret\n",
    ),
    (&["--server"], PRESETS, 0, "Not supported"),
    (&["--server"], PRESETS, 0, "D 17\n"),
    (&["--server", "--server"], PRESETS, 2, ""),
    (&["--load=4294967296"], PRESETS, 2, ""),
    (&["--load", "4294967296"], PRESETS, 2, ""),
    (&["--server", "--homedir="], PRESETS, 2, ""),
    (
        &["--server"],
        "GET_PASSPHRASE id1 X X X\n",
        0,
        "OK 61\n\n/usr/bin/pinentry ",
    ),
    (
        &["--server", "--pinentry-program=/opt/a b"],
        "GET_PASSPHRASE id1 X X X\n",
        0,
        "OK 61\n\n/opt/a b ",
    ),
    (
        &["--server", "--pinentry-program", "/opt/a b"],
        "GET_PASSPHRASE id1 X X X\n",
        0,
        "OK 61\n\n/opt/a b ",
    ),
];

/// The words, and the folder at which they have the host settled. (Of a load `daemon_tests`.)
const FOLDERS: [(&[&str], &str); 4] = [
    (&["--server"], "."),
    (&["--server", "--homedir", "/h"], "/h"),
    (&["--homedir=a b", "--server"], "a b"),
    (&["--server", "--homedir="], ""),
];

/// A session whose pinentry gives a passphrase.
const PROMPTED: Row = Row {
    children: &[(PIN, "D a\nOK\n", "")],
    ..PLAIN
};

/// What came of a run of the agent: its status, what was written and launched, and where the host
/// was settled.
#[derive(Drop)]
struct Run {
    status: u8,
    written: String,
    homedir: String,
}

/// The status of the agent with these words, and what is written and launched.
fn with_words<W: Threads + Wait + rt::Clock + Sync>(
    rt: &W,
    alloc: Global,
    words: &[&'static str],
    sent: &'static str,
) -> Result<(u8, String), AllocError> {
    let Run {
        status,
        written,
        homedir: _,
    } = run_words(rt, alloc, words, sent)?;
    Ok((status, written))
}

fn run_words<W: Threads + Wait + rt::Clock + Sync>(
    rt: &W,
    alloc: Global,
    words: &[&'static str],
    sent: &'static str,
) -> Result<Run, AllocError> {
    let mut given = Vec::new(alloc);
    for word in words.iter() {
        given.push(String::from_str(alloc, word)?)?;
    }
    let row = Row { sent, ..PROMPTED };
    let mut stdio = client(alloc, &row, 64)?;
    let keys = keys_of(alloc, &row)?;
    let mut host = machine(rt, alloc, planned(alloc, &row, 64)?, keys, &row)?;
    let status = run_agent(rt, alloc, &given, &mut stdio, &mut host);
    let homedir = String::from_utf8_lossy(alloc, host.homedir())?;
    let mut written = String::from_utf8_lossy(alloc, stdio.written())?;
    written.push_str(&launched(alloc, host)?)?;
    Ok(Run {
        status,
        written,
        homedir,
    })
}

/// What was launched by a host that may have no parts.
fn launched<W: Wait>(alloc: Global, host: MemHost<'_, W, NoGate>) -> Result<String, AllocError> {
    match host.into_parts() {
        Some(parts) => children_text(alloc, &parts.launcher),
        None => Ok(String::new(alloc)),
    }
}

#[test]
fn the_words_decide(rt: HostRuntime) -> Result<(), Fail> {
    for (words, sent, status, part) in WORDS {
        let (got, written) = with_words(&rt, rt.alloc(), words, sent)?;
        assert_eq!(rt; got, status, "{part}");
        // Status 2 comes where nothing was written.
        assert_eq!(rt; written.is_empty(), status == 2, "{part}");
        assert!(rt; written.contains(part), "{written}");
    }
    Ok(())
}

#[test]
fn the_host_is_settled_at_the_folder_of_the_words(rt: HostRuntime) -> Result<(), Fail> {
    for (words, folder) in FOLDERS {
        let got = run_words(&rt, rt.alloc(), words, "BYE\n")?;
        assert_eq!(rt; got.homedir.as_str(), folder);
    }
    Ok(())
}

/// A link that gives each byte only once so many were written, and else fails: a client that waits
/// for its answers.
#[derive(Drop)]
struct WaitingLink {
    /// Each byte, behind how many must have been written before it.
    input: Vec<(usize, u8)>,
    next: usize,
    written: Vec<u8>,
    read_faults: u64,
    write_faults: u64,
}

impl Source for WaitingLink {
    ghost use Rattle.std.specs.Prelude.{None};

    ghost input = { λ link. record { bytes = None; faults = link.read_faults } };

    ghost beside_input = { λ link. record { bytes = None; faults = link.write_faults } };

    fn read(&mut self, buf: &mut [u8]) -> Got {
        match self.input.get(self.next) {
            None => Got::End,
            Some((needed, byte)) if *needed <= self.written.len() => {
                buf[0] = *byte;
                self.next += 1;
                Got::Bytes(1)
            }
            Some(_) => {
                self.read_faults = self.read_faults.saturating_add(1);
                Got::Failed
            }
        }
    }
}

impl Sink for WaitingLink {
    ghost use Rattle.std.specs.Prelude.{None};

    ghost output = { λ link. record { bytes = None; faults = link.write_faults } };

    ghost beside_output = { λ link. record { bytes = None; faults = link.read_faults } };

    fn put(&mut self, bytes: &[u8]) -> Sent {
        match self.written.extend_from_slice(bytes) {
            Ok(()) => Sent::All,
            Err(_) => {
                self.write_faults = self.write_faults.saturating_add(1);
                Sent::Failed { sent: 0 }
            }
        }
    }
}

impl Link for WaitingLink {
    ghost use Rattle.std.specs.Prelude.{refl};

    ghost output_beside = { λ link. refl };

    ghost input_beside = { λ link. refl };
}

/// What a client sends, line by line, and what it waits for behind each.
const TURNS: [(&str, &str); 4] = [
    ("", "OK Pleased to meet you\n"),
    (
        "PRESET_PASSPHRASE --inquire id1 -1\n",
        "S INQUIRE_MAXLEN 255\nINQUIRE PASSPHRASE\n",
    ),
    ("D secret\nEND\n", "OK\n"),
    ("GET_PASSPHRASE --data id1\n", "D secret\nOK\n"),
];

#[test]
fn each_answer_is_written_before_more_is_read(rt: HostRuntime) -> Result<(), Fail> {
    let alloc = rt.alloc();
    let mut input = Vec::new(alloc);
    let mut all = String::new(alloc);
    for (sent, answer) in TURNS {
        for byte in sent.as_bytes() {
            input.push((all.len(), *byte))?;
        }
        all.push_str(answer)?;
    }
    let mut stdio = WaitingLink {
        input,
        next: 0,
        written: Vec::new(alloc),
        read_faults: 0,
        write_faults: 0,
    };
    let keys = keys_of(alloc, &PLAIN)?;
    let mut host = machine(&rt, alloc, Vec::new(alloc), keys, &PLAIN)?;
    assert_eq!(rt;
        run_server(alloc, &rules_of(&PLAIN), &mut stdio, &mut host),
        0
    );
    assert!(rt; stdio.written.as_slice() == all.as_bytes());
    Ok(())
}
