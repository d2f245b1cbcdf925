//! Command lines and words of an askpass, in rows: what is said of them, and the requests of them.
//! Pure. Begin with `FAULTS` and `REQUESTS`.

use cache_policy::Secret;
use passphrase_words::{Request, Task, USAGE, Wanted, WordsFault, read_askpass, read_words};
use std::alloc::{AllocError, Global};
use std::test::Fail;

/// Words, each behind a bar, and what is said of them.
type Row<'a> = (&'a str, &'a str);

/// Words that are refused.
const FAULTS: [Row<'_>; 82] = [
    ("", "an ID is wanted, and a DESCRIPTION may follow it"),
    (
        "|",
        "an ID is letters, digits and :._@/- (and neither X alone nor begins with -): ",
    ),
    (
        "|X",
        "an ID is letters, digits and :._@/- (and neither X alone nor begins with -): X",
    ),
    (
        "|a b",
        "an ID is letters, digits and :._@/- (and neither X alone nor begins with -): a b",
    ),
    (
        "|a\tb",
        "an ID is letters, digits and :._@/- (and neither X alone nor begins with -): a\tb",
    ),
    (
        "|a\nb",
        "an ID is letters, digits and :._@/- (and neither X alone nor begins with -): a\nb",
    ),
    (
        "|a%41",
        "an ID is letters, digits and :._@/- (and neither X alone nor begins with -): a%41",
    ),
    (
        "|a+b",
        "an ID is letters, digits and :._@/- (and neither X alone nor begins with -): a+b",
    ),
    (
        "|ü",
        "an ID is letters, digits and :._@/- (and neither X alone nor begins with -): ü",
    ),
    (
        "|--|-a",
        "an ID is letters, digits and :._@/- (and neither X alone nor begins with -): -a",
    ),
    (
        "|aaaaaaaaaaaaaaaaaaaaaaaaaaaaaaaaaaaaaaaaaaaaaaaaaaa",
        "an ID has at most 50 bytes: aaaaaaaaaaaaaaaaaaaaaaaaaaaaaaaaaaaaaaaaaaaaaaaaaaa",
    ),
    ("|--clear|id", "there is no option --clear"),
    ("|-n|id", "there is no option -n"),
    ("|-|id", "there is no option -"),
    ("|--new=yes|id", "there is no option --new=yes"),
    ("|--help=x|id", "there is no option --help=x"),
    ("|--prom=a|id", "there is no option --prom=a"),
    ("|--clear|--help", "there is no option --clear"),
    ("|--new|--new|id", "--new is given twice"),
    ("|--no-ask|--no-ask|id", "--no-ask is given twice"),
    ("|--null|--null|id", "--null is given twice"),
    ("|--forget|--forget|id", "--forget is given twice"),
    ("|--ttl|5|--ttl=5|id", "--ttl is given twice"),
    ("|--timeout=5|--timeout|5|id", "--timeout is given twice"),
    ("|--prompt=a|--prompt=b|id", "--prompt is given twice"),
    ("|--homedir|a|--homedir=b|id", "--homedir is given twice"),
    ("|--prompt=|id", "--prompt wants a text"),
    ("|--prompt||id", "--prompt wants a text"),
    ("|--prompt", "--prompt wants a text"),
    ("|--homedir=|id", "--homedir wants a folder"),
    ("|--homedir||id", "--homedir wants a folder"),
    ("|--homedir", "--homedir wants a folder"),
    (
        "|--timeout=|id",
        "--timeout wants a number of seconds, 1 to 2147483647",
    ),
    (
        "|--timeout||id",
        "--timeout wants a number of seconds, 1 to 2147483647",
    ),
    (
        "|--timeout",
        "--timeout wants a number of seconds, 1 to 2147483647",
    ),
    (
        "|--ttl=|id",
        "--ttl wants a number of seconds, 1 to 2147483647",
    ),
    (
        "|--ttl||id",
        "--ttl wants a number of seconds, 1 to 2147483647",
    ),
    ("|--ttl", "--ttl wants a number of seconds, 1 to 2147483647"),
    (
        "|--timeout|0|id",
        "--timeout wants a number of seconds, 1 to 2147483647",
    ),
    (
        "|--ttl|-1|id",
        "--ttl wants a number of seconds, 1 to 2147483647",
    ),
    (
        "|--timeout|+5|id",
        "--timeout wants a number of seconds, 1 to 2147483647",
    ),
    (
        "|--ttl|1h|id",
        "--ttl wants a number of seconds, 1 to 2147483647",
    ),
    (
        "|--timeout|1.5|id",
        "--timeout wants a number of seconds, 1 to 2147483647",
    ),
    (
        "|--ttl| 5|id",
        "--ttl wants a number of seconds, 1 to 2147483647",
    ),
    (
        "|--timeout|2147483648|id",
        "--timeout wants a number of seconds, 1 to 2147483647",
    ),
    (
        "|--ttl|4294967297|id",
        "--ttl wants a number of seconds, 1 to 2147483647",
    ),
    (
        "|--timeout|999999999999999999999999999999|id",
        "--timeout wants a number of seconds, 1 to 2147483647",
    ),
    ("|--forget|--new|id", "--new and --forget don't go together"),
    ("|--store|--new|id", "--new and --store don't go together"),
    ("|--cached|--new|id", "--new and --cached don't go together"),
    (
        "|--store|--forget|id",
        "--forget and --store don't go together",
    ),
    (
        "|--cached|--forget|id",
        "--forget and --cached don't go together",
    ),
    (
        "|--cached|--store|id",
        "--store and --cached don't go together",
    ),
    ("|--no-ask|--new|id", "--new and --no-ask don't go together"),
    (
        "|--no-ask|--forget|id",
        "--forget and --no-ask don't go together",
    ),
    (
        "|--no-ask|--store|id",
        "--store and --no-ask don't go together",
    ),
    (
        "|--no-ask|--cached|id",
        "--cached and --no-ask don't go together",
    ),
    (
        "|--ttl|60|--no-ask|id",
        "--no-ask and --ttl don't go together",
    ),
    (
        "|--ttl|60|--forget|id",
        "--forget and --ttl don't go together",
    ),
    (
        "|--ttl|60|--store|id",
        "--store and --ttl don't go together",
    ),
    (
        "|--ttl|60|--cached|id",
        "--cached and --ttl don't go together",
    ),
    (
        "|--null|--forget|id",
        "--forget and --null don't go together",
    ),
    ("|--null|--store|id", "--store and --null don't go together"),
    (
        "|--null|--cached|id",
        "--cached and --null don't go together",
    ),
    ("|--forget|id|text", "--forget wants an ID alone"),
    ("|--store|--prompt=a|id", "--store wants an ID alone"),
    ("|--cached|id|text", "--cached wants an ID alone"),
    ("|--cached", "--cached wants an ID alone"),
    (
        "|id|text|more",
        "an ID is wanted, and a DESCRIPTION may follow it",
    ),
    (
        "|id|text|--new",
        "an ID is wanted, and a DESCRIPTION may follow it",
    ),
    ("|--new", "an ID is wanted, and a DESCRIPTION may follow it"),
    ("|--forget-all|--forget-all", "--forget-all is given twice"),
    ("|--forget-all=id", "there is no option --forget-all=id"),
    ("|--forget-all|id", "--forget-all wants no ID"),
    (
        "|--new|--forget-all",
        "--forget-all and --new don't go together",
    ),
    (
        "|--forget-all|--forget|id",
        "--forget-all and --forget don't go together",
    ),
    (
        "|--store|--forget-all",
        "--forget-all and --store don't go together",
    ),
    (
        "|--cached|--forget-all",
        "--forget-all and --cached don't go together",
    ),
    (
        "|--forget-all|--no-ask",
        "--forget-all and --no-ask don't go together",
    ),
    (
        "|--forget-all|--ttl|60",
        "--forget-all and --ttl don't go together",
    ),
    (
        "|--forget-all|--null",
        "--forget-all and --null don't go together",
    ),
    (
        "|--forget-all|--prompt|a",
        "--forget-all and --prompt don't go together",
    ),
];

/// Words that aren't read as a task.
const TOLD: [Row<'_>; 5] = [
    ("|-h", LINES_OF_USE),
    ("|--help|--clear", LINES_OF_USE),
    ("|--new|--prompt|a|-h", LINES_OF_USE),
    ("|--version|--clear", "version"),
    ("|--no-ask|--version", "version"),
];

const LINES_OF_USE: &str = "\
usage: passphrase [--homedir DIR] [--timeout SECONDS] [--new | --no-ask] [--ttl SECONDS] \
[--prompt TEXT] [--null] ID [DESCRIPTION]
       passphrase [--homedir DIR] [--timeout SECONDS] --cached ID
       passphrase [--homedir DIR] [--timeout SECONDS] --forget ID
       passphrase [--homedir DIR] [--timeout SECONDS] --forget-all
       passphrase [--homedir DIR] [--timeout SECONDS] --store ID < FILE
       passphrase --help | --version
       passphrase-askpass [--forget] TEXT
";

/// Words with a text in place of `~`, the byte that it has so often, and what is said of them.
const LONG: [(&str, &str, usize, &str); 5] = [
    (
        "|id|~",
        "d",
        1000,
        "the texts are too long: with them the request has 1040 bytes of at most 1000",
    ),
    (
        "|id|~",
        "d",
        961,
        "the texts are too long: with them the request has 1001 bytes of at most 1000",
    ),
    (
        "|id|~",
        "%",
        400,
        "the texts are too long: with them the request has 1240 bytes of at most 1000",
    ),
    (
        "|--prompt=~|id",
        "p",
        1000,
        "the texts are too long: with them the request has 1052 bytes of at most 1000",
    ),
    (
        "|--new|--prompt=~|id",
        "p",
        942,
        "the texts are too long: with them the request has 1002 bytes of at most 1000",
    ),
];

/// Words of an askpass, and the id or what is said.
const ASKED: [Row<'_>; 11] = [
    (
        "|Enter passphrase for key '/home/me/.ssh/id_ed25519': ",
        "askpass:4119ca5c845ef1fe8cfd299c2339a09aa2efc09d",
    ),
    (
        "|Password for 'https://me@example.org': ",
        "askpass:b12ddb00aab51058b3f4acc0ffb6289f5927b569",
    ),
    (
        "|[sudo] password for me: ",
        "askpass:37598733ce40d127c6de05f6d9cde1e9c10cb724",
    ),
    ("|--new", "askpass:5c6326b726fad2e50d24ab748f8cc5173116aea4"),
    (
        "|100% + two\nlines, ü, %41+",
        "askpass:772668c265bdf4ec5a85a856853aa00ba80cf2f4",
    ),
    ("|", "askpass:da39a3ee5e6b4b0d3255bfef95601890afd80709"),
    (
        "|--forget|Password for 'https://me@example.org': ",
        "askpass:b12ddb00aab51058b3f4acc0ffb6289f5927b569",
    ),
    ("", "one text is wanted, and --forget may stand before it"),
    (
        "|one|two",
        "one text is wanted, and --forget may stand before it",
    ),
    (
        "|--forget",
        "one text is wanted, and --forget may stand before it",
    ),
    (
        "|--forget|one|two",
        "one text is wanted, and --forget may stand before it",
    ),
];

/// Requests, each as a letter (`l`ook, `a`sk, `c`lear, clear all (`r`), pre`s`et, pro`b`e), of these words, and
/// their lines with ` ~ ` between them.
const REQUESTS: [(&str, Row<'_>); 11] = [
    (
        "l",
        ("|id", "GET_PASSPHRASE --data --no-ask id X X Passphrase+id"),
    ),
    (
        "csb",
        (
            "|id",
            "CLEAR_PASSPHRASE id ~ PRESET_PASSPHRASE id -1 536520C3FF0A ~ PRESET_PASSPHRASE --inquire id 1",
        ),
    ),
    (
        "a",
        (
            "|--new|--prompt|X|Az09:._@/-|",
            "GET_PASSPHRASE --data --repeat=1 Az09:._@/- X %58 New+passphrase+for+Az09:._@/-",
        ),
    ),
    ("r", ("|--forget-all|--homedir|d", "RELOADAGENT")),
    (
        "a",
        (
            "|--new|id|text",
            "GET_PASSPHRASE --data --repeat=1 id X X text",
        ),
    ),
    (
        "sb",
        (
            "|--new|--ttl=0060|id",
            "PRESET_PASSPHRASE id 60 536520C3FF0A ~ PRESET_PASSPHRASE --inquire id 60",
        ),
    ),
    (
        "a",
        (
            "|--no-ask|--|id|X",
            "GET_PASSPHRASE --data --no-ask id X X %58",
        ),
    ),
    (
        "a",
        (
            "|--prompt=A +prompt%41:|id|100% + two\nlines,\r\tü",
            "GET_PASSPHRASE --data id X A+%2Bprompt%2541: 100%25+%2B+two%0Alines,%0D+ü",
        ),
    ),
    (
        "a",
        (
            "|--prompt|--new|id|--null",
            "GET_PASSPHRASE --data id X --new --null",
        ),
    ),
    (
        "a",
        (
            "|--cached|--timeout|2147483647|--homedir|--new|id",
            "GET_PASSPHRASE --data --no-ask id X X Passphrase+id",
        ),
    ),
    (
        "c",
        (
            "|aaaaaaaaaaaaaaaaaaaaaaaaaaaaaaaaaaaaaaaaaaaaaaaaaa",
            "CLEAR_PASSPHRASE aaaaaaaaaaaaaaaaaaaaaaaaaaaaaaaaaaaaaaaaaaaaaaaaaa",
        ),
    ),
];

#[test]
fn faults_are_said(rt: HostRuntime) -> Result<(), Fail> {
    assert_eq!(rt; first_wrong(rt.alloc(), "", &FAULTS)?, None);
    Ok(())
}

#[test]
fn help_and_version_are_told(rt: HostRuntime) -> Result<(), Fail> {
    assert_eq!(rt; first_wrong(rt.alloc(), "", &TOLD)?, None);
    Ok(())
}

#[test]
fn long_texts_are_counted(rt: HostRuntime) -> Result<(), Fail> {
    for (words, byte, count, said) in LONG {
        let words = filled(rt.alloc(), words, byte, count)?;
        assert_eq!(rt; first_wrong(rt.alloc(), "", &[(&words, said)])?, None);
    }
    let words = filled(rt.alloc(), "|id|~", "d", 960)?;
    assert_eq!(rt;
        first_wrong(rt.alloc(), "c", &[(&words, "CLEAR_PASSPHRASE id")])?,
        None
    );
    let words = filled(rt.alloc(), "|~", "t", 1000)?;
    let said = "the texts are too long: with them the request has 1086 bytes of at most 1000";
    assert_eq!(rt; first_wrong(rt.alloc(), ASKPASS, &[(&words, said)])?, None);
    Ok(())
}

#[test]
fn a_text_is_asked_for(rt: HostRuntime) -> Result<(), Fail> {
    assert_eq!(rt; first_wrong(rt.alloc(), ASKPASS, &ASKED)?, None);
    Ok(())
}

#[test]
fn requests_are_written(rt: HostRuntime) -> Result<(), Fail> {
    for (letters, row) in REQUESTS {
        assert_eq!(rt; first_wrong(rt.alloc(), letters, &[row])?, None);
    }
    Ok(())
}

/// In place of requests: the words are those of an askpass.
const ASKPASS: &str = "askpass";

/// What the first row comes to that comes out otherwise.
fn first_wrong(alloc: Global, asked: &str, rows: &[Row<'_>]) -> Result<Option<String>, AllocError> {
    for (words, wanted) in rows {
        let out = come_out(alloc, asked, words)?;
        if out.as_slice() != wanted.as_bytes() {
            return Ok(Some(String::from_utf8_lossy(alloc, &out)?));
        }
    }
    Ok(None)
}

fn filled(alloc: Global, words: &str, byte: &str, count: usize) -> Result<String, AllocError> {
    let (before, behind) = words.split_once('~').unwrap_or((words, ""));
    let mut out = String::from_str(alloc, before)?;
    for _ in 0..count {
        out.push_str(byte)?;
    }
    out.push_str(behind)?;
    Ok(out)
}

fn come_out(alloc: Global, asked: &str, words: &str) -> Result<Vec<u8>, AllocError> {
    let mut list = Vec::new(alloc);
    let mut parts = words.split('|');
    parts.next();
    for word in parts {
        list.push(String::from_str(alloc, word)?)?;
    }
    let mut out = Vec::new(alloc);
    if asked == ASKPASS {
        match read_askpass(&list) {
            Ok(task) => out.extend_from_slice(task.id())?,
            Err(fault) => put_fault(&mut out, &fault)?,
        }
    } else {
        match read_words(&list) {
            Ok(Wanted::Help) => out.extend_from_slice(USAGE.as_bytes())?,
            Ok(Wanted::Version) => out.extend_from_slice(b"version")?,
            Ok(Wanted::Task(task)) => put_requests(&mut out, &task, asked)?,
            Err(fault) => put_fault(&mut out, &fault)?,
        }
    }
    Ok(out)
}

fn put_fault(out: &mut Vec<u8>, fault: &WordsFault<'_>) -> Result<(), AllocError> {
    let said = fault.pieces();
    for piece in [said.first, said.second, said.third, said.last] {
        out.extend_from_slice(piece)?;
    }
    Ok(())
}

fn put_requests(out: &mut Vec<u8>, task: &Task<'_>, requests: &str) -> Result<(), AllocError> {
    for letter in requests.as_bytes() {
        if !out.is_empty() {
            out.extend_from_slice(b" ~ ")?;
        }
        put_request(out, task, *letter)?;
    }
    Ok(())
}

fn put_request(out: &mut Vec<u8>, task: &Task<'_>, letter: u8) -> Result<(), AllocError> {
    let Some(secret) = Secret::of(b"Se \xC3\xFF\n") else {
        return Ok(());
    };
    let line = match letter {
        b'l' => task.line(&Request::Look),
        b'a' => task.line(&Request::Ask),
        b'c' => task.line(&Request::Clear),
        b'r' => task.line(&Request::ClearAll),
        b's' => task.line(&Request::Preset {
            ttl: task.act.ttl(),
            secret: &secret,
        }),
        _ => task.line(&Request::Probe),
    };
    out.extend_from_slice(line.bytes())
}
