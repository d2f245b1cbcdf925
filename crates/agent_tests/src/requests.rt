//! Tests of request lines: what each is read as, and by which code it is refused. Begin with `READ`
//! and `REFUSALS`, a row a line, which `first_wrong` goes through.

use agent_commands::{CacheCommand, LineRequest, Request, Texts, read_request};
use arrayvec::ArrayVec;
use assuan_line::Line;
use cache_policy::CacheId;
use command_table::commands_are_as_defined;
use std::alloc::{AllocError, Global};
use std::test::Fail;

fn text(bytes: &[u8]) -> &str {
    str::from_utf8(bytes).unwrap_or("(no text)")
}

fn flag(is: bool, letter: char) -> char {
    if is { letter } else { '-' }
}

/// A passphrase in hexadecimal digits, so that any bytes can be told.
fn digits(alloc: Global, bytes: &[u8]) -> Result<String, AllocError> {
    let mut told = String::new(alloc);
    for byte in bytes {
        told.push_str(format!(in alloc; "{byte:02x}")?.as_str())?;
    }
    Ok(told)
}

/// What a request is, as a text.
fn told(alloc: Global, request: &Request) -> Result<String, AllocError> {
    match request {
        Request::Cache(command) => told_command(alloc, command),
        Request::Key(line) => format!(in alloc; "key {}", text(line)),
        Request::Bad(code) => format!(in alloc; "refused {code:?}"),
    }
}

fn told_command(alloc: Global, command: &CacheCommand) -> Result<String, AllocError> {
    match command {
        CacheCommand::Nop => format!(in alloc; "nop"),
        CacheCommand::Reset => format!(in alloc; "reset"),
        CacheCommand::Bye => format!(in alloc; "bye"),
        CacheCommand::Help => format!(in alloc; "help"),
        CacheCommand::SetOption { text: given } => format!(in alloc; "option [{}]", text(given)),
        CacheCommand::GetInfo(info) => format!(in alloc; "info {info:?}"),
        CacheCommand::GetPassphrase {
            plain,
            check,
            no_ask,
            repeat,
            quality,
            id,
            texts,
        } => {
            let data = flag(*plain, 'd');
            let checked = flag(*check, 'c');
            let quiet = flag(*no_ask, 'n');
            let bar = flag(*quality, 'q');
            let asked = told_texts(alloc, texts)?;
            let name = told_id(id);
            format!(in alloc; "get {name} {data}{checked}{quiet}{repeat}{bar} {asked}")
        }
        CacheCommand::PresetPassphrase { id, life, secret } => {
            let given = match secret {
                Some(secret) => digits(alloc, secret.bytes())?,
                None => format!(in alloc; "inquire")?,
            };
            format!(in alloc; "preset {} {life:?} {given}", text(id.bytes()))
        }
        CacheCommand::ClearPassphrase { id, mode } => {
            format!(in alloc; "clear {} {mode:?}", text(id.bytes()))
        }
        CacheCommand::GetConfirmation { description } => {
            format!(in alloc; "confirm [{}]", text(description))
        }
        CacheCommand::ReloadAgent => format!(in alloc; "reload"),
        CacheCommand::KillAgent => format!(in alloc; "kill"),
        CacheCommand::SetKeyDesc { text: said } => format!(in alloc; "describe [{}]", text(said)),
    }
}

fn told_id(id: &Option<CacheId>) -> &str {
    match id {
        Some(id) => text(id.bytes()),
        None => "(none)",
    }
}

fn told_texts(alloc: Global, texts: &Option<Texts>) -> Result<String, AllocError> {
    match texts {
        Some(texts) => {
            let error = text(&texts.error);
            let prompt = text(&texts.prompt);
            format!(in alloc; "[{error}|{prompt}|{}]", text(&texts.description))
        }
        None => format!(in alloc; "-"),
    }
}

/// What a line asks of the cache alone, or that it asks for something else.
fn told_quiet(alloc: Global, line: &Line) -> Result<String, AllocError> {
    match LineRequest::of(line).quiet() {
        Some(request) => {
            let data = flag(request.plain, 'd');
            format!(in alloc; "quiet {} {data}", told_id(&request.id))
        }
        None => format!(in alloc; "otherwise"),
    }
}

/// The first row whose line is read as something else, with what it is read as. Empty where there
/// is none.
fn first_wrong(alloc: Global, rows: &[(&str, &str)], quiet: bool) -> Result<String, Fail> {
    for (bytes, want) in rows {
        let line = Line::of(bytes.as_bytes()).ok_or("no line")?;
        let got = if quiet {
            told_quiet(alloc, &line)?
        } else {
            told(alloc, &read_request(&line))?
        };
        if got.as_str() != *want {
            return Ok(format!(in alloc; "{bytes}: {got}")?);
        }
    }
    Ok(String::new(alloc))
}

const REFUSALS: [(&str, &str); 44] = [
    ("", "refused UnknownCommand"),
    (" \t", "refused UnknownCommand"),
    ("# comment", "refused UnknownCommand"),
    ("FOO", "refused UnknownCommand"),
    ("NOPE", "refused UnknownCommand"),
    ("NO", "refused UnknownCommand"),
    ("KEYINFOS", "refused UnknownCommand"),
    ("GET_PASSPHRASE=id1", "refused UnknownCommand"),
    ("GETINFO", "refused Parameter"),
    ("GETINFO --version", "refused Parameter"),
    ("GETINFO VERSION", "refused Parameter"),
    ("GETINFO socket_name", "refused Parameter"),
    ("GETINFO cmd_has_option", "refused Parameter"),
    ("GETINFO cmd_has_option FOO", "refused Parameter"),
    ("GETINFO cmd_has_option FOO data", "refused NotSupported"),
    (
        "GETINFO cmd_has_option get_passphrase data",
        "refused NotSupported",
    ),
    (
        "GETINFO cmd_has_option GET_PASSPHRASE --data",
        "refused NotSupported",
    ),
    (
        "GETINFO cmd_has_option PRESET_PASSPHRASE data",
        "refused NotSupported",
    ),
    ("GET_PASSPHRASE", "refused Parameter"),
    ("GET_PASSPHRASE --no-ask", "refused Parameter"),
    ("GET_PASSPHRASE --repeat=17 id1", "refused Parameter"),
    ("GET_PASSPHRASE --repeat=001 id1", "refused Parameter"),
    ("GET_PASSPHRASE --repeat= id1", "refused Parameter"),
    ("GET_PASSPHRASE --repeat=+1 id1", "refused Parameter"),
    ("GET_PASSPHRASE id1 error", "refused Parameter"),
    ("GET_PASSPHRASE id1 error prompt", "refused Parameter"),
    ("PRESET_PASSPHRASE", "refused Parameter"),
    ("PRESET_PASSPHRASE id1", "refused Parameter"),
    ("PRESET_PASSPHRASE id1 -1", "refused Parameter"),
    ("PRESET_PASSPHRASE --inquire id1 -1 25", "refused Parameter"),
    ("PRESET_PASSPHRASE id1 -2 25", "refused Parameter"),
    ("PRESET_PASSPHRASE id1 1s 25", "refused Parameter"),
    ("PRESET_PASSPHRASE id1 2147483648 25", "refused Parameter"),
    ("PRESET_PASSPHRASE id1 00000000001 25", "refused Parameter"),
    ("PRESET_PASSPHRASE id1 -1 255", "refused Parameter"),
    ("PRESET_PASSPHRASE id1 -1 2g", "refused Parameter"),
    ("PRESET_PASSPHRASE id1 --inquire 25", "refused Parameter"),
    ("CLEAR_PASSPHRASE", "refused Parameter"),
    ("CLEAR_PASSPHRASE --mode=user id1", "refused Parameter"),
    (
        "CLEAR_PASSPHRASE --mode=ssh --mode= id1",
        "refused Parameter",
    ),
    ("GET_CONFIRMATION", "refused Parameter"),
    ("GET_CONFIRMATION --frob --", "refused Parameter"),
    ("SETKEYDESC", "refused Parameter"),
    ("SETKEYDESC \t", "refused Parameter"),
];

const READ: [(&str, &str); 60] = [
    ("nop", "nop"),
    (" \tReSeT and more", "reset"),
    ("BYE", "bye"),
    ("help GETINFO", "help"),
    ("reloadagent now", "reload"),
    ("KillAgent", "kill"),
    ("getinfo version", "info Version"),
    ("GETINFO\tpid more", "info Pid"),
    ("GETINFO --frob s2k_count", "info S2kCount"),
    ("GETINFO -- version", "info Version"),
    ("GETINFO cmd_has_option GET_PASSPHRASE data", "info Listed"),
    ("GETINFO cmd_has_option GET_PASSPHRASE check", "info Listed"),
    (
        "GETINFO cmd_has_option GET_PASSPHRASE no-ask",
        "info Listed",
    ),
    (
        "GETINFO cmd_has_option GET_PASSPHRASE repeat",
        "info Listed",
    ),
    (
        "GETINFO cmd_has_option GET_PASSPHRASE qualitybar",
        "info Listed",
    ),
    (
        "GETINFO cmd_has_option PRESET_PASSPHRASE inquire x",
        "info Listed",
    ),
    (
        "GETINFO cmd_has_option CLEAR_PASSPHRASE mode",
        "info Listed",
    ),
    (
        "OPTION --ttyname = /dev/pts/1",
        "option [--ttyname = /dev/pts/1]",
    ),
    ("option \t s2k-count=65535 ", "option [s2k-count=65535 ]"),
    ("OPTION -- x", "option [-- x]"),
    ("OPTION", "option []"),
    ("GET_PASSPHRASE id1", "get id1 ---0- -"),
    ("GET_PASSPHRASE --no-ask --data id1", "get id1 d-n0- -"),
    (
        "get_passphrase --check --qualitybar --repeat id1",
        "get id1 -c-1q -",
    ),
    (
        "GET_PASSPHRASE --frob --data=1 --no-as id1",
        "get id1 ---0- -",
    ),
    (
        "GET_PASSPHRASE --repeat=17 --repeat=16 id1",
        "get id1 ---16- -",
    ),
    (
        "GET_PASSPHRASE --repeat=2 --repeat --repeats=9 id1",
        "get id1 ---1- -",
    ),
    ("GET_PASSPHRASE --repeat=00 -- id1", "get id1 ---0- -"),
    ("GET_PASSPHRASE -- --data a b c", "get --data ---0- [a|b|c]"),
    (
        "GET_PASSPHRASE --DATA id1 --data x y",
        "get id1 ---0- [--data|x|y]",
    ),
    (
        "GET_PASSPHRASE X X X X",
        "get (none) ---0- [|Passphrase:|Please enter the passphrase]",
    ),
    (
        "GET_PASSPHRASE X a+b 100%25 %c3%A9%2B more",
        "get (none) ---0- [a b|100%|\u{e9}+]",
    ),
    ("GET_PASSPHRASE X x %58 XX", "get (none) ---0- [x|X|XX]"),
    ("PRESET_PASSPHRASE id1 -1 25", "preset id1 Endless 25"),
    (
        "preset_passphrase --frob id1 0 736563726574 more",
        "preset id1 Default 736563726574",
    ),
    (
        "PRESET_PASSPHRASE X 0000000010 c3A9",
        "preset X Seconds(10) c3a9",
    ),
    (
        "PRESET_PASSPHRASE -- --id 2147483647 00",
        "preset --id Seconds(2147483647) 00",
    ),
    (
        "PRESET_PASSPHRASE --inquire id1 -1",
        "preset id1 Endless inquire",
    ),
    (
        "PRESET_PASSPHRASE --inquire=1 id1 000 ff",
        "preset id1 Default ff",
    ),
    ("CLEAR_PASSPHRASE id1", "clear id1 User"),
    ("clear_passphrase --mode id1 more", "clear id1 User"),
    ("CLEAR_PASSPHRASE --mode=normal X", "clear X Normal"),
    ("CLEAR_PASSPHRASE --mode=ssh --mode id1", "clear id1 Ssh"),
    (
        "CLEAR_PASSPHRASE --mode=x --mode=ssh -- --id",
        "clear --id Ssh",
    ),
    ("CLEAR_PASSPHRASE id1 --mode=ssh", "clear id1 User"),
    ("GET_CONFIRMATION Really+send", "confirm [Really send]"),
    ("get_confirmation X", "confirm [Please confirm]"),
    ("GET_CONFIRMATION --frob -- --x%21 more", "confirm [--x!]"),
    ("GET_CONFIRMATION x", "confirm [x]"),
    ("SETKEYDESC Unlock%21+now more", "describe [Unlock! now]"),
    ("setkeydesc X", "describe [X]"),
    ("SETKEYDESC --frob --", "describe [--frob]"),
    ("SETKEYDESC +", "describe [ ]"),
    ("HAVEKEY", "key HAVEKEY"),
    ("keyinfo --list", "key keyinfo --list"),
    (" KEYWRAP_KEY --export", "key  KEYWRAP_KEY --export"),
    ("Import_Key", "key Import_Key"),
    ("EXPORT_KEY \t", "key EXPORT_KEY \t"),
    ("PASSWD --verify x", "key PASSWD --verify x"),
    ("DELETE_KEY x", "key DELETE_KEY x"),
];

const QUIET: [(&str, &str); 8] = [
    ("GET_PASSPHRASE --no-ask --data id1 X X X", "quiet id1 d"),
    ("get_passphrase id1", "quiet id1 -"),
    ("GET_PASSPHRASE --no-ask X", "quiet (none) -"),
    ("GET_PASSPHRASE --data id1 X X X", "otherwise"),
    ("GET_PASSPHRASE --no-ask id1 X X", "otherwise"),
    ("GET_PASSPHRASE --repeat=17 id1", "otherwise"),
    ("GET_PASSPHRASE", "otherwise"),
    ("NOP", "otherwise"),
];

#[test]
fn lines_are_read(rt: HostRuntime) -> Result<(), Fail> {
    let alloc = rt.alloc();
    assert_eq!(rt; first_wrong(alloc, &REFUSALS, false)?.as_str(), "");
    assert_eq!(rt; first_wrong(alloc, &READ, false)?.as_str(), "");
    assert_eq!(rt; first_wrong(alloc, &QUIET, true)?.as_str(), "");
    commands_are_as_defined();
    Ok(())
}

/// A line, and whether it is refused by its fields with so many of one byte after it.
const LONG_LINES: [(&str, u8, usize, bool); 8] = [
    ("NOP", b' ', 997, false),
    ("GET_PASSPHRASE ", b'a', 50, false),
    ("GET_PASSPHRASE ", b'a', 51, true),
    ("PRESET_PASSPHRASE --inquire ", b'a', 51, true),
    ("CLEAR_PASSPHRASE ", b'a', 50, false),
    ("CLEAR_PASSPHRASE ", b'a', 51, true),
    ("PRESET_PASSPHRASE id1 -1 ", b'6', 510, false),
    ("PRESET_PASSPHRASE id1 -1 ", b'6', 512, true),
];

#[test]
fn long_fields_are_refused(rt: HostRuntime) -> Result<(), Fail> {
    for (front, byte, count, refused) in LONG_LINES {
        let mut bytes: ArrayVec<u8, 1001> = ArrayVec::new();
        bytes
            .try_extend_from_slice(front.as_bytes())
            .ok()
            .ok_or("too long")?;
        for _ in 0..count {
            bytes.try_push(byte).ok().ok_or("too long")?;
        }
        let line = Line::of(&bytes).ok_or("no line")?;
        let got = told(rt.alloc(), &read_request(&line))?;
        assert_eq!(rt; got.as_str() == "refused Parameter", refused, "at {front}");
    }
    Ok(())
}
