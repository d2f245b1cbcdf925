//! Keys about the limits of their lengths, in sessions whose files one letter fills. The keys are
//! in memory; the rows are in `filled_keys.rt`. Begin with `Large` and `first_wrong`.

ghost use Rattle.std.specs.Prelude.{◌≤◌};

use crate::filled_keys::{CHANGED, COMING};
use crate::rows::{KEYS, Row, planned, served_on, wanted};
use agent_ports::{
    Grip, KeyNames, KeyRead, Keys, MAX_KEY_FILE_LEN, MapKeys, MemLink, MemSink, MemSource,
};
use std::alloc::{AllocError, Global};
use std::sync::Wait;
use std::test::Fail;

/// A file that a letter fills: what stands before it, how often it stands there, and what stands
/// behind it.
#[derive(Clone, Copy)]
pub(crate) struct Filled {
    pub(crate) front: &'static [u8],
    pub(crate) letter: u8,
    pub(crate) times: usize,
    pub(crate) behind: &'static [u8],
}

/// A session on one key, with its file before and behind it.
#[derive(Clone, Copy)]
pub(crate) struct Large {
    pub(crate) row: Row,
    pub(crate) grip: &'static str,
    /// A key that comes in: in what is sent `@` stands for its data lines, as EXPORT_KEY gives
    /// them.
    pub(crate) wrapped: Option<Filled>,
    pub(crate) before: Option<Filled>,
    pub(crate) after: Option<Filled>,
}

fn bytes_of(alloc: Global, file: &Filled) -> Result<Vec<u8>, AllocError> {
    let mut bytes = Vec::from_slice(alloc, file.front)?;
    for _ in 0..file.times {
        bytes.push(file.letter)?;
    }
    bytes.extend_from_slice(file.behind)?;
    Ok(bytes)
}

fn keys_with(alloc: Global, grip: &str, file: &Option<Filled>) -> Result<MapKeys, AllocError> {
    let mut keys = MapKeys::new(alloc, Vec::new(alloc));
    if let Some(file) = file
        && let Some(grip) = Grip::of_hex(grip.as_bytes())
    {
        let bytes = bytes_of(alloc, file)?;
        if bytes.len() <= MAX_KEY_FILE_LEN {
            keys.insert(grip, bytes)?;
        }
    }
    Ok(keys)
}

/// Whether the keys' one file is this, or they have none.
fn have(
    alloc: Global,
    keys: &mut MapKeys,
    grip: &str,
    file: &Option<Filled>,
) -> Result<bool, AllocError> {
    let KeyNames::Names(names) = keys.list(alloc) else {
        return Ok(false);
    };
    let (Some(file), Some(grip)) = (file, Grip::of_hex(grip.as_bytes())) else {
        return Ok(names.is_empty());
    };
    let wanted = bytes_of(alloc, file)?;
    match keys.read(alloc, &grip) {
        KeyRead::Found(bytes) => Ok(names.len() == 1 && bytes.as_slice() == wanted.as_slice()),
        _ => Ok(false),
    }
}

fn client(alloc: Global, sent: String) -> MemLink {
    let source = MemSource::new(sent.into_bytes(), 4096, Vec::new(alloc));
    MemLink::new(source, MemSink::new(alloc, 0, Vec::new(alloc)))
}

/// The data lines of the wrapped key.
fn exported<W: Wait>(rt: &W, alloc: Global, large: &Large) -> Result<String, AllocError> {
    let keys = keys_with(alloc, large.grip, &large.wrapped)?;
    let row = Row {
        dice: large.row.dice,
        ..KEYS
    };
    let sent = format!(in alloc; "KEYWRAP_KEY --export\nEXPORT_KEY {}\n", large.grip)?;
    let mut stdio = client(alloc, sent);
    let (text, _) = served_on(rt, alloc, &row, keys, Vec::new(alloc), &mut stdio)?;
    let lines = text
        .strip_prefix("OK Pleased to meet you\nD wraps a key 2415\nOK\n")
        .and_then(|lines| lines.strip_suffix("OK\n0"));
    String::from_str(alloc, lines.unwrap_or("no key\n"))
}

/// What is sent, with the data lines of a key that comes in.
fn sent<W: Wait>(rt: &W, alloc: Global, large: &Large) -> Result<String, AllocError> {
    let mut all = String::new(alloc);
    match large.row.sent.split_once('@') {
        Some((front, behind)) => {
            all.push_str(front)?;
            all.push_str(&exported(rt, alloc, large)?)?;
            all.push_str(behind)?;
        }
        None => all.push_str(large.row.sent)?,
    }
    Ok(all)
}

/// What comes of it.
fn outcome<W: Wait>(rt: &W, alloc: Global, large: &Large) -> Result<String, AllocError> {
    let mut stdio = client(alloc, sent(rt, alloc, large)?);
    let keys = keys_with(alloc, large.grip, &large.before)?;
    let children = planned(alloc, &large.row, 4096)?;
    let (mut text, mut keys) = served_on(rt, alloc, &large.row, keys, children, &mut stdio)?;
    if !have(alloc, &mut keys, large.grip, &large.after)? {
        text.push_str("\nanother key file")?;
    }
    Ok(text)
}

/// The first of the sessions that comes out otherwise.
fn first_wrong<W: Wait>(
    rt: &W,
    alloc: Global,
    sessions: &[Large],
) -> Result<Option<String>, AllocError> {
    for large in sessions.iter() {
        let got = outcome(rt, alloc, large)?;
        if got != wanted(alloc, &large.row)? {
            return Ok(Some(format!(in alloc; "{}: {got}", large.row.sent)?));
        }
    }
    Ok(None)
}

#[test]
fn keys_come_in_up_to_their_length(rt: HostRuntime) -> Result<(), Fail> {
    assert_eq!(rt; first_wrong(&rt, rt.alloc(), COMING)?, None);
    Ok(())
}

#[test]
fn passphrases_are_changed_up_to_a_keys_length(rt: HostRuntime) -> Result<(), Fail> {
    assert_eq!(rt; first_wrong(&rt, rt.alloc(), CHANGED)?, None);
    Ok(())
}
