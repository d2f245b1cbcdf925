//! The loop over sessions in memory: what a row is given, and what comes of it. It makes a host,
//! its children, keys and links in memory, with the faults that a row says. Begin with `Row`, and
//! with `first_wrong`, which serves each row and names the first that comes out otherwise.

ghost use Rattle.std.specs.Prelude.{◌≤◌, IfOk, IsSome};

use crate::prompts::Child;
use agent_ports::{
    Grip, Host, KeyNames, KeyRead, Keys, ListClock, ListDice, MAX_KEY_FILE_LEN, MapKeys, MemHost,
    MemLauncher, MemLink, MemSink, MemSource, NoGate, Parts, PlannedChild,
};
use agent_top::{Status, run_lawful_server};
use session_options::{DEFAULT_VERSION, Rules, Version};
use std::alloc::{AllocError, Global};
use std::sync::Wait;

/// The file of a key, by its grip.
pub(crate) type KeyFile = (&'static str, &'static [u8]);

/// A session over memory: what it is given, and what comes of it. In a text `{part*3}` stands for
/// three times that part.
#[derive(Clone, Copy)]
pub(crate) struct Row {
    pub(crate) sent: &'static str,
    /// What is written at first, and then.
    pub(crate) greeting: &'static str,
    pub(crate) answered: &'static str,
    pub(crate) status: u8,
    pub(crate) allow_preset: bool,
    pub(crate) allow_loopback: bool,
    /// The version that the agent tells.
    pub(crate) version: &'static [u8],
    pub(crate) children: &'static [Child],
    /// The key files before the session, by their grips, and those behind it, where they are looked
    /// at.
    pub(crate) files: &'static [KeyFile],
    pub(crate) files_after: Option<&'static [KeyFile]>,
    /// The bytes to draw.
    pub(crate) dice: &'static [u8],
    /// The calls of the keys and the draws that fail.
    pub(crate) key_faults: &'static [u64],
    pub(crate) draw_faults: &'static [u64],
    /// The launches, reads and writes that fail.
    pub(crate) launches: &'static [u64],
    pub(crate) reads: &'static [u64],
    pub(crate) writes: &'static [u64],
    /// What the clock gives.
    pub(crate) readings: &'static [u64],
    /// The most bytes that a read gives, of the client and of the children, each in a session of
    /// its own.
    pub(crate) pieces: &'static [usize],
}

pub(crate) const PLAIN: Row = Row {
    sent: "",
    greeting: "OK Pleased to meet you\n",
    answered: "",
    status: 0,
    allow_preset: true,
    allow_loopback: false,
    version: DEFAULT_VERSION,
    children: &[],
    files: &[],
    files_after: None,
    dice: &[],
    key_faults: &[],
    draw_faults: &[],
    launches: &[],
    reads: &[],
    writes: &[],
    readings: &[],
    pieces: &[1, 7, 4096],
};

/// A session on keys, whose client may give passphrases itself.
pub(crate) const KEYS: Row = Row {
    allow_loopback: true,
    ..PLAIN
};

/// A text with its repeated parts.
pub(crate) fn text_of(alloc: Global, text: &str) -> Result<String, AllocError> {
    let mut all = String::new(alloc);
    for part in text.split('{') {
        let (repeated, plain) = part.split_once('}').unwrap_or(("", part));
        let (what, count) = repeated.split_once('*').unwrap_or(("", "0"));
        for _ in 0..count.parse::<usize>().unwrap_or(0) {
            all.push_str(what)?;
        }
        all.push_str(plain)?;
    }
    Ok(all)
}

/// A machine with these children and keys, whose clock gives these readings. Its process has the
/// number 17.
pub(crate) fn machine<'a, W: Wait>(
    rt: &'a W,
    alloc: Global,
    children: Vec<PlannedChild>,
    keys: MapKeys,
    row: &Row,
) -> Result<MemHost<'a, W, NoGate>, AllocError>
    ensures { IfOk result (λ host. IsSome (⟦<MemHost<'a, W, NoGate> as Host>⟧.server host)) }
{
    let failing = Vec::from_slice(alloc, row.launches)?;
    let parts = Parts {
        launcher: MemLauncher::new(alloc, children, failing),
        clock: ListClock::new(Vec::from_slice(alloc, row.readings)?),
        dice: ListDice::new(
            Vec::from_slice(alloc, row.dice)?,
            Vec::from_slice(alloc, row.draw_faults)?,
        ),
        keys,
    };
    Ok(MemHost::new(rt, alloc, 17, parts))
}

pub(crate) fn keys_of(alloc: Global, row: &Row) -> Result<MapKeys, AllocError> {
    let mut keys = MapKeys::new(alloc, Vec::from_slice(alloc, row.key_faults)?);
    for (grip, file) in row.files.iter() {
        if let Some(grip) = Grip::of_hex(grip.as_bytes())
            && file.len() <= MAX_KEY_FILE_LEN
        {
            keys.insert(grip, Vec::from_slice(alloc, file)?)?;
        }
    }
    Ok(keys)
}

/// A word where the keys' files aren't those that the row says.
pub(crate) fn kept_text(alloc: Global, row: &Row, keys: &mut MapKeys) -> &'static str {
    match row.files_after {
        Some(files) if !are_files(alloc, keys, files) => "\nother key files",
        _ => "",
    }
}

/// Whether these are the keys' files, each of them and no other.
fn are_files(alloc: Global, keys: &mut MapKeys, files: &[KeyFile]) -> bool {
    let KeyNames::Names(names) = keys.list(alloc) else {
        return false;
    };
    names.len() == files.len()
        && files
            .iter()
            .all(|(grip, file)| is_file(alloc, keys, grip, file))
}

fn is_file(alloc: Global, keys: &mut MapKeys, grip: &str, file: &[u8]) -> bool {
    let Some(grip) = Grip::of_hex(grip.as_bytes()) else {
        return false;
    };
    match keys.read(alloc, &grip) {
        KeyRead::Found(bytes) => bytes.as_slice() == file,
        _ => false,
    }
}

/// The client's link, whose failing writes put two bytes.
pub(crate) fn client(alloc: Global, row: &Row, piece: usize) -> Result<MemLink, AllocError> {
    let input = text_of(alloc, row.sent)?.into_bytes();
    let reads = Vec::from_slice(alloc, row.reads)?;
    let writes = Vec::from_slice(alloc, row.writes)?;
    let sink = MemSink::new(alloc, 2, writes);
    Ok(MemLink::new(MemSource::new(input, piece, reads), sink))
}

pub(crate) fn planned(
    alloc: Global,
    row: &Row,
    piece: usize,
) -> Result<Vec<PlannedChild>, AllocError> {
    let mut children = Vec::new(alloc);
    for ((opening, _), behind, _) in row.children.iter() {
        let gives = format!(in alloc; "{opening}{behind}")?;
        children.push(PlannedChild {
            gives: text_of(alloc, &gives)?.into_bytes(),
            piece,
            failing_reads: Vec::new(alloc),
            failing_writes: Vec::new(alloc),
        })?;
    }
    Ok(children)
}

pub(crate) fn rules_of(row: &Row) -> Rules {
    let mut rules = Rules::default();
    rules.allow_preset = row.allow_preset;
    rules.allow_loopback = row.allow_loopback;
    if let Some(version) = Version::new(row.version) {
        rules.version = version;
    }
    rules
}

/// What is to come of a row: what the client is written, the status, and for each child the usual
/// program and what it is written, of the last one first.
pub(crate) fn wanted(alloc: Global, row: &Row) -> Result<String, AllocError> {
    let answered = text_of(alloc, row.answered)?;
    let mut all = format!(in alloc; "{}{answered}{}", row.greeting, row.status)?;
    for ((_, opening), _, behind) in row.children.iter().rev() {
        all.push_str(format!(in alloc; "\n/usr/bin/pinentry {opening}{behind}")?.as_str())?;
    }
    Ok(all)
}

/// What comes of it.
fn outcome<W: Wait>(rt: &W, alloc: Global, row: &Row, piece: usize) -> Result<String, AllocError> {
    let mut stdio = client(alloc, row, piece)?;
    served(rt, alloc, row, planned(alloc, row, piece)?, &mut stdio)
}

/// What comes of a row with these children and this client.
pub(crate) fn served<W: Wait>(
    rt: &W,
    alloc: Global,
    row: &Row,
    children: Vec<PlannedChild>,
    stdio: &mut MemLink,
) -> Result<String, AllocError> {
    let keys = keys_of(alloc, row)?;
    let (text, mut keys) = served_on(rt, alloc, row, keys, children, stdio)?;
    let kept = kept_text(alloc, row, &mut keys);
    format!(in alloc; "{text}{kept}")
}

/// What comes of it on these keys, and the keys behind it.
pub(crate) fn served_on<W: Wait>(
    rt: &W,
    alloc: Global,
    row: &Row,
    keys: MapKeys,
    children: Vec<PlannedChild>,
    stdio: &mut MemLink,
) -> Result<(String, MapKeys), AllocError> {
    let mut host = machine(rt, alloc, children, keys, row)?;
    let status = serve(alloc, &rules_of(row), stdio, &mut host);
    let answered = String::from_utf8_lossy(alloc, stdio.written())?;
    let parts = host.server_parts();
    let children = children_text(alloc, &parts.launcher)?;
    let text = format!(in alloc; "{answered}{status}{children}")?;
    Ok((text, parts.keys))
}

fn serve<H: Host>(alloc: Global, rules: &Rules, stdio: &mut MemLink, host: &mut H) -> u8
    requires { IsSome (H.server host.old) }
    ensures { IsSome (H.server host.new) }
{
    run_lawful_server(alloc, rules, stdio, host)
}

/// The programs that were launched, and what they were written, of the last one first.
pub(crate) fn children_text(alloc: Global, launcher: &MemLauncher) -> Result<String, AllocError> {
    let mut all = String::new(alloc);
    for back in 0..9usize {
        if let Some(written) = launcher.written(back) {
            let text = String::from_utf8_lossy(alloc, written)?;
            let program = launcher.launched(back).unwrap_or(b"");
            let program = String::from_utf8_lossy(alloc, program)?;
            all.push_str(format!(in alloc; "\n{program} {text}")?.as_str())?;
        }
    }
    Ok(all)
}

/// What comes of a row that isn't as it should be, in some pieces.
pub(crate) fn wrong<W: Wait>(
    rt: &W,
    alloc: Global,
    row: &Row,
) -> Result<Option<String>, AllocError> {
    let wanted = wanted(alloc, row)?;
    for piece in row.pieces.iter() {
        let got = outcome(rt, alloc, row, *piece)?;
        if got != wanted {
            let text = format!(in alloc; "{} in pieces of {piece}: {got}", row.sent)?;
            return Ok(Some(text));
        }
    }
    Ok(None)
}

/// The first of the rows that comes out otherwise.
pub(crate) fn first_wrong<W: Wait>(
    rt: &W,
    alloc: Global,
    rows: &[Row],
) -> Result<Option<String>, AllocError> {
    for row in rows.iter() {
        let wrong = wrong(rt, alloc, row)?;
        if wrong.is_some() {
            return Ok(wrong);
        }
    }
    Ok(None)
}
