//! What becomes of one setting, by the row of its option. Pure. Begin with `verdict_of`;
//! definitions are in `specs/Verdicts`.

ghost use Rattle.std.specs.Prelude.{◌≡◌, ◌==◌, false, length, map, true};
ghost use Rattle.std.specs.{List.list_any, Option.option_map, Str.{bytes_eq, Lossy.utf8_valid_len}};
ghost use Rattle.assuan_text.specs.Words.{words};
ghost use Rattle.agent_conf.specs.{Numbers.number_in, Paths.expanded, Written.written};
ghost use Rattle.agent_conf.specs.Verdicts.{begins_group, by_place, flag_verdict, folder_verdict};
ghost use Rattle.agent_conf.specs.Verdicts.{is_ignored_by, is_short, is_text, number_verdict};
ghost use Rattle.agent_conf.specs.Verdicts.{path_verdict, row_verdict, socket_verdict};
ghost use Rattle.agent_conf.specs.Verdicts.{unknown_verdict, unnamed_verdict, verdict_of};

use crate::MAX_PATH_LEN;
use crate::numbers::{Range, kept_in, number_in};
use crate::paths::{Folders, expanded, socket_choice};
use crate::setting::{Place, Setting};
use crate::settled::{is_of, option_of};
use crate::table::{Row, Unkept, row_of};
use assuan_text::next_word;
use std::str;

/// What becomes of a setting.
#[derive(Clone, Copy, Debug, PartialEq, Eq)]
pub enum Verdict {
    /// It is kept as it is written, or limits nothing that isn't so anyway.
    Kept,
    /// This number is kept, the nearest on the stricter side, or all that there is.
    Nearest(u64),
    /// It limits nothing, and nothing is kept.
    PassedOver(Passed),
    /// It keeps the agent from starting.
    Refused(Refusal),
}

/// What limits nothing.
#[derive(Clone, Copy, Debug, PartialEq, Eq)]
pub enum Passed {
    /// An option that this agent hasn't.
    NoLimit,
    /// An option of the command line in a file.
    WordsAlone,
    /// An option of files on the command line.
    FilesAlone,
    /// An extra socket elsewhere.
    OtherSocket,
}

/// Why a setting keeps the agent from starting.
#[derive(Clone, Copy, Debug, PartialEq, Eq)]
pub enum Refusal {
    /// It isn't UTF-8, or has a zero byte.
    NotText,
    /// It begins a part of the file that holds for some users alone.
    ForSomeUsers,
    /// Nobody knows the option.
    Unknown,
    /// There is no number.
    NoNumber,
    /// Each number that can be kept is laxer, this one the least so.
    Laxer(u64),
    /// There is a value, which may mean the contrary.
    HasValue,
    /// The path isn't absolute.
    NotAbsolute,
    /// The path has more than `MAX_PATH_LEN` bytes.
    TooLong,
    /// The agent has no such limit.
    NotKept(Unkept),
    /// It names no folder, or one whose path has more than `MAX_PATH_LEN` bytes.
    NoFolder,
    /// Sockets aren't handed over.
    NoSockets,
    /// It is no option. gpg-agent would run it as a command.
    NoCommand,
}

/// What becomes of a word of the command line that stands in a file.
const OUT_OF_PLACE: Verdict = Verdict::PassedOver(Passed::WordsAlone);

/// What becomes of an option of files on the command line.
const FOR_FILES: Verdict = Verdict::PassedOver(Passed::FilesAlone);

/// What becomes of a setting that comes after these.
#[tactic(auto, unfolding(crate::specs::Verdicts::verdict_of))]
pub(crate) fn verdict_of(
    folders: &Folders<'_>,
    before: &[Setting<'_>],
    setting: &Setting<'_>,
) -> Verdict
    ensures { result ≡ verdict_of folders.now.home.items folders.now.user.now
        (map written before.now) (written setting.now) }
{
    if !is_text(setting.text) || !is_text(setting.value) {
        return Verdict::Refused(Refusal::NotText);
    }
    let Some(name) = option_of(setting) else {
        return unnamed_verdict(setting);
    };
    if begins_group(setting.place, name) {
        return Verdict::Refused(Refusal::ForSomeUsers);
    }
    match row_of(name) {
        Some(row) => row_verdict(folders, setting.place, row, setting.value),
        None => unknown_verdict(setting.place, name, before),
    }
}

/// Whether it is UTF-8 without a zero byte.
fn is_text(bytes: &[u8]) -> bool
    ensures { result ≡ is_text bytes.now }
{
    is_utf8(bytes) && !has_zero(bytes)
}

fn is_utf8(bytes: &[u8]) -> bool
    ensures { result ≡ (utf8_valid_len bytes.now == length bytes.now) }
{
    match str::from_utf8(bytes) {
        Ok(_) => true,
        Err(_) => false,
    }
}

fn has_zero(bytes: &[u8]) -> bool
    ensures { result ≡ list_any (λ byte. byte == 0) bytes.now }
{
    bytes.iter().any(|byte| *byte == 0)
}

/// Of a setting that names no option.
fn unnamed_verdict(setting: &Setting<'_>) -> Verdict
    ensures { result ≡ unnamed_verdict (written setting.now) }
{
    match setting.place {
        Place::Words if is_short(setting.text) => Verdict::Kept,
        Place::Words => Verdict::Refused(Refusal::NoCommand),
        Place::Machine | Place::Home => Verdict::Refused(Refusal::Unknown),
    }
}

/// One of gpg-agent's options of one letter.
fn is_short(word: &[u8]) -> bool
    ensures { result ≡ is_short word.now }
{
    matches!(word, b"-q" | b"-v" | b"-s" | b"-c")
}

fn begins_group(place: Place, name: &[u8]) -> bool
    ensures { result ≡ begins_group place name.now }
{
    match place {
        Place::Words => false,
        Place::Machine | Place::Home => name.first() == Some(&b'['),
    }
}

fn unknown_verdict(place: Place, name: &[u8], before: &[Setting<'_>]) -> Verdict
    ensures { result ≡ unknown_verdict place name.now (map written before.now) }
{
    if is_of_file(place) && is_ignored(name, before) {
        Verdict::PassedOver(Passed::NoLimit)
    } else {
        Verdict::Refused(Refusal::Unknown)
    }
}

fn is_of_file(place: Place) -> bool
    ensures { result ≡ by_place place false true }
{
    match place {
        Place::Words => false,
        Place::Machine | Place::Home => true,
    }
}

/// Whether one of these settings lists the name as one that may be ignored.
fn is_ignored(name: &[u8], before: &[Setting<'_>]) -> bool
    ensures { result ≡ list_any (is_ignored_by name.now) (map written before.now) }
{
    for setting in before {
        if is_ignored_by(name, setting) {
            return true;
        }
    }
    false
}

fn is_ignored_by(name: &[u8], setting: &Setting<'_>) -> bool
    ensures { result ≡ is_ignored_by name.now (written setting.now) }
{
    is_of(&[b"ignore-invalid-option"], setting) && has_word(setting.value, name)
}

fn has_word(text: &[u8], word: &[u8]) -> bool
    ensures { result ≡ list_any (bytes_eq word.now) (words text.now) }
{
    let mut rest = text;
    while let Some((next, after)) = next_word(rest) {
        if word == next {
            return true;
        }
        rest = after;
    }
    false
}

/// By the row of the option.
fn row_verdict(folders: &Folders<'_>, place: Place, row: Row, value: &[u8]) -> Verdict
    ensures { result ≡ row_verdict folders.now.home.items folders.now.user.now place row value.now }
{
    match row {
        Row::Number(range) => number_verdict(range, value),
        Row::Flag => flag_verdict(value),
        Row::Pinentry => path_verdict(folders.user, value),
        Row::ExtraSocket => socket_verdict(socket_choice(folders, value)),
        Row::IgnoresNames => by_place(place, FOR_FILES, Verdict::Kept),
        Row::SoAnyway => Verdict::Kept,
        Row::Unkept(unkept, _) => Verdict::Refused(Refusal::NotKept(unkept)),
        Row::LimitsNothing(_) => Verdict::PassedOver(Passed::NoLimit),
        Row::Folder => by_place(place, folder_verdict(value), OUT_OF_PLACE),
        Row::OfWords(_) => by_place(place, Verdict::Kept, OUT_OF_PLACE),
        Row::Supervised => by_place(
            place,
            Verdict::Refused(Refusal::NoSockets),
            Verdict::PassedOver(Passed::NoLimit),
        ),
    }
}

/// The first for a word of the command line, the second for a line of a file.
fn by_place(place: Place, of_word: Verdict, of_line: Verdict) -> Verdict
    ensures { result ≡ by_place place of_word of_line }
{
    match place {
        Place::Words => of_word,
        Place::Machine | Place::Home => of_line,
    }
}

fn folder_verdict(value: &[u8]) -> Verdict
    ensures { result ≡ folder_verdict value.now }
{
    if value.is_empty() || value.len() > MAX_PATH_LEN {
        Verdict::Refused(Refusal::NoFolder)
    } else {
        Verdict::Kept
    }
}

fn flag_verdict(value: &[u8]) -> Verdict
    ensures { result ≡ flag_verdict value.now }
{
    if value.is_empty() {
        Verdict::Kept
    } else {
        Verdict::Refused(Refusal::HasValue)
    }
}

/// Of a value that is to be a number in this range.
fn number_verdict(range: Range, value: &[u8]) -> Verdict
    ensures { result ≡ number_verdict range (number_in value.now) }
{
    let Some(written) = number_in(value) else {
        return Verdict::Refused(Refusal::NoNumber);
    };
    match kept_in(range, written) {
        None => Verdict::Refused(Refusal::Laxer(range.greatest())),
        Some(kept) if kept == written => Verdict::Kept,
        Some(kept) => Verdict::Nearest(kept),
    }
}

/// Of the path of a program.
fn path_verdict(user: &[u8], value: &[u8]) -> Verdict
    ensures { result ≡ path_verdict (expanded user.now value.now) }
{
    let (front, rest) = expanded(user, value);
    let first = front.first().or(rest.first());
    if first != Some(&b'/') {
        Verdict::Refused(Refusal::NotAbsolute)
    } else if front.len() > MAX_PATH_LEN || rest.len() > MAX_PATH_LEN - front.len() {
        Verdict::Refused(Refusal::TooLong)
    } else {
        Verdict::Kept
    }
}

fn socket_verdict(choice: Option<bool>) -> Verdict
    ensures { result ≡ socket_verdict choice }
{
    match choice {
        Some(_) => Verdict::Kept,
        None => Verdict::PassedOver(Passed::OtherSocket),
    }
}
