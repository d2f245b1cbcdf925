//! What is told of a setting, in words for whoever wrote it: where it stands, what becomes of it,
//! and why. It takes memory for the text alone. Begin with `told_text`; definitions are in
//! `specs/Telling`.

ghost use Rattle.std.specs.Prelude.{◌≡◌, IfOk, decimal, map, take};
ghost use Rattle.std.specs.{List.flat_map};
ghost use Rattle.{printable.specs.Printables.printable, agent_conf.specs.Told.told_by};
ghost use Rattle.agent_conf.specs.Telling.{is_apart, laxer_text, nearest_text, passed_words};
ghost use Rattle.agent_conf.specs.Telling.{place_text, refusal_words, setting_text, shown, told_text};
ghost use Rattle.agent_conf.specs.{Telling.{unkept_words, verdict_text, why_text}, Written.written};

use crate::setting::{Place, Setting};
use crate::settled::option_of;
use crate::table::Unkept;
use crate::told::Told;
use crate::verdict::{Passed, Refusal, Verdict};
use itoa::Buffer;
use printable::printable_byte;
use std::alloc::{AllocError, Global};

/// How many bytes of a line or word are told.
const MAX_TOLD: usize = 200;

/// What is told of a setting, as a line without its end. The path of the file isn't in it, since
/// whoever tells it knows it.
pub fn told_text(alloc: Global, told: &Told<'_>) -> Result<Vec<u8>, AllocError>
    ensures { IfOk result (λ text. text.items ≡ told_text (told_by told.now)) }
{
    let name = option_of(&told.setting).unwrap_or(b"");
    let place = place_text(alloc, &told.setting)?;
    let verdict = verdict_text(alloc, name, told.verdict)?;
    let setting = setting_text(alloc, &told.setting)?;
    let why = why_text(alloc, told.verdict)?;
    joined(alloc, &[&place, &verdict, &setting, &why])
}

/// Where it stands.
fn place_text(alloc: Global, setting: &Setting<'_>) -> Result<Vec<u8>, AllocError>
    ensures { IfOk result (λ text. text.items ≡ place_text (written setting.now)) }
{
    match setting.place {
        Place::Words => Vec::from_slice(alloc, b"a word of the command line "),
        Place::Machine | Place::Home => {
            let mut buffer = Buffer::new();
            let number = buffer.format(setting.number).as_bytes();
            joined(alloc, &[b"line ", number, b", "])
        }
    }
}

/// What becomes of it.
fn verdict_text(alloc: Global, name: &[u8], verdict: Verdict) -> Result<Vec<u8>, AllocError>
    ensures { IfOk result (λ text. text.items ≡ verdict_text name.now verdict) }
{
    match verdict {
        Verdict::Kept => Vec::from_slice(alloc, b"is kept: "),
        Verdict::Nearest(kept) => nearest_text(alloc, name, kept),
        Verdict::PassedOver(_) => Vec::from_slice(alloc, b"is passed over: "),
        Verdict::Refused(_) => Vec::from_slice(alloc, b"keeps the agent from starting: "),
    }
}

fn nearest_text(alloc: Global, name: &[u8], kept: u64) -> Result<Vec<u8>, AllocError>
    ensures { IfOk result (λ text. text.items ≡ nearest_text name.now kept) }
{
    let mut buffer = Buffer::new();
    let kept = buffer.format(kept).as_bytes();
    let name = shown(alloc, name)?;
    joined(
        alloc,
        &[
            b"counts as ",
            &name,
            b" ",
            kept,
            b", the nearest that there is: ",
        ],
    )
}

/// The line, or the word with the one that is its value.
fn setting_text(alloc: Global, setting: &Setting<'_>) -> Result<Vec<u8>, AllocError>
    ensures { IfOk result (λ text. text.items ≡ setting_text (written setting.now)) }
{
    let text = shown(alloc, setting.text)?;
    if !is_apart(setting) {
        return Ok(text);
    }
    let value = shown(alloc, setting.value)?;
    joined(alloc, &[&text, b" ", &value])
}

/// Whether the value is the next word of the command line.
fn is_apart(setting: &Setting<'_>) -> bool
    ensures { result ≡ is_apart (written setting.now) }
{
    match setting.place {
        Place::Words => { setting.name.len() == setting.text.len() && !setting.value.is_empty() }
        Place::Machine | Place::Home => false,
    }
}

/// The text as a line of a terminal can hold it.
fn shown(alloc: Global, text: &[u8]) -> Result<Vec<u8>, AllocError>
    ensures { IfOk result (λ all. all.items ≡ shown text.now) }
{
    if text.len() <= MAX_TOLD {
        return printable_text(alloc, text);
    }
    let (front, _) = text.split_at(MAX_TOLD);
    let told = printable_text(alloc, front)?;
    joined(alloc, &[&told, b".."])
}

/// Bytes as a line of a terminal or a log can hold them.
pub fn printable_text(alloc: Global, text: &[u8]) -> Result<Vec<u8>, AllocError>
    ensures { IfOk result (λ all. all.items ≡ printable text.now) }
{
    let mut all = Vec::new(alloc);
    for byte in text {
        all.push(printable_byte(*byte))?;
    }
    Ok(all)
}

/// Why, behind the setting.
fn why_text(alloc: Global, verdict: Verdict) -> Result<Vec<u8>, AllocError>
    ensures { IfOk result (λ text. text.items ≡ why_text verdict) }
{
    match verdict {
        Verdict::Kept | Verdict::Nearest(_) => Ok(Vec::new(alloc)),
        Verdict::PassedOver(passed) => Vec::from_slice(alloc, passed_words(passed)),
        Verdict::Refused(refusal) => {
            let why = refusal_text(alloc, refusal)?;
            joined(alloc, &[b" (", &why, b")"])
        }
    }
}

fn passed_words(passed: Passed) -> &'static [u8]
    ensures { result.now ≡ passed_words passed }
{
    match passed {
        Passed::NoLimit => b"",
        Passed::WordsAlone => b" (it is a word of the command line alone)",
        Passed::FilesAlone => b" (it counts in files alone)",
        Passed::OtherSocket => b" (it can be S.gpg-agent.extra in the home folder, or none)",
    }
}

/// Why it keeps the agent from starting, and what to do.
fn refusal_text(alloc: Global, refusal: Refusal) -> Result<Vec<u8>, AllocError>
    ensures { IfOk result (λ text. text.items ≡ refusal_words refusal) }
{
    let words: &[u8] = match refusal {
        Refusal::Laxer(most) => return laxer_text(alloc, most),
        Refusal::NotText => b"it isn't UTF-8, or has a zero byte: write it anew",
        Refusal::ForSomeUsers => {
            b"what holds for some users alone isn't read: write the lines without it"
        }
        Refusal::Unknown => b"gpg-agent has no such option: see how it is spelled, or take it out",
        Refusal::NoNumber => b"it wants a number, of digits alone: write one, or take it out",
        Refusal::HasValue => b"it has no value: take the value out, or the line",
        Refusal::NotAbsolute => {
            b"it has to be an absolute path, as /usr/bin/pinentry is, or begin with ~/"
        }
        Refusal::TooLong => b"the path has more than 200 bytes: take a shorter one",
        Refusal::NotKept(unkept) => unkept_words(unkept),
        Refusal::NoFolder => b"it wants a folder, whose path has at most 200 bytes",
        Refusal::NoCommand => b"no command is run beside the agent: start it by itself",
        Refusal::NoSockets => {
            b"sockets that a service manager hands over aren't taken: use --no-detach"
        }
    };
    Vec::from_slice(alloc, words)
}

fn laxer_text(alloc: Global, most: u64) -> Result<Vec<u8>, AllocError>
    ensures { IfOk result (λ text. text.items ≡ laxer_text most) }
{
    let mut buffer = Buffer::new();
    let most = buffer.format(most).as_bytes();
    joined(
        alloc,
        &[
            b"the agent counts up to ",
            most,
            b", which is laxer: write at most ",
            most,
        ],
    )
}

fn unkept_words(unkept: Unkept) -> &'static [u8]
    ensures { result.now ≡ unkept_words unkept }
{
    match unkept {
        Unkept::TrustList => {
            b"MARKTRUSTED and the user's trust list are served all the same: take it out, or leave this folder to GnuPG's own agent"
        }
        Unkept::PassphraseRule => {
            b"the agent has no such rule for passphrases: take it out, or leave this folder to GnuPG's own agent"
        }
        Unkept::IdleTime => {
            b"the agent stays when nobody calls it: take it out, or leave this folder to GnuPG's own agent"
        }
        Unkept::NoPrompts => {
            b"the agent asks by a pinentry all the same: take it out, or leave this folder to GnuPG's own agent"
        }
        Unkept::Terminal => {
            b"the agent asks in the terminal that its client names: take it out, or leave this folder to GnuPG's own agent"
        }
    }
}

/// Texts one behind another.
fn joined(alloc: Global, texts: &[&[u8]]) -> Result<Vec<u8>, AllocError>
    ensures { IfOk result (λ all. all.items ≡ flat_map (λ text. text.now) texts.now) }
{
    let mut all = Vec::new(alloc);
    for text in texts {
        all.extend_from_slice(text)?;
    }
    Ok(all)
}
