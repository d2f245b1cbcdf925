//! The words of a command line and of an askpass, read as what they ask for, and the lines of use.
//! Pure. Begin with `read_words` and `read_askpass`; how they are read says `specs/Words`.

ghost use Rattle.std.specs.Prelude.{◌≡◌, ◌∷◌, [], ℕ, List, Some, None, IfOk, IfErr, MatchResult};
ghost use Rattle.std.specs.{Prelude.{map, string_bytes}, Option.option_map};
ghost use Rattle.passphrase_words.specs.Faults.{fault_text};
ghost use Rattle.passphrase_words.specs.Parts.{rest_of, settings, front_of, front_word};
ghost use Rattle.passphrase_words.specs.Refusals.{Refuses, askpass_fault, unread_text};
ghost use Rattle.passphrase_words.specs.Rules.{askpass_asked};
ghost use Rattle.passphrase_words.specs.Spelling.{operands_of};
ghost use Rattle.passphrase_words.specs.Tasks.{TaskValue, WantedValue, task_value, wanted_value};
ghost use Rattle.passphrase_words.specs.Words.{Reads, ReadsAskpass, asks_for_help};

use crate::ids::{askpass_id, begins_with_dash};
use crate::options::takes;
use crate::questions::prompt_for;
use crate::rules::task_from;
use crate::settings::{rest_of, wish};
use crate::texts::texts_of;
use crate::{Act, Task, WordsFault};

/// The lines of use.
pub const USAGE: &str = "\
usage: passphrase [--homedir DIR] [--timeout SECONDS] [--new | --no-ask] [--ttl SECONDS] \
[--prompt TEXT] [--null] ID [DESCRIPTION]
       passphrase [--homedir DIR] [--timeout SECONDS] --cached ID
       passphrase [--homedir DIR] [--timeout SECONDS] --forget ID
       passphrase [--homedir DIR] [--timeout SECONDS] --forget-all
       passphrase [--homedir DIR] [--timeout SECONDS] --store ID < FILE
       passphrase --help | --version
       passphrase-askpass [--forget] TEXT
";

/// What a command line asks for.
#[derive(Drop)]
pub enum Wanted<'a> {
    /// The lines of use.
    Help,
    /// The version.
    Version,
    /// A task.
    Task(Task<'a>),
}

/// Reads the words of a command line, without the program's name.
pub fn read_words(words: &[String]) -> Result<Wanted<'_>, WordsFault<'_>>
    ensures read { IfOk result
        (λ wanted. Reads (map string_bytes words.entry.now) (wanted_value wanted)) }
    ensures refused { IfErr result (λ _. (wanted : WantedValue)
        → Reads (map string_bytes words.entry.now) wanted → ⊥) }
    ensures told { IfErr result
        (λ fault. Refuses (map string_bytes words.entry.now) (fault_text fault)) }
{
    let rest = rest_of(words);
    match front_of(rest) {
        Front::Help => Ok(Wanted::Help),
        Front::Version => Ok(Wanted::Version),
        Front::Other => read_task(words, rest),
    }
}

/// Reads words that ask for neither help nor the version; the rest is what is behind the options.
fn read_task<'a>(words: &'a [String], rest: &'a [String]) -> Result<Wanted<'a>, WordsFault<'a>>
    requires rest { map string_bytes rest.now ≡ rest_of (map string_bytes words.now) }
    requires all { settings (map string_bytes rest.now) ≡ [] }
    requires other { front_of (map string_bytes rest.now) ≡ Front.Other }
    ensures read { IfOk result
        (λ wanted. Reads (map string_bytes words.entry.now) (wanted_value wanted)) }
    ensures refused { IfErr result (λ _. (wanted : WantedValue)
        → Reads (map string_bytes words.entry.now) wanted → ⊥) }
    ensures told { IfErr result
        (λ fault. Refuses (map string_bytes words.entry.now) (fault_text fault)) }
{
    match operands_of(rest) {
        Ok(operands) => match task_from(words, operands) {
            Ok(task) => Ok(Wanted::Task(task)),
            Err(fault) => Err(fault),
        },
        Err(word) => Err(unread(word)),
    }
}

/// What the word behind the options asks for.
#[derive(Clone, Copy)]
enum Front {
    Help,
    Version,
    Other,
}

fn front_of(rest: &[String]) -> Front
    ensures { result ≡ front_of (map string_bytes rest.now) }
{
    let Some((word, _)) = rest.split_first() else {
        return Front::Other;
    };
    front_word(word)
}

fn front_word(word: &str) -> Front
    ensures { result ≡ front_word word.now }
{
    if asks_for_help(word) {
        Front::Help
    } else if word == "--version" {
        Front::Version
    } else {
        Front::Other
    }
}

fn asks_for_help(word: &str) -> bool
    ensures { result ≡ asks_for_help word.now }
{
    word == "--help" || word == "-h"
}

/// The operands of what is behind the options, or the word that is none and ends them not.
fn operands_of(rest: &[String]) -> Result<&[String], &str>
    ensures { MatchResult result
        (λ operands. operands_of (map string_bytes rest.entry.now)
        ≡ Some (map string_bytes operands.now))
        (λ word. (operands_of (map string_bytes rest.entry.now) ≡ None)
        × (behind : List (List ℕ)) × (map string_bytes rest.entry.now ≡ word.now ∷ behind)) }
{
    let Some((word, behind)) = rest.split_first() else {
        return Ok(rest);
    };
    if word.as_str() == "--" {
        Ok(behind)
    } else if begins_with_dash(word) {
        Err(word)
    } else {
        Ok(rest)
    }
}

/// Why this word is no option.
fn unread(word: &str) -> WordsFault<'_>
    ensures { fault_text result ≡ unread_text word.entry.now }
{
    if takes(word).is_some() {
        WordsFault::Wants(word, wish(word))
    } else {
        WordsFault::Unknown(word)
    }
}

/// Reads the words of an askpass, without the program's name: one text, which the prompt shows, and
/// before it `--forget` where its passphrase is to be forgotten.
pub fn read_askpass(words: &[String]) -> Result<Task<'_>, WordsFault<'_>>
    ensures read { IfOk result
        (λ task. ReadsAskpass (map string_bytes words.entry.now) (task_value task)) }
    ensures refused { IfErr result (λ _. (task : TaskValue)
        → ReadsAskpass (map string_bytes words.entry.now) task → ⊥) }
    ensures told { IfErr result (λ fault. askpass_fault (map string_bytes words.entry.now)
        ≡ Some (fault_text fault)) }
{
    let Some((text, act)) = askpass_asked(words) else {
        return Err(WordsFault::Askpass);
    };
    let id = askpass_id(text);
    let texts = texts_of(&id, prompt_for(text), false, text)?;
    Ok(Task {
        folder: None,
        seconds: None,
        act,
        id,
        texts,
    })
}

/// The text that an askpass is called with, and what is to be done for it.
fn askpass_asked(words: &[String]) -> Option<(&str, Act)>
    ensures { option_map (λ asked. (asked.0.now, asked.1)) result
        ≡ askpass_asked (map string_bytes words.entry.now) }
{
    match words {
        [text] if text.as_str() != FORGETS => Some((text, ASKS)),
        [word, text] if word.as_str() == FORGETS => Some((text, Act::Forget)),
        _ => None,
    }
}

/// By this word the passphrase of an askpass's text is forgotten.
const FORGETS: &str = "--forget";

/// What an askpass does with a text alone.
const ASKS: Act = Act::Give {
    repeats: false,
    quiet: false,
    ttl: None,
    feeds: true,
};
