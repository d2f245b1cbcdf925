//! Which options and operands go together, and the task that they make. Pure. Begin with
//! `task_from`; which task it is says `IsTask` (`specs/Rules`).

ghost use Rattle.std.specs.Prelude.{◌≡◌, ◌↔◌, true, false, get_or, [], length, map, string_bytes};
ghost use Rattle.std.specs.Prelude.{is_some, IsOk, IfOk, IfErr, MatchOption, MatchResult, None};
ghost use Rattle.std.specs.{Prelude.{Some, IfSome}, List.list_all};
ghost use Rattle.assuan_text.specs.Rows.{pairs_of};
ghost use Rattle.passphrase_words.specs.{Faults.fault_text, Parts.settings};
ghost use Rattle.passphrase_words.specs.Refusals.{task_fault, pairs_fault, alone_fault, alone_word};
ghost use Rattle.passphrase_words.specs.Refusals.{operands_fault_text};
ghost use Rattle.passphrase_words.specs.Rules.{IsTask, is_apart, wants_id_alone, are_counted};
ghost use Rattle.passphrase_words.specs.Rules.{is_alone_or_free, act_of, id_given};
ghost use Rattle.passphrase_words.specs.Tasks.{TaskValue, task_value};

use crate::ids::id_of;
use crate::settings::{check_each, is_set, seconds_given, value_given};
use crate::texts::texts_of;
use crate::{Act, Task, WordsFault};

/// Options that can't be given together.
const EXCLUDED: [(&str, &str); 25] = [
    ("--new", "--forget"),
    ("--new", "--store"),
    ("--new", "--cached"),
    ("--forget", "--store"),
    ("--forget", "--cached"),
    ("--store", "--cached"),
    ("--new", "--no-ask"),
    ("--forget", "--no-ask"),
    ("--store", "--no-ask"),
    ("--cached", "--no-ask"),
    ("--no-ask", "--ttl"),
    ("--forget", "--ttl"),
    ("--store", "--ttl"),
    ("--cached", "--ttl"),
    ("--forget", "--null"),
    ("--store", "--null"),
    ("--cached", "--null"),
    ("--forget-all", "--new"),
    ("--forget-all", "--forget"),
    ("--forget-all", "--store"),
    ("--forget-all", "--cached"),
    ("--forget-all", "--no-ask"),
    ("--forget-all", "--ttl"),
    ("--forget-all", "--null"),
    ("--forget-all", "--prompt"),
];

/// The task of the options in front of the words, and of these operands.
pub(crate) fn task_from<'a>(
    words: &'a [String],
    operands: &'a [String],
) -> Result<Task<'a>, WordsFault<'a>>
    ensures read { IfOk result (λ task. IsTask (settings (map string_bytes words.entry.now))
        (map string_bytes operands.entry.now) (task_value task)) }
    ensures refused { IfErr result (λ _. (task : TaskValue)
        → IsTask (settings (map string_bytes words.entry.now)) (map string_bytes operands.entry.now)
        task → ⊥) }
    ensures told { IfErr result (λ fault. task_fault (settings (map string_bytes words.entry.now))
        (map string_bytes operands.entry.now) ≡ Some (fault_text fault)) }
{
    check_each(words)?;
    check_pairs(words, &EXCLUDED)?;
    check_alone(words, operands)?;
    let Some((name, description)) = id_and_description(words, operands) else {
        return Err(operands_fault(words));
    };
    let id = id_of(name)?;
    let prompt = value_given(words, "--prompt");
    let texts = texts_of(&id, prompt, is_set(words, "--new"), description)?;
    Ok(Task {
        folder: value_given(words, "--homedir"),
        seconds: seconds_given(words, "--timeout"),
        act: act_of(words),
        id,
        texts,
    })
}

/// No two of a row are given.
fn check_pairs(
    words: &[String],
    pairs: &[(&'static str, &'static str)],
) -> Result<(), WordsFault<'static>>
    ensures apart { IsOk result ↔ (list_all (is_apart (settings (map string_bytes words.now)))
        (pairs_of pairs.now) ≡ true) }
    ensures told { MatchResult result
        (λ _. pairs_fault (settings (map string_bytes words.now)) (pairs_of pairs.now) ≡ None)
        (λ fault. pairs_fault (settings (map string_bytes words.now)) (pairs_of pairs.now)
        ≡ Some (fault_text fault)) }
{
    for (one, other) in pairs {
        if is_set(words, one) && is_set(words, other) {
            return Err(WordsFault::Apart(one, other));
        }
    }
    Ok(())
}

/// Where an id alone is wanted, nothing else is given.
fn check_alone(words: &[String], operands: &[String]) -> Result<(), WordsFault<'static>>
    ensures alone { IsOk result ↔ (is_alone_or_free (settings (map string_bytes words.now))
        (map string_bytes operands.now) ≡ true) }
    ensures told { let fault_is = alone_fault (settings (map string_bytes words.now))
        (map string_bytes operands.now) in MatchResult result
        (λ _. fault_is ≡ None) (λ fault. fault_is ≡ Some (fault_text fault)) }
{
    match alone(words) {
        Some(name) if operands.len() != 1 || is_set(words, "--prompt") => {
            Err(WordsFault::Alone(name))
        }
        _ => Ok(()),
    }
}

/// The option that wants an id alone.
fn alone(words: &[String]) -> Option<&'static str>
    ensures wants { is_some result ≡ wants_id_alone (settings (map string_bytes words.now)) }
    ensures word { IfSome result
        (λ name. name.now ≡ alone_word (settings (map string_bytes words.now))) }
{
    if is_set(words, "--forget") {
        Some("--forget")
    } else if is_set(words, "--store") {
        Some("--store")
    } else if is_set(words, "--cached") {
        Some("--cached")
    } else {
        None
    }
}

/// The id, and the description or an empty one. Where all is forgotten there is no operand.
fn id_and_description<'a>(words: &[String], operands: &'a [String]) -> Option<(&'a str, &'a str)>
    ensures counted { is_some result ≡ are_counted (settings (map string_bytes words.now))
        (map string_bytes operands.entry.now) }
    ensures texts { let given = settings (map string_bytes words.now) in
        let these = map string_bytes operands.entry.now in
        MatchOption result (are_counted given these ≡ false)
        (λ texts. (texts.0.now ≡ id_given given these) × (texts.1.now ≡ get_or these 1 [])) }
{
    if is_set(words, "--forget-all") {
        return match operands {
            [] => Some(("all", "")),
            _ => None,
        };
    }
    match operands {
        [id] => Some((id, "")),
        [id, description] => Some((id, description)),
        _ => None,
    }
}

/// What is told of operands that are too many or too few.
fn operands_fault(words: &[String]) -> WordsFault<'static>
    ensures { fault_text result ≡ operands_fault_text (settings (map string_bytes words.now)) }
{
    if is_set(words, "--forget-all") {
        WordsFault::NoId
    } else {
        WordsFault::Operands
    }
}

/// What is to be done.
fn act_of(words: &[String]) -> Act
    ensures { result ≡ act_of (settings (map string_bytes words.now)) }
{
    if is_set(words, "--forget-all") {
        Act::ForgetAll
    } else if is_set(words, "--forget") {
        Act::Forget
    } else if is_set(words, "--store") {
        Act::Store
    } else if is_set(words, "--cached") {
        Act::Cached
    } else {
        Act::Give {
            repeats: is_set(words, "--new"),
            quiet: is_set(words, "--no-ask"),
            ttl: seconds_given(words, "--ttl"),
            feeds: !is_set(words, "--null"),
        }
    }
}
