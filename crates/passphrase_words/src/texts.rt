//! The prompt and the description as words of a request, escaped, and whether a line of 1,000 bytes
//! has room for them (Assuan manual, "client requests"). Pure. Begin with `texts_of`, which
//! `specs/Texts` defines.

ghost use Rattle.std.specs.Prelude.{◌≡◌, ◌≤◌, ◌<◌, ◌∷◌, [], decimal, length, IfOk, IfErr};
ghost use Rattle.std.specs.{List.flat_map, Option.option_map};
ghost use Rattle.passphrase_words.specs.Faults.{counted, fault_text, long_text};
ghost use Rattle.passphrase_words.specs.Parts.{HasPushed, default_front};
ghost use Rattle.passphrase_words.specs.Texts.{escape_of, word_of, prompt_word, description_or};
ghost use Rattle.passphrase_words.specs.Texts.{description_by, texts_of, longest_line};

use crate::WordsFault;
use crate::task::{Id, Texts};
use arrayvec::{ArrayVec, CapacityError};
use assuan_text::MAX_LINE_LEN;
use itoa::Buffer;

/// How many bytes the longest request has besides the id and the texts.
const FRAME_LEN: usize = 36;

/// The texts as words of a request, where each request has room for them. An empty description is
/// the default one, of a new passphrase or of what may be kept.
pub(crate) fn texts_of(
    id: &Id,
    prompt: Option<&str>,
    is_new: bool,
    description: &str,
) -> Result<Texts, WordsFault<'static>>
    ensures texts { let texts = texts_of id.entry.now.items (option_map (λ prompt. prompt.now) prompt.entry)
        (description_by is_new id.entry.now.items description.entry.now) in IfOk result (λ taken. taken.items ≡ texts) }
    ensures short { let texts = texts_of id.entry.now.items (option_map (λ prompt. prompt.now) prompt.entry)
        (description_by is_new id.entry.now.items description.entry.now) in IfOk result (λ _. length (longest_line id.entry.now.items texts) ≤ 1000) }
    ensures long { let texts = texts_of id.entry.now.items (option_map (λ prompt. prompt.now) prompt.entry)
        (description_by is_new id.entry.now.items description.entry.now) in IfErr result (λ _. 1000 < length (longest_line id.entry.now.items texts)) }
    ensures told { let texts = texts_of id.entry.now.items (option_map (λ prompt. prompt.now) prompt.entry)
        (description_by is_new id.entry.now.items description.entry.now) in IfErr result (λ fault. fault_text fault ≡ long_text id.entry.now.items texts) }
{
    let mut texts = Texts::new();
    if push_texts(&mut texts, id.as_slice(), prompt, is_new, description).is_err()
        || FRAME_LEN + id.len() + texts.len() > MAX_LINE_LEN
    {
        let len = request_len(id.as_slice(), prompt, is_new, description);
        return Err(WordsFault::LongTexts(decimal(len)));
    }
    Ok(texts)
}

/// Appends the words of the prompt and of the description.
fn push_texts(
    texts: &mut Texts,
    id: &[u8],
    prompt: Option<&str>,
    is_new: bool,
    description: &str,
) -> Result<(), CapacityError>
    ensures { HasPushed (texts_of id.now (option_map (λ prompt. prompt.now) prompt.entry)
        (description_by is_new id.now description.now)) texts.old.items result texts.new.items }
{
    match push_prompt(texts, prompt) {
        Ok(()) => push_behind(texts, id, is_new, description),
        Err(full) => Err(full),
    }
}

/// Appends a blank and the word of the description.
fn push_behind(
    texts: &mut Texts,
    id: &[u8],
    is_new: bool,
    description: &str,
) -> Result<(), CapacityError>
    ensures { HasPushed (32 ∷ word_of (description_or id.now
        (description_by is_new id.now description.now))) texts.old.items result texts.new.items }
{
    match push(texts, b" ") {
        Ok(()) => push_description(texts, id, is_new, description),
        Err(full) => Err(full),
    }
}

fn push_prompt(texts: &mut Texts, prompt: Option<&str>) -> Result<(), CapacityError>
    ensures { HasPushed (prompt_word (option_map (λ prompt. prompt.now) prompt.entry))
        texts.old.items result texts.new.items }
{
    match prompt {
        Some(text) => push_word(texts, text.as_bytes()),
        None => push(texts, b"X"),
    }
}

fn push_description(
    texts: &mut Texts,
    id: &[u8],
    is_new: bool,
    description: &str,
) -> Result<(), CapacityError>
    ensures { HasPushed (word_of (description_or id.now
        (description_by is_new id.now description.now))) texts.old.items result texts.new.items }
{
    if description.is_empty() {
        push_default(texts, id, is_new)
    } else {
        push_word(texts, description.as_bytes())
    }
}

/// Appends the word of the description where none is given.
fn push_default(texts: &mut Texts, id: &[u8], is_new: bool) -> Result<(), CapacityError>
    ensures { HasPushed (word_of (description_or id.now (description_by is_new id.now [])))
        texts.old.items result texts.new.items }
{
    match push(texts, default_front(is_new)) {
        Ok(()) => push_text(texts, id),
        Err(full) => Err(full),
    }
}

/// What the word of a description begins with where none is given.
fn default_front(is_new: bool) -> &'static [u8]
    ensures { result.now ≡ default_front is_new }
{
    if is_new {
        b"New+passphrase+for+"
    } else {
        b"Passphrase+"
    }
}

/// Appends the word that says a text.
fn push_word(texts: &mut Texts, text: &[u8]) -> Result<(), CapacityError>
    ensures { HasPushed (word_of text.now) texts.old.items result texts.new.items }
{
    if text == b"X".as_slice() {
        push(texts, b"%58")
    } else {
        push_text(texts, text)
    }
}

/// Appends the bytes of a text.
fn push_text(texts: &mut Texts, text: &[u8]) -> Result<(), CapacityError>
    ensures { HasPushed (flat_map escape_of text.now) texts.old.items result texts.new.items }
{
    for byte in text {
        if let Err(full) = push(texts, escape_of(byte)) {
            return Err(full);
        }
    }
    Ok(())
}

/// What a byte of a text is in a word.
fn escape_of(byte: &u8) -> &[u8]
    ensures { result.now ≡ escape_of byte.now }
{
    match *byte {
        b' ' | b'\t' => b"+",
        b'%' => b"%25",
        b'+' => b"%2B",
        b'\n' => b"%0A",
        b'\r' => b"%0D",
        _ => std::slice::from_ref(byte),
    }
}

fn push(texts: &mut Texts, bytes: &[u8]) -> Result<(), CapacityError>
    ensures { HasPushed bytes.now texts.old.items result texts.new.items }
{
    texts.try_extend_from_slice(bytes)
}

/// How many bytes the longest request has with these texts, for a user.
fn request_len(id: &[u8], prompt: Option<&str>, is_new: bool, description: &str) -> usize
    ensures { result ≡ counted (length (longest_line id.now (texts_of id.now
        (option_map (λ prompt. prompt.now) prompt.entry)
        (description_by is_new id.now description.now)))) }
{
    prompt_len(prompt)
        .saturating_add(description_len(id, is_new, description))
        .saturating_add(id.len())
        .saturating_add(FRAME_LEN + 1)
}

fn prompt_len(prompt: Option<&str>) -> usize
    ensures { result ≡ counted (length (prompt_word
        (option_map (λ prompt. prompt.now) prompt.entry))) }
{
    match prompt {
        Some(text) => word_len(text.as_bytes()),
        None => 1,
    }
}

fn description_len(id: &[u8], is_new: bool, description: &str) -> usize
    ensures { result ≡ counted (length (word_of (description_or id.now
        (description_by is_new id.now description.now)))) }
{
    if description.is_empty() {
        default_len(id, is_new)
    } else {
        word_len(description.as_bytes())
    }
}

fn default_len(id: &[u8], is_new: bool) -> usize
    ensures { result ≡ counted (length (word_of (description_or id.now
        (description_by is_new id.now [])))) }
{
    if is_new {
        text_len(id).saturating_add(19)
    } else {
        text_len(id).saturating_add(11)
    }
}

fn word_len(text: &[u8]) -> usize
    ensures { result ≡ counted (length (word_of text.now)) }
{
    if text == b"X".as_slice() {
        3
    } else {
        text_len(text)
    }
}

fn text_len(text: &[u8]) -> usize
    ensures { result ≡ counted (length (flat_map escape_of text.now)) }
{
    let mut len: usize = 0;
    for byte in text {
        len = len.saturating_add(escape_of(byte).len());
    }
    len
}

fn decimal(number: usize) -> ArrayVec<u8, 20>
    ensures { result.items ≡ decimal number }
{
    let mut buffer = Buffer::new();
    let mut digits = ArrayVec::new();
    digits
        .try_extend_from_slice(buffer.format(number).as_bytes())
        .unwrap();
    digits
}
