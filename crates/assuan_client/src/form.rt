//! What one line of a server is: data, a note, OK, ERR, an inquiry, or none of these (Assuan
//! manual, "server responses"). Pure, over slices of the line. Begin with `form_of`, and with
//! `answer_form` of `specs/Forms`, which it is.

ghost use Rattle.std.specs.{Prelude.{◌≡◌, ◌≤◌, length}, List.{before_first, after_first}};
ghost use Rattle.assuan_text.specs.{Blanks.is_blank, Numbers.number_of};
ghost use Rattle.assuan_client.specs.Forms.{answer_form, form_seen, form_by, error_of, inquiry_of};
ghost use Rattle.assuan_client.specs.Forms.{word_of, text_of, IfInquiry};

use assuan_text::{escaped_part, first_word, number_of};

/// What a line of a server is.
#[derive(Clone, Copy)]
pub(crate) enum Form<'a> {
    Data,
    /// A comment or a status line.
    Note,
    Ok,
    Err(u32),
    Inquiry { word: &'a [u8], text: &'a [u8] },
    Foreign,
}

/// What a line of a server is.
pub(crate) fn form_of(line: &[u8]) -> Form<'_>
    ensures form { form_seen result ≡ answer_form line.now }
    ensures short { IfInquiry result
        (λ w t. (length w ≤ length line.now) × (length t ≤ length line.now)) }
{
    if escaped_part(line).is_some() {
        return Form::Data;
    }
    if line.first() == Some(&b'#') {
        return Form::Note;
    }
    let (word, text) = word_and_text(line);
    form_by(word, text)
}

/// What a line of a server is, by its first word and what comes behind it.
fn form_by<'a>(word: &[u8], text: &'a [u8]) -> Form<'a>
    ensures form { form_seen result ≡ form_by word.now text.now }
    ensures short { IfInquiry result
        (λ w t. (length w ≤ length text.now) × (length t ≤ length text.now)) }
{
    if word == b"S".as_slice() {
        Form::Note
    } else if word == b"OK".as_slice() {
        Form::Ok
    } else if word == b"ERR".as_slice() {
        error_of(number_of(first_word(text)))
    } else if word == b"INQUIRE".as_slice() {
        inquiry_of(text)
    } else {
        Form::Foreign
    }
}

/// An error line by its number, if it has one.
fn error_of<'a>(number: Option<u64>) -> Form<'a>
    ensures form { form_seen result ≡ error_of number }
    ensures short { IfInquiry result (λ _ _. ⊥) }
{
    match number {
        Some(number) if number <= u32::MAX as u64 => Form::Err(number as u32),
        _ => Form::Foreign,
    }
}

/// An inquiry by its word and the text after it.
fn inquiry_of(text: &[u8]) -> Form<'_>
    ensures form { form_seen result ≡ inquiry_of (word_of text.now) (text_of text.now) }
    ensures short { IfInquiry result
        (λ w t. (length w ≤ length text.now) × (length t ≤ length text.now)) }
{
    let (word, text) = word_and_text(text);
    if word.is_empty() {
        return Form::Foreign;
    }
    Form::Inquiry { word, text }
}

/// The line up to its first blank or tab, and what comes after that one.
fn word_and_text(line: &[u8]) -> (&[u8], &[u8])
    ensures word { result.0.now ≡ before_first is_blank line.now }
    ensures text { result.1.now ≡ after_first is_blank line.now }
    ensures shorter { (length result.0.now ≤ length line.now)
        × (length result.1.now ≤ length line.now) }
{
    let word = first_word(line);
    if word.len() == line.len() {
        return (word, &[]);
    }
    (word, &line[word.len() + 1..])
}
