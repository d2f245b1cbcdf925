//! What a question of a program is for, by its words. Pure. Begin with `prompt_for`; `specs/Questions`
//! defines the rules.

ghost use Rattle.std.specs.{Prelude.{◌≡◌, false, take}, Option.option_map};
ghost use Rattle.passphrase_words.specs.Questions.{begins_with, has_word, asks_for_name};
ghost use Rattle.passphrase_words.specs.Questions.{prompt_for};

/// What stands before the field of this question, where it isn't the agent's own text.
pub(crate) fn prompt_for(text: &str) -> Option<&'static str>
    ensures { option_map (λ prompt. prompt.now) result ≡ prompt_for text.now }
{
    if asks_for_name(text) {
        Some("User name:")
    } else {
        None
    }
}

/// Whether a user's name is asked for.
fn asks_for_name(text: &str) -> bool
    ensures { result ≡ asks_for_name text.now }
{
    has_word(text.as_bytes(), b"username") || has_word(text.as_bytes(), b"user name")
}

/// Whether the word stands somewhere in the text, without regard to the case of letters.
fn has_word(text: &[u8], word: &[u8]) -> bool
    ensures { result ≡ has_word word.now text.now }
{
    let mut rest = text;
    while let Some((_, after)) = rest.split_first() {
        if begins_with(rest, word) {
            return true;
        }
        rest = after;
    }
    false
}

fn begins_with(text: &[u8], word: &[u8]) -> bool
    ensures { result ≡ begins_with word.now text.now }
{
    front_of(text, word.len()).eq_ignore_ascii_case(word)
}

/// The first so many bytes, or all of them.
fn front_of(text: &[u8], len: usize) -> &[u8]
    ensures { result.now ≡ take len text.entry.now }
{
    if len < text.len() { &text[..len] } else { text }
}
