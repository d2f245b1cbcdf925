//! What one line of the file says. Pure, over slices. Begin with `judgement_of`; each function is
//! its namesake in `specs/Entries`, over the line's words.

ghost use Rattle.std.specs.{Prelude.◌≡◌, Str.bytes_eq};
ghost use Rattle.assuan_text.specs.Words.{words};
ghost use Rattle.trust_list.specs.Entries.{are_pairs, capital_digits, first_word_judgement};
ghost use Rattle.trust_list.specs.Entries.{is_flag, is_in_pairs, judgement_of, spells};

use assuan_text::next_word;

/// What the line says of the fingerprint of these digits, which are capital ones.
pub(crate) fn judgement_of(digits: &[u8; 40], line: &[u8]) -> Option<bool>
    ensures { result ≡ judgement_of digits.now (words line.now) }
{
    let (word, rest) = next_word(line)?;
    let (flag, _) = next_word(rest)?;
    if is_flag(flag) {
        first_word_judgement(digits, word)
    } else {
        None
    }
}

fn is_flag(word: &[u8]) -> bool
    ensures { result ≡ is_flag word.now }
{
    matches!(word, b"S" | b"P" | b"*")
}

/// What the first word of an entry says of the fingerprint.
fn first_word_judgement(digits: &[u8; 40], word: &[u8]) -> Option<bool>
    ensures { result ≡ first_word_judgement digits.now word.now }
{
    match word {
        [b'!', spelled @ ..] => spells(digits, spelled).then_some(false),
        _ => spells(digits, word).then_some(true),
    }
}

fn spells(digits: &[u8; 40], word: &[u8]) -> bool
    ensures { result ≡ spells digits.now word.now }
{
    is_in_pairs(word) && has_digits(digits, word)
}

/// Whether the digits before, between and behind the colons of the word are in pairs.
fn is_in_pairs(word: &[u8]) -> bool
    ensures { result ≡ is_in_pairs word.now }
{
    word.split(|byte| *byte == b':').all(are_pairs)
}

fn are_pairs(part: &[u8]) -> bool
    ensures { result ≡ are_pairs part.now }
{
    !part.is_empty() && part.len() % 2 == 0
}

/// Whether the digits of the word, whatever the case of its letters, are these.
fn has_digits(digits: &[u8; 40], word: &[u8]) -> bool
    ensures { result ≡ bytes_eq (capital_digits word.now) digits.now }
{
    let mut rest: &[u8] = digits;
    for &byte in word {
        if byte == b':' {
            continue;
        }
        match rest {
            [first, others @ ..] if *first == byte.to_ascii_uppercase() => rest = others,
            _ => return false,
        }
    }
    rest.is_empty()
}
