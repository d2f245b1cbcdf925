//! The options of `passphrase` by their names, and what each takes. Pure. Begin with the table
//! `OPTIONS` and `form_of`; `specs/Options` defines the forms.

ghost use Rattle.std.specs.{Prelude.{◌≡◌, Some}, Option.option_map};
ghost use Rattle.passphrase_words.specs.Options.{form_of, takes_value, is_of_form, seconds_of};
ghost use Rattle.passphrase_words.specs.Spelling.{takes};

use assuan_text::{found, number_of};

/// What an option takes.
#[derive(Clone, Copy)]
pub(crate) enum Form {
    /// No value.
    Flag,
    /// A text that isn't empty.
    Text,
    /// 1 to 10 decimal digits, zeros in front among them, whose number is 1 to 2^31 - 1.
    Seconds,
}

const OPTIONS: [(&[u8], Form); 11] = [
    (b"--new", Form::Flag),
    (b"--no-ask", Form::Flag),
    (b"--null", Form::Flag),
    (b"--forget", Form::Flag),
    (b"--forget-all", Form::Flag),
    (b"--store", Form::Flag),
    (b"--cached", Form::Flag),
    (b"--prompt", Form::Text),
    (b"--homedir", Form::Text),
    (b"--timeout", Form::Seconds),
    (b"--ttl", Form::Seconds),
];

/// What the option of this name takes.
#[tactic(auto, unfolding(crate::specs::Options::form_of))]
pub(crate) fn form_of(name: &str) -> Option<Form>
    ensures { result ≡ form_of name.now }
{
    found(name.as_bytes(), &OPTIONS)
}

/// Whether the option of this name takes a value, where there is one.
pub(crate) fn takes(name: &str) -> Option<bool>
    ensures { result ≡ takes name.now }
{
    match form_of(name)? {
        Form::Flag => Some(false),
        Form::Text | Form::Seconds => Some(true),
    }
}

/// Whether a value, or none, has the form of its option.
pub(crate) fn is_of_form(form: Form, value: Option<&str>) -> bool
    ensures { result ≡ is_of_form form (option_map (λ value. value.now) value.entry) }
{
    match (form, value) {
        (Form::Flag, None) => true,
        (Form::Text, Some(text)) => !text.is_empty(),
        (Form::Seconds, Some(number)) => seconds_of(number).is_some(),
        _ => false,
    }
}

/// The seconds that a value is, 1 to 2^31 - 1.
pub(crate) fn seconds_of(value: &str) -> Option<u32>
    ensures { result ≡ seconds_of value.now }
{
    let number = number_of(value.as_bytes())?;
    if 1 <= number && number <= 2_147_483_647 {
        Some(number as u32)
    } else {
        None
    }
}
