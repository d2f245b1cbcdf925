//! The options of the agent by their names, and what each takes: a flag, a path, or a number
//! between bounds. Pure. Begin with the table `FORMS`; `specs/Forms` has it again, with what a
//! value of each form is.

ghost use Rattle.std.specs.{Prelude.{◌≡◌, Some}, Option.option_map};
ghost use Rattle.assuan_text.specs.Rows.{found, rows_of};
ghost use Rattle.agent_top.specs.Forms.{form_of, is_of_form, path_of, number_between, number_for};

use assuan_text::number_of;
use cache_policy::{MAX_SECONDS, MAX_SECRET_LEN};
use session_options::{MAX_S2K_COUNT, MAX_WORKERS, MIN_S2K_COUNT, MIN_WORKERS};

/// What an option takes.
#[derive(Clone, Copy)]
pub(crate) enum Form {
    /// No value.
    Flag,
    /// 1 to 200 bytes.
    Path,
    /// 1 to 10 decimal digits, zeros in front among them, whose number lies within these bounds.
    Number { least: u64, greatest: u64 },
}

const SECONDS: Form = Form::Number {
    least: 0,
    greatest: MAX_SECONDS as u64,
};

const PASSPHRASE_LEN: Form = Form::Number {
    least: 0,
    greatest: MAX_SECRET_LEN as u64,
};

const LOAD: Form = Form::Number {
    least: 0,
    greatest: 4_294_967_295,
};

const S2K_COUNT: Form = Form::Number {
    least: MIN_S2K_COUNT,
    greatest: MAX_S2K_COUNT,
};

const WORKERS: Form = Form::Number {
    least: MIN_WORKERS as u64,
    greatest: MAX_WORKERS as u64,
};

pub(super) const FORMS: [(&str, Form); 17] = [
    ("--server", Form::Flag),
    ("--daemon", Form::Flag),
    ("--load", LOAD),
    ("--homedir", Form::Path),
    ("--pinentry-program", Form::Path),
    ("--default-cache-ttl", SECONDS),
    ("--max-cache-ttl", SECONDS),
    ("--default-cache-ttl-ssh", SECONDS),
    ("--max-cache-ttl-ssh", SECONDS),
    ("--allow-preset-passphrase", Form::Flag),
    ("--no-allow-loopback-pinentry", Form::Flag),
    ("--extra-socket", Form::Flag),
    ("--min-passphrase-len", PASSPHRASE_LEN),
    ("--min-passphrase-nonalpha", PASSPHRASE_LEN),
    ("--pinentry-timeout", SECONDS),
    ("--s2k-count", S2K_COUNT),
    ("--workers", WORKERS),
];

/// What the option of this name takes.
#[tactic(auto, unfolding(crate::specs::Forms::form_of))]
pub(super) fn form_of(name: &str) -> Option<Form>
    ensures { result ≡ form_of name.now }
{
    named(name, &FORMS)
}

/// What the first row of this name has.
fn named(name: &str, rows: &[(&str, Form)]) -> Option<Form>
    ensures { result ≡ found name.now (rows_of rows.now) }
{
    for (known, form) in rows {
        if *known == name {
            return Some(*form);
        }
    }
    None
}

/// Whether a value has the form of its option.
pub(super) fn is_of_form(form: Form, value: &str) -> bool
    ensures { result ≡ is_of_form form (Some value.now) }
{
    match form {
        Form::Flag => false,
        Form::Path => path_of(value).is_some(),
        Form::Number { .. } => number_for(form, value).is_some(),
    }
}

/// The value as a path.
pub(crate) fn path_of(value: &str) -> Option<&str>
    ensures { option_map (λ path. path.now) result ≡ path_of value.now }
{
    match value.len() {
        1..=200 => Some(value),
        _ => None,
    }
}

/// The number that a value is for an option of this form.
pub(crate) fn number_for(form: Form, value: &str) -> Option<u64>
    ensures { result ≡ number_for (Some form) value.now }
{
    match form {
        Form::Number { least, greatest } => number_between(least, greatest, value),
        Form::Flag | Form::Path => None,
    }
}

fn number_between(least: u64, greatest: u64, value: &str) -> Option<u64>
    ensures { result ≡ number_between least greatest value.now }
{
    let number = number_of(value.as_bytes())?;
    if least <= number && number <= greatest {
        Some(number)
    } else {
        None
    }
}
