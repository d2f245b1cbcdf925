//! The options that words gave, as clap reads them: each once, and with a value where it takes one.
//! It takes memory, and calls nothing else. Begin with `Given::read`; what it gives of which words
//! says `specs/Options`.

ghost use Rattle.std.specs.Prelude.{◌≡◌, ◌&&◌, ℕ, IfOk, IfErr, true, false, List, [], map};
ghost use Rattle.std.specs.{Prelude.{string_bytes, is_some}, List.list_all, Option.option_map};
ghost use Rattle.clap.specs.{Matches.found_of, Simple.app_of, Walk.{rows_of, rule_of}};
ghost use Rattle.assuan_text.specs.Rows.{rows_of as table};
ghost use Rattle.agent_top.specs.Forms.{forms, fits};
ghost use Rattle.agent_top.specs.Options.{command_of, rule_for, action_for, after_dashes, is_plain};
ghost use Rattle.agent_top.specs.Options.{are_readable, flag_in, takes, takes_row};
ghost use Rattle.agent_top.specs.Settings.{Setting, settings, is_set, value_given};

use super::WordsFault;
use super::forms::{FORMS, Form, is_of_form};
use clap::error::ErrorKind;
use clap::{Arg, ArgAction, ArgMatches, Command};
use std::alloc::{AllocError, Global};
use std::marker::Model;

/// The options that words gave, each once, and each with a value where it takes one.
#[derive(Drop)]
pub(crate) struct Given<'a> {
    matches: ArgMatches<'a>,
}

impl<'a> Model for Given<'a> {
    ghost use Rattle.std.specs.Prelude.{List};
    ghost use Rattle.clap.specs.{Matches.found_of, Walk.rows_of};
    ghost use Rattle.agent_top.specs.{Settings.Setting, Options.{given_in, IsRead}};

    ghost Value = { List Setting };

    ghost view = { λ given. given_in (rows_of (found_of given.matches)) };

    ghost invariant = { λ given. IsRead (rows_of (found_of given.matches)) };
}

impl<'a> Given<'a> {
    /// Reads the words. Whether the values have their options' forms isn't looked at.
    pub(crate) fn read(alloc: Global, words: &'a [String]) -> Result<Given<'a>, WordsFault>
        ensures given { IfOk result
            (λ given. (given ≡ settings (map string_bytes words.entry.now))) }
        ensures readable { IfOk result (λ given. are_readable given ≡ true) }
        ensures bad { IfErr result (λ fault. fault ≡ WordsFault.Bad
            → are_readable (settings (map string_bytes words.entry.now)) ≡ false) }
    {
        // What clap takes for the end of the options, for a value or for a short option is no word
        // of the agent's.
        if !all_plain(words) {
            return Err(WordsFault::Bad);
        }
        let matches = agent_command(alloc)?.try_get_matches_from(words)?;
        Ok(Given { matches })
    }

    /// Whether the flag is set.
    pub(crate) fn is_set(&self, name: &str) -> bool
        requires { flag_in name.now forms ≡ true }
        ensures { result ≡ is_set name.now self.now }
    {
        self.matches.get_flag(name)
    }

    /// The value that the option is given.
    pub(crate) fn value(&self, name: &str) -> Option<&'a str>
        requires { flag_in name.now forms ≡ false }
        ensures value { option_map (λ value. value.now) result ≡ value_given name.now self.now }
        ensures set { is_some result ≡ is_set name.now self.now }
    {
        self.matches.get_str(name)
    }

    /// Whether each value has the form of its option.
    pub(crate) fn fits(&self) -> bool
        ensures { result ≡ list_all fits self.now }
    {
        all_fit(&self.matches, &FORMS)
    }
}

/// Whether each of these options has a value of its form, where it has one.
fn all_fit(matches: &ArgMatches<'_>, options: &[(&str, Form)]) -> bool
    ensures { result ≡ list_all (takes_row (rows_of (found_of matches.now))) (table options.now) }
{
    for (name, form) in options {
        if !is_in_form(matches, name, *form) {
            return false;
        }
    }
    true
}

/// Whether the option has a value of its form, where it has one.
fn is_in_form(matches: &ArgMatches<'_>, name: &str, form: Form) -> bool
    ensures { result ≡ takes_row (rows_of (found_of matches.now)) (name.now, form) }
{
    takes(form, matches.get_str(name))
}

/// Whether the value has the form of the option. A flag isn't looked at.
fn takes(form: Form, value: Option<&str>) -> bool
    ensures { result ≡ takes form (option_map (λ value. value.now) value.entry) }
{
    match (form, value) {
        (Form::Flag, _) | (_, None) => true,
        (form, Some(value)) => is_of_form(form, value),
    }
}

/// The options as a command of clap. Its help is off, since the agent has none.
fn agent_command<'a>(alloc: Global) -> Result<Command<'a>, AllocError>
    ensures { IfOk result (λ command. app_of command ≡ command_of forms) }
{
    let command = Command::new(alloc, "agent")
        .no_binary_name(true)
        .disable_help_flag(true)
        .disable_version_flag(true);
    with_options(alloc, command, &FORMS)
}

/// The command with these options.
fn with_options<'a>(
    alloc: Global,
    mut command: Command<'a>,
    options: &'a [(&'a str, Form)],
) -> Result<Command<'a>, AllocError>
    requires { app_of command ≡ command_of [] }
    ensures { IfOk result (λ command. app_of command ≡ command_of (table options.entry.now)) }
{
    for (name, form) in options {
        command = command.arg(option(alloc, name, *form))?;
    }
    Ok(command)
}

fn option<'a>(alloc: Global, name: &'a str, form: Form) -> Arg<'a>
    ensures rule { rule_of result ≡ rule_for (name.entry.now, form) }
    ensures local { result.global ≡ false }
{
    Arg::new(alloc, name)
        .long(after_dashes(name).unwrap_or(name))
        .action(action_for(form))
}

fn action_for(form: Form) -> ArgAction
    ensures { result ≡ action_for form }
{
    match form {
        Form::Flag => ArgAction::SetTrue,
        Form::Path | Form::Number { .. } => ArgAction::Set,
    }
}

/// Whether each word is no option or one with a long name.
fn all_plain(words: &[String]) -> bool
    ensures { result ≡ list_all is_plain (map string_bytes words.now) }
{
    for word in words {
        if !is_plain(word) {
            return false;
        }
    }
    true
}

/// Whether the word is no option or one with a long name.
fn is_plain(word: &str) -> bool
    ensures { result ≡ is_plain word.now }
{
    match after_dashes(word) {
        Some(name) => !name.is_empty(),
        None => !word.starts_with('-'),
    }
}

/// The word without two dashes at its front.
fn after_dashes(word: &str) -> Option<&str>
    ensures { option_map (λ rest. rest.now) result ≡ after_dashes word.now }
{
    word.strip_prefix("--")
}

impl From<clap::Error> for WordsFault {
    ghost use Rattle.clap.specs.Values.{kind_of};
    ghost use Rattle.agent_top.specs.Faults.{fault_by};

    ghost from_gives = { λ error fault. fault ≡ fault_by (kind_of error) };

    fn from(error: clap::Error) -> WordsFault {
        match error.kind() {
            ErrorKind::OutOfMemory => WordsFault::NoMemory,
            _ => WordsFault::Bad,
        }
    }
}
