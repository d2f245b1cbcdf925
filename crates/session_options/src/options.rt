//! The option values of a session: what OPTION sets and RESET takes back (GnuPG manual, "Agent
//! OPTION"). It works on its own fields, without memory. Begin with `Options::set`, and with
//! `applied` of `specs/OptionValues`, which it is.

ghost use Rattle.std.specs.Prelude.{◌≡◌, ◌≢◌, ℕ, List, [], ◌∷◌, ◌++◌, true, false, slice_index};
ghost use Rattle.std.specs.List.{list_any, list_all};
ghost use Rattle.assuan_text.specs.Blanks.{is_blank};
ghost use Rattle.session_options.specs.{Counts.IsS2kCount, Text.ends_name};
ghost use Rattle.session_options.specs.OptionValues.{OptionValues, applied, applied_as};

use crate::names::OptionName;
use crate::text::{name_and_value, word_of};
use crate::values::{count_for, mode_of};
use crate::{Env, Rules};
use assuan_text::{Text, number_of};
use std::marker::Model;

/// How a passphrase is come by (GnuPG manual, `--pinentry-mode`).
#[derive(Clone, Copy, Debug, PartialEq, Eq)]
pub enum PinMode {
    /// A pinentry asks the user.
    Ask,
    /// As if the user had cancelled.
    Cancel,
    /// As if there were no pinentry.
    Error,
    /// The client is asked.
    Loopback,
}

/// What an option is answered.
#[derive(Clone, Copy, Debug, PartialEq, Eq)]
pub enum OptionAnswer {
    /// The option has its value.
    Set,
    /// There is no option of this name.
    Unknown,
    /// The name is empty, the value can't be kept, or it is none of the option's values.
    Parameter,
    /// The rules don't allow this value.
    NotSupported,
}

/// The option values of a session.
#[derive(Drop)]
pub struct Options {
    env: Env,
    notify: bool,
    mode: PinMode,
    s2k_count: u64,
    description: Option<Text>,
    // What the rules said.
    rules_count: u64,
    allow_loopback: bool,
}

impl Model for Options {
    ghost use Rattle.session_options.specs.OptionValues.{OptionValues, words_of};
    ghost use Rattle.std.specs.Option.{option_map};
    ghost use Rattle.session_options.specs.Counts.{IsS2kCount};

    ghost Value = { OptionValues };

    ghost view = { λ o. record {
      env = words_of o.env;
      notify = o.notify;
      mode = o.mode;
      s2k_count = o.s2k_count;
      description = option_map (λ text. text.items) o.description;
      rules_count = o.rules_count;
      allow_loopback = o.allow_loopback;
    } };

    ghost invariant = { λ o. IsS2kCount o.s2k_count × IsS2kCount o.rules_count };
}

impl Options {
    ghost use Rattle.std.specs.Option.{option_map};
    ghost use Rattle.session_options.specs.OptionValues.{at_start, words_of, with_description};
    ghost use Rattle.session_options.specs.OptionValues.{without_description, with_mode};
    ghost use Rattle.session_options.specs.{OptionValues.with_count, Table.{mode_of, count_of}};

    /// Those before any option.
    pub fn new(rules: &Rules) -> Self
        ensures { result ≡ at_start rules.now.s2k_count rules.now.allow_loopback }
    {
        Options {
            env: Env::none(),
            notify: false,
            mode: PinMode::Ask,
            s2k_count: rules.s2k_count,
            description: None,
            rules_count: rules.s2k_count,
            allow_loopback: rules.allow_loopback,
        }
    }

    /// Sets the option that the text names, the rest of an OPTION line. A refusal changes nothing.
    #[tactic(auto, unfolding(crate::specs::OptionValues::applied))]
    pub fn set(&mut self, text: &[u8]) -> OptionAnswer
        ensures answer { result ≡ (applied self.old text.now).answer }
        ensures after { self.new ≡ (applied self.old text.now).after }
        ensures refused { result ≢ OptionAnswer.Set → self.new ≡ self.old }

        // What the rules said stays.
        ensures rules_count { self.new.rules_count ≡ self.old.rules_count }
        ensures allow_loopback { self.new.allow_loopback ≡ self.old.allow_loopback }
    {
        let (name, value) = name_and_value(text);
        if name.is_empty() {
            return OptionAnswer::Parameter;
        }
        let Some(name) = OptionName::named(name) else {
            return OptionAnswer::Unknown;
        };
        let Some(word) = word_of(value) else {
            return OptionAnswer::Parameter;
        };
        match name {
            OptionName::TtyName => self.env.ttyname = word,
            OptionName::TtyType => self.env.ttytype = word,
            OptionName::LcCtype => self.env.lc_ctype = word,
            OptionName::LcMessages => self.env.lc_messages = word,
            OptionName::NoEffect => {}
            OptionName::AllowPinentryNotify => self.notify = true,
            OptionName::PinentryMode => return self.set_mode(value),
            OptionName::S2kCount => return self.set_count(value),
        }
        OptionAnswer::Set
    }

    fn set_mode(&mut self, value: &[u8]) -> OptionAnswer
        ensures answer { result ≡ (with_mode self.old (mode_of value.now)).answer }
        ensures after { self.new ≡ (with_mode self.old (mode_of value.now)).after }
        ensures refused { result ≢ OptionAnswer.Set → self.new ≡ self.old }
        ensures rules_count { self.new.rules_count ≡ self.old.rules_count }
        ensures allow_loopback { self.new.allow_loopback ≡ self.old.allow_loopback }
    {
        let Some(mode) = mode_of(value) else {
            return OptionAnswer::Parameter;
        };
        if mode == PinMode::Loopback && !self.allow_loopback {
            return OptionAnswer::NotSupported;
        }
        self.mode = mode;
        OptionAnswer::Set
    }

    fn set_count(&mut self, value: &[u8]) -> OptionAnswer
        ensures answer { result
            ≡ (with_count self.old (count_of self.old.rules_count value.now)).answer }
        ensures after { self.new
            ≡ (with_count self.old (count_of self.old.rules_count value.now)).after }
        ensures refused { result ≢ OptionAnswer.Set → self.new ≡ self.old }
        ensures rules_count { self.new.rules_count ≡ self.old.rules_count }
        ensures allow_loopback { self.new.allow_loopback ≡ self.old.allow_loopback }
    {
        let Some(number) = number_of(value) else {
            return OptionAnswer::Parameter;
        };
        let Some(count) = count_for(self.rules_count, number) else {
            return OptionAnswer::Parameter;
        };
        self.s2k_count = count;
        OptionAnswer::Set
    }

    /// Sets every option back to what it was when the session began.
    pub fn reset(&mut self)
        ensures { self.new ≡ at_start self.old.rules_count self.old.allow_loopback }
    {
        self.env = Env::none();
        self.notify = false;
        self.mode = PinMode::Ask;
        self.s2k_count = self.rules_count;
        self.description = None;
    }

    /// Sets what the next prompts about a key say.
    pub fn describe(&mut self, text: Text)
        ensures { self.new ≡ with_description self.old text.items }
    {
        self.description = Some(text);
    }

    /// What the next prompts about a key say, where it is set.
    pub fn description(&self) -> Option<&Text>
        ensures { option_map (λ text. text.now.items) result ≡ self.now.description }
    {
        self.description.as_ref()
    }

    /// The next prompts about a key say what they usually do.
    pub fn end_description(&mut self)
        ensures { self.new ≡ without_description self.old }
    {
        self.description = None;
    }

    /// The terminal and the locale that the client named.
    pub fn env(&self) -> Env
        ensures { words_of result ≡ self.now.env }
    {
        self.env.copied()
    }

    /// Whether the client wants to be told of a pinentry that is launched.
    pub fn notify(&self) -> bool
        ensures { result ≡ self.now.notify }
    {
        self.notify
    }

    /// How prompts are answered.
    pub fn mode(&self) -> PinMode
        ensures { result ≡ self.now.mode }
    {
        self.mode
    }

    /// How many bytes a passphrase is hashed to.
    pub fn s2k_count(&self) -> u64
        ensures count { result ≡ self.now.s2k_count }
        ensures in_range { IsS2kCount result }
    {
        self.s2k_count
    }
}

/// A law: two dashes before the name, blanks around `=`, and leaving `=` out between name and value
/// change nothing, and a name alone has an empty value.
pub fn spelling_is_plain()
    ensures bare { (old : OptionValues) (name before after value : List ℕ)
        → list_any ends_name name ≡ false → slice_index name 0 ≢ 45 → list_all is_blank before
        ≡ true → list_all is_blank after ≡ true → is_blank (slice_index value 0) ≡ false
        → applied old (name ++ (before ++ (61 ∷ (after ++ value)))) ≡ applied_as old name value }
    ensures dashed { (old : OptionValues) (name before after value : List ℕ)
        → list_any ends_name name ≡ false → list_all is_blank before ≡ true
        → list_all is_blank after ≡ true → is_blank (slice_index value 0) ≡ false → applied old
        (45 ∷ 45 ∷ (name ++ (before ++ (61 ∷ (after ++ value))))) ≡ applied_as old name value }
    ensures unmarked { (old : OptionValues) (name value : List ℕ) (blank : ℕ) (before : List ℕ)
        → list_any ends_name name ≡ false → is_blank blank ≡ true
        → list_all is_blank before ≡ true → ends_name (slice_index value 0) ≡ false → applied old
        (45 ∷ 45 ∷ (name ++ (blank ∷ (before ++ value)))) ≡ applied_as old name value }
    ensures alone { (old : OptionValues) (name : List ℕ) → list_any ends_name name ≡ false
        → applied old (45 ∷ 45 ∷ name) ≡ applied_as old name [] }
{}
