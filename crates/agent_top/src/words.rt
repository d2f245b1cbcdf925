//! The words of the command line, read as the agent's rules (GnuPG manual, "agent options"). Pure
//! but for the memory that clap takes. Begin with `read_words`: its value is `rules_of` the words
//! (`specs/Words`). The options are in `words/forms.rt`.

ghost use Rattle.std.specs.Prelude.{◌≡◌, ◌≤◌, IfOk, IfErr, Some, None, true, false, length, map};
ghost use Rattle.std.specs.Prelude.{string_bytes};
ghost use Rattle.agent_top.specs.Forms.{form_of, forms, number_or, path_or};
ghost use Rattle.agent_top.specs.{Options.{are_readable, flag_in}, Settings.settings};
ghost use Rattle.agent_top.specs.Within.{IsWithin};
ghost use Rattle.session_options.specs.Defaults.{default_version};
ghost use Rattle.agent_top.specs.Words.{rules_of, rules_from, rules_with, run_of, if_extra_fits};

mod forms;
mod options;
mod settings;

use arrayvec::ArrayVec;
use forms::{form_of, number_for, path_of};
use options::Given;
use session_options::{MAX_VALUE_LEN, Rules, RunMode};
pub use settings::words_are_read_as_spelled;
use std::alloc::{AllocError, Global};
use std::error::Error;
use std::fmt;

/// Why words of the command line aren't taken.
#[derive(Clone, Copy, Debug, PartialEq, Eq)]
pub enum WordsFault {
    /// An unknown word, one given twice, a value out of form, or no word that says what to do.
    Bad,
    /// There was no memory to read them.
    NoMemory,
}

impl From<AllocError> for WordsFault {
    ghost use Rattle.agent_top.specs.declared.words.WordsFault.{WordsFault};

    ghost from_gives = { λ _ fault. fault ≡ WordsFault.NoMemory };

    fn from(_error: AllocError) -> WordsFault {
        WordsFault::NoMemory
    }
}

impl fmt::Display for WordsFault {
    fn fmt<W: fmt::Write>(&self, f: &mut fmt::Formatter<W>) -> fmt::Result {
        f.write_str(match self {
            WordsFault::Bad => "unknown or faulty words on the command line",
            WordsFault::NoMemory => "out of memory",
        })
    }
}

impl Error for WordsFault {}

/// Reads the words of the command line, without the program's name, as the rules that they mean
/// (GnuPG manual, "agent options"). `--extra-socket` is taken beside `--daemon` alone, and takes no
/// name. No word sets the version that the agent tells.
pub fn read_words(alloc: Global, words: &[String]) -> Result<Rules, WordsFault>
    ensures rules { IfOk result (λ rules. rules_of (map string_bytes words.now) ≡ Some rules) }
    ensures version { IfOk result (λ rules. rules.version ≡ default_version) }
    ensures bad { IfErr result
        (λ fault. fault ≡ WordsFault.Bad → rules_of (map string_bytes words.now) ≡ None) }
{
    let given = Given::read(alloc, words)?;
    rules_from(&given)
        .and_then(if_extra_fits)
        .ok_or(WordsFault::Bad)
}

/// The rules, where a socket for restricted sessions is asked for by a daemon alone.
fn if_extra_fits(rules: Rules) -> Option<Rules>
    ensures { result ≡ if_extra_fits rules }
{
    if rules.extra && rules.run != RunMode::Daemon {
        return None;
    }
    Some(rules)
}

/// The rules that the settings mean.
fn rules_from(given: &Given<'_>) -> Option<Rules>
    requires { are_readable given.now ≡ true }
    ensures { result ≡ rules_from given.now }
{
    if !given.fits() {
        return None;
    }
    let run = run_of(given)?;
    Some(rules_with(given, run))
}

/// The rules that settings mean, where each has the form of its option.
#[tactic(auto, unfolding(crate::specs::Forms::form_of))]
fn rules_with(given: &Given<'_>, run: RunMode) -> Rules
    ensures { result ≡ rules_with given.now run }
{
    let usual = Rules::default();
    Rules {
        default_ttl: number_or(given, "--default-cache-ttl", usual.default_ttl.into()) as u32,
        max_ttl: number_or(given, "--max-cache-ttl", usual.max_ttl.into()) as u32,
        default_ttl_ssh: number_or(
            given,
            "--default-cache-ttl-ssh",
            usual.default_ttl_ssh.into(),
        ) as u32,
        max_ttl_ssh: number_or(given, "--max-cache-ttl-ssh", usual.max_ttl_ssh.into()) as u32,
        pinentry_timeout: number_or(
            given,
            "--pinentry-timeout",
            usual.pinentry_timeout.into(),
        ) as u32,
        workers: number_or(given, "--workers", usual.workers.into()) as u32,
        pid: usual.pid,
        version: usual.version.copied(),
        min_len: number_or(given, "--min-passphrase-len", usual.min_len.into()) as u8,
        min_nonalpha: number_or(
            given,
            "--min-passphrase-nonalpha",
            usual.min_nonalpha.into(),
        ) as u8,
        allow_preset: given.is_set("--allow-preset-passphrase"),
        allow_loopback: !given.is_set("--no-allow-loopback-pinentry"),
        extra: given.is_set("--extra-socket"),
        s2k_count: number_or(given, "--s2k-count", usual.s2k_count),
        pinentry: path_or(given, "--pinentry-program", &usual.pinentry),
        homedir: path_or(given, "--homedir", &usual.homedir),
        run,
    }
}

/// What the settings say that the agent is to do, where they say one thing.
#[tactic(auto, unfolding(crate::specs::Forms::form_of))]
fn run_of(given: &Given<'_>) -> Option<RunMode>
    ensures { result ≡ run_of given.now }
{
    let server = given.is_set("--server");
    let daemon = given.is_set("--daemon");
    let load = given.value("--load").is_some();
    let number = number_or(given, "--load", 0) as u32;
    match (server, daemon, load) {
        (true, false, false) => Some(RunMode::Server),
        (false, true, false) => Some(RunMode::Daemon),
        (false, false, true) => Some(RunMode::Load(number)),
        _ => None,
    }
}

/// The number that an option is given, or else its default.
fn number_or(given: &Given<'_>, name: &str, default: u64) -> u64
    requires within { IsWithin (form_of name.now) default }
    requires value { flag_in name.now forms ≡ false }
    ensures number { result ≡ number_or default name.now given.now }
    ensures within { IsWithin (form_of name.now) result }
{
    match (form_of(name), given.value(name)) {
        (Some(form), Some(value)) => number_for(form, value).unwrap_or(default),
        _ => default,
    }
}

/// The path that an option is given, or else its default.
fn path_or(given: &Given<'_>, name: &str, default: &[u8]) -> ArrayVec<u8, MAX_VALUE_LEN>
    requires default { length default.now ≤ 200 }
    requires value { flag_in name.now forms ≡ false }
    ensures { result.items ≡ path_or default.now name.now given.now }
{
    let path = match given.value(name).and_then(path_of) {
        Some(path) => path.as_bytes(),
        None => default,
    };
    let mut word = ArrayVec::new();
    word.try_extend_from_slice(path).unwrap();
    word
}
