//! The rules that settings mean. Pure. Begin with `rules_of`: what it gives is settled by them,
//! field by field (`AreSettled` of `specs/Starts`).

ghost use Rattle.std.specs.Prelude.{◌≡◌, ◌==◌, ◌⊎◌, map, IfSome, Some, if◌then◌else◌};
ghost use Rattle.std.specs.Option.{option_and_then, option_map};
ghost use Rattle.session_options.specs.{Counts.IsS2kCount, Defaults.default_rules};
ghost use Rattle.agent_conf.specs.{Numbers.{IsKept, kept_in}, Paths.expanded};
ghost use Rattle.agent_conf.specs.Starts.{AreSettled, calibration_of, count_named, counts_before};
ghost use Rattle.agent_conf.specs.Starts.{extra_of, is_set};
ghost use Rattle.agent_conf.specs.Starts.{kept_of, mode_by, mode_of, number_or, path_within};
ghost use Rattle.agent_conf.specs.{Starts.{pinentry_of, run_of, serves_one}, Texts.texts_in};
ghost use Rattle.agent_conf.specs.Written.{written};

use crate::MAX_PATH_LEN;
use crate::numbers::{Range, kept_in, number_in};
use crate::paths::{Folders, expanded, socket_choice};
use crate::setting::Setting;
use crate::settings::Settings;
use crate::settled::{is_of, last_of};
use crate::start::CALIBRATION;
use arrayvec::ArrayVec;
use session_options::{MAX_VALUE_LEN, MAX_WORKERS, Rules, RunMode, copied};

/// How many seconds a prompt stays where nobody says: one whose terminal is gone holds up all
/// further ones.
pub const PROMPT_SECONDS: u32 = 300;

/// What the agent is to do.
#[derive(Clone, Copy, Debug, PartialEq, Eq)]
pub enum Mode {
    /// To serve one session over standard input and output: `--server`.
    Serve,
    /// To leave a daemon: `--daemon`, or no word that says so.
    Detach,
    /// To serve as a daemon in this process: `--no-detach`.
    Stay,
    /// To tell what becomes of the options: `--check-options`.
    Check,
}

/// The rules that the settings mean.
pub(crate) fn rules_of(folders: &Folders<'_>, settings: &Settings<'_>) -> Rules
    ensures { AreSettled folders.now.home.items folders.now.user.now (texts_in settings.now)
        result }
{
    let usual = Rules::default();
    let mode = mode_of(&settings.words);
    Rules {
        default_ttl: seconds_or(settings, b"default-cache-ttl", usual.default_ttl),
        max_ttl: seconds_or(settings, b"max-cache-ttl", usual.max_ttl),
        default_ttl_ssh: seconds_or(settings, b"default-cache-ttl-ssh", usual.default_ttl_ssh),
        max_ttl_ssh: seconds_or(settings, b"max-cache-ttl-ssh", usual.max_ttl_ssh),
        pinentry_timeout: seconds_or(settings, b"pinentry-timeout", PROMPT_SECONDS),
        workers: MAX_WORKERS,
        pid: usual.pid,
        version: usual.version.copied(),
        min_len: bytes_or(settings, b"min-passphrase-len", usual.min_len),
        min_nonalpha: bytes_or(settings, b"min-passphrase-nonalpha", usual.min_nonalpha),
        allow_preset: is_set(settings, b"allow-preset-passphrase"),
        allow_loopback: !counts_before(
            settings,
            b"no-allow-loopback-pinentry",
            b"allow-loopback-pinentry",
        ),
        extra: extra_of(folders, settings) && !serves_one(mode),
        s2k_count: count_or(settings, usual.s2k_count),
        pinentry: pinentry_of(folders.user, settings, &usual.pinentry),
        homedir: as_value(&folders.home),
        run: run_of(mode),
    }
}

/// What the words say that the agent is to do.
pub(crate) fn mode_of(words: &[Setting<'_>]) -> Mode
    ensures { result ≡ mode_of (map written words.now) }
{
    if last_of(&[b"check-options"], words).is_some() {
        return Mode::Check;
    }
    match last_of(&[b"daemon", b"server", b"no-detach"], words) {
        Some(word) => mode_by(&word),
        None => Mode::Detach,
    }
}

fn mode_by(word: &Setting<'_>) -> Mode
    ensures { result ≡ mode_by (Some (written word.now)) }
{
    if is_of(&[b"server"], word) {
        Mode::Serve
    } else if is_of(&[b"no-detach"], word) {
        Mode::Stay
    } else {
        Mode::Detach
    }
}

fn serves_one(mode: Mode) -> bool
    ensures { result ≡ serves_one mode }
{
    matches!(mode, Mode::Serve)
}

fn run_of(mode: Mode) -> RunMode
    ensures { result ≡ run_of mode }
{
    match mode {
        Mode::Serve => RunMode::Server,
        Mode::Detach | Mode::Stay | Mode::Check => RunMode::Daemon,
    }
}

/// The seconds that an option is set to, or else the default.
fn seconds_or(settings: &Settings<'_>, name: &[u8], default: u32) -> u32
    ensures { result ≡ number_or default Range.Seconds name.now (texts_in settings.now) }
{
    number_or(settings, Range::Seconds, name, u64::from(default)) as u32
}

/// The bytes that an option is set to, or else the default.
fn bytes_or(settings: &Settings<'_>, name: &[u8], default: u8) -> u8
    ensures { result ≡ number_or default Range.Bytes name.now (texts_in settings.now) }
{
    number_or(settings, Range::Bytes, name, u64::from(default)) as u8
}

/// The count that is named, or else the default.
fn count_or(settings: &Settings<'_>, default: u64) -> u64
    requires { IsS2kCount default }
    ensures count { result ≡ (if count_named (texts_in settings.now) == 0 then default
        else count_named (texts_in settings.now)) }
    ensures within { IsS2kCount result }
{
    match count_named(settings) {
        0 => default,
        count => count,
    }
}

/// The count that is named, or 0 where it is to be measured.
pub(crate) fn count_named(settings: &Settings<'_>) -> u64
    ensures count { result ≡ count_named (texts_in settings.now) }
    ensures within { (result ≡ 0) ⊎ IsS2kCount result }
{
    number_or(settings, Range::Count, b"s2k-count", 0)
}

/// The milliseconds that are set, of which 0 stands for the default.
pub(crate) fn calibration_of(settings: &Settings<'_>) -> u64
    ensures { result ≡ calibration_of (texts_in settings.now) }
{
    match number_or(settings, Range::Milliseconds, b"s2k-calibration", 0) {
        0 => CALIBRATION,
        milliseconds => milliseconds,
    }
}

/// The number that an option is set to, or else the default.
fn number_or(settings: &Settings<'_>, range: Range, name: &[u8], default: u64) -> u64
    ensures number { result ≡ number_or default range name.now (texts_in settings.now) }
    ensures within { (result ≡ default) ⊎ IsKept range result }
{
    match settings.settled(&[name]) {
        Some(setting) => kept_of(range, setting.value).unwrap_or(default),
        None => default,
    }
}

/// The number that is kept of a value.
fn kept_of(range: Range, value: &[u8]) -> Option<u64>
    ensures number { result ≡ kept_of range value.now }
    ensures within { IfSome result (IsKept range) }
{
    kept_for(range, number_in(value))
}

fn kept_for(range: Range, number: Option<u64>) -> Option<u64>
    ensures number { result ≡ option_and_then (kept_in range) number }
    ensures within { IfSome result (IsKept range) }
{
    kept_in(range, number?)
}

/// Whether the option is set.
pub(crate) fn is_set(settings: &Settings<'_>, name: &[u8]) -> bool
    ensures { result ≡ is_set name.now (texts_in settings.now) }
{
    settings.settled(&[name]).is_some()
}

/// Whether the option counts, and not the other one, which takes it back.
fn counts_before(settings: &Settings<'_>, name: &[u8], other: &[u8]) -> bool
    ensures { result ≡ counts_before name.now other.now (texts_in settings.now) }
{
    match settings.settled(&[name, other]) {
        Some(setting) => is_of(&[name], &setting),
        None => false,
    }
}

/// Whether the agent is to have its extra socket.
fn extra_of(folders: &Folders<'_>, settings: &Settings<'_>) -> bool
    ensures { result
        ≡ extra_of folders.now.home.items folders.now.user.now (texts_in settings.now) }
{
    match settings.settled(&[b"extra-socket"]) {
        Some(setting) => socket_choice(folders, setting.value).unwrap_or(false),
        None => false,
    }
}

/// The path of the pinentry, or else the default.
fn pinentry_of(
    user: &[u8],
    settings: &Settings<'_>,
    default: &ArrayVec<u8, MAX_VALUE_LEN>,
) -> ArrayVec<u8, MAX_VALUE_LEN>
    requires { default.now ≡ default_rules.pinentry }
    ensures { result.items ≡ pinentry_of user.now (texts_in settings.now) }
{
    match settings.settled(&[b"pinentry-program"]) {
        Some(setting) => path_within(user, setting.value, default),
        None => copied(default),
    }
}

/// The path of a program, or else the default.
fn path_within(
    user: &[u8],
    path: &[u8],
    default: &ArrayVec<u8, MAX_VALUE_LEN>,
) -> ArrayVec<u8, MAX_VALUE_LEN>
    ensures { result.items ≡ path_within default.now.items (expanded user.now path.now) }
{
    let (front, rest) = expanded(user, path);
    if front.len() > MAX_PATH_LEN || rest.len() > MAX_PATH_LEN - front.len() {
        return copied(default);
    }
    let mut path = ArrayVec::new();
    path.try_extend_from_slice(front).unwrap();
    path.try_extend_from_slice(rest).unwrap();
    path
}

fn as_value(path: &ArrayVec<u8, MAX_PATH_LEN>) -> ArrayVec<u8, MAX_VALUE_LEN>
    ensures { result.items ≡ path.now.items }
{
    let mut value = ArrayVec::new();
    value.try_extend_from_slice(path).unwrap();
    value
}
