//! The requests on keys, and how a line with a command on keys is read as one, or as the code that
//! refuses it (GnuPG manual, "Agent's Assuan protocol"): keygrips, nonces and options, and no
//! passphrase. Pure. Begin with `KeyRequest` and `read_key`, or with `read_key_cut` for a line that
//! is cut already; both give `key_request_of` the line (`specs/Requests`).

ghost use Rattle.std.specs.{Prelude.◌≡◌, Option.option_map};
ghost use Rattle.assuan_text.specs.{Options.{options_of, arguments_of}, Words.words};
ghost use Rattle.session_client.specs.Fields.{in_form};
ghost use Rattle.key_commands.specs.Requests.{grip, first_grip, some_grips, nonce, have_of};
ghost use Rattle.key_commands.specs.Requests.{key_info_of, wrap_of, import_of, export_of};
ghost use Rattle.key_commands.specs.Requests.{passwd_of, delete_of, key_asked_by, key_request_by};
ghost use Rattle.key_commands.specs.Requests.{key_request_of, limited_to};

use crate::Grips;
use agent_ports::Grip;
use assuan_server::Code;
use assuan_text::{arguments, command_and_rest, has_option, last_value, next_word, number_of};
use cache_policy::CacheId;
use command_table::{Command, CutLine, KeyCommandName, command_named};

const LIST: &[u8] = b"--list";

const CACHE_NONCE: &[u8] = b"--cache-nonce";

const PASSWD_NONCE: &[u8] = b"--passwd-nonce";

/// What a line with a command on keys asks for (GnuPG manual, "Agent's Assuan protocol").
#[derive(Drop)]
pub enum KeyRequest {
    /// Whether one of these keys is there.
    HaveKey {
        grips: Grips,
    },
    /// Which keys there are.
    ListGrips,
    /// What is known of a key.
    KeyInfo {
        grip: Grip,
    },
    /// And of each key that there is.
    ListKeys,
    /// The session's wrapping key for one direction.
    KeyWrap(Direction),
    /// Puts a wrapped key of the client into a file.
    ImportKey {
        /// A key's file is replaced where there is one.
        force: bool,
        /// A nonce under which the cache has the passphrase.
        nonce: Option<CacheId>,
    },
    /// Gives a key wrapped.
    ExportKey {
        grip: Grip,
        /// A nonce under which the cache has the passphrase.
        nonce: Option<CacheId>,
    },
    /// Changes the passphrase of a key.
    Passwd {
        grip: Grip,
        /// A nonce under which the cache has the old passphrase.
        nonce: Option<CacheId>,
        /// And one under which it has the new one.
        new_nonce: Option<CacheId>,
        /// The passphrase is only asked for and tried.
        verify: bool,
    },
    /// Removes a key's file.
    DeleteKey {
        grip: Grip,
        /// Nobody is asked for consent.
        force: bool,
    },
    /// The line is refused.
    Bad(Code),
}

/// Which way a wrapped key goes.
#[derive(Clone, Copy, PartialEq, Eq)]
pub enum Direction {
    /// Into the agent.
    Import,
    /// Out of the agent.
    Export,
}

/// Reads a line whose word is a command on keys. Another line is refused as an unknown command.
#[tactic(auto, unfolding(crate::specs::Requests::key_request_of))]
pub fn read_key(line: &[u8]) -> KeyRequest
    ensures { result ≡ key_request_of line.now }
{
    let (word, rest) = command_and_rest(line);
    read_found(command_named(word), rest)
}

/// Reads one whose command is found.
#[tactic(auto, unfolding(crate::specs::Requests::key_request_of))]
pub fn read_key_cut(line: &CutLine<'_>) -> KeyRequest
    ensures { result ≡ key_request_of line.now }
{
    read_found(line.command(), line.rest())
}

/// What comes after the command that was found.
fn read_found(command: Option<Command>, rest: &[u8]) -> KeyRequest
    ensures { result ≡ key_request_by command rest.now }
{
    let Some(Command::Key(name)) = command else {
        return KeyRequest::Bad(Code::UnknownCommand);
    };
    match read_command(name, rest) {
        Ok(request) => request,
        Err(code) => KeyRequest::Bad(code),
    }
}

/// What comes after a command of this name.
fn read_command(name: KeyCommandName, rest: &[u8]) -> Result<KeyRequest, Code>
    ensures { result ≡ key_asked_by name rest.now }
{
    match name {
        KeyCommandName::HaveKey => read_have(rest),
        KeyCommandName::KeyInfo => read_info(rest),
        KeyCommandName::KeyWrap => read_wrap(rest),
        KeyCommandName::ImportKey => read_import(rest),
        KeyCommandName::ExportKey => read_export(rest),
        KeyCommandName::Passwd => read_passwd(rest),
        KeyCommandName::DeleteKey => read_delete(rest),
    }
}

/// The key that a word names.
fn read_grip(word: &[u8]) -> Result<Grip, Code>
    ensures { result ≡ in_form (grip word.now) }
{
    Grip::of_hex(word).ok_or(Code::Parameter)
}

/// The key that the first argument names.
fn first_grip(text: &[u8]) -> Result<Grip, Code>
    ensures { result ≡ in_form (first_grip (arguments_of (words text.now))) }
{
    let (word, _) = next_word(arguments(text)).ok_or(Code::Parameter)?;
    read_grip(word)
}

/// A nonce, where there is one.
fn read_nonce(id: Option<&[u8]>) -> Result<Option<CacheId>, Code>
    ensures { result ≡ in_form (nonce (option_map (λ id. id.now) id.entry)) }
{
    match id {
        None => Ok(None),
        Some(id) => match CacheId::of(id) {
            Some(id) => Ok(Some(id)),
            None => Err(Code::Parameter),
        },
    }
}

/// What comes after HAVEKEY.
fn read_have(text: &[u8]) -> Result<KeyRequest, Code>
    ensures { result ≡ have_of (options_of (words text.now)) (arguments_of (words text.now)) }
{
    if let Some(limit) = last_value(text, LIST) {
        return read_limit(limit);
    }
    if has_option(text, LIST) {
        return Ok(KeyRequest::ListGrips);
    }
    let grips = read_grips(arguments(text))?;
    Ok(KeyRequest::HaveKey { grips })
}

/// What HAVEKEY is asked for by `--list` with this value, which limits nothing: a list that was cut
/// would be taken for whole.
fn read_limit(limit: &[u8]) -> Result<KeyRequest, Code>
    ensures { result ≡ limited_to limit.now }
{
    match number_of(limit) {
        Some(1..) => Ok(KeyRequest::ListGrips),
        _ => Err(Code::Parameter),
    }
}

/// The keys that all words name.
fn read_grips(text: &[u8]) -> Result<Grips, Code>
    ensures { result ≡ some_grips (words text.now) }
{
    let mut grips = Grips::new();
    let mut rest = text;
    while let Some((word, after)) = next_word(rest) {
        let grip = read_grip(word)?;
        if !grips.push(grip) {
            return Err(Code::Parameter);
        }
        rest = after;
    }
    if grips.is_empty() {
        return Err(Code::Parameter);
    }
    Ok(grips)
}

/// What comes after KEYINFO.
fn read_info(text: &[u8]) -> Result<KeyRequest, Code>
    ensures { result ≡ key_info_of (options_of (words text.now)) (arguments_of (words text.now)) }
{
    if has_option(text, LIST) {
        return Ok(KeyRequest::ListKeys);
    }
    let grip = first_grip(text)?;
    Ok(KeyRequest::KeyInfo { grip })
}

/// What comes after KEYWRAP_KEY.
fn read_wrap(text: &[u8]) -> Result<KeyRequest, Code>
    ensures { result ≡ wrap_of (options_of (words text.now)) }
{
    match (has_option(text, b"--import"), has_option(text, b"--export")) {
        (true, false) => Ok(KeyRequest::KeyWrap(Direction::Import)),
        (false, true) => Ok(KeyRequest::KeyWrap(Direction::Export)),
        _ => Err(Code::Parameter),
    }
}

/// What comes after IMPORT_KEY.
fn read_import(text: &[u8]) -> Result<KeyRequest, Code>
    ensures { result ≡ import_of (options_of (words text.now)) (arguments_of (words text.now)) }
{
    let nonce = match next_word(arguments(text)) {
        Some((word, _)) => read_nonce(Some(word))?,
        None => None,
    };
    let force = has_option(text, b"--force");
    Ok(KeyRequest::ImportKey { force, nonce })
}

/// What comes after EXPORT_KEY.
fn read_export(text: &[u8]) -> Result<KeyRequest, Code>
    ensures { result ≡ export_of (options_of (words text.now)) (arguments_of (words text.now)) }
{
    let grip = first_grip(text)?;
    let nonce = read_nonce(last_value(text, CACHE_NONCE))?;
    Ok(KeyRequest::ExportKey { grip, nonce })
}

/// What comes after PASSWD.
fn read_passwd(text: &[u8]) -> Result<KeyRequest, Code>
    ensures { result ≡ passwd_of (options_of (words text.now)) (arguments_of (words text.now)) }
{
    let grip = first_grip(text)?;
    let nonce = read_nonce(last_value(text, CACHE_NONCE))?;
    let new_nonce = read_nonce(last_value(text, PASSWD_NONCE))?;
    let verify = has_option(text, b"--verify");
    Ok(KeyRequest::Passwd {
        grip,
        nonce,
        new_nonce,
        verify,
    })
}

/// What comes after DELETE_KEY.
fn read_delete(text: &[u8]) -> Result<KeyRequest, Code>
    ensures { result ≡ delete_of (options_of (words text.now)) (arguments_of (words text.now)) }
{
    let grip = first_grip(text)?;
    if has_option(text, b"--stub-only") {
        return Err(Code::NotSupported);
    }
    let force = has_option(text, b"--force");
    Ok(KeyRequest::DeleteKey { grip, force })
}
