//! The arguments of each command on the cache, read as a `CacheCommand`, or the code that refuses
//! them (GnuPG manual, "Agent's Assuan protocol"). Pure. Begin with `read_command`; `asked_by`
//! (`specs/Requests`) says what it gives.

ghost use Rattle.std.specs.Prelude.{◌≡◌, ◌≤◌, length, Some};
ghost use Rattle.assuan_text.specs.declared.TheConstants.{MAX_LINE_LEN};
ghost use Rattle.assuan_text.specs.{Options.{options_of, arguments_of}, Words.words};
ghost use Rattle.agent_commands.specs.Requests.{request_of, asked_by, ReadsGet, info_named};
ghost use Rattle.agent_commands.specs.Requests.{info_of, listed_info, preset_of, clear_of};
ghost use Rattle.agent_commands.specs.Requests.{confirmation_of, description_of};
ghost use Rattle.command_table.specs.declared.commands.Command.TheVariants as on;

use crate::fields::{cache_id, cleared_mode, given_passphrase, life, text_or};
use crate::get_line::GetLine;
use crate::{CacheCommand, Info, LineRequest, Request};
use assuan_escape::unescape;
use assuan_line::Line;
use assuan_server::Code;
use assuan_text::{Text, arguments, found, has_option, next_word};
use command_table::{CommandName, is_listed};

/// What GETINFO can be asked for by one word.
const INFOS: [(&[u8], Info); 3] = [
    (b"version", Info::Version),
    (b"pid", Info::Pid),
    (b"s2k_count", Info::S2kCount),
];

/// The word of GETINFO before a command and an option.
const HAS_OPTION: &[u8] = b"cmd_has_option";

/// Reads a line as what it asks for.
///
/// A line that a session passes over, an empty one or a comment, has no command, and is refused
/// here.
pub fn read_request(line: &Line) -> Request
    ensures { result ≡ request_of line.now }
{
    LineRequest::of(line).whole()
}

/// What comes after a command of this name, of which a GET_PASSPHRASE is read already.
pub(crate) fn read_command(
    name: CommandName,
    rest: &[u8],
    get: &Option<GetLine<'_>>,
) -> Result<CacheCommand, Code>
    requires within { length rest.now ≤ MAX_LINE_LEN }
    requires get { ReadsGet (Some (on.Cache name)) rest.now get.now }
    ensures { result ≡ asked_by name rest.now }
{
    match name {
        CommandName::Nop => Ok(CacheCommand::Nop),
        CommandName::Reset => Ok(CacheCommand::Reset),
        CommandName::Bye => Ok(CacheCommand::Bye),
        CommandName::Help => Ok(CacheCommand::Help),
        CommandName::SetOption => Ok(CacheCommand::SetOption {
            text: text_of(rest),
        }),
        CommandName::GetInfo => Ok(CacheCommand::GetInfo(read_info(arguments(rest))?)),
        CommandName::GetPassphrase => match get {
            Some(line) => Ok(line.command()),
            None => Err(Code::Parameter),
        },
        CommandName::PresetPassphrase => read_preset(rest),
        CommandName::ClearPassphrase => read_clear(rest),
        CommandName::GetConfirmation => read_confirmation(rest),
        CommandName::ReloadAgent => Ok(CacheCommand::ReloadAgent),
        CommandName::KillAgent => Ok(CacheCommand::KillAgent),
        CommandName::SetKeyDesc => read_description(rest),
    }
}

/// The bytes as a text.
pub(crate) fn text_of(bytes: &[u8]) -> Text
    requires { length bytes.now ≤ MAX_LINE_LEN }
    ensures { result.items ≡ bytes.now }
{
    let mut text = Text::new();
    text.try_extend_from_slice(bytes).unwrap();
    text
}

/// What GETINFO is asked for by this word.
#[tactic(auto, unfolding(crate::specs::Requests::info_named))]
fn info_named(word: &[u8]) -> Option<Info>
    ensures { result ≡ info_named word.now }
{
    found(word, &INFOS)
}

/// What GETINFO is asked for, by its arguments.
fn read_info(text: &[u8]) -> Result<Info, Code>
    ensures { result ≡ info_of (words text.now) }
{
    let (what, rest) = next_word(text).ok_or(Code::Parameter)?;
    if what == HAS_OPTION {
        return read_listed(rest);
    }
    info_named(what).ok_or(Code::Parameter)
}

/// A command, and an option that it may have.
fn read_listed(text: &[u8]) -> Result<Info, Code>
    ensures { result ≡ listed_info (words text.now) }
{
    let (command, rest) = next_word(text).ok_or(Code::Parameter)?;
    let (option, _) = next_word(rest).ok_or(Code::Parameter)?;
    if is_listed(command, option) {
        Ok(Info::Listed)
    } else {
        Err(Code::NotSupported)
    }
}

/// What comes after PRESET_PASSPHRASE.
fn read_preset(text: &[u8]) -> Result<CacheCommand, Code>
    ensures { result ≡ preset_of (options_of (words text.now)) (arguments_of (words text.now)) }
{
    let (word, rest) = next_word(arguments(text)).ok_or(Code::Parameter)?;
    let (timeout, rest) = next_word(rest).ok_or(Code::Parameter)?;
    let id = cache_id(word).ok_or(Code::Parameter)?;
    let life = life(timeout).ok_or(Code::Parameter)?;
    let secret = given_passphrase(has_option(text, b"--inquire"), rest).ok_or(Code::Parameter)?;
    Ok(CacheCommand::PresetPassphrase { id, life, secret })
}

/// What comes after CLEAR_PASSPHRASE.
fn read_clear(text: &[u8]) -> Result<CacheCommand, Code>
    ensures { result ≡ clear_of (options_of (words text.now)) (arguments_of (words text.now)) }
{
    let (word, _) = next_word(arguments(text)).ok_or(Code::Parameter)?;
    let mode = cleared_mode(text).ok_or(Code::Parameter)?;
    let id = cache_id(word).ok_or(Code::Parameter)?;
    Ok(CacheCommand::ClearPassphrase { id, mode })
}

/// What comes after GET_CONFIRMATION.
fn read_confirmation(text: &[u8]) -> Result<CacheCommand, Code>
    requires { length text.now ≤ MAX_LINE_LEN }
    ensures { result ≡ confirmation_of (arguments_of (words text.now)) }
{
    let (word, _) = next_word(arguments(text)).ok_or(Code::Parameter)?;
    Ok(CacheCommand::GetConfirmation {
        description: text_or(b"Please confirm", word),
    })
}

/// What comes after SETKEYDESC.
fn read_description(text: &[u8]) -> Result<CacheCommand, Code>
    requires { length text.now ≤ MAX_LINE_LEN }
    ensures { result ≡ description_of (words text.now) }
{
    let (word, _) = next_word(text).ok_or(Code::Parameter)?;
    Ok(CacheCommand::SetKeyDesc {
        text: unescape(word, true),
    })
}
