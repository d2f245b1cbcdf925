//! A line with a command on the trust list, read as its request or as the code that refuses it.
//! Pure. Begin with `read_trust`, or with `read_trust_cut` for a line that is cut already; both
//! give `trust_request_of` the line (`specs/TrustRequests`).

ghost use Rattle.std.specs.Prelude.{◌≡◌, ◌≤◌, length};
ghost use Rattle.assuan_text.specs.{Options.arguments_of, Words.words};
ghost use Rattle.assuan_text.specs.declared.TheConstants.{MAX_LINE_LEN};
ghost use Rattle.{key_commands.specs.Requests.grip, session_client.specs.Fields.in_form};
ghost use Rattle.agent_origin.specs.TrustRequests.{purpose, owner, is_trusted_of, mark_trusted_of};
ghost use Rattle.agent_origin.specs.TrustRequests.{trust_asked_by, trust_request_of};

use super::{OwnerName, TrustPurpose, TrustRequest};
use agent_ports::Grip;
use assuan_escape::unescape;
use assuan_line::Line;
use assuan_server::Code;
use assuan_text::{arguments, next_word};
use command_table::{Command, CutLine, TrustCommandName};

/// Reads a line whose word is a command on the trust list. Another line is refused as an unknown
/// command.
pub fn read_trust(line: &Line) -> TrustRequest
    ensures { result ≡ trust_request_of line.now }
{
    read_trust_cut(&CutLine::of(line))
}

/// Reads one whose command is found.
#[tactic(auto, unfolding(crate::specs::TrustRequests::trust_request_of))]
pub(crate) fn read_trust_cut(line: &CutLine<'_>) -> TrustRequest
    ensures { result ≡ trust_request_of line.now }
{
    let Some(Command::Trust(name)) = line.command() else {
        return TrustRequest::Bad(Code::UnknownCommand);
    };
    match read_command(name, line.rest()) {
        Ok(request) => request,
        Err(code) => TrustRequest::Bad(code),
    }
}

/// What comes after a command of this name.
fn read_command(name: TrustCommandName, rest: &[u8]) -> Result<TrustRequest, Code>
    requires { length rest.now ≤ MAX_LINE_LEN }
    ensures { result ≡ trust_asked_by name rest.now }
{
    match name {
        TrustCommandName::IsTrusted => read_is_trusted(arguments(rest)),
        TrustCommandName::MarkTrusted => read_mark_trusted(arguments(rest)),
    }
}

/// The certificate that a word names by its fingerprint.
fn read_fingerprint(word: &[u8]) -> Result<Grip, Code>
    ensures { result ≡ in_form (grip word.now) }
{
    Grip::of_hex(word).ok_or(Code::Parameter)
}

/// What comes after ISTRUSTED and its options.
fn read_is_trusted(text: &[u8]) -> Result<TrustRequest, Code>
    ensures { result ≡ is_trusted_of (words text.now) }
{
    let (word, _) = next_word(text).ok_or(Code::Parameter)?;
    let fingerprint = read_fingerprint(word)?;
    Ok(TrustRequest::IsTrusted { fingerprint })
}

/// What comes after MARKTRUSTED and its options.
fn read_mark_trusted(text: &[u8]) -> Result<TrustRequest, Code>
    requires { length text.now ≤ MAX_LINE_LEN }
    ensures { result ≡ mark_trusted_of (words text.now) }
{
    let (fingerprint, rest) = next_word(text).ok_or(Code::Parameter)?;
    let (flag, rest) = next_word(rest).ok_or(Code::Parameter)?;
    let (name, _) = next_word(rest).ok_or(Code::Parameter)?;
    let fingerprint = read_fingerprint(fingerprint)?;
    let purpose = purpose(flag).ok_or(Code::Parameter)?;
    let name = owner(name).ok_or(Code::Parameter)?;
    Ok(TrustRequest::MarkTrusted {
        fingerprint,
        purpose,
        name,
    })
}

fn purpose(flag: &[u8]) -> Option<TrustPurpose>
    ensures { result ≡ purpose flag.now }
{
    match flag {
        b"S" => Some(TrustPurpose::X509),
        b"P" => Some(TrustPurpose::OpenPgp),
        _ => None,
    }
}

/// The owner's name that a word means, unless it is too long.
fn owner(word: &[u8]) -> Option<OwnerName>
    requires { length word.now ≤ MAX_LINE_LEN }
    ensures { result ≡ owner word.now }
{
    let mut name = OwnerName::new();
    name.try_extend_from_slice(&unescape(word, true)).ok()?;
    Some(name)
}
