//! Which lines are allowed at which of the agent's sockets: at the user's own (gpg-agent's main
//! socket) all, at the outer one (its `--extra-socket`) those that the rule of their command lets
//! through. Pure. Begin with `passes`; `allowed` (`specs/Doors`) defines what `allows` gives.

ghost use Rattle.std.specs.Prelude.{◌≡◌};
ghost use Rattle.assuan_text.specs.{Options.options_of, Words.words};
ghost use Rattle.agent_origin.specs.Doors.{is_about_the_agent, lists_none};
ghost use Rattle.agent_origin.specs.Doors.{passes, allowed, is_of_terminal, sets_terminal};

use agent_commands::{CacheCommand, LineRequest, Request};
use assuan_line::Line;
use assuan_text::{arguments, has_option, last_value, next_word};
use command_table::{CutLine, Rule};
use session_options::name_and_value;

/// The option that says how a session wants its prompts.
const PINENTRY_MODE: &[u8] = b"pinentry-mode";

// The options that say in which terminal prompts are drawn, of which kind it is, and in which
// language.
const TTYNAME: &[u8] = b"ttyname";

const TTYTYPE: &[u8] = b"ttytype";

const LC_CTYPE: &[u8] = b"lc-ctype";

const LC_MESSAGES: &[u8] = b"lc-messages";

/// What GETINFO may be asked for by anyone.
const VERSION: &[u8] = b"version";

const HAS_OPTION: &[u8] = b"cmd_has_option";

/// The option that asks for all keys.
const LIST: &[u8] = b"--list";

/// By which of the agent's sockets a session came in.
#[derive(Clone, Copy, PartialEq, Eq)]
pub enum Door {
    /// The user's own.
    Home,
    /// The one that is handed to other machines. Their sessions see which keys are here, and may
    /// prompt the user, in no terminal of their naming. They use no key, change nothing that the
    /// agent keeps, and are given no passphrase of its cache.
    Outer,
}

/// Whether a line is allowed to a session that came in by this door. One that begins with no known
/// command is: it isn't forbidden, but answered as an unknown command.
pub fn allowed(door: Door, line: &Line) -> bool
    ensures { result ≡ allowed door line.now }
{
    allows(door, &CutLine::of(line))
}

/// The same of one whose command is found.
pub(crate) fn allows(door: Door, line: &CutLine<'_>) -> bool
    ensures { result ≡ allowed door line.now }
{
    if door == Door::Home {
        return true;
    }
    match line.command() {
        Some(command) => passes(command.outer_rule(), line),
        None => true,
    }
}

/// Whether a request is an OPTION that says in which terminal prompts are drawn, of which kind that
/// is, or in which language.
pub(crate) fn sets_terminal(request: &Request) -> bool
    ensures { result ≡ sets_terminal request.now }
{
    match request {
        Request::Cache(CacheCommand::SetOption { text }) => is_of_terminal(name_and_value(text).0),
        _ => false,
    }
}

fn is_of_terminal(name: &[u8]) -> bool
    ensures { result ≡ is_of_terminal name.now }
{
    name == TTYNAME || name == TTYTYPE || name == LC_CTYPE || name == LC_MESSAGES
}

/// Whether a line with a command of this rule is allowed at the outer door.
fn passes(rule: Rule, line: &CutLine<'_>) -> bool
    ensures { result ≡ passes rule line.now }
{
    let rest = line.rest();
    match rule {
        Rule::Always => true,
        Rule::NotTheMode => name_and_value(rest).0 != PINENTRY_MODE,
        Rule::AboutTheAgent => is_about_the_agent(arguments(rest)),
        Rule::Uncached => LineRequest::of_cut(line).leaves_cache(),
        Rule::OneKey => lists_none(rest),
        Rule::Never => false,
    }
}

/// Whether not all keys are asked for.
fn lists_none(text: &[u8]) -> bool
    ensures { result ≡ lists_none (options_of (words text.now)) }
{
    !has_option(text, LIST) && last_value(text, LIST).is_none()
}

/// Whether GETINFO is asked for what the agent is, or which options it has.
fn is_about_the_agent(text: &[u8]) -> bool
    ensures { result ≡ is_about_the_agent (words text.now) }
{
    match next_word(text) {
        Some((what, _)) => what == VERSION || what == HAS_OPTION,
        None => false,
    }
}
