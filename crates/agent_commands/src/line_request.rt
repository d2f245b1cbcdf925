//! A line that is read as a request, in two steps: the fields of a GET_PASSPHRASE, and then all that
//! is long. Pure; it borrows the line. Begin with `LineRequest::of`: `whole` is `request_of` the
//! line (`specs/Requests`), and `quiet` finds the request of the cache alone.

ghost use Rattle.std.specs.Prelude.{◌≡◌};
ghost use Rattle.agent_commands.specs.Exchanges.{quiet_of};
ghost use Rattle.agent_commands.specs.Requests.{cache_request_by, get_fields, leaves_cache};
ghost use Rattle.agent_commands.specs.Requests.{request_of};
ghost use Rattle.command_table.specs.Commands.{command_in};

use crate::get_line::GetLine;
use crate::read::{read_command, text_of};
use crate::{CacheCommand, QuietRequest, Request};
use assuan_line::Line;
use assuan_server::Code;
use command_table::{Command, CommandName, CutLine};
use std::marker::Model;

/// A line that is read but for what is long: a GET_PASSPHRASE has its fields, whose texts are words
/// of the line yet. Contracts see the line.
#[derive(Drop)]
pub struct LineRequest<'a> {
    line: CutLine<'a>,
    /// `None` also for any other command.
    get: Option<GetLine<'a>>,
}

impl<'a> Model for LineRequest<'a> {
    ghost use Rattle.std.specs.Prelude.{ℕ, List};
    ghost use Rattle.{assuan_text.specs.Words.rest_of, command_table.specs.Commands.command_in};
    ghost use Rattle.agent_commands.specs.Requests.{ReadsGet};

    ghost Value = { List ℕ };

    ghost view = { λ begun. begun.line };

    ghost invariant = { λ begun. ReadsGet (command_in begun.line) (rest_of begun.line) begun.get };
}

impl<'a> LineRequest<'a> {
    /// Reads a line up to what is long.
    pub fn of(line: &'a Line) -> LineRequest<'a>
        ensures { result ≡ line.now }
    {
        LineRequest::of_cut(&CutLine::of(line))
    }

    /// Reads one whose command is found.
    pub fn of_cut(line: &CutLine<'a>) -> LineRequest<'a>
        ensures { result ≡ line.now }
    {
        let get = match line.command() {
            Some(Command::Cache(CommandName::GetPassphrase)) => GetLine::of(line.rest()),
            _ => None,
        };
        LineRequest {
            line: line.copy(),
            get,
        }
    }

    /// The request, where it asks the cache alone for a passphrase, as GET_PASSPHRASE does with
    /// `--no-ask` or without texts.
    // The texts of a line are long, and most requests are quiet: so no text is made for these.
    pub fn quiet(&self) -> Option<QuietRequest>
        ensures { result ≡ quiet_of (request_of self.now) }
    {
        match &self.get {
            Some(get) => get.quiet(),
            None => None,
        }
    }

    /// Whether it is a GET_PASSPHRASE in form that leaves the cache out. No text is made.
    pub fn leaves_cache(&self) -> bool
        ensures { result ≡ leaves_cache (get_fields (request_of self.now)) }
    {
        match &self.get {
            Some(get) => get.leaves_cache(),
            None => false,
        }
    }

    /// What it asks of the cache or the session.
    // Its texts' places are filled anew at each request where it is part of the session's loop.
    #[inline(never)]
    pub fn cache_command(&self) -> Result<CacheCommand, Code>
        ensures { result ≡ cache_request_by (command_in self.now) self.now }
    {
        match self.line.command() {
            Some(Command::Cache(name)) => read_command(name, self.line.rest(), &self.get),
            _ => Err(Code::UnknownCommand),
        }
    }

    /// The request with all that it has.
    #[tactic(auto, unfolding(crate::specs::Requests::request_of))]
    pub fn whole(&self) -> Request
        ensures { result ≡ request_of self.now }
    {
        if let Some(Command::Key(_)) = self.line.command() {
            return Request::Key(text_of(self.line.bytes()));
        }
        match self.cache_command() {
            Ok(command) => Request::Cache(command),
            Err(code) => Request::Bad(code),
        }
    }
}
