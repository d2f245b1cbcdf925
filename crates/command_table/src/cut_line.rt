//! A line, cut into its command and what comes after it, once for all that read it. Pure; it
//! borrows the line. Begin with `CutLine::of`; contracts see the line, of which `command_in`
//! (`specs/Commands`) and `rest_of` (`assuan_text`, `specs/Words`) are the two.

ghost use Rattle.std.specs.Prelude.{◌≡◌, ◌≤◌, length};
ghost use Rattle.assuan_text.specs.{Words.rest_of, declared.TheConstants.MAX_LINE_LEN};
ghost use Rattle.command_table.specs.Commands.{command_in, ends_description};

use crate::{Command, KeyCommandName, command_named};
use assuan_line::Line;
use assuan_text::command_and_rest;
use std::marker::Model;

/// A line by its command and what comes after it. Contracts see the line.
#[derive(Drop)]
pub struct CutLine<'a> {
    line: &'a [u8],
    command: Option<Command>,
    rest: &'a [u8],
}

impl<'a> Model for CutLine<'a> {
    ghost use Rattle.std.specs.Prelude.{ℕ, List};
    ghost use Rattle.command_table.specs.Commands.{IsCut};

    ghost Value = { List ℕ };

    ghost view = { λ cut. cut.line.now };

    ghost invariant = { λ cut. IsCut cut.line.now cut.command cut.rest.now };
}

impl<'a> CutLine<'a> {
    /// Cuts a line.
    pub fn of(line: &'a Line) -> CutLine<'a>
        ensures { result ≡ line.now }
    {
        let line = line.bytes();
        let (word, rest) = command_and_rest(line);
        let command = command_named(word);
        CutLine {
            line,
            command,
            rest,
        }
    }

    /// The same once more.
    pub fn copy(&self) -> CutLine<'a>
        ensures { result ≡ self.now }
    {
        CutLine {
            line: self.line,
            command: self.command,
            rest: self.rest,
        }
    }

    /// All of the line.
    pub fn bytes(&self) -> &'a [u8]
        ensures bytes { result.now ≡ self.now }
        ensures within { length result.now ≤ MAX_LINE_LEN }
    {
        self.line
    }

    /// The command that its first word names.
    pub fn command(&self) -> Option<Command>
        ensures { result ≡ command_in self.now }
    {
        self.command
    }

    /// Whether it ends what the client described for prompts (SETKEYDESC of gpg-agent): a line with
    /// a command on keys that may prompt does, in form or not.
    pub fn ends_description(&self) -> bool
        ensures { result ≡ ends_description (command_in self.now) }
    {
        matches!(
            self.command,
            Some(Command::Key(
                KeyCommandName::ImportKey
                    | KeyCommandName::ExportKey
                    | KeyCommandName::Passwd
                    | KeyCommandName::DeleteKey
            ))
        )
    }

    /// What comes after the first word and the blanks behind it.
    pub fn rest(&self) -> &'a [u8]
        ensures rest { result.now ≡ rest_of self.now }
        ensures within { length result.now ≤ MAX_LINE_LEN }
    {
        self.rest
    }
}
