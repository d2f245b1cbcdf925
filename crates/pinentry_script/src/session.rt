//! The state of a scripted session, and what each line of the agent makes of it. Pure: it goes on
//! through the script's answers, and reads and writes nothing. Begin with `Session::turn`, and with
//! `turn_of` of `specs/Turns`.

ghost use Rattle.std.specs.{Prelude.{◌≡◌, false, length, map}, List.before_first};
ghost use Rattle.assuan_text.specs.{Options.arguments_of, Words.{words, command_of}};
ghost use Rattle.assuan_line.specs.Lines.{pieces_of};
ghost use Rattle.pinentry_script.specs.{Entries.{answers_in, pid_of, entries_of}, Responses.says};
ghost use Rattle.pinentry_script.specs.Turns.{Turn, command_named, turn_of, next_answer};
ghost use Rattle.pinentry_script.specs.Turns.{without_qualities, carried_out, ends_inquiry, info};
ghost use Rattle.pinentry_script.specs.{Writing.{IsShort, IsShortText}, Steps.IsTurn};

use crate::entries::{Entry, next_answer, pid_of};
use crate::response::{Phrase, Response};
use assuan_text::{arguments, command_and_rest, found_in_any_case, is_ignored, next_word};

/// What a command is to do.
#[derive(Clone, Copy, PartialEq, Eq)]
pub(crate) enum Command {
    Set,
    GetInfo,
    GetPin,
    Confirm,
    Bye,
}

const COMMANDS: [(&[u8], Command); 5] = [
    (b"OPTION", Command::Set),
    (b"GETINFO", Command::GetInfo),
    (b"GETPIN", Command::GetPin),
    (b"CONFIRM", Command::Confirm),
    (b"BYE", Command::Bye),
];

/// What a session waits for.
#[derive(Clone, Copy, PartialEq, Eq)]
pub(crate) enum Stage {
    Request,
    /// The end of an inquiry.
    Inquiry,
    /// Nothing more: it was said goodbye.
    Closed,
}

/// A session over the answers of a script.
#[derive(Drop)]
pub(crate) struct Session<'a> {
    pid: &'a [u8],
    /// The part of the script behind the answers that were taken.
    pub(crate) file: &'a [u8],
    pub(crate) stage: Stage,
}

impl<'a> Session<'a> {
    pub(crate) fn new(file: &'a [u8]) -> Self
        ensures pid { result.pid.now ≡ pid_of (entries_of (pieces_of file.now)) }
        ensures file { result.file.now ≡ file.now }
        ensures stage { result.stage ≡ Stage.Request }
        ensures short { IsShortText result.pid.now }
    {
        Session {
            pid: pid_of(file),
            file,
            stage: Stage::Request,
        }
    }

    /// Takes a line, and gives what is said to it.
    pub(crate) fn turn(&mut self, line: &[u8]) -> Response<'a>
        requires { IsShortText self.old.pid.now }
        ensures turn { IsTurn
            (turn_of self.old.pid.now self.old.stage (answers_in self.old.file.now) line.now)
            self.old result self.new }
        ensures short { IsShort result }
    {
        match self.stage {
            Stage::Request if is_ignored(line) => Response::Nothing,
            Stage::Request => self.carry_out(line),
            Stage::Inquiry if ends_inquiry(line) => self.answer(),
            Stage::Inquiry | Stage::Closed => Response::Nothing,
        }
    }

    /// Takes a request.
    fn carry_out(&mut self, line: &[u8]) -> Response<'a>
        requires stage { self.old.stage ≡ Stage.Request }
        requires short { IsShortText self.old.pid.now }
        ensures turn { IsTurn (carried_out self.old.pid.now (answers_in self.old.file.now) line.now
            (command_named (command_of line.now))) self.old result self.new }
        ensures short { IsShort result }
    {
        let (word, rest) = command_and_rest(line);
        match command_named(word) {
            None => Response::Say(Phrase::Unknown),
            Some(Command::Set) => Response::Say(Phrase::Done),
            Some(Command::GetInfo) => self.info(rest),
            Some(Command::GetPin) => self.answer(),
            Some(Command::Confirm) => {
                self.skip_qualities();
                self.answer()
            }
            Some(Command::Bye) => {
                self.stage = Stage::Closed;
                Response::Say(Phrase::Closing)
            }
        }
    }

    /// What GETINFO is answered.
    fn info(&self, text: &[u8]) -> Response<'a>
        requires { IsShortText self.now.pid.now }
        ensures says { says result ≡ info self.now.pid.now (arguments_of (words text.now)) }
        ensures short { IsShort result }
    {
        match next_word(arguments(text)) {
            Some((b"pid", _)) => Response::Give(self.pid),
            _ => Response::Say(Phrase::Unknown),
        }
    }

    /// Takes the next answer.
    fn answer(&mut self) -> Response<'a>
        ensures turn { IsTurn
            (next_answer (answers_in self.old.file.now)) self.old result self.new }
        ensures short { IsShort result }
    {
        self.stage = Stage::Request;
        let Some((answer, file)) = next_answer(self.file) else {
            return Response::Say(Phrase::Cancelled);
        };
        self.file = file;
        match answer {
            Entry::Quality(text) => {
                self.stage = Stage::Inquiry;
                Response::Inquire(text)
            }
            Entry::Pin(text) => Response::Give(text),
            Entry::Phrase(phrase) => Response::Say(phrase),
            Entry::Pid(_) => Response::Nothing,
        }
    }

    /// Passes over the answers that ask for a quality.
    fn skip_qualities(&mut self)
        ensures answers { answers_in self.new.file.now
            ≡ without_qualities (answers_in self.old.file.now) }
        ensures pid { self.new.pid.now ≡ self.old.pid.now }
        ensures stage { self.new.stage ≡ self.old.stage }
    {
        while let Some((Entry::Quality(_), file)) = next_answer(self.file) {
            self.file = file;
        }
    }
}

/// The command of this name, whatever the case of its letters.
fn command_named(word: &[u8]) -> Option<Command>
    ensures { result ≡ command_named word.now }
{
    if let [s, e, t, ..] = word {
        if [*s, *e, *t].eq_ignore_ascii_case(b"SET") {
            return Some(Command::Set);
        }
    }
    found_in_any_case(word, &COMMANDS)
}

/// Whether the line ends an inquiry.
fn ends_inquiry(line: &[u8]) -> bool
    ensures { result ≡ ends_inquiry line.now }
{
    let (word, _) = command_and_rest(line);
    word.eq_ignore_ascii_case(b"END") || word.eq_ignore_ascii_case(b"CAN")
}
