//! To whom the program says something: a caller, a log, or who asked for it. It writes lines to the
//! standard streams and to the log. Begin with `Voice`.

ghost use Rattle.std.specs.Prelude.{None};

use crate::fault::Fault;
use crate::log::append;
use agent_host::Stamp;
use agent_ports::{Sent, Sink};
use printable::Printable;
use std::fmt::Display;
use std::fs::{File, Files};
use std::rt::Clock;
use std::str;

/// To whom a line is said.
#[derive(Clone, Copy)]
pub enum Voice<'a> {
    /// The error stream of a caller.
    Caller,
    /// The same, and the log at this path: where gpg starts an agent nobody sees the error stream.
    CallerAndLog(&'a str),
    /// The log at this path alone.
    LogAt(&'a str),
    /// The error stream of a daemon, which is a log: the time stands in front.
    Log,
    /// Standard output, as the answer to a question.
    Answer,
}

impl<'a> Voice<'a> {
    /// Says these words in a line. Where that can't be written nobody is to be told.
    pub fn say<R: Clock + Files<File = File> + Print + Eprint, T: Display>(
        self,
        rt: &R,
        words: &T,
    ) {
        match self {
            Voice::Caller => {
                let _ = eprintln!(rt; "gpg-agent: {words}");
            }
            Voice::CallerAndLog(log) => {
                let _ = eprintln!(rt; "gpg-agent: {words}");
                append(rt, log, words);
            }
            Voice::LogAt(log) => append(rt, log, words),
            Voice::Log => {
                let _ = eprintln!(rt; "{}gpg-agent: {words}", Stamp::now(rt));
            }
            Voice::Answer => {
                let _ = println!(rt; "{words}");
            }
        }
    }

    /// Says why a start doesn't go on, unless that was said.
    pub fn say_fault<R: Clock + Files<File = File> + Print + Eprint>(self, rt: &R, fault: &Fault) {
        match fault {
            Fault::NoMemory => self.say(rt, &"there is no memory"),
            Fault::Said { words, .. } => self.say(rt, words),
            Fault::Over(_) => {}
        }
    }

    /// The same, and gives the status of the process.
    pub fn end<R: Clock + Files<File = File> + Print + Eprint>(self, rt: &R, fault: &Fault) -> u8 {
        self.say_fault(rt, fault);
        fault.status()
    }

    /// It as a stream of lines.
    pub fn sink<R>(self, rt: &'a R) -> Lines<'a, R> {
        Lines {
            rt,
            voice: self,
            lines: 0,
        }
    }
}

/// A stream of whole lines, each of which is said.
#[derive(Drop)]
pub struct Lines<'a, R> {
    rt: &'a R,
    voice: Voice<'a>,
    lines: u64,
}

impl<R> Lines<'_, R> {
    /// How many lines were said.
    pub fn lines(&self) -> u64 {
        self.lines
    }
}

impl<R: Clock + Files<File = File> + Print + Eprint> Sink for Lines<'_, R> {
    // Where a line can't be written nobody is to be told, so no write of one fails.
    ghost output = { λ _. record { bytes = None; faults = 0 } };

    ghost beside_output = { λ _. record { bytes = None; faults = 0 } };

    fn put(&mut self, bytes: &[u8]) -> Sent {
        let words = bytes.strip_suffix(b"\n").unwrap_or(bytes);
        match str::from_utf8(words) {
            Ok(words) => self.voice.say(self.rt, &words),
            Err(_) => self.voice.say(self.rt, &Printable(words)),
        }
        self.lines = self.lines.saturating_add(1);
        Sent::All
    }
}
