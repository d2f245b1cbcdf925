//! `passphrase` as a program: its words, the standard streams and the machine, handed to
//! `run_passphrase`, and to `run_askpass` where it is called as `passphrase-askpass`.
//!
//! Begin with `main`. It is installed with the mode 0711: of a program that its user can't read no
//! core dump is made, and no other program of the user sees its memory (proc(5), "dumpable"). What
//! the machine gives is `passphrase_host`'s. There are no definitions; what is here is tested
//! (`tools/passphrase-cases`).
#![tactic(auto)]

mod streams;

use crate::streams::Streams;
use passphrase_client::{run_askpass, run_passphrase};
use passphrase_host::SystemConnector;
use passphrase_words::{Act, Wanted, read_words};
use std::env::VarError;
use std::io::{ErrorKind, IsTerminal};
use std::process::ExitCode;
use std::{env, io};
use std_link::StdLink;

/// By this name it is an askpass (ssh(1), `SSH_ASKPASS`; git(1), `GIT_ASKPASS`; sudo(8), `--askpass`).
const ASKPASS: &str = "passphrase-askpass";

/// By this variable ssh says that it wants no passphrase, but a yes or no, or only to be shown.
const NO_PASSPHRASE: &str = "SSH_ASKPASS_PROMPT";

/// Why nothing is done.
#[derive(Clone, Copy)]
enum Refusal {
    NoMemory,
    Words,
    Confirms,
    OutputClosed,
    InputTerminal,
}

impl Refusal {
    fn words(self) -> &'static str {
        match self {
            Refusal::NoMemory => "out of memory",
            Refusal::Words => "a word isn't UTF-8",
            Refusal::Confirms =>
                "passphrase-askpass asks for a passphrase alone, and SSH_ASKPASS_PROMPT wants something else",
            Refusal::OutputClosed => "standard output is closed",
            Refusal::InputTerminal => "--store reads standard input, which is a terminal here",
        }
    }

    fn status(self) -> u8 {
        match self {
            Refusal::NoMemory => 1,
            _ => 2,
        }
    }
}

/// How this was called.
#[derive(Drop)]
struct Called {
    is_askpass: bool,
    /// The words without the program's name.
    words: Vec<String>,
}

fn main(rt: HostRuntime) -> ExitCode {
    // Before anything is opened.
    let streams = Streams::hold(&rt);
    let status = match run(&rt, &streams) {
        Ok(status) => status,
        Err(refusal) => {
            // Where that can't be written nobody is to be told.
            let _ = eprintln!(rt; "passphrase: {}", refusal.words());
            refusal.status()
        }
    };
    drop(streams);
    ExitCode::from(status)
}

fn run(rt: &HostRuntime, streams: &Streams) -> Result<u8, Refusal> {
    let called = call_of(rt)?;
    refuse_surroundings(rt, &called, streams)?;
    let alloc = rt.alloc();
    let mut connector = SystemConnector::new(rt, alloc).map_err(|_| Refusal::NoMemory)?;
    let mut input = StdLink::new(rt.stdin(), io::sink());
    let mut output = StdLink::new(io::empty(), rt.stdout());
    let mut errors = StdLink::new(io::empty(), rt.stderr());
    let words = called.words.as_slice();
    Ok(if called.is_askpass {
        run_askpass(
            alloc,
            words,
            &mut connector,
            &mut input,
            &mut output,
            &mut errors,
        )
    } else {
        run_passphrase(
            alloc,
            words,
            &mut connector,
            &mut input,
            &mut output,
            &mut errors,
        )
    })
}

fn call_of(rt: &HostRuntime) -> Result<Called, Refusal> {
    let all = env::args(rt).map_err(|fault| match fault.kind() {
        ErrorKind::OutOfMemory => Refusal::NoMemory,
        _ => Refusal::Words,
    })?;
    let mut called = Called {
        is_askpass: false,
        words: Vec::new(rt.alloc()),
    };
    for (place, word) in all.enumerate() {
        if place == 0 {
            called.is_askpass = is_askpass(word.as_str());
        } else {
            called.words.push(word).map_err(|_| Refusal::NoMemory)?;
        }
    }
    Ok(called)
}

/// Whether the program's name is the askpass's, in whatever folder.
fn is_askpass(name: &str) -> bool {
    name.rsplit('/').next() == Some(ASKPASS)
}

/// Refuses what the standard streams and the environment can't serve, before anything is asked.
fn refuse_surroundings(
    rt: &HostRuntime,
    called: &Called,
    streams: &Streams,
) -> Result<(), Refusal> {
    if called.is_askpass {
        if is_set(rt, NO_PASSPHRASE) {
            return Err(Refusal::Confirms);
        }
        return if streams.output_is_closed() {
            Err(Refusal::OutputClosed)
        } else {
            Ok(())
        };
    }
    match act_of(&called.words) {
        Some(Act::Give { .. }) if streams.output_is_closed() => Err(Refusal::OutputClosed),
        Some(Act::Store) if rt.stdin().is_terminal() => Err(Refusal::InputTerminal),
        _ => Ok(()),
    }
}

/// What the words want done, where they are read as a task.
fn act_of(words: &[String]) -> Option<Act> {
    match read_words(words) {
        Ok(Wanted::Task(task)) => Some(task.act),
        _ => None,
    }
}

/// Whether the variable is set to something.
fn is_set(rt: &HostRuntime, name: &str) -> bool {
    match env::var(rt, name) {
        Ok(value) => !value.is_empty(),
        Err(VarError::NotPresent) => false,
        Err(VarError::NotUnicode | VarError::OutOfMemory) => true,
    }
}
