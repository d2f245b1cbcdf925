//! The agent as a program: standard input, standard output and the machine, handed to `run_agent`.
//!
//! Begin with `main`. What the machine gives is `agent_host`'s; here are the words of the command
//! line and what a status says on the error stream, which are tested (`tools/statuses`). There are
//! no definitions.
#![tactic(auto)]

use agent_host::SystemHost;
use agent_top::{Status, run_agent};
use std::io::ErrorKind;
use std::process::ExitCode;
use std::{env, process};
use std_link::StdLink;

fn main(rt: HostRuntime) -> ExitCode {
    let words = match words_of(&rt) {
        Ok(words) => words,
        Err(status) => return end(&rt, status.number()),
    };
    let mut stdio = StdLink::new(rt.reader(), std::io::writer(&rt));
    let mut host = SystemHost::new(&rt, rt.alloc(), process::id(rt.process()));
    let status = run_agent(&rt, rt.alloc(), &words, &mut stdio, &mut host);
    end(&rt, status)
}

/// Ends with this status, and a line on the error stream that says why. Where that can't be written
/// nobody is to be told.
fn end(rt: &HostRuntime, status: u8) -> ExitCode {
    if let Some(reason) = reason(status) {
        let _ = eprintln!(rt; "agent: {reason} (status {status})");
    }
    ExitCode::from(status)
}

/// What a status says, but for that of a run that went well.
fn reason(status: u8) -> Option<&'static str> {
    match status {
        0 => None,
        1 => Some("there is no memory"),
        2 => Some("the command line is refused: see dogwoodcatch-agent(1)"),
        3 => Some("a read failed"),
        4 => Some("a write failed"),
        5 => Some("there is no socket in the home folder, or it failed"),
        6 => Some("the session has read all that it may"),
        _ => Some("a line was longer than 1,000 bytes"),
    }
}

/// The words of the command line without the program's name, or the status where they can't be had.
/// Words that can't be read are none that the agent takes.
fn words_of(rt: &HostRuntime) -> Result<Vec<String>, Status> {
    let all = env::args(rt).map_err(|fault| match fault.kind() {
        ErrorKind::OutOfMemory => Status::NoMemory,
        _ => Status::BadWords,
    })?;
    let mut words = Vec::new(rt.alloc());
    for word in all.skip(1) {
        words.push(word).map_err(|_| Status::NoMemory)?;
    }
    Ok(words)
}
