//! What GnuPG's own agent answers in this one's place: what gpgconf asks, its version and its help.
//! It starts that program, and prints what stands here in front of it. Begin with `is_asked`.

use crate::fault::{Fault, said};
use gnupg_home::real_path;
use std::alloc::Global;
use std::env;
use std::fs::{File, Files};
use std::process::{Command, Processes};

/// GnuPG's own agent.
pub const GNUPG_AGENT: &str = "/usr/bin/gpg-agent";

/// Whether one of the words is one that GnuPG's own agent answers.
pub fn is_asked(words: &[String]) -> bool {
    words.iter().any(|word| is_question(word.as_str()))
}

fn is_question(word: &str) -> bool {
    word.starts_with("--gpgconf-")
        || matches!(
            word,
            "--version" | "--help" | "-h" | "--warranty" | "--dump-options"
        )
}

/// Whether it is this program.
pub fn is_itself<R: Files<File = File>>(rt: &R, alloc: Global) -> bool {
    let Ok(own) = env::current_exe(&(rt, alloc)) else {
        return false;
    };
    match (real_path(rt, alloc, GNUPG_AGENT), own.as_path().to_str()) {
        (Ok(Some(path)), Some(own)) => path.as_str() == own,
        _ => false,
    }
}

/// Has it answer these words, in this one's place, and gives its status.
pub fn answer<R: Files<File = File> + Processes + Print>(
    rt: &R,
    alloc: Global,
    words: &[String],
) -> Result<u8, Fault> {
    if is_itself(rt, alloc) {
        return Err(said(
            2,
            format!(in alloc; "{GNUPG_AGENT} is this program, and nobody can answer that"),
        ));
    }
    if words.iter().any(|word| is_introduced(word.as_str())) {
        introduce(rt, alloc);
    }
    let mut command = Command::new(alloc, GNUPG_AGENT)?;
    for word in words {
        command.arg(word.as_str())?;
    }
    match command.status(rt) {
        Ok(status) => Ok(status_number(status.code())),
        Err(error) => Err(said(
            127,
            format!(in alloc; "{GNUPG_AGENT}, which would answer that, can't be run: {error}"),
        )),
    }
}

/// As a shell tells it, where a signal ended the program.
fn status_number(code: Option<i32>) -> u8 {
    match code {
        Some(code) => u8::try_from(code).unwrap_or(u8::MAX),
        None => 128,
    }
}

/// Whether the answer is for a reader.
fn is_introduced(word: &str) -> bool {
    matches!(word, "--version" | "--help" | "-h")
}

/// Says what is installed here, before GnuPG's own text.
fn introduce<R: Files<File = File> + Print>(rt: &R, alloc: Global) {
    if let Ok(own) = env::current_exe(&(rt, alloc)) {
        let _ = println!(rt;
            "Dogwoodcatch's agent in gpg-agent's place: {}",
            own.as_str()
        );
    }
    let _ = println!(rt;
        "What gpgconf asks is answered by GnuPG's own program, which says of itself:"
    );
}
