//! A pinentry without a user: it answers on standard input and output as the file `answers.txt`
//! says, which lies where it runs.
//!
//! It reads the file and calls `run_script` (`pinentry_script`), whose clause says what is written
//! and the status; there are no clauses of its own. A stored run tests it.
#![tactic(auto)]

use pinentry_script::{BAD_SCRIPT, run_script};
use std::fs;
use std::io::ErrorKind;
use std::process::ExitCode;
use std_link::StdLink;

/// The status where there is no memory for the file.
const NO_MEMORY: u8 = 1;

fn main(rt: HostRuntime) -> ExitCode {
    let answers = match fs::read(&rt, "answers.txt") {
        Ok(answers) => answers,
        Err(fault) if fault.kind() == ErrorKind::OutOfMemory => return ExitCode::from(NO_MEMORY),
        Err(_) => return ExitCode::from(BAD_SCRIPT),
    };
    let mut stdio = StdLink::new(rt.reader(), std::io::writer(&rt));
    ExitCode::from(run_script(rt.alloc(), &answers, &mut stdio))
}
