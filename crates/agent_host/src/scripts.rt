//! Scripts that the tests start in a pinentry's place. It writes a file of the shell in the
//! temporary folder, which the test removes. It has one function, `script`, and is part of no
//! program.

use std::fs::OpenOptions;
use std::io::Write;
use std::os::unix::fs::OpenOptionsExt;
use std::test::Fail;
use std::{env, process};

/// A program of a test's own, which is a script of the shell. It is closed, so that it may be
/// started.
pub(crate) fn script(rt: &HostRuntime, name: &str, lines: &str) -> Result<String, Fail> {
    let temporary = env::temp_dir(rt)?;
    let Some(temporary) = temporary.as_path().to_str() else {
        return Err(Fail::new("no text"));
    };
    let number = process::id(rt.process());
    let path = format!(in rt.alloc(); "{temporary}/{name}{number}")?;
    let mut file = OpenOptions::new()
        .write(true)
        .create_new(true)
        .mode(0o700)
        .open(rt, &path)?;
    file.write_all(b"#!/bin/sh\n")?;
    file.write_all(lines.as_bytes())?;
    Ok(path)
}
