//! The options that an agent runs with, as lines of a file of its home folder, for whoever wants to
//! know them: `agent.options`. It takes memory for the text. Begin
//! with `write_options`.

use crate::kept::write_whole;
use session_options::Rules;
use std::alloc::{AllocError, Global};
use std::fs::{File, Files};
use std::{io, str};

/// Writes the options down in this folder, closed to others.
pub fn write_options<R: Files<File = File>>(
    rt: &R,
    alloc: Global,
    home: &str,
    rules: &Rules,
) -> io::Result<()> {
    let path = format!(in alloc; "{home}/agent.options")?;
    let text = options_text(alloc, rules)?;
    write_whole(rt, alloc, &path, text.as_bytes())
}

/// The options as words of the command line, a line each.
fn options_text(alloc: Global, rules: &Rules) -> Result<String, AllocError> {
    let mut text = String::new(alloc);
    for (name, number) in [
        ("default-cache-ttl", u64::from(rules.default_ttl)),
        ("max-cache-ttl", u64::from(rules.max_ttl)),
        ("default-cache-ttl-ssh", u64::from(rules.default_ttl_ssh)),
        ("max-cache-ttl-ssh", u64::from(rules.max_ttl_ssh)),
        ("pinentry-timeout", u64::from(rules.pinentry_timeout)),
        ("min-passphrase-len", u64::from(rules.min_len)),
        ("min-passphrase-nonalpha", u64::from(rules.min_nonalpha)),
        ("s2k-count", rules.s2k_count),
        ("workers", u64::from(rules.workers)),
    ] {
        let line = format!(in alloc; "--{name}={number}\n")?;
        text.push_str(&line)?;
    }
    for (name, is_set) in [
        ("allow-preset-passphrase", rules.allow_preset),
        ("no-allow-loopback-pinentry", !rules.allow_loopback),
        ("extra-socket", rules.extra),
    ] {
        if is_set {
            let line = format!(in alloc; "--{name}\n")?;
            text.push_str(&line)?;
        }
    }
    for (name, path) in [
        ("pinentry-program", rules.pinentry.as_slice()),
        ("homedir", rules.homedir.as_slice()),
    ] {
        let line = format!(in alloc; "--{name}={}\n", str::from_utf8(path).unwrap_or("?"))?;
        text.push_str(&line)?;
    }
    Ok(text)
}
