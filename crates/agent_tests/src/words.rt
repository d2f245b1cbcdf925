//! Tests of the agent's command line (GnuPG manual, "agent options"): what each is read as, in
//! words. Begin with `LINES`, a row a command line, which `first_wrong` goes through.

use crate::rows::text_of;
use agent_top::{WordsFault, read_words};
use session_options::Rules;
use std::alloc::{AllocError, Global};
use std::test::Fail;

/// What the words are read as, in words. A path is text in all rows.
fn told(alloc: Global, read: &Result<Rules, WordsFault>) -> Result<String, AllocError> {
    let rules = match read {
        Ok(rules) => rules,
        Err(fault) => return format!(in alloc; "{fault}"),
    };
    let times = told_times(alloc, rules)?;
    let allowed = told_flags(alloc, rules)?;
    let pinentry = str::from_utf8(&rules.pinentry).unwrap_or("(no text)");
    let homedir = str::from_utf8(&rules.homedir).unwrap_or("(no text)");
    let passphrases = format!(in alloc;
        "{} {} s2k {}",
        rules.min_len, rules.min_nonalpha, rules.s2k_count
    )?;
    format!(in alloc;
        "{:?} {times} least {passphrases} workers {} pid {}{allowed} {pinentry} {homedir}",
        rules.run, rules.workers, rules.pid
    )
}

fn told_times(alloc: Global, rules: &Rules) -> Result<String, AllocError> {
    let usual = format!(in alloc; "ttl {} {}", rules.default_ttl, rules.max_ttl)?;
    let ssh = format!(in alloc; "ssh {} {}", rules.default_ttl_ssh, rules.max_ttl_ssh)?;
    format!(in alloc; "{usual} {ssh} timeout {}", rules.pinentry_timeout)
}

fn told_flags(alloc: Global, rules: &Rules) -> Result<String, AllocError> {
    let mut all = String::new(alloc);
    for (is, word) in [
        (rules.allow_preset, " presets"),
        (rules.allow_loopback, " loopback"),
        (rules.extra, " extra"),
    ] {
        if is {
            all.push_str(word)?;
        }
    }
    Ok(all)
}

const REFUSED: &str = "unknown or faulty words on the command line";

/// A command line, and what it is read as. Each blank parts two of its words; an empty one has
/// none. A text may have repeated parts, as `{part*3}`.
const LINES: [(&str, &str); 61] = [
    // Defaults stand for what isn't given.
    (
        "--server",
        "Server ttl 600 7200 ssh 1800 7200 timeout 0 least 8 1 s2k 4194304 workers 8 pid 0 loopback /usr/bin/pinentry .",
    ),
    (
        "--daemon",
        "Daemon ttl 600 7200 ssh 1800 7200 timeout 0 least 8 1 s2k 4194304 workers 8 pid 0 loopback /usr/bin/pinentry .",
    ),
    (
        "--load 0",
        "Load(0) ttl 600 7200 ssh 1800 7200 timeout 0 least 8 1 s2k 4194304 workers 8 pid 0 loopback /usr/bin/pinentry .",
    ),
    (
        "--load=4294967295",
        "Load(4294967295) ttl 600 7200 ssh 1800 7200 timeout 0 least 8 1 s2k 4194304 workers 8 pid 0 loopback /usr/bin/pinentry .",
    ),
    // Each option sets its field, in any order.
    (
        "--homedir /h --pinentry-program=/p=q --default-cache-ttl 2147483647 --max-cache-ttl=1 --default-cache-ttl-ssh 2 --max-cache-ttl-ssh=0000000600 --allow-preset-passphrase --server --no-allow-loopback-pinentry --min-passphrase-len 255 --min-passphrase-nonalpha=0 --pinentry-timeout 4 --s2k-count=65011712 --workers 64",
        "Server ttl 2147483647 1 ssh 2 600 timeout 4 least 255 0 s2k 65011712 workers 64 pid 0 presets /p=q /h",
    ),
    (
        "--s2k-count 65536 --workers=1 --min-passphrase-len=0 --min-passphrase-nonalpha 255 --pinentry-timeout=2147483647 --default-cache-ttl=0 --daemon --pinentry-program x",
        "Daemon ttl 0 7200 ssh 1800 7200 timeout 2147483647 least 0 255 s2k 65536 workers 1 pid 0 loopback x .",
    ),
    // A daemon may serve restricted sessions.
    (
        "--extra-socket --daemon",
        "Daemon ttl 600 7200 ssh 1800 7200 timeout 0 least 8 1 s2k 4194304 workers 8 pid 0 loopback extra /usr/bin/pinentry .",
    ),
    // A path has up to 200 bytes.
    (
        "--server --homedir=-{x*199}",
        "Server ttl 600 7200 ssh 1800 7200 timeout 0 least 8 1 s2k 4194304 workers 8 pid 0 loopback /usr/bin/pinentry -{x*199}",
    ),
    ("--server --homedir=-{x*200}", REFUSED),
    ("--server --pinentry-program {x*201}", REFUSED),
    // One of three tasks.
    ("", REFUSED),
    (" ", REFUSED),
    ("--workers=2", REFUSED),
    ("--server --server", REFUSED),
    ("--server --daemon", REFUSED),
    ("--daemon --load 7", REFUSED),
    ("--load", REFUSED),
    ("--load=", REFUSED),
    ("--load=x", REFUSED),
    ("--load 4294967296", REFUSED),
    ("--server --extra-socket", REFUSED),
    ("--load 7 --extra-socket", REFUSED),
    ("--daemon --extra-socket --extra-socket", REFUSED),
    ("--daemon --extra-socket=x", REFUSED),
    ("--server --extra-socket=x", REFUSED),
    // Words that aren't options.
    ("--", REFUSED),
    ("--server --", REFUSED),
    ("-- --server", REFUSED),
    ("--server -", REFUSED),
    ("--server --homedir -", REFUSED),
    ("--server --homedir --", REFUSED),
    ("--server ", REFUSED),
    ("--server x", REFUSED),
    // Unknown ones.
    ("-h", REFUSED),
    ("--help", REFUSED),
    ("--server --version", REFUSED),
    ("--serv", REFUSED),
    ("--server --SERVER", REFUSED),
    ("--server --frob", REFUSED),
    // Values that are missing, or stand where none does, and options that are given twice.
    ("--server=1", REFUSED),
    ("--homedir", REFUSED),
    ("--homedir --server", REFUSED),
    ("--server --homedir=", REFUSED),
    ("--server --homedir ", REFUSED),
    ("--server --homedir -x", REFUSED),
    ("--server --homedir a b", REFUSED),
    ("--server --homedir=a --homedir b", REFUSED),
    // Numbers of another form, or out of their range.
    ("--server --min-passphrase-len=256", REFUSED),
    ("--server --min-passphrase-nonalpha=256", REFUSED),
    ("--server --s2k-count=65535", REFUSED),
    ("--server --s2k-count 65011713", REFUSED),
    ("--server --workers 0", REFUSED),
    ("--server --workers=65", REFUSED),
    ("--server --workers -1", REFUSED),
    ("--server --max-cache-ttl=2147483648", REFUSED),
    ("--server --max-cache-ttl-ssh=2147483648", REFUSED),
    ("--server --pinentry-timeout=2147483648", REFUSED),
    ("--server --max-cache-ttl=00000000600", REFUSED),
    ("--server --max-cache-ttl=+1", REFUSED),
    ("--server --max-cache-ttl=1s", REFUSED),
    ("--server --max-cache-ttl=0x1", REFUSED),
];

/// The words of a line.
fn words_of(alloc: Global, line: &str) -> Result<Vec<String>, AllocError> {
    let mut words = Vec::new(alloc);
    if line.is_empty() {
        return Ok(words);
    }
    for word in text_of(alloc, line)?.split(' ') {
        words.push(String::from_str(alloc, word)?)?;
    }
    Ok(words)
}

/// The first line that is read as something else, with what it is read as.
fn first_wrong(alloc: Global) -> Result<Option<String>, AllocError> {
    for (line, wanted) in LINES {
        let words = words_of(alloc, line)?;
        let got = told(alloc, &read_words(alloc, &words))?;
        if got != text_of(alloc, wanted)? {
            return Ok(Some(format!(in alloc; "{line}: {got}")?));
        }
    }
    Ok(None)
}

#[test]
fn the_command_line_is_read(rt: HostRuntime) -> Result<(), Fail> {
    assert_eq!(rt; first_wrong(rt.alloc())?, None);
    Ok(())
}
