//! Files and words as users write them, and what becomes of them. The rows are those by which the
//! script in gpg-agent's place is tried (`tools/daemon-cases`).

use crate::{Folders, Mode, Path, Start, StartFault, Told, read_start, told_text};
use std::alloc::{AllocError, Global};
use std::test::Fail;

/// The lines of the machine and of the home folder, the words, the options that are otherwise than
/// with none of these, or `refused`, and what is told.
type Row = (
    &'static [u8],
    &'static [u8],
    &'static str,
    &'static str,
    &'static str,
);

const SET: [Row; 28] = [
    (
        b"",
        b"max-cache-ttl 60\r\ndefault-cache-ttl 30\r\nno-allow-loopback-pinentry\r\n",
        "",
        "default-cache-ttl=30 max-cache-ttl=60 no-allow-loopback-pinentry ",
        "",
    ),
    (
        b"",
        b"  max-cache-ttl \t 60 \t \n\tdefault-cache-ttl 30 \n",
        "",
        "default-cache-ttl=30 max-cache-ttl=60 ",
        "",
    ),
    (
        b"",
        b"max-cache-ttl=60 \ndefault-cache-ttl = 30\r\npinentry-program=/bin/true \n",
        "",
        "default-cache-ttl=30 max-cache-ttl=60 pinentry-program=/bin/true ",
        "",
    ),
    (
        b"",
        b"# a comment\n\n  # another\npinentry-program \"/bin/true\"\r\nmax-cache-ttl 60 # a minute\n",
        "",
        "max-cache-ttl=60 pinentry-program=/bin/true ",
        "",
    ),
    (
        b"",
        b"\xef\xbb\xbfmax-cache-ttl 60",
        "",
        "max-cache-ttl=60 ",
        "",
    ),
    (
        b"",
        b"max-cache-ttl 000000000060\ndefault-cache-ttl 000\n",
        "",
        "default-cache-ttl=0 max-cache-ttl=60 ",
        "",
    ),
    (
        b"max-cache-ttl 60\nno-allow-loopback-pinentry\r\n",
        b"default-cache-ttl 30\n",
        "",
        "default-cache-ttl=30 max-cache-ttl=60 no-allow-loopback-pinentry ",
        "",
    ),
    (
        b"max-cache-ttl 60\n",
        b"max-cache-ttl 61\n",
        "",
        "max-cache-ttl=61 ",
        "",
    ),
    (
        b"max-cache-ttl 60\n",
        b"max-cache-ttl 61\n",
        "--max-cache-ttl 62",
        "max-cache-ttl=62 ",
        "",
    ),
    (
        b"",
        b"default-cache-ttl 5000000000\n",
        "",
        "default-cache-ttl=2147483647 ",
        "line 1, counts as default-cache-ttl 2147483647, the nearest that there is: default-cache-ttl 5000000000\n",
    ),
    (
        b"",
        b"max-cache-ttl 99999999999999999999\n",
        "",
        "max-cache-ttl=2147483647 ",
        "line 1, counts as max-cache-ttl 2147483647, the nearest that there is: max-cache-ttl 99999999999999999999\n",
    ),
    (
        b"",
        b"ignore-invalid-option soon later\nlater 60\n",
        "",
        "",
        "line 2, is passed over: later 60\n",
    ),
    (
        b"",
        b"allow-preset-passphrase\n",
        "",
        "allow-preset-passphrase ",
        "",
    ),
    (
        b"",
        b"enable-ssh-support\nlog-file \\c\\n\\0101\n",
        "",
        "",
        "line 1, is passed over: enable-ssh-support\nline 2, is passed over: log-file \\c\\n\\0101\n",
    ),
    (
        b"",
        b"homedir /usr\n",
        "",
        "",
        "line 1, is passed over: homedir /usr (it is a word of the command line alone)\n",
    ),
    (
        b"",
        b"pinentry-program ~/tools/a pinentry\n",
        "",
        "pinentry-program=/home/u/tools/a pinentry ",
        "",
    ),
    (b"", b"s2k-count 100000\n", "", "s2k-count=100000 ", ""),
    (
        b"",
        b"s2k-count 1024\n",
        "",
        "s2k-count=65536 ",
        "line 1, counts as s2k-count 65536, the nearest that there is: s2k-count 1024\n",
    ),
    (
        b"",
        b"s2k-count 100000000\n",
        "",
        "s2k-count=65011712 ",
        "line 1, counts as s2k-count 65011712, the nearest that there is: s2k-count 100000000\n",
    ),
    (b"s2k-count 100000", b"s2k-count 0\n", "", "", ""),
    (
        b"",
        b"extra-socket /tmp/S.other\n",
        "",
        "",
        "line 1, is passed over: extra-socket /tmp/S.other (it can be S.gpg-agent.extra in the home folder, or none)\n",
    ),
    (
        b"",
        b"extra-socket ~/.gnupg/S.gpg-agent.extra\n",
        "",
        "extra-socket ",
        "",
    ),
    (
        b"extra-socket S.gpg-agent.extra\n",
        b"extra-socket=none \n",
        "",
        "",
        "",
    ),
    (
        b"no-allow-loopback-pinentry\n",
        b"allow-loopback-pinentry\n",
        "",
        "",
        "",
    ),
    (
        b"",
        b"force-network-home\n",
        "--server --s2k-calibration=200 --homedir /tmp",
        "server force-network-home s2k-calibration=200 ",
        "",
    ),
    (
        b"s2k-calibration 200\n",
        b"s2k-calibration 0\n",
        "--write-env-file --no-allow-loopback-pinentry",
        "no-allow-loopback-pinentry ",
        "a word of the command line is passed over: --write-env-file\n",
    ),
    (
        b"",
        b"",
        "--write-env-file ~/.env --ignore-invalid-option=soon",
        "",
        "a word of the command line is passed over: --write-env-file ~/.env\na word of the command line is passed over: --ignore-invalid-option=soon (it counts in files alone)\n",
    ),
    (
        b"",
        b"min-passphrase-len 255\nmin-passphrase-nonalpha 0\nmax-cache-ttl 2147483647\n",
        "",
        "max-cache-ttl=2147483647 min-passphrase-len=255 min-passphrase-nonalpha=0 ",
        "",
    ),
];

const REFUSED: [Row; 26] = [
    (
        b"",
        b"\nmax-cache-ttl abc\n",
        "",
        "refused",
        "line 2, keeps the agent from starting: max-cache-ttl abc (it wants a number, of digits alone: write one, or take it out)\n",
    ),
    (
        b"",
        b"max-cache-ttl 1h\n",
        "",
        "refused",
        "line 1, keeps the agent from starting: max-cache-ttl 1h (it wants a number, of digits alone: write one, or take it out)\n",
    ),
    (
        b"",
        b"max-cache-ttl 60 30\n",
        "",
        "refused",
        "line 1, keeps the agent from starting: max-cache-ttl 60 30 (it wants a number, of digits alone: write one, or take it out)\n",
    ),
    (
        b"",
        b"max-cache-ttl -1\n",
        "",
        "refused",
        "line 1, keeps the agent from starting: max-cache-ttl -1 (it wants a number, of digits alone: write one, or take it out)\n",
    ),
    (
        b"",
        b"max-cache-ttl\n",
        "",
        "refused",
        "line 1, keeps the agent from starting: max-cache-ttl (it wants a number, of digits alone: write one, or take it out)\n",
    ),
    (
        b"",
        b"max-cache-ttl 60\rdefault-cache-ttl 30\r",
        "",
        "refused",
        "line 1, keeps the agent from starting: max-cache-ttl 60?default-cache-ttl 30 (it wants a number, of digits alone: write one, or take it out)\n",
    ),
    (
        b"",
        b"",
        "--pinentry-timeout soon",
        "refused",
        "a word of the command line keeps the agent from starting: --pinentry-timeout soon (it wants a number, of digits alone: write one, or take it out)\n",
    ),
    (
        b"",
        b"min-passphrase-len 300\n",
        "",
        "refused",
        "line 1, keeps the agent from starting: min-passphrase-len 300 (the agent counts up to 255, which is laxer: write at most 255)\n",
    ),
    (
        b"no-allow-mark-trusted\n",
        b"",
        "",
        "refused",
        "line 1, keeps the agent from starting: no-allow-mark-trusted (MARKTRUSTED and the user's trust list are served all the same: take it out, or leave this folder to GnuPG's own agent)\n",
    ),
    (
        b"",
        b"no-user-trustlist\n",
        "",
        "refused",
        "line 1, keeps the agent from starting: no-user-trustlist (MARKTRUSTED and the user's trust list are served all the same: take it out, or leave this folder to GnuPG's own agent)\n",
    ),
    (
        b"",
        b"enable-passphrase-history\nlog-file x\n",
        "",
        "refused",
        "line 1, keeps the agent from starting: enable-passphrase-history (the agent has no such rule for passphrases: take it out, or leave this folder to GnuPG's own agent)\nline 2, is passed over: log-file x\n",
    ),
    (
        b"",
        b"batch\n",
        "",
        "refused",
        "line 1, keeps the agent from starting: batch (the agent asks by a pinentry all the same: take it out, or leave this folder to GnuPG's own agent)\n",
    ),
    (
        b"",
        b"max-cache-tll 60\n",
        "",
        "refused",
        "line 1, keeps the agent from starting: max-cache-tll 60 (gpg-agent has no such option: see how it is spelled, or take it out)\n",
    ),
    (
        b"",
        b"--max-cache-ttl 60\n",
        "",
        "refused",
        "line 1, keeps the agent from starting: --max-cache-ttl 60 (gpg-agent has no such option: see how it is spelled, or take it out)\n",
    ),
    (
        b"[+force]\nmax-cache-ttl 60\n",
        b"",
        "",
        "refused",
        "line 1, keeps the agent from starting: [+force] (what holds for some users alone isn't read: write the lines without it)\n",
    ),
    (
        b"",
        b"allow-preset-passphrase no\n",
        "",
        "refused",
        "line 1, keeps the agent from starting: allow-preset-passphrase no (it has no value: take the value out, or the line)\n",
    ),
    (
        b"",
        b"pinentry-program pinentry\n",
        "",
        "refused",
        "line 1, keeps the agent from starting: pinentry-program pinentry (it has to be an absolute path, as /usr/bin/pinentry is, or begin with ~/)\n",
    ),
    (
        b"",
        b"pinentry-program ~root/pinentry\n",
        "",
        "refused",
        "line 1, keeps the agent from starting: pinentry-program ~root/pinentry (it has to be an absolute path, as /usr/bin/pinentry is, or begin with ~/)\n",
    ),
    (
        b"max-cache-ttl 1h",
        b"max-cache-ttl 60\n",
        "",
        "refused",
        "line 1, keeps the agent from starting: max-cache-ttl 1h (it wants a number, of digits alone: write one, or take it out)\n",
    ),
    (
        b"",
        b"max-cache-ttl 6\x000\n",
        "",
        "refused",
        "line 1, keeps the agent from starting: max-cache-ttl 6?0 (it isn't UTF-8, or has a zero byte: write it anew)\n",
    ),
    (
        b"",
        b"# caf\xe9\nlog-file caf\xe9\n",
        "",
        "refused",
        "line 2, keeps the agent from starting: log-file caf? (it isn't UTF-8, or has a zero byte: write it anew)\n",
    ),
    (
        b"",
        b"",
        "--homedir= --supervised",
        "refused",
        "a word of the command line keeps the agent from starting: --homedir= (it wants a folder, whose path has at most 200 bytes)\n\
         a word of the command line keeps the agent from starting: --supervised (sockets that a service manager hands over aren't taken: use --no-detach)\n",
    ),
    (
        b"",
        b"inactivity-timeout 60\n",
        "xterm -q",
        "refused",
        "line 1, keeps the agent from starting: inactivity-timeout 60 (the agent stays when nobody calls it: take it out, or leave this folder to GnuPG's own agent)\n\
         a word of the command line keeps the agent from starting: xterm (no command is run beside the agent: start it by itself)\n",
    ),
    (
        b"",
        b"ignore-invalid-option soon\n",
        "--soon",
        "refused",
        "a word of the command line keeps the agent from starting: --soon (gpg-agent has no such option: see how it is spelled, or take it out)\n",
    ),
    (
        b"",
        b"keep-tty\nallow-loopback-pinentry no\n",
        "",
        "refused",
        "line 1, keeps the agent from starting: keep-tty (the agent asks in the terminal that its client names: take it out, or leave this folder to GnuPG's own agent)\n\
         line 2, keeps the agent from starting: allow-loopback-pinentry no (it has no value: take the value out, or the line)\n",
    ),
    (
        b"force-network-home=1\n",
        b"s2k-calibration 100000\n",
        "",
        "refused",
        "line 1, keeps the agent from starting: force-network-home=1 (it has no value: take the value out, or the line)\n\
         line 1, keeps the agent from starting: s2k-calibration 100000 (the agent counts up to 99999, which is laxer: write at most 99999)\n",
    ),
];

#[test]
fn options_are_settled(rt: HostRuntime) -> Result<(), Fail> {
    assert_eq!(rt; first_wrong(rt.alloc(), &SET)?, None);
    Ok(())
}

#[test]
fn what_cannot_be_kept_is_refused(rt: HostRuntime) -> Result<(), Fail> {
    assert_eq!(rt; first_wrong(rt.alloc(), &REFUSED)?, None);
    Ok(())
}

/// The place of the first row that comes out otherwise.
fn first_wrong(alloc: Global, rows: &[Row]) -> Result<Option<usize>, AllocError> {
    for (place, row) in rows.iter().enumerate() {
        if !comes_out(alloc, row)? {
            return Ok(Some(place));
        }
    }
    Ok(None)
}

fn comes_out(alloc: Global, row: &Row) -> Result<bool, AllocError> {
    let (machine, home, words, wanted, says) = row;
    let words = words_of(alloc, words)?;
    let folders = Folders {
        home: path(b"/home/u/.gnupg"),
        user: b"/home/u",
    };
    let (options, told) = match read_start(alloc, &folders, &words, Some(machine), Some(home)) {
        Ok(start) => (options_of(alloc, &start)?, told_lines(alloc, &start.told)?),
        Err(StartFault::Refused(told)) => (text(alloc, "refused")?, told_lines(alloc, &told)?),
        Err(StartFault::NoMemory) => (text(alloc, "no memory")?, text(alloc, "")?),
    };
    Ok(options.as_str() == *wanted && told.as_str() == *says)
}

fn path(bytes: &[u8]) -> Path {
    let mut path = Path::new();
    let _ = path.try_extend_from_slice(bytes);
    path
}

fn text(alloc: Global, text: &str) -> Result<String, AllocError> {
    String::from_str(alloc, text)
}

fn words_of(alloc: Global, line: &str) -> Result<Vec<String>, AllocError> {
    let mut words = Vec::new(alloc);
    for word in line.split(' ') {
        if !word.is_empty() {
            words.push(text(alloc, word)?)?;
        }
    }
    Ok(words)
}

/// A line for each.
fn told_lines(alloc: Global, told: &[Told<'_>]) -> Result<String, AllocError> {
    let mut all = String::new(alloc);
    for one in told {
        let line = told_text(alloc, one)?;
        all.push_str(&String::from_utf8_lossy(alloc, &line)?)?;
        all.push('\n')?;
    }
    Ok(all)
}

/// The options that are otherwise than where nothing is set.
fn options_of(alloc: Global, start: &Start<'_>) -> Result<String, AllocError> {
    let mut all = numbers_of(alloc, start)?;
    let rules = &start.rules;
    let flags = [
        ("server ", !matches!(start.mode, Mode::Detach)),
        ("no-allow-loopback-pinentry ", !rules.allow_loopback),
        ("allow-preset-passphrase ", rules.allow_preset),
        ("extra-socket ", rules.extra),
        ("force-network-home ", start.forces_network_home),
    ];
    for (name, is_set) in flags {
        if is_set {
            all.push_str(name)?;
        }
    }
    if start.calibration != 100 {
        all.push_str(&format!(in alloc; "s2k-calibration={} ", start.calibration)?)?;
    }
    let pinentry = String::from_utf8_lossy(alloc, &rules.pinentry)?;
    if &*pinentry != "/usr/bin/pinentry" {
        all.push_str(&format!(in alloc; "pinentry-program={} ", &*pinentry)?)?;
    }
    Ok(all)
}

fn numbers_of(alloc: Global, start: &Start<'_>) -> Result<String, AllocError> {
    let rules = &start.rules;
    let numbers = [
        ("default-cache-ttl", u64::from(rules.default_ttl), 600),
        ("max-cache-ttl", u64::from(rules.max_ttl), 7200),
        (
            "default-cache-ttl-ssh",
            u64::from(rules.default_ttl_ssh),
            1800,
        ),
        ("max-cache-ttl-ssh", u64::from(rules.max_ttl_ssh), 7200),
        ("pinentry-timeout", u64::from(rules.pinentry_timeout), 300),
        ("workers", u64::from(rules.workers), 64),
        ("min-passphrase-len", u64::from(rules.min_len), 8),
        ("min-passphrase-nonalpha", u64::from(rules.min_nonalpha), 1),
    ];
    let mut all = String::new(alloc);
    for (name, value, usual) in numbers {
        if value != usual {
            all.push_str(&format!(in alloc; "{name}={value} ")?)?;
        }
    }
    if !start.measures_count {
        all.push_str(&format!(in alloc; "s2k-count={} ", rules.s2k_count)?)?;
    }
    Ok(all)
}
