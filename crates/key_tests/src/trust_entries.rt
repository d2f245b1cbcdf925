//! Tests of what the text of a trust list says of a certificate (GnuPG manual, "Agent
//! Configuration"), and of new entries up to the longest file. Begin with `FILES`, a row a text.

use agent_ports::Grip;
use std::alloc::{AllocError, Global};
use std::test::Fail;
use trust_list::{MAX_TRUST_FILE_LEN, TrustFault, add_trust, trusted};

const CERTIFICATE: Grip = Grip([0xAA; 20]);

/// A file, and what it says of the certificate, whose fingerprint is 40 times `A`. A text may have
/// repeated parts, as `{part*3}`. No file is longer than one may be.
const FILES: [(&str, Option<bool>); 48] = [
    ("", None),
    // Digits are of either case, blanks are tabs too, and further words are skipped. The last line
    // needs no end.
    ("{A*40} S", Some(true)),
    ("{A*40} S\n", Some(true)),
    ("{a*40} S\n", Some(true)),
    ("{Aa*20} P", Some(true)),
    ("{a*40} *", Some(true)),
    ("# x\n\n \t{A*40}\tP relax\n", Some(true)),
    ("{A*40} S # x", Some(true)),
    // An LF alone ends a line.
    ("!{A*40} *\r\n", None),
    ("!{A*40} * \r\n", Some(false)),
    // The mark stands right before the digits.
    ("!{A*40} S", Some(false)),
    ("! {A*40} S\n", None),
    ("!!{A*40} S\n", None),
    // A colon stands between two pairs, and need not.
    ("{AA:*19}AA S\n", Some(true)),
    ("!{aa:*19}aa S", Some(false)),
    ("AA:{A*36}:AA S\n", Some(true)),
    (":{A*40} S\n", None),
    ("{A*40}: S\n", None),
    ("{AA:*20} S\n", None),
    ("AA::{A*38} S\n", None),
    ("A:{A*39} S\n", None),
    ("AAA:{A*37} S\n", None),
    ("{A:*39}A S\n", None),
    // Forty digits, and a flag.
    ("{A*38} S\n", None),
    ("{A*42} S\n", None),
    ("{A*39}G S\n", None),
    ("{A*40}\n", None),
    ("{A*40}S\n", None),
    ("{A*40} s\n", None),
    ("{A*40} SP\n", None),
    ("{A*40} x S\n", None),
    ("#{A*40} S\n", None),
    // The first entry decides.
    ("{a*40} S\n!{A*40} S", Some(true)),
    ("!aa:aaaa:{Aa*17} S\n{A*40} S", Some(false)),
    ("!a:aaaaa:{Aa*17} S\n{A*40} S", Some(true)),
    ("!AA::{A*38} S\n{A*40} S", Some(true)),
    ("!BB{A*38} S\n{A*40} S", Some(true)),
    ("!{A*40} s\n{A*40} S", Some(true)),
    // Files of 65,536 bytes: one line that is no entry, or one behind blanks, before words, or
    // behind another line.
    ("{A*65536}", None),
    ("{:*65536}", None),
    ("{ *65536}", None),
    ("{A*65534} S", None),
    ("{A*40} {S*65495}", None),
    ("{ *65494}{A*40} S", Some(true)),
    ("{A*40}{ *65495}S", Some(true)),
    ("{A*40} S{ x*32747}", Some(true)),
    ("!{A*40} S {x*65492}", Some(false)),
    ("{x*65493}\n{A*40} S", Some(true)),
];

/// A text with its repeated parts.
fn text_of(alloc: Global, text: &str) -> Result<String, AllocError> {
    let mut all = String::new(alloc);
    for part in text.split('{') {
        let (repeated, plain) = part.split_once('}').unwrap_or(("", part));
        let (what, count) = repeated.split_once('*').unwrap_or(("", "0"));
        for _ in 0..count.parse::<usize>().unwrap_or(0) {
            all.push_str(what)?;
        }
        all.push_str(plain)?;
    }
    Ok(all)
}

/// The first file of which something else is said.
fn first_wrong(alloc: Global) -> Result<Option<&'static str>, AllocError> {
    for (text, want) in FILES {
        let file = text_of(alloc, text)?.into_bytes();
        if file.len() > MAX_TRUST_FILE_LEN || trusted(&file, &CERTIFICATE) != want {
            return Ok(Some(text));
        }
    }
    Ok(None)
}

#[test]
fn lines_of_the_file_decide(rt: HostRuntime) -> Result<(), Fail> {
    assert_eq!(rt; first_wrong(rt.alloc())?, None);
    Ok(())
}

/// A file of so many of these bytes, with an entry of the certificate at its end.
fn added(alloc: Global, byte: u8, count: usize) -> Result<Vec<u8>, TrustFault> {
    add_trust(alloc, &vec![in alloc; byte; count]?, &CERTIFICATE, b'S')
}

#[test]
fn entries_are_added_up_to_the_longest_file(rt: HostRuntime) -> Result<(), Fail> {
    let alloc = rt.alloc();
    let rows: [(u8, usize, Option<usize>); 5] = [
        (b'\n', 0, Some(43)),
        (b'\n', 65_493, Some(65_536)),
        (b'\n', 65_494, None),
        (b'x', 65_492, Some(65_536)),
        (b'x', 65_493, None),
    ];
    for (byte, count, want) in rows {
        match added(alloc, byte, count) {
            Ok(file) => {
                assert_eq!(rt; Some(file.len()), want, "{count}");
                assert_eq!(rt; trusted(&file, &CERTIFICATE), Some(true), "{count}");
            }
            Err(fault) => assert_eq!(rt; (fault, None), (TrustFault::TooLong, want), "{count}"),
        }
    }
    let file = add_trust(alloc, b"# x", &CERTIFICATE, b'P')?;
    assert_eq!(rt;
        file.as_slice(),
        b"# x\nAAAAAAAAAAAAAAAAAAAAAAAAAAAAAAAAAAAAAAAA P\n".as_slice()
    );
    let text = format!(in alloc; "{}", TrustFault::TooLong)?;
    assert_eq!(rt; text.as_str(), "the trust list would be too long");
    Ok(())
}
