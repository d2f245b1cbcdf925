//! Tests of OPTION (GnuPG manual, "Agent OPTION"): what each name and value is answered, and what a
//! session has by them. Begin with `ANSWERS`, a row an option, and `STEPS`, one session.

use arrayvec::ArrayVec;
use session_options::{OptionAnswer, Options, PinMode, Rules, Version, spelling_is_plain};
use std::test::Fail;

fn options(allow_loopback: bool) -> Options {
    let mut rules = Rules::default();
    rules.allow_loopback = allow_loopback;
    Options::new(&rules)
}

const ANSWERS: [(&[u8], OptionAnswer); 29] = [
    (b"--ttyname = /dev/pts/1", OptionAnswer::Set),
    (b"ttytype=xterm", OptionAnswer::Set),
    (b"lc-ctype C.UTF-8", OptionAnswer::Set),
    (b"lc-messages=", OptionAnswer::Set),
    (b"display=:0", OptionAnswer::Set),
    (b"xauthority", OptionAnswer::Set),
    (b"pinentry-user-data=x", OptionAnswer::Set),
    (b"putenv=A=b", OptionAnswer::Set),
    (b"agent-awareness=2.1.0", OptionAnswer::Set),
    (b"use-cache-for-signing", OptionAnswer::Set),
    (b"allow-pinentry-notify", OptionAnswer::Set),
    (b"foo=1", OptionAnswer::Unknown),
    (b"TTYNAME=x", OptionAnswer::Unknown),
    (b"----ttyname=x", OptionAnswer::Unknown),
    (b"foo=a\rb", OptionAnswer::Unknown),
    (b"", OptionAnswer::Parameter),
    (b"--", OptionAnswer::Parameter),
    (b" ttyname=x", OptionAnswer::Parameter),
    (b"=x", OptionAnswer::Parameter),
    (b"ttyname=a\rb", OptionAnswer::Parameter),
    (b"display=a\rb", OptionAnswer::Parameter),
    (b"pinentry-mode=default", OptionAnswer::Set),
    (b"pinentry-mode=Ask", OptionAnswer::Parameter),
    (b"pinentry-mode", OptionAnswer::Parameter),
    (b"s2k-count=65535", OptionAnswer::Parameter),
    (b"s2k-count=65011713", OptionAnswer::Parameter),
    (b"s2k-count=00000065536", OptionAnswer::Parameter),
    (b"s2k-count=6553x", OptionAnswer::Parameter),
    (b"s2k-count", OptionAnswer::Parameter),
];

/// An option of this name with a value of so many bytes, and what it is answered.
const LONG_ANSWERS: [(&[u8], usize, OptionAnswer); 4] = [
    (b"ttyname=", 255, OptionAnswer::Set),
    (b"ttyname=", 256, OptionAnswer::Parameter),
    (b"display=", 256, OptionAnswer::Parameter),
    (b"foo=", 256, OptionAnswer::Unknown),
];

#[test]
fn options_are_answered(rt: HostRuntime) -> Result<(), Fail> {
    for (text, answer) in ANSWERS {
        assert_eq!(rt; options(true).set(text), answer, "at {text:?}");
    }
    for (name, value_len, answer) in LONG_ANSWERS {
        let mut text: ArrayVec<u8, 1000> = ArrayVec::new();
        text.try_extend_from_slice(name).ok().ok_or("too long")?;
        text.try_extend_from_slice(&[b'a'; 256][..value_len])
            .ok()
            .ok_or("too long")?;
        assert_eq!(rt; options(true).set(&text), answer, "at {name:?}");
    }
    assert_eq!(rt;
        options(true).set(b"lc-ctype=a\nb"),
        OptionAnswer::Parameter
    );
    assert_eq!(rt;
        options(false).set(b"pinentry-mode=loopback"),
        OptionAnswer::NotSupported
    );
    Ok(())
}

/// Options that one session sets, and its terminal, mode and count after each.
const STEPS: [(&[u8], &[u8], PinMode, u64); 19] = [
    (b"ttyname=before", b"before", PinMode::Ask, 4_194_304),
    (b"ttytype=xterm", b"before", PinMode::Ask, 4_194_304),
    (
        b"--ttyname = /dev/pts/1",
        b"/dev/pts/1",
        PinMode::Ask,
        4_194_304,
    ),
    (b"ttyname \t=\t x y ", b"x y ", PinMode::Ask, 4_194_304),
    (b"ttyname==x", b"=x", PinMode::Ask, 4_194_304),
    (b"ttyname x=y", b"x=y", PinMode::Ask, 4_194_304),
    (b"ttyname=a\rb", b"x=y", PinMode::Ask, 4_194_304),
    (b"ttyname=", b"", PinMode::Ask, 4_194_304),
    (b"pinentry-mode=loopback", b"", PinMode::Loopback, 4_194_304),
    (b"pinentry-mode=cancel", b"", PinMode::Cancel, 4_194_304),
    (b"pinentry-mode=error", b"", PinMode::Error, 4_194_304),
    (b"pinentry-mode=other", b"", PinMode::Error, 4_194_304),
    (b"pinentry-mode=ask", b"", PinMode::Ask, 4_194_304),
    (b"s2k-count=65536", b"", PinMode::Ask, 65_536),
    (b"s2k-count=65535", b"", PinMode::Ask, 65_536),
    (b"s2k-count=0", b"", PinMode::Ask, 4_194_304),
    (b"s2k-count=65011712", b"", PinMode::Ask, 65_011_712),
    (b"s2k-count=0000000000", b"", PinMode::Ask, 4_194_304),
    (b"s2k-count=0000065536", b"", PinMode::Ask, 65_536),
];

/// Texts, and whether they are a version.
const VERSIONS: [(&[u8], bool); 9] = [
    (b"2.4.0", true),
    (b"2.2.40", true),
    (b"7", true),
    (b"2.5.0.beta12345678.z", true),
    (b"2.5.0.beta123456789.z", false),
    (b"", false),
    (b"2.4.0-beta1", false),
    (b"2.4.0 ", false),
    (b"2.4\n", false),
];

#[test]
fn versions_have_letters_digits_and_dots(rt: HostRuntime) {
    for (text, is_one) in VERSIONS {
        let version = Version::new(text);
        let bytes = version.as_ref().map(|version| version.bytes.as_slice());
        assert_eq!(rt; bytes, is_one.then_some(text), "at {text:?}");
    }
    let usual = Version::default();
    assert_eq!(rt; usual.copied().bytes.as_slice(), b"2.4.0".as_slice());
}

#[test]
fn options_stand_until_they_are_reset(rt: HostRuntime) {
    let mut options = options(true);
    for (text, ttyname, mode, count) in STEPS {
        let _ = options.set(text);
        assert_eq!(rt; options.env().ttyname.as_slice(), ttyname, "at {text:?}");
        assert_eq!(rt;
            (options.mode(), options.s2k_count()),
            (mode, count),
            "at {text:?}"
        );
    }
    assert_eq!(rt; options.notify(), false);
    let _ = options.set(b"allow-pinentry-notify=no");
    let _ = options.set(b"pinentry-mode=error");
    let _ = options.set(b"lc-messages=C.UTF-8");
    assert_eq!(rt; options.notify(), true);
    assert_eq!(rt; options.env().lc_messages.as_slice(), b"C.UTF-8".as_slice());
    options.reset();
    assert_eq!(rt;
        (options.notify(), options.mode(), options.s2k_count()),
        (false, PinMode::Ask, 4_194_304)
    );
    assert_eq!(rt; options.env().lc_messages.len(), 0);
    spelling_is_plain();
}
