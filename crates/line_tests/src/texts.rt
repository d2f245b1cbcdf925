//! Tests of how lines are cut and which form they have: words, data lines, and those that are
//! ignored. Begin with `LINES` and `FORMS`.

use assuan_text::{
    arguments, command_and_rest, escaped_part, first_word, found, found_in_any_case, has_option,
    has_pair, is_idle, is_ignored, last_option, last_value, next_word, number_of, without_blanks,
};
use std::test::Fail;

/// A line, its first word by itself, and what comes after the command.
const LINES: [(&[u8], &[u8], &[u8]); 4] = [
    (b"NOP", b"NOP", b""),
    (b" \tGETINFO\tpid ", b"", b"pid "),
    (b"OPTION  a = b", b"OPTION", b"a = b"),
    (b"", b"", b""),
];

#[test]
fn lines_are_cut_into_words(rt: HostRuntime) -> Result<(), Fail> {
    for (line, first, rest) in LINES {
        assert_eq!(rt; first_word(line), first, "at {line:?}");
        assert_eq!(rt; command_and_rest(line).1, rest, "at {line:?}");
    }
    let text = b"--mode=ssh --data --mode  -- id1";
    assert_eq!(rt; last_value(text, b"--mode"), Some(b"ssh".as_slice()));
    assert_eq!(rt; last_option(text, b"--mode"), Some(b"--mode".as_slice()));
    assert_eq!(rt;
        (has_option(text, b"--data"), has_option(text, b"--dat")),
        (true, false)
    );
    assert_eq!(rt;
        next_word(arguments(text)),
        Some((b"id1".as_slice(), b"".as_slice()))
    );
    assert_eq!(rt; without_blanks(b" \t x "), b"x ".as_slice());
    Ok(())
}

/// A line, whether it is ignored as a request, whether an inquiry reads past it, and the escaped
/// part of a data line.
const FORMS: [(&[u8], bool, bool, Option<&[u8]>); 8] = [
    (b"", true, true, None),
    (b" \t", true, true, None),
    (b"# x", true, true, None),
    (b" # x", true, false, None),
    (b"D", false, false, Some(b"")),
    (b"d %41 ", false, false, Some(b"%41 ")),
    (b"D\tx", false, false, None),
    (b"END", false, false, None),
];

#[test]
fn lines_have_their_forms(rt: HostRuntime) {
    for (line, ignored, idle, escaped) in FORMS {
        assert_eq!(rt;
            (is_ignored(line), is_idle(line)),
            (ignored, idle),
            "at {line:?}"
        );
        assert_eq!(rt; escaped_part(line), escaped, "at {line:?}");
    }
    let numbers: [(&[u8], Option<u64>); 6] = [
        (b"0000000600", Some(600)),
        (b"00000000600", None),
        (b"9999999999", Some(9_999_999_999)),
        (b"", None),
        (b"+1", None),
        (b"1 ", None),
    ];
    for (digits, number) in numbers {
        assert_eq!(rt; number_of(digits), number, "at {digits:?}");
    }
    let rows: [(&[u8], u8); 2] = [(b"nop", 1), (b"NOP", 2)];
    assert_eq!(rt;
        (found(b"NOP", &rows), found_in_any_case(b"NOP", &rows)),
        (Some(2), Some(1))
    );
    let pairs: [(&[u8], &[u8]); 1] = [(b"a", b"b")];
    assert_eq!(rt;
        (has_pair(b"a", b"b", &pairs), has_pair(b"b", b"a", &pairs)),
        (true, false)
    );
}
