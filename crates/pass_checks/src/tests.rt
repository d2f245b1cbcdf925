//! Passphrases and texts with what the check and the quality bar say of each, as tables. They touch
//! nothing; begin with a row of the first one: a passphrase, the two minimums, and whether it meets
//! them.

use super::*;

#[test]
fn passphrases_are_checked_and_rated(rt: HostRuntime) {
    let cases: [(&[u8], u8, u8, bool); 9] = [
        (b"abcdefg1", 8, 1, true),
        (b"abcdef1", 8, 1, false),
        (b"abcdefgh", 8, 1, false),
        (b"ABCxyz@[", 8, 2, true),
        (b"ABCxyz`{", 8, 2, true),
        (b"ABCxyz`{", 8, 3, false),
        (b"abcdef\xC3\xA9", 8, 2, true),
        (b"", 0, 0, true),
        (b"", 0, 1, false),
    ];
    for (pass, min_len, min_nonalpha, want) in cases {
        assert_eq!(rt; meets(pass, min_len, min_nonalpha), want, "{pass:?}");
    }
    let rated: [(&[u8], i8); 5] = [
        (b"", 0),
        (b"abc", 30),
        (b"abcdefghi", 90),
        (b"abcdefghij", 100),
        (b"abcdefghijkl", 100),
    ];
    for (text, want) in rated {
        assert_eq!(rt; quality(text), want);
    }
}
