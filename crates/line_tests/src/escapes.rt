//! Tests of escapes (Assuan manual, "client requests"): bytes, their escapes, and what these mean.
//! Begin with `ESCAPES` and `MEANINGS`.

use assuan_escape::{
    data_lines_are_the_only_ones, data_of, escape_into, escapes_are_undone, full_line, unescape,
    upper_hex,
};
use assuan_text::Text;
use std::test::Fail;

/// Bytes, and their escapes.
const ESCAPES: [(&[u8], &[u8]); 5] = [
    (b"secret", b"secret"),
    (b"\xC3\xA9", b"%C3%A9"),
    (b"100%\r\n", b"100%25%0D%0A"),
    (b"\x7F\x80\xFF", b"\x7F%80%FF"),
    (b"a+b \t\x00", b"a+b \t\x00"),
];

/// Bytes, whether `+` is a blank, and what they mean.
const MEANINGS: [(&[u8], bool, &[u8]); 7] = [
    (b"%C3%a9", false, b"\xC3\xA9"),
    (b"%25", false, b"%"),
    (b"%", false, b"%"),
    (b"%4", false, b"%4"),
    (b"%%41%4g", false, b"%A%4g"),
    (b"a+b%2B", false, b"a+b+"),
    (b"a+b%2B", true, b"a b+"),
];

#[test]
fn escapes_are_written_and_read(rt: HostRuntime) -> Result<(), Fail> {
    for (bytes, escapes) in ESCAPES {
        let mut text = Text::new();
        assert_eq!(rt; escape_into(bytes, &mut text), bytes.len(), "at {bytes:?}");
        assert_eq!(rt; text.as_slice(), escapes);
    }
    let mut text = Text::new();
    text.try_extend_from_slice(&[b'a'; 998])
        .ok()
        .ok_or("too long")?;
    assert_eq!(rt; (escape_into(b"b\nc", &mut text), text.len()), (1, 999));
    for (bytes, plus, meant) in MEANINGS {
        assert!(rt; bytes.len() <= 1000);
        assert_eq!(rt; unescape(bytes, plus).as_slice(), meant, "at {bytes:?}");
    }
    let digits = upper_hex(b"\xC3\xA9\x00\x7f");
    assert_eq!(rt; digits.as_slice(), b"C3A9007F".as_slice());
    assert_eq!(rt; upper_hex(&[b'a'; 255]).len(), 510);
    escapes_are_undone();
    Ok(())
}

#[test]
fn data_lines_are_full_and_carry_their_bytes(rt: HostRuntime) {
    let line_feeds = [b'\n'; 400];
    let (line, count) = full_line(&line_feeds);
    assert_eq!(rt; (line.len(), count), (998, 332));
    let (line, count) = full_line(&line_feeds[332..]);
    assert_eq!(rt; (line.len(), count), (206, 68));
    assert!(rt; data_of(line.bytes()).is_some_and(|bytes| bytes.bytes() == &line_feeds[332..]));
    let carried: [(&[u8], Option<&[u8]>); 4] = [
        (b"d a+%2B", Some(b"a++")),
        (b"D", Some(b"")),
        (b"D  ", Some(b" ")),
        (b"DATA", None),
    ];
    for (line, bytes) in carried {
        let data = data_of(line);
        let given = match &data {
            Some(data) => Some(data.bytes()),
            None => None,
        };
        assert_eq!(rt; given, bytes, "at {line:?}");
    }
    data_lines_are_the_only_ones();
}
