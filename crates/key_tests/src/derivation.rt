//! Tests of the key derivation S2K (RFC 4880, 3.7.1.3) by outside vectors of SHA-1 (RFC 3174, 7.3),
//! whose texts are copies of a salt and a passphrase. Begin with `hashes_one_copy`.

use s2k_derive::{count_of, derive};

// The message of the second test of RFC 3174, 7.3, as one copy of salt and passphrase.
#[test]
fn hashes_one_copy(rt: HostRuntime) {
    let key: [u8; 16] = [
        0x84, 0x98, 0x3E, 0x44, 0x1C, 0x3B, 0xD2, 0x6E, 0xBA, 0xAE, 0x4A, 0xA1, 0xF9, 0x51, 0x29,
        0xE5,
    ];
    let pass = b"cdefdefgefghfghighijhijkijkljklmklmnlmnomnopnopq";
    for count in [0, 55, 56] {
        assert_eq!(rt; derive(pass, b"abcdbcde", count).as_slice(), key.as_slice());
    }
}

// The third one, a million times the letter a.
#[test]
fn hashes_a_million_bytes(rt: HostRuntime) {
    let key: [u8; 16] = [
        0x34, 0xAA, 0x97, 0x3C, 0xD4, 0xC4, 0xDA, 0xA4, 0xF6, 0x1E, 0xEB, 0x2B, 0xDB, 0xAD, 0x27,
        0x31,
    ];
    assert_eq!(rt;
        derive(b"a", b"aaaaaaaa", 1_000_000).as_slice(),
        key.as_slice()
    );
    assert_eq!(rt;
        derive(b"", b"aaaaaaaa", 1_000_000).as_slice(),
        key.as_slice()
    );
}

#[test]
fn counts(rt: HostRuntime) {
    let cases = [
        (95, None),
        (96, Some(65_536)),
        (255, Some(65_011_712)),
        (256, None),
        (65_535, None),
        (65_536, Some(65_536)),
        (4_294_967_296, Some(4_294_967_296)),
        (4_294_967_297, None),
    ];
    for (n, count) in cases {
        assert_eq!(rt; count_of(n), count, "at {n}");
    }
}
