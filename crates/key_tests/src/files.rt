//! Tests of protected key files by what other programs made: OpenSSL, Python's `cryptography` and
//! GnuPG 2.2.40. Begin with `Row` and `first_wrong`, and with `a_file_of_gnupg_opens_to_its_key`.

use secret_file::{
    Locked, Opened, Unlocked, key_of, one_answer, protect, protect_cbc, unprotect,
    unprotect_is_three_calls,
};
use sexp_keys::KeyFault;
use std::test::*;

// What `openssl enc -aes-128-cbc -nopad` makes of `(((1:d1:D))(4:hash4:sha120:..))` and 15 bytes
// more, under the key of the passphrase `abc`.
const OCTETS: [u8; 64] = [
    0x67, 0x5D, 0xC7, 0xBD, 0x98, 0x72, 0x9C, 0x43, 0x5A, 0x62, 0xA1, 0xB9, 0x32, 0x69, 0xE0, 0xE9,
    0xA0, 0x34, 0x4F, 0x98, 0xE6, 0xE1, 0xA0, 0x24, 0x6D, 0x78, 0x83, 0xB3, 0x96, 0x63, 0x47, 0xA5,
    0x27, 0x48, 0x16, 0x09, 0x46, 0x2D, 0xBF, 0x00, 0xC4, 0x2B, 0x8D, 0xB0, 0x1E, 0x42, 0x9D, 0xA0,
    0xB5, 0x1F, 0x5E, 0xA2, 0x49, 0x41, 0xEA, 0x38, 0x37, 0x4E, 0xA5, 0xD6, 0x9B, 0x61, 0x06, 0xEB,
];

// The same with another digest.
const OTHER_DIGEST: [u8; 64] = [
    0x67, 0x5D, 0xC7, 0xBD, 0x98, 0x72, 0x9C, 0x43, 0x5A, 0x62, 0xA1, 0xB9, 0x32, 0x69, 0xE0, 0xE9,
    0x3E, 0x93, 0x3A, 0x14, 0x1C, 0x80, 0x3D, 0x7C, 0xE1, 0x3F, 0x21, 0x62, 0x50, 0xE4, 0x98, 0x91,
    0x5C, 0xFA, 0xDD, 0xA0, 0xC5, 0x15, 0xE6, 0x71, 0x3D, 0xC9, 0x30, 0x7E, 0xBE, 0x36, 0x86, 0xC7,
    0xBE, 0xB5, 0x29, 0x8E, 0xAF, 0x61, 0x8A, 0xFB, 0x7D, 0x91, 0xD8, 0x3D, 0x90, 0xF3, 0x0C, 0x73,
];

// The same with a parameter `x` in place of `d`, and the digest of that.
const OTHER_NAME: [u8; 64] = [
    0x4E, 0x5B, 0x22, 0x4E, 0x5C, 0xCE, 0xBD, 0xCF, 0xD5, 0x38, 0x2E, 0x9A, 0x5F, 0x51, 0x58, 0x79,
    0xBB, 0x2F, 0xAF, 0x75, 0x0E, 0x81, 0x1A, 0x02, 0x2C, 0x01, 0x76, 0x30, 0x0F, 0xFB, 0xCF, 0x53,
    0x47, 0x02, 0x5F, 0x78, 0xAC, 0x33, 0x79, 0x80, 0x65, 0xC1, 0x27, 0x92, 0x64, 0x03, 0xF6, 0x55,
    0xB4, 0xB2, 0x36, 0x62, 0x59, 0x00, 0xF4, 0x75, 0x72, 0xB7, 0x87, 0x12, 0xFD, 0x6C, 0xBE, 0x83,
];

// The same of a parameter of 15 bytes, whose list fills its last block, and a block more, as GnuPG
// 2.2.40 writes it.
const PADDING_16: [u8; 80] = [
    0x5F, 0x78, 0xD5, 0xA6, 0x67, 0x9E, 0x56, 0x6C, 0x30, 0x09, 0xE1, 0x63, 0x16, 0xDE, 0xF7, 0x95,
    0x2A, 0xDC, 0xB5, 0x2E, 0xE8, 0x7E, 0xEF, 0x6C, 0x81, 0x72, 0x89, 0x6C, 0x93, 0xDA, 0xA1, 0x03,
    0x47, 0xE6, 0xD3, 0x1E, 0xB2, 0xDF, 0x1C, 0xAF, 0x6A, 0x8D, 0x9F, 0x65, 0x01, 0xD0, 0xD4, 0x3E,
    0xA2, 0x76, 0x7E, 0xAD, 0x90, 0xB3, 0xC3, 0x17, 0x16, 0x24, 0xDF, 0xE0, 0x91, 0x0D, 0x31, 0x9B,
    0x45, 0x4D, 0xB6, 0x88, 0x00, 0x35, 0x4C, 0x4F, 0x15, 0x29, 0xA6, 0x65, 0xFD, 0x56, 0x34, 0xD6,
];

// The same of one of 14 bytes, and 17 bytes more.
const PADDING_17: [u8; 80] = [
    0x1B, 0xA4, 0x6A, 0x00, 0x9E, 0x1B, 0x00, 0xF5, 0x40, 0xA6, 0xBC, 0xE2, 0x9C, 0x6C, 0x23, 0x21,
    0xA2, 0x35, 0xFD, 0xD2, 0x0B, 0xDE, 0x71, 0x19, 0xDD, 0x32, 0x60, 0xDE, 0x8C, 0xCF, 0x74, 0xD2,
    0x62, 0x80, 0x44, 0x79, 0x6B, 0xD4, 0xF4, 0xD1, 0x3B, 0x6B, 0x3A, 0x1C, 0x6D, 0xED, 0x62, 0xE1,
    0xF1, 0x15, 0x4A, 0xAB, 0x55, 0xCB, 0x2E, 0x9E, 0xAA, 0x6D, 0x99, 0x3D, 0x25, 0x08, 0xBE, 0xEC,
    0xB0, 0xB9, 0x25, 0x0E, 0x8C, 0xE4, 0x19, 0x0B, 0xAB, 0xB4, 0x75, 0x67, 0xAC, 0x4B, 0xD9, 0x81,
];

// What Python's `cryptography` makes of `((1:d1:D))` by OCB under the same key and the associated
// data of the key, with its tag.
const SEALED: [u8; 28] = [
    0xEC, 0x48, 0xE8, 0xBF, 0x9B, 0x43, 0x08, 0x48, 0x0C, 0xFC, 0xD9, 0x0C, 0x37, 0xFB, 0xB4, 0x47,
    0xCE, 0x3F, 0x15, 0x3A, 0x55, 0x22, 0x19, 0x9B, 0xE0, 0x94, 0xB8, 0xAF,
];

// The same of a key that is protected at no time.
const SEALED_WITHOUT_TIME: [u8; 28] = [
    0xEC, 0x48, 0xE8, 0xBF, 0x9B, 0x43, 0x08, 0x48, 0x0C, 0xFC, 0xD9, 0x0C, 0x02, 0x46, 0xB7, 0xCA,
    0x0D, 0xE8, 0xF6, 0x67, 0x05, 0x8D, 0xE1, 0x24, 0x3D, 0x1B, 0x93, 0x5C,
];

// The same with a parameter `x` in place of `d`.
const SEALED_OTHER_NAME: [u8; 28] = [
    0xEC, 0x48, 0xE8, 0xBF, 0x9B, 0x5F, 0x08, 0x48, 0x0C, 0xFC, 0xD9, 0x0C, 0x17, 0xCE, 0x38, 0x39,
    0xBA, 0x93, 0x7A, 0x3D, 0xFA, 0x2B, 0x9B, 0x12, 0x12, 0x50, 0xC3, 0x60,
];

// The same with a byte behind the list.
const SEALED_LONGER: [u8; 29] = [
    0xEC, 0x48, 0xE8, 0xBF, 0x9B, 0x43, 0x08, 0x48, 0x0C, 0xFC, 0xD9, 0x0C, 0xF7, 0xCA, 0xFA, 0x58,
    0x9A, 0x54, 0xDB, 0x66, 0x4D, 0x03, 0x62, 0xA9, 0x41, 0xFC, 0x50, 0x67, 0x32,
];

// What gpg-agent 2.2.40 wrote for a new key with the passphrase `abc`, as canonical expression, and
// what gpg-protect-tool makes of it.
const GNUPG_FILE: [u8; 284] = [
    0x28, 0x32, 0x31, 0x3A, 0x70, 0x72, 0x6F, 0x74, 0x65, 0x63, 0x74, 0x65, 0x64, 0x2D, 0x70, 0x72,
    0x69, 0x76, 0x61, 0x74, 0x65, 0x2D, 0x6B, 0x65, 0x79, 0x28, 0x33, 0x3A, 0x65, 0x63, 0x63, 0x28,
    0x35, 0x3A, 0x63, 0x75, 0x72, 0x76, 0x65, 0x37, 0x3A, 0x45, 0x64, 0x32, 0x35, 0x35, 0x31, 0x39,
    0x29, 0x28, 0x35, 0x3A, 0x66, 0x6C, 0x61, 0x67, 0x73, 0x35, 0x3A, 0x65, 0x64, 0x64, 0x73, 0x61,
    0x29, 0x28, 0x31, 0x3A, 0x71, 0x33, 0x33, 0x3A, 0x40, 0x56, 0x30, 0x4C, 0x37, 0x94, 0x0B, 0x94,
    0x83, 0xA0, 0xE6, 0x38, 0x7F, 0x22, 0x4C, 0xCF, 0xEB, 0x23, 0x6B, 0xB1, 0xF2, 0x65, 0xB5, 0xAE,
    0xB3, 0x5D, 0x72, 0xC0, 0x3C, 0x93, 0x1B, 0x0B, 0x7D, 0x29, 0x28, 0x39, 0x3A, 0x70, 0x72, 0x6F,
    0x74, 0x65, 0x63, 0x74, 0x65, 0x64, 0x32, 0x30, 0x3A, 0x6F, 0x70, 0x65, 0x6E, 0x70, 0x67, 0x70,
    0x2D, 0x73, 0x32, 0x6B, 0x33, 0x2D, 0x6F, 0x63, 0x62, 0x2D, 0x61, 0x65, 0x73, 0x28, 0x28, 0x34,
    0x3A, 0x73, 0x68, 0x61, 0x31, 0x38, 0x3A, 0x8B, 0x73, 0xF8, 0x5C, 0xD0, 0x90, 0x74, 0x9B, 0x35,
    0x3A, 0x36, 0x35, 0x35, 0x33, 0x36, 0x29, 0x31, 0x32, 0x3A, 0x7E, 0x40, 0x12, 0xF9, 0x74, 0x9A,
    0xFE, 0x7D, 0xED, 0xA1, 0xA4, 0x6E, 0x29, 0x36, 0x30, 0x3A, 0xEB, 0xB5, 0x31, 0xCE, 0x76, 0x65,
    0x34, 0x9E, 0x93, 0xE2, 0xD9, 0x96, 0xEC, 0xE7, 0xF3, 0x4E, 0x6B, 0x71, 0xDA, 0x4B, 0x3C, 0x93,
    0x60, 0x49, 0x7D, 0xFE, 0x99, 0xDE, 0x0A, 0x7F, 0xFC, 0x39, 0x42, 0x05, 0xFE, 0xCC, 0x36, 0x40,
    0xA0, 0xC8, 0x67, 0x9F, 0x3A, 0x8C, 0xED, 0x7D, 0xC5, 0xF6, 0x17, 0x90, 0x84, 0xFC, 0x57, 0x1D,
    0x48, 0xD6, 0x72, 0x0D, 0x0B, 0x3C, 0x29, 0x28, 0x31, 0x32, 0x3A, 0x70, 0x72, 0x6F, 0x74, 0x65,
    0x63, 0x74, 0x65, 0x64, 0x2D, 0x61, 0x74, 0x31, 0x35, 0x3A, 0x32, 0x30, 0x32, 0x36, 0x31, 0x31,
    0x32, 0x38, 0x54, 0x31, 0x35, 0x35, 0x32, 0x34, 0x34, 0x29, 0x29, 0x29,
];

const GNUPG_CLEAR: [u8; 138] = [
    0x28, 0x31, 0x31, 0x3A, 0x70, 0x72, 0x69, 0x76, 0x61, 0x74, 0x65, 0x2D, 0x6B, 0x65, 0x79, 0x28,
    0x33, 0x3A, 0x65, 0x63, 0x63, 0x28, 0x35, 0x3A, 0x63, 0x75, 0x72, 0x76, 0x65, 0x37, 0x3A, 0x45,
    0x64, 0x32, 0x35, 0x35, 0x31, 0x39, 0x29, 0x28, 0x35, 0x3A, 0x66, 0x6C, 0x61, 0x67, 0x73, 0x35,
    0x3A, 0x65, 0x64, 0x64, 0x73, 0x61, 0x29, 0x28, 0x31, 0x3A, 0x71, 0x33, 0x33, 0x3A, 0x40, 0x56,
    0x30, 0x4C, 0x37, 0x94, 0x0B, 0x94, 0x83, 0xA0, 0xE6, 0x38, 0x7F, 0x22, 0x4C, 0xCF, 0xEB, 0x23,
    0x6B, 0xB1, 0xF2, 0x65, 0xB5, 0xAE, 0xB3, 0x5D, 0x72, 0xC0, 0x3C, 0x93, 0x1B, 0x0B, 0x7D, 0x29,
    0x28, 0x31, 0x3A, 0x64, 0x33, 0x32, 0x3A, 0x2A, 0x7C, 0x64, 0x5A, 0x61, 0x5F, 0x28, 0xBE, 0x46,
    0x3C, 0xC7, 0xD2, 0x0E, 0x00, 0x04, 0xA2, 0xF0, 0x78, 0x5A, 0x87, 0xF1, 0xEB, 0xC4, 0x5B, 0x8C,
    0xBB, 0xE8, 0xC3, 0x6B, 0xCC, 0x73, 0xF3, 0x29, 0x29, 0x29,
];

const START: &[u8] = b"(21:protected-private-key(3:ecc(1:q1:Q)(9:protected";

const CBC: &[u8] = b"25:openpgp-s2k3-sha1-aes-cbc((4:sha18:saltsalt2:96)16:0123456789abcdef)";

const OCB: &[u8] = b"20:openpgp-s2k3-ocb-aes((4:sha18:saltsalt2:96)12:0123456789ab)";

const TIME: &[u8] = b"(12:protected-at15:20240101T000000)";

// A protected file: the name and the derivation, the octets with their length, and the time.
fn file_of(
    rt: &HostRuntime,
    derivation: &[u8],
    octets: &[u8],
    time: &[u8],
) -> Result<Vec<u8>, Fail> {
    let mut file = Vec::from_slice(rt.alloc(), START)?;
    file.extend_from_slice(derivation)?;
    let len = format!(in rt.alloc(); "{}:", octets.len())?;
    file.extend_from_slice(len.as_bytes())?;
    file.extend_from_slice(octets)?;
    file.extend_from_slice(b")")?;
    file.extend_from_slice(time)?;
    file.extend_from_slice(b"))")?;
    Ok(file)
}

fn name_of(answer: &Unlocked) -> &'static str {
    match answer {
        Unlocked::Key(_) => "key",
        Unlocked::BadPassphrase => "bad passphrase",
        Unlocked::NotProtected => "not protected",
        Unlocked::Shadowed => "shadowed",
        Unlocked::BadSecKey => "bad secret key",
        Unlocked::NotSupported => "not supported",
        Unlocked::InvSexp => "no expression",
        Unlocked::NoMemory => "no memory",
    }
}

fn name_of_fault(fault: KeyFault) -> &'static str {
    match fault {
        KeyFault::InvSexp => "no expression",
        KeyFault::BadSecKey => "bad secret key",
        KeyFault::Shadowed => "shadowed",
        KeyFault::NotSupported => "not supported",
        KeyFault::NoMemory => "no memory",
    }
}

// What three calls in a row answer, where the locked key is opened twice.
fn by_three_calls(rt: &HostRuntime, file: &[u8], pass: &[u8]) -> &'static str {
    let key = match key_of(rt.alloc(), file) {
        Ok(key) => key,
        Err(fault) => return name_of_fault(fault),
    };
    if key.is_clear() {
        return "not protected";
    }
    match Locked::of(rt.alloc(), key) {
        Ok(locked) => twice_opened(rt, &locked, pass),
        Err(fault) => name_of_fault(fault),
    }
}

fn twice_opened(rt: &HostRuntime, locked: &Locked, pass: &[u8]) -> &'static str {
    if pass.len() > 255 {
        return "too long";
    }
    let _first = locked.open(rt.alloc(), b"another");
    match locked.open(rt.alloc(), pass) {
        Opened::Key(_) => "key",
        Opened::BadPassphrase => "bad passphrase",
        Opened::NoMemory => "no memory",
    }
}

fn answers(rt: &HostRuntime, file: &[u8], pass: &[u8], want: &str) -> bool {
    if pass.len() > 255 {
        return false;
    }
    let answer = unprotect(rt.alloc(), file, pass);
    name_of(&answer) == want && by_three_calls(rt, file, pass) == want
}

// The name and the derivation, the octets, the time and the passphrase of a file, and what is
// answered for it.
type Row = (
    &'static [u8],
    &'static [u8],
    &'static [u8],
    &'static [u8],
    &'static str,
);

fn first_wrong(rt: &HostRuntime, rows: &[Row]) -> Result<Option<usize>, Fail> {
    for (i, (derivation, octets, time, pass, want)) in rows.iter().enumerate() {
        let file = file_of(rt, derivation, octets, time)?;
        if !answers(rt, &file, pass, want) {
            return Ok(Some(i));
        }
    }
    Ok(None)
}

#[test]
fn a_protected_file_opens_exactly_by_its_passphrase(rt: HostRuntime) -> Result<(), Fail> {
    let rows: [Row; 17] = [
        (CBC, &OCTETS, TIME, b"abc", "key"),
        (CBC, &OCTETS, TIME, b"", "bad passphrase"),
        (CBC, &OCTETS, TIME, b"ab", "bad passphrase"),
        (CBC, &OCTETS, TIME, b"abd", "bad passphrase"),
        (CBC, &OCTETS, TIME, b"abcd", "bad passphrase"),
        (CBC, &OCTETS, b"", b"abc", "bad passphrase"),
        (CBC, &OTHER_DIGEST, TIME, b"abc", "bad passphrase"),
        (CBC, &OTHER_NAME, TIME, b"abc", "bad passphrase"),
        (CBC, &PADDING_16, TIME, b"abc", "key"),
        (CBC, &PADDING_17, TIME, b"abc", "bad passphrase"),
        (OCB, &SEALED, TIME, b"abc", "key"),
        (OCB, &SEALED, TIME, b"abd", "bad passphrase"),
        (OCB, &SEALED, b"", b"abc", "bad passphrase"),
        (OCB, &SEALED_WITHOUT_TIME, b"", b"abc", "key"),
        (OCB, &SEALED_WITHOUT_TIME, TIME, b"abc", "bad passphrase"),
        (OCB, &SEALED_OTHER_NAME, TIME, b"abc", "bad passphrase"),
        (OCB, &SEALED_LONGER, TIME, b"abc", "bad passphrase"),
    ];
    assert_eq!(rt; first_wrong(&rt, &rows)?, None);
    one_answer();
    unprotect_is_three_calls();
    Ok(())
}

#[test]
fn first_faults_of_protections(rt: HostRuntime) -> Result<(), Fail> {
    let rows: [Row; 14] = [
        (
            b"25:openpgp-s2k3-sha1-aes-cbc((4:sha18:saltsalt5:65536)16:0123456789abcdef)",
            &OCTETS,
            TIME,
            b"abc",
            "key",
        ),
        (CBC, &OCTETS[..63], TIME, b"abc", "bad secret key"),
        (CBC, b"", TIME, b"abc", "bad secret key"),
        (
            b"25:openpgp-s2k3-sha1-aes-cbc((4:sha18:saltsalt2:95)16:0123456789abcdef)",
            &OCTETS,
            TIME,
            b"abc",
            "bad secret key",
        ),
        (
            b"25:openpgp-s2k3-sha1-aes-cbc((4:sha18:saltsalt3:096)16:0123456789abcdef)",
            &OCTETS,
            TIME,
            b"abc",
            "bad secret key",
        ),
        (
            b"25:openpgp-s2k3-sha1-aes-cbc((4:sha17:saltsal2:96)16:0123456789abcdef)",
            &OCTETS,
            TIME,
            b"abc",
            "bad secret key",
        ),
        (
            b"25:openpgp-s2k3-sha1-aes-cbc((4:sha28:saltsalt2:96)16:0123456789abcdef)",
            &OCTETS,
            TIME,
            b"abc",
            "not supported",
        ),
        (
            b"25:openpgp-s2k3-sha1-aes-cbc((4:sha28:saltsalt2:95)1:x)",
            b"",
            TIME,
            b"abc",
            "not supported",
        ),
        (OCB, &SEALED[..17], TIME, b"abc", "bad passphrase"),
        (OCB, &SEALED[..16], TIME, b"abc", "bad secret key"),
        (
            b"20:openpgp-s2k3-ocb-aes((4:sha18:saltsalt2:96)16:0123456789abcdef)",
            &SEALED,
            TIME,
            b"abc",
            "bad secret key",
        ),
        (
            b"25:openpgp-s2k3-sha1-aes-cbc((4:sha18:saltsalt2:96)12:0123456789ab)",
            &OCTETS,
            TIME,
            b"abc",
            "bad secret key",
        ),
        (
            b"20:openpgp-s2k3-ocb-aes()",
            b"",
            TIME,
            b"abc",
            "bad secret key",
        ),
        (b"5:other", b"", TIME, b"abc", "not supported"),
    ];
    assert_eq!(rt; first_wrong(&rt, &rows)?, None);
    Ok(())
}

#[test]
fn first_faults_of_other_files(rt: HostRuntime) -> Result<(), Fail> {
    let cases: [(&[u8], &str); 7] = [
        (b"(11:private-key(3:ecc(1:q1:Q)(1:d1:D)))", "not protected"),
        (b"(20:shadowed-private-key(3:ecc(1:q1:Q)))", "shadowed"),
        (b"(19:openpgp-private-key)", "not supported"),
        (
            b"(21:protected-private-key(3:ecc(1:q1:Q)(9:protected5:other)))",
            "not supported",
        ),
        (b"", "no expression"),
        (b"(10:public-key)", "no expression"),
        (
            b"(21:protected-private-key(3:ecc(1:q1:Q)(9:protected)))",
            "bad secret key",
        ),
    ];
    for (file, want) in cases {
        assert!(rt; answers(&rt, file, b"abc", want), "at {file:?}");
    }
    Ok(())
}

// The first length to which a file is cut, and the first place at which a byte is changed, where it
// is answered otherwise.
fn first_read(rt: &HostRuntime, file: &[u8]) -> Result<(Option<usize>, Option<usize>), Fail> {
    let mut cut = None;
    let mut changed = None;
    for i in 0..file.len() {
        if cut.is_none() && !answers(rt, &file[..i], b"abc", "no expression") {
            cut = Some(i);
        }
        let mut other = Vec::from_slice(rt.alloc(), file)?;
        other[i] ^= 1;
        let answer = unprotect(rt.alloc(), &other, b"abc");
        if changed.is_none() && name_of(&answer) == "key" {
            changed = Some(i);
        }
    }
    Ok((cut, changed))
}

#[test]
fn no_part_of_a_file_opens_and_none_with_a_byte_changed(rt: HostRuntime) -> Result<(), Fail> {
    let rows: [(&[u8], &[u8]); 2] = [(CBC, &OCTETS), (OCB, &SEALED)];
    for (derivation, octets) in rows {
        let file = file_of(&rt, derivation, octets, TIME)?;
        assert_eq!(rt; first_read(&rt, &file)?, (None, None), "at {derivation:?}");
    }
    Ok(())
}

#[test]
fn the_longest_file_is_of_65536_bytes(rt: HostRuntime) -> Result<(), Fail> {
    for (spaces, want) in [(65_486, "not protected"), (65_487, "no expression")] {
        let text = format!(in rt.alloc(); "(11:private-key(3:ecc(1:q1:Q)(1:d1:D))(1:c{spaces}:")?;
        let mut file = Vec::from_slice(rt.alloc(), text.as_bytes())?;
        file.resize(file.len() + spaces, b' ')?;
        file.extend_from_slice(b"))")?;
        assert!(rt; answers(&rt, &file, b"abc", want), "at {}", file.len());
    }
    Ok(())
}

#[test]
fn a_file_of_gnupg_opens_to_its_key(rt: HostRuntime) -> Result<(), Fail> {
    match unprotect(rt.alloc(), &GNUPG_FILE, b"abc") {
        Unlocked::Key(key) => assert_eq!(rt;
            key.private_list(rt.alloc())?.as_slice(),
            GNUPG_CLEAR.as_slice()
        ),
        answer => assert_eq!(rt; name_of(&answer), "key"),
    }
    Ok(())
}

// The files of a small key by OCB and by CBC, where it is as it should be.
fn protected_files(rt: &HostRuntime) -> Result<(Vec<u8>, Vec<u8>), Fail> {
    let key = key_of(rt.alloc(), b"(11:private-key(3:ecc(1:q1:Q)(1:d1:D)))")?;
    let list = key.whole_list(rt.alloc())?;
    let mut files = (Vec::new(rt.alloc()), Vec::new(rt.alloc()));
    if key.is_clear() && list.len() <= 65_000 {
        let time = Some(b"20240101T000000");
        files.0 = protect(
            rt.alloc(),
            &key,
            b"abc",
            b"saltsalt",
            b"0123456789ab",
            65_536,
            time,
        )?;
        files.1 = protect_cbc(
            rt.alloc(),
            &key,
            b"abc",
            b"saltsalt",
            b"0123456789abcdef",
            &[16; 16],
            65_536,
            time,
        )?;
    }
    Ok(files)
}

#[test]
fn a_clear_key_is_protected_as_others_do(rt: HostRuntime) -> Result<(), Fail> {
    let (sealed, chained) = protected_files(&rt)?;
    let derivation = b"20:openpgp-s2k3-ocb-aes((4:sha18:saltsalt5:65536)12:0123456789ab)";
    let want = file_of(&rt, derivation, &SEALED, TIME)?;
    assert_eq!(rt; sealed.as_slice(), want.as_slice());
    let derivation = b"25:openpgp-s2k3-sha1-aes-cbc((4:sha18:saltsalt5:65536)16:0123456789abcdef)";
    let want = file_of(&rt, derivation, &OCTETS, TIME)?;
    assert_eq!(rt; chained.as_slice(), want.as_slice());
    Ok(())
}

#[test]
fn a_protected_file_with_one_byte_more_is_no_expression(rt: HostRuntime) -> Result<(), Fail> {
    let (sealed, chained) = protected_files(&rt)?;
    for file in [&sealed, &chained] {
        assert!(rt; answers(&rt, file, b"abc", "key"));
        for byte in *b"\n )(0" {
            let mut longer = Vec::from_slice(rt.alloc(), file)?;
            longer.push(byte)?;
            assert!(rt; answers(&rt, &longer, b"abc", "no expression"), "at {byte}");
        }
    }
    Ok(())
}

// The key of a file by its passphrase `abc`, protected anew by another; no bytes where the file
// doesn't open.
fn written_anew(rt: &HostRuntime, file: &[u8], pass: &[u8]) -> Result<Vec<u8>, Fail> {
    let Unlocked::Key(key) = unprotect(rt.alloc(), file, b"abc") else {
        return Ok(Vec::new(rt.alloc()));
    };
    let list = key.whole_list(rt.alloc())?;
    if !key.is_clear() || list.len() > 65_000 || pass.len() > 255 {
        return Ok(Vec::new(rt.alloc()));
    }
    let file = protect(
        rt.alloc(),
        &key,
        pass,
        b"saltsalt",
        b"0123456789ab",
        65_536,
        None,
    )?;
    Ok(file)
}

#[test]
fn a_file_of_the_former_form_is_written_anew_by_ocb(rt: HostRuntime) -> Result<(), Fail> {
    let old = file_of(&rt, CBC, &OCTETS, TIME)?;
    let new = written_anew(&rt, &old, b"hijklmn2")?;
    let start = b"(21:protected-private-key(3:ecc(1:q1:Q)(9:protected20:openpgp-s2k3-ocb-aes(";
    assert!(rt; new.starts_with(start));
    assert!(rt; answers(&rt, &new, b"hijklmn2", "key"));
    assert!(rt; answers(&rt, &new, b"abc", "bad passphrase"));
    Ok(())
}
