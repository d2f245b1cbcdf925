//! Tests of the modes of AES-128 by outside vectors: CBC (SP 800-38A, F.2) and OCB (RFC 7253, A,
//! and OpenSSL 3). Begin with `SEALED`, a row a nonce and its ciphertext.

use aes_modes::{cbc_decrypt, cbc_encrypt, ocb_decrypt, ocb_encrypt};
use std::alloc::AllocError;
use std::test::Fail;

// SP 800-38A, F.2.1 and F.2.2: CBC-AES128 of four blocks.
const KEY: [u8; 16] = [
    0x2B, 0x7E, 0x15, 0x16, 0x28, 0xAE, 0xD2, 0xA6, 0xAB, 0xF7, 0x15, 0x88, 0x09, 0xCF, 0x4F, 0x3C,
];

const IV: [u8; 16] = [
    0x00, 0x01, 0x02, 0x03, 0x04, 0x05, 0x06, 0x07, 0x08, 0x09, 0x0A, 0x0B, 0x0C, 0x0D, 0x0E, 0x0F,
];

const PLAIN: [u8; 64] = [
    0x6B, 0xC1, 0xBE, 0xE2, 0x2E, 0x40, 0x9F, 0x96, 0xE9, 0x3D, 0x7E, 0x11, 0x73, 0x93, 0x17, 0x2A,
    0xAE, 0x2D, 0x8A, 0x57, 0x1E, 0x03, 0xAC, 0x9C, 0x9E, 0xB7, 0x6F, 0xAC, 0x45, 0xAF, 0x8E, 0x51,
    0x30, 0xC8, 0x1C, 0x46, 0xA3, 0x5C, 0xE4, 0x11, 0xE5, 0xFB, 0xC1, 0x19, 0x1A, 0x0A, 0x52, 0xEF,
    0xF6, 0x9F, 0x24, 0x45, 0xDF, 0x4F, 0x9B, 0x17, 0xAD, 0x2B, 0x41, 0x7B, 0xE6, 0x6C, 0x37, 0x10,
];

const ENCRYPTED: [u8; 64] = [
    0x76, 0x49, 0xAB, 0xAC, 0x81, 0x19, 0xB2, 0x46, 0xCE, 0xE9, 0x8E, 0x9B, 0x12, 0xE9, 0x19, 0x7D,
    0x50, 0x86, 0xCB, 0x9B, 0x50, 0x72, 0x19, 0xEE, 0x95, 0xDB, 0x11, 0x3A, 0x91, 0x76, 0x78, 0xB2,
    0x73, 0xBE, 0xD6, 0xB8, 0xE3, 0xC1, 0x74, 0x3B, 0x71, 0x16, 0xE6, 0x9E, 0x22, 0x22, 0x95, 0x16,
    0x3F, 0xF1, 0xCA, 0xA1, 0x68, 0x1F, 0xAC, 0x09, 0x12, 0x0E, 0xCA, 0x30, 0x75, 0x86, 0xE1, 0xA7,
];

#[test]
fn known_chain(rt: HostRuntime) {
    let mut bytes = PLAIN;
    cbc_encrypt(&KEY, &IV, &mut bytes);
    assert_eq!(rt; bytes.as_slice(), ENCRYPTED.as_slice());
    cbc_decrypt(&KEY, &IV, &mut bytes);
    assert_eq!(rt; bytes.as_slice(), PLAIN.as_slice());
}

#[test]
fn no_bytes(rt: HostRuntime) {
    let mut bytes: [u8; 0] = [];
    cbc_encrypt(&KEY, &IV, &mut bytes);
    cbc_decrypt(&KEY, &IV, &mut bytes);
    assert!(rt; bytes.is_empty());
}

// RFC 7253, A, and from the row 0x10 on as OpenSSL 3 has it: the nonce's last byte, how many bytes
// of associated data, and the ciphertext with its tag. The key, the data and the plaintext are
// bytes that count from 0.
const SEALED: [(u8, usize, &[u8]); 20] = [
    (
        0x00,
        0,
        b"\x78\x54\x07\xBF\xFF\xC8\xAD\x9E\xDC\xC5\x52\x0A\xC9\x11\x1E\xE6",
    ),
    (
        0x01,
        8,
        b"\x68\x20\xB3\x65\x7B\x6F\x61\x5A\x57\x25\xBD\xA0\xD3\xB4\xEB\x3A\x25\x7C\x9A\xF1\xF8\xF0\x30\x09",
    ),
    (
        0x02,
        8,
        b"\x81\x01\x7F\x82\x03\xF0\x81\x27\x71\x52\xFA\xDE\x69\x4A\x0A\x00",
    ),
    (
        0x03,
        0,
        b"\x45\xDD\x69\xF8\xF5\xAA\xE7\x24\x14\x05\x4C\xD1\xF3\x5D\x82\x76\x0B\x2C\xD0\x0D\x2F\x99\xBF\xA9",
    ),
    (
        0x04,
        16,
        b"\x57\x1D\x53\x5B\x60\xB2\x77\x18\x8B\xE5\x14\x71\x70\xA9\xA2\x2C\x3A\xD7\xA4\xFF\x38\x35\xB8\xC5\x70\x1C\x1C\xCE\xC8\xFC\x33\x58",
    ),
    (
        0x05,
        16,
        b"\x8C\xF7\x61\xB6\x90\x2E\xF7\x64\x46\x2A\xD8\x64\x98\xCA\x6B\x97",
    ),
    (
        0x06,
        0,
        b"\x5C\xE8\x8E\xC2\xE0\x69\x27\x06\xA9\x15\xC0\x0A\xEB\x8B\x23\x96\xF4\x0E\x1C\x74\x3F\x52\x43\x6B\xDF\x06\xD8\xFA\x1E\xCA\x34\x3D",
    ),
    (
        0x07,
        24,
        b"\x1C\xA2\x20\x73\x08\xC8\x7C\x01\x07\x56\x10\x4D\x88\x40\xCE\x19\x52\xF0\x96\x73\xA4\x48\xA1\x22\xC9\x2C\x62\x24\x10\x51\xF5\x73\x56\xD7\xF3\xC9\x0B\xB0\xE0\x7F",
    ),
    (
        0x08,
        24,
        b"\x6D\xC2\x25\xA0\x71\xFC\x1B\x9F\x7C\x69\xF9\x3B\x0F\x1E\x10\xDE",
    ),
    (
        0x09,
        0,
        b"\x22\x1B\xD0\xDE\x7F\xA6\xFE\x99\x3E\xCC\xD7\x69\x46\x0A\x0A\xF2\xD6\xCD\xED\x0C\x39\x5B\x1C\x3C\xE7\x25\xF3\x24\x94\xB9\xF9\x14\xD8\x5C\x0B\x1E\xB3\x83\x57\xFF",
    ),
    (
        0x0A,
        32,
        b"\xBD\x6F\x6C\x49\x62\x01\xC6\x92\x96\xC1\x1E\xFD\x13\x8A\x46\x7A\xBD\x3C\x70\x79\x24\xB9\x64\xDE\xAF\xFC\x40\x31\x9A\xF5\xA4\x85\x40\xFB\xBA\x18\x6C\x55\x53\xC6\x8A\xD9\xF5\x92\xA7\x9A\x42\x40",
    ),
    (
        0x0B,
        32,
        b"\xFE\x80\x69\x0B\xEE\x8A\x48\x5D\x11\xF3\x29\x65\xBC\x9D\x2A\x32",
    ),
    (
        0x0C,
        0,
        b"\x29\x42\xBF\xC7\x73\xBD\xA2\x3C\xAB\xC6\xAC\xFD\x9B\xFD\x58\x35\xBD\x30\x0F\x09\x73\x79\x2E\xF4\x60\x40\xC5\x3F\x14\x32\xBC\xDF\xB5\xE1\xDD\xE3\xBC\x18\xA5\xF8\x40\xB5\x2E\x65\x34\x44\xD5\xDF",
    ),
    (
        0x0D,
        40,
        b"\xD5\xCA\x91\x74\x84\x10\xC1\x75\x1F\xF8\xA2\xF6\x18\x25\x5B\x68\xA0\xA1\x2E\x09\x3F\xF4\x54\x60\x6E\x59\xF9\xC1\xD0\xDD\xC5\x4B\x65\xE8\x62\x8E\x56\x8B\xAD\x7A\xED\x07\xBA\x06\xA4\xA6\x94\x83\xA7\x03\x54\x90\xC5\x76\x9E\x60",
    ),
    (
        0x0E,
        40,
        b"\xC5\xCD\x9D\x18\x50\xC1\x41\xE3\x58\x64\x99\x94\xEE\x70\x1B\x68",
    ),
    (
        0x0F,
        0,
        b"\x44\x12\x92\x34\x93\xC5\x7D\x5D\xE0\xD7\x00\xF7\x53\xCC\xE0\xD1\xD2\xD9\x50\x60\x12\x2E\x9F\x15\xA5\xDD\xBF\xC5\x78\x7E\x50\xB5\xCC\x55\xEE\x50\x7B\xCB\x08\x4E\x47\x9A\xD3\x63\xAC\x36\x6B\x95\xA9\x8C\xA5\xF3\x00\x0B\x14\x79",
    ),
    (
        0x10,
        0,
        b"\xAD\x21\xD9\x3C\x2D\x18\xC2\x4E\x19\xE5\xB8\xEC\xF7\xAB\x8C\xCB\x4E",
    ),
    (
        0x3F,
        1,
        b"\xCF\xFD\x8A\x21\x4E\x2D\x92\x06\x4D\x57\x5E\xD7\x53\x84\xAC\x36\x50\x47\x27\x9D\x38\x9F\xB2\xEA\xB9\x82\x39\x83\xFB\x1A\x16",
    ),
    (
        0xC7,
        15,
        b"\x36\x0E\x13\x40\x1F\xEC\x2F\xD4\xA1\x8F\x0E\x46\xE3\x16\x93\x2F\x78\xBA\xEF\xBE\x30\xF2\x82\x7F\xAD\xC9\x74\x68\xCB\xC5\x1D\x88\x0D",
    ),
    (
        0x80,
        17,
        b"\x8B\xF3\xE4\xCF\xC7\x92\xCF\x28\xBD\x08\xBB\x50\xFE\x11\x5A\x5A\x5C",
    ),
];

const NONCE: [u8; 12] = [
    0xBB, 0xAA, 0x99, 0x88, 0x77, 0x66, 0x55, 0x44, 0x33, 0x22, 0x11, 0x00,
];

fn counted() -> [u8; 40] {
    let mut bytes = [0; 40];
    for (i, byte) in bytes.iter_mut().enumerate() {
        *byte = i as u8;
    }
    bytes
}

// What goes wrong with a row, if anything does.
fn fault_of(last: u8, assoc: usize, sealed: &[u8]) -> Option<&'static str> {
    let data = counted();
    let mut key = [0; 16];
    key.copy_from_slice(&data[..16]);
    let mut nonce = NONCE;
    nonce[11] = last;
    let assoc = &data[..assoc.min(40)];
    let Some((encrypted, tag)) = sealed.split_last_chunk::<16>() else {
        return Some("row");
    };
    let len = encrypted.len().min(40);
    let mut room = counted();
    let bytes = &mut room[..len];
    if ocb_encrypt(&key, &nonce, assoc, bytes) != *tag {
        return Some("tag");
    }
    if *bytes != *encrypted {
        return Some("ciphertext");
    }
    if !ocb_decrypt(&key, &nonce, assoc, bytes, tag) {
        return Some("refused");
    }
    if bytes.iter().ne(data[..len].iter()) {
        return Some("plaintext");
    }
    let mut other = *tag;
    other[15] ^= 1;
    if ocb_decrypt(&key, &nonce, assoc, bytes, &other) {
        return Some("opened by another tag");
    }
    if bytes.iter().any(|byte| *byte != 0) {
        return Some("left");
    }
    None
}

#[test]
fn known_tags(rt: HostRuntime) {
    for (last, assoc, sealed) in SEALED {
        assert_eq!(rt; fault_of(last, assoc, sealed), None, "{last}");
    }
}

// RFC 7253, A, of every length from 0 to 127: the key, and the tag of all that was encrypted.
const LENGTHS_KEY: [u8; 16] = [0, 0, 0, 0, 0, 0, 0, 0, 0, 0, 0, 0, 0, 0, 0, 128];

const LENGTHS_TAG: [u8; 16] = [
    0x67, 0xE9, 0x44, 0xD2, 0x32, 0x56, 0xC5, 0xE0, 0xB6, 0xC6, 0x1F, 0xA2, 0x2F, 0xDF, 0x1E, 0xA2,
];

fn numbered(number: u16) -> [u8; 12] {
    let mut nonce = [0; 12];
    nonce[10..].copy_from_slice(&number.to_be_bytes());
    nonce
}

// Appends the encryption of so many zeros with so many zeros as associated data.
fn seal_zeros(
    all: &mut Vec<u8>,
    number: u16,
    assoc: usize,
    plain: usize,
) -> Result<(), AllocError> {
    let zeros = [0; 128];
    let mut room = [0; 128];
    let bytes = &mut room[..plain.min(128)];
    let tag = ocb_encrypt(
        &LENGTHS_KEY,
        &numbered(number),
        &zeros[..assoc.min(128)],
        bytes,
    );
    all.extend_from_slice(bytes)?;
    all.extend_from_slice(&tag)
}

#[test]
fn known_tag_of_all_lengths(rt: HostRuntime) -> Result<(), Fail> {
    let mut all = Vec::new(rt.alloc());
    for i in 0..128u16 {
        let len = usize::from(i);
        seal_zeros(&mut all, 3 * i + 1, len, len)?;
        seal_zeros(&mut all, 3 * i + 2, 0, len)?;
        seal_zeros(&mut all, 3 * i + 3, len, 0)?;
    }
    let assoc = all.as_slice().get(..22_400).ok_or("length")?;
    let tag = ocb_encrypt(&LENGTHS_KEY, &numbered(385), assoc, &mut []);
    assert_eq!(rt; tag, LENGTHS_TAG);
    Ok(())
}
