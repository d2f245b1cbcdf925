//! Tests of the key wrap by an outside vector (RFC 3394, 4.1), and of its faults. Begin with
//! `known_key`.

use key_wrap::{WrapFault, unwrap, wrap};
use std::test::Fail;

// RFC 3394, 4.1: 128 bits of key data under a key of 128 bits.
const KEY: [u8; 16] = [
    0x00, 0x01, 0x02, 0x03, 0x04, 0x05, 0x06, 0x07, 0x08, 0x09, 0x0A, 0x0B, 0x0C, 0x0D, 0x0E, 0x0F,
];

const PLAIN: [u8; 16] = [
    0x00, 0x11, 0x22, 0x33, 0x44, 0x55, 0x66, 0x77, 0x88, 0x99, 0xAA, 0xBB, 0xCC, 0xDD, 0xEE, 0xFF,
];

const WRAPPED: [u8; 24] = [
    0x1F, 0xA6, 0x8B, 0x0A, 0x81, 0x12, 0xB4, 0x47, 0xAE, 0xF3, 0x4B, 0xD8, 0xFB, 0x5A, 0x7B, 0x82,
    0x9D, 0x3E, 0x86, 0x23, 0x71, 0xD2, 0xCF, 0xE5,
];

#[test]
fn known_key(rt: HostRuntime) -> Result<(), Fail> {
    let wrapped = wrap(rt.alloc(), &KEY, &PLAIN)?;
    assert_eq!(rt; wrapped.as_slice(), WRAPPED.as_slice());
    let plain = unwrap(rt.alloc(), &KEY, &WRAPPED)?;
    assert_eq!(rt; plain.as_slice(), PLAIN.as_slice());
    Ok(())
}

#[test]
fn faults(rt: HostRuntime) -> Result<(), Fail> {
    let mut changed = WRAPPED;
    changed[23] ^= 1;
    let long = vec![in rt.alloc(); 0u8; 65_552]?;
    let cases = [
        (changed.as_slice(), WrapFault::Check),
        (&WRAPPED[..20], WrapFault::Length),
        (&WRAPPED[..16], WrapFault::Length),
        (&[], WrapFault::Length),
        (&long, WrapFault::Length),
        (&long[..65_544], WrapFault::Check),
    ];
    for (bytes, want) in cases {
        let fault = unwrap(rt.alloc(), &KEY, bytes).err();
        assert_eq!(rt; fault, Some(want), "{}", bytes.len());
    }
    Ok(())
}

#[test]
fn printed_faults(rt: HostRuntime) -> Result<(), Fail> {
    let cases = [
        (WrapFault::Length, "not a length of wrapped bytes"),
        (
            WrapFault::Check,
            "the integrity check of the wrapped bytes failed",
        ),
        (WrapFault::NoMemory, "out of memory"),
    ];
    for (fault, want) in cases {
        let text = format!(in rt.alloc(); "{fault}")?;
        assert_eq!(rt; text.as_str(), want);
    }
    Ok(())
}
