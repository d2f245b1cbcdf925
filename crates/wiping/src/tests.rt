//! The calls of the buffer and of both overwritings, once each, and how many bytes a buffer takes.
//! They touch values of their own, and the stack below them. Begin with the buffer that is filled
//! up.

use super::*;
use std::test::Fail;

#[test]
fn a_buffer_takes_what_fits_and_is_wiped(rt: HostRuntime) -> Result<(), Fail> {
    let mut buffer: Wiped<4> = Wiped::of(b"abc").ok_or("fits")?;
    assert!(rt; buffer.try_extend_from_slice(b"de").is_err());
    assert!(rt; !buffer.is_full());
    assert_eq!(rt; buffer.bytes(), b"abc".as_slice());
    assert!(rt; buffer.try_extend_from_slice(b"d").is_ok());
    assert!(rt; buffer.is_full());
    buffer.clear();
    assert!(rt; buffer.is_empty());
    assert_eq!(rt; buffer.len(), 0);
    buffer.push(b'x');
    assert_eq!(rt; buffer.bytes(), b"x".as_slice());
    let mut bytes = *b"abc";
    wipe(&mut bytes[1..]);
    assert_eq!(rt; bytes.as_slice(), b"a\0\0".as_slice());
    wipe_stack();
    Ok(())
}
