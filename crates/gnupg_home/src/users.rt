//! Whose this process is, and by which number the system shows each owner who isn't mapped. It
//! reads files below `/proc`. Begin with `users`.

use crate::rule::Users;
use crate::there::if_there;
use std::alloc::{AllocError, Global};
use std::fs::{File, Files};
use std::{fs, str};

/// All users there are, each under its own number (user_namespaces(7), "User and group ID
/// mappings").
const WHOLE_MAP: [&[u8]; 3] = [b"0", b"0", b"4294967295"];

/// Whose this process is, where the system says it.
pub(crate) fn users<R: Files<File = File>>(
    rt: &R,
    alloc: Global,
) -> Result<Option<Users>, AllocError> {
    let Some(user) = user_number(rt, alloc)? else {
        return Ok(None);
    };
    let unmapped = unmapped_number(rt, alloc)?;
    Ok(Some(Users { user, unmapped }))
}

/// The number of the user that this process is (proc(5), `status`). The owner of its own folder
/// there is another one where its program can't be read.
pub(crate) fn user_number<R: Files<File = File>>(
    rt: &R,
    alloc: Global,
) -> Result<Option<u32>, AllocError> {
    let status = if_there(fs::read(&(rt, alloc), "/proc/self/status"))?;
    Ok(match &status {
        Some(status) => users_line(status.as_slice()),
        None => None,
    })
}

fn users_line(status: &[u8]) -> Option<u32> {
    let line = status
        .split(|byte| *byte == b'\n')
        .find_map(|line| line.strip_prefix(b"Uid:\t"))?;
    number_of(line.split(|byte| *byte == b'\t').next()?)
}

fn number_of(digits: &[u8]) -> Option<u32> {
    str::from_utf8(digits).ok()?.parse::<u32>().ok()
}

/// By which number an owner is shown who isn't mapped (proc(5), `overflowuid`): none where all are.
fn unmapped_number<R: Files<File = File>>(
    rt: &R,
    alloc: Global,
) -> Result<Option<u32>, AllocError> {
    match if_there(fs::read(&(rt, alloc), "/proc/self/uid_map"))? {
        Some(map) if !is_whole(map.as_slice()) => {}
        _ => return Ok(None),
    }
    let number = if_there(fs::read(&(rt, alloc), "/proc/sys/kernel/overflowuid"))?;
    Ok(match &number {
        Some(number) => number_of(number.trim_ascii_end()),
        None => None,
    })
}

/// Whether the map is that of all users, as outside of a user namespace.
fn is_whole(map: &[u8]) -> bool {
    let words = map
        .split(u8::is_ascii_whitespace)
        .filter(|word| !word.is_empty());
    words.eq(WHOLE_MAP)
}

#[cfg(test)]
mod tests {
    use super::*;

    #[test]
    fn the_users_number_is_the_first_of_its_line(rt: HostRuntime) {
        for (status, wanted) in [
            (
                b"Name:\tx\nUid:\t1000\t0\t0\t0\nGid:\t7\n".as_slice(),
                Some(1000),
            ),
            (b"Name:\tUid:\t5\nUid:\t0\t0\t0\t0\n", Some(0)),
            (b"Uid:\t4294967295\t0\n", Some(u32::MAX)),
            (b"Uid:\tx\n", None),
            (b"", None),
        ] {
            assert_eq!(rt; users_line(status), wanted);
        }
    }

    #[test]
    fn all_users_are_mapped_outside_of_a_namespace(rt: HostRuntime) {
        // What unshare(1) and rootless containers have there.
        for (map, wanted) in [
            (b"         0          0 4294967295\n".as_slice(), true),
            (b"         0       1000          1\n", false),
            (
                b"         0       1000          1\n         1     100000      65536\n",
                false,
            ),
            (b"         0          0      65536\n", false),
            (b"", false),
        ] {
            assert_eq!(rt; is_whole(map), wanted);
        }
    }
}
