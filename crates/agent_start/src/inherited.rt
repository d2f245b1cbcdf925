//! What a daemon would have of its caller's that std can't set: which signals are ignored, and how
//! large a core dump may be, as the kernel tells them (proc(5)). It reads that. Begin with
//! `ignores_ends` and `core_dumps`.

use std::alloc::Global;
use std::fs::{File, Files};
use std::{fs, str};

const STATUS: &str = "/proc/self/status";

const LIMITS: &str = "/proc/self/limits";

/// What stands in front of a mask of signals, and of the limits of a core dump.
const IGNORED: &[u8] = b"SigIgn:";

const CORE: &[u8] = b"Max core file size";

/// The mask of SIGHUP, SIGINT and SIGTERM: a bit for each, the lowest one for the signal 1.
const ENDS: u64 = 1 | 1 << 1 | 1 << 14;

/// Whether a signal is ignored that is to end a daemon. Where nobody tells one may be.
pub fn ignores_ends<R: Files<File = File>>(rt: &R, alloc: Global) -> bool {
    match fs::read(&(rt, alloc), STATUS) {
        Ok(status) => ignored_in(status.as_slice()).unwrap_or(ENDS) & ENDS != 0,
        Err(_) => true,
    }
}

/// The mask of the signals that are ignored.
fn ignored_in(status: &[u8]) -> Option<u64> {
    let mask = line_behind(status, IGNORED)?.trim_ascii();
    u64::from_str_radix(str::from_utf8(mask).ok()?, 16).ok()
}

/// How large a core dump may be: a limit of one byte keeps it from files and from programs that
/// take core dumps, and a limit of 0 from files alone (core(5)).
#[derive(Clone, Copy, Debug, PartialEq, Eq)]
pub enum CoreDumps {
    /// The limit is one byte, or isn't to be raised to that.
    Limited,
    /// The limit can be set to one byte.
    Open,
    /// Nobody tells.
    Unknown,
}

/// How large a core dump of this process may be.
pub fn core_dumps<R: Files<File = File>>(rt: &R, alloc: Global) -> CoreDumps {
    match fs::read(&(rt, alloc), LIMITS) {
        Ok(limits) => core_in(limits.as_slice()),
        Err(_) => CoreDumps::Unknown,
    }
}

/// The same, of a table whose line has the limit and the one to which it may be raised.
fn core_in(limits: &[u8]) -> CoreDumps {
    let Some(line) = line_behind(limits, CORE) else {
        return CoreDumps::Unknown;
    };
    let mut words = line
        .split(u8::is_ascii_whitespace)
        .filter(|word| !word.is_empty());
    match (words.next(), words.next()) {
        (Some(_), Some(b"0")) | (Some(b"1"), Some(b"1")) => CoreDumps::Limited,
        (Some(_), Some(_)) => CoreDumps::Open,
        _ => CoreDumps::Unknown,
    }
}

/// What stands behind this in the line that begins so.
fn line_behind<'a>(text: &'a [u8], front: &[u8]) -> Option<&'a [u8]> {
    text.split(|byte| *byte == b'\n')
        .find_map(|line| line.strip_prefix(front))
}

#[cfg(test)]
mod tests {
    use super::*;

    #[test]
    fn ignored_signals_are_bits_of_a_mask(rt: HostRuntime) {
        for (status, wanted) in [
            (
                b"Name:\tx\nSigIgn:\t0000000000000000\nSigCgt:\t1\n".as_slice(),
                Some(0),
            ),
            (b"SigIgn:\t0000000000001001\n", Some(0x1001)),
            (b"SigIgn:\tffffffffffffffff", Some(u64::MAX)),
            (b"SigIgn:\t\n", None),
            (b"SigIgn:\tx\n", None),
            (b"SigBlk:\t1\n", None),
            (b"", None),
        ] {
            assert_eq!(rt; (status, ignored_in(status)), (status, wanted));
        }
        assert_eq!(rt; ENDS, 0x4003);
    }

    #[test]
    fn a_core_dump_is_limited_to_a_byte(rt: HostRuntime) {
        for (limits, wanted) in [
            (
                b"Limit   Soft  Hard  Units\nMax core file size   0   unlimited   bytes \n".as_slice(),
                CoreDumps::Open,
            ),
            (
                b"Max core file size        unlimited            unlimited            bytes",
                CoreDumps::Open,
            ),
            (
                b"Max core file size        1                    unlimited            bytes",
                CoreDumps::Open,
            ),
            (
                b"Max core file size        1                    1                    bytes",
                CoreDumps::Limited,
            ),
            (
                b"Max core file size        0                    0                    bytes",
                CoreDumps::Limited,
            ),
            (b"Max core file size        0", CoreDumps::Unknown),
            (b"Max file size  0  0  bytes\n", CoreDumps::Unknown),
            (b"", CoreDumps::Unknown),
        ] {
            assert_eq!(rt; core_in(limits), wanted);
        }
    }
}
